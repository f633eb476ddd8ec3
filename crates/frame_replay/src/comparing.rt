//! Whether what is found is what is named.
ghost use Rattle.std.specs.Prelude.{◌≡◌, false};
ghost use Rattle.call_text.specs.Texts.{called_ending_of};
ghost use Rattle.frame_texts_spec.specs.CallReplays as replays;
ghost use Rattle.frame_texts_spec.specs.CallTexts.{EntryFrame, frame_name};
ghost use Rattle.frame_texts_spec.specs.FrameReplays.{event_ending, is_found, is_turn, same_ending, same_frame_event};
ghost use Rattle.frame_text.specs.Texts.{framed_ending_of, framed_event_of};
ghost use Rattle.table_run.specs.FrameEnds.{frame_found_of};

use call_text::CalledEnding;
use frame_text::{FramedEnding, FramedEvent};
use table_run::FrameEnding;

/// The ending without its frame.
pub fn bare(named: CalledEnding) -> FramedEnding
    ensures { framed_ending_of result ≡ replays.bare (called_ending_of named) }
{
    match named {
        CalledEnding::Plain(ending) => ending,
        CalledEnding::UnprovedBy {
            event,
            at,
            step,
            ..
        } => FramedEnding::Fails { event, at, step },
        CalledEnding::UnprovedTurns { k, at, step, .. } => FramedEnding::Turns { k, at, step },
    }
}

/// Two events are the same.
fn same_event(one: FramedEvent, other: FramedEvent) -> bool
    ensures { result ≡ same_frame_event (framed_event_of one) (framed_event_of other) }
{
    match one {
        FramedEvent::OfStep(e) => match other {
            FramedEvent::OfStep(f) => e == f,
            _ => false,
        },
        FramedEvent::InvariantFails { line } => match other {
            FramedEvent::InvariantFails { line: n } => line == n,
            _ => false,
        },
        FramedEvent::NeedsFails { line } => match other {
            FramedEvent::NeedsFails { line: n } => line == n,
            _ => false,
        },
        FramedEvent::WritesFails => matches!(other, FramedEvent::WritesFails),
        FramedEvent::GivesFails { line } => match other {
            FramedEvent::GivesFails { line: n } => line == n,
            _ => false,
        },
        FramedEvent::ModifiesFails => matches!(other, FramedEvent::ModifiesFails),
    }
}

/// Whether a named ending is an event of a segment, at a step.
pub fn is_event(
    named: FramedEnding,
    from_head: bool,
    found: FramedEvent,
    found_at: u32,
    found_step: u64,
) -> bool
    ensures { result ≡ same_ending (framed_ending_of named) (event_ending from_head (framed_event_of found) found_at found_step) }
{
    match named {
        FramedEnding::Fails { event, at, step } => {
            !from_head && same_event(event, found) && at == found_at && step == found_step
        }
        FramedEnding::NotInductive { event, at, step } => {
            from_head && same_event(event, found) && at == found_at && step == found_step
        }
        FramedEnding::Turns { .. } => false,
    }
}

/// Whether a named ending is one backward transfer too many, at a step.
pub fn is_turn(named: FramedEnding, found_at: u32, found_step: u64) -> bool
    ensures { result ≡ is_turn (framed_ending_of named) found_at found_step }
{
    match named {
        FramedEnding::Turns { at, step, .. } => at == found_at && step == found_step,
        _ => false,
    }
}

/// Whether an ending is what a segment came to.
fn is_found(named: FramedEnding, from_head: bool, ending: FrameEnding) -> bool
    ensures { result ≡ is_found (framed_ending_of named) from_head (frame_found_of ending) }
{
    match ending {
        FrameEnding::Failed { event, at, step } => {
            is_event(named, from_head, FramedEvent::of(event), at, step)
        }
        FrameEnding::Turned { at, step } => is_turn(named, at, step),
        _ => false,
    }
}

/// Whether a named ending is what a segment without contract steps came to: one for which a frame is not proved is never that of such a segment of the entry's
/// frame.
pub(crate) fn is_named(named: CalledEnding, from_head: bool, ending: FrameEnding) -> bool
    requires { frame_name (called_ending_of named) ≡ EntryFrame }
    ensures { result ≡ replays.is_call_found (called_ending_of named) false from_head (frame_found_of ending) }
{
    match named {
        CalledEnding::Plain(plain) => is_found(plain, from_head, ending),
        CalledEnding::UnprovedBy { .. } => false,
        CalledEnding::UnprovedTurns { .. } => false,
    }
}
