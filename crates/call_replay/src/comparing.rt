//! Whether what is found is what is named.
ghost use Rattle.std.specs.Prelude.{◌≡◌, false};
ghost use Rattle.frame_texts_spec.specs.CallReplays as replays;
ghost use Rattle.frame_texts_spec.specs.FrameReplays.{is_found};
ghost use Rattle.frame_text.specs.Texts.{framed_ending_of, framed_event_of};
ghost use Rattle.call_text.specs.Texts.{called_ending_of, frame_name_of};
ghost use Rattle.table_run.specs.CalledFrames.{called_event_of};
ghost use Rattle.call_replay.specs.Found.{called_found};

use call_text::{CalledEnding, FrameName};
use frame_replay::{bare, is_event, is_turn};
use frame_text::{FramedEnding, FramedEvent};
use table_run::{CalledEnding as RunEnding, CalledEvent};

/// An event of a run, among those that texts name.
pub(crate) fn framed(event: CalledEvent) -> FramedEvent
    ensures { framed_event_of result ≡ called_event_of event }
{
    match event {
        CalledEvent::OfStep(event) => FramedEvent::OfStep(event),
        CalledEvent::NeedsFails { line } => FramedEvent::NeedsFails { line: line as u64 },
        CalledEvent::WritesFails => FramedEvent::WritesFails,
        CalledEvent::GivesFails { line } => FramedEvent::GivesFails { line: line as u64 },
        CalledEvent::ModifiesFails => FramedEvent::ModifiesFails,
    }
}

/// The ending is one for which a frame is not proved.
fn is_unproved(named: CalledEnding) -> bool
    ensures { result ≡ replays.is_unproved (called_ending_of named) }
{
    match named {
        CalledEnding::Plain(_) => false,
        CalledEnding::UnprovedBy { .. } => true,
        CalledEnding::UnprovedTurns { .. } => true,
    }
}

/// An ending of a frame's run is one for which the frame is not proved.
pub(crate) fn is_of_frame(frame: FrameName, called: bool) -> bool
    ensures { result ≡ replays.is_of_frame (frame_name_of frame) called }
{
    match frame {
        FrameName::Entry => called,
        FrameName::Contract { .. } => true,
    }
}

/// Whether a named ending is what a run came to.
fn is_found(named: FramedEnding, ending: RunEnding) -> bool
    ensures { result ≡ is_found (framed_ending_of named) false (called_found ending) }
{
    match ending {
        RunEnding::Failed { event, at, step } => is_event(named, false, framed(event), at, step),
        RunEnding::Turned { at, step } => is_turn(named, at, step),
        _ => false,
    }
}

/// Whether a named ending is what the run of its frame came to, which made a contract step or not.
pub(crate) fn is_named(named: CalledEnding, called: bool, ending: RunEnding) -> bool
    ensures { result ≡ replays.is_call_found (called_ending_of named) called false (called_found ending) }
{
    if is_unproved(named) != is_of_frame(named.frame(), called) {
        return false;
    }
    is_found(bare(named), ending)
}
