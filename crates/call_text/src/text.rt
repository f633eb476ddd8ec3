//! What a report over frames shows where its run makes contract steps.
ghost use Rattle.std.specs.Prelude.{◌≡◌};
ghost use Rattle.frame_texts_spec.specs.CallTexts as texts;
ghost use Rattle.frame_texts_spec.specs.CallTexts.{frame_name};
ghost use Rattle.frame_text.specs.Texts.{framed_ending_of};
ghost use Rattle.call_text.specs.Texts.{called_ending_of, frame_name_of};

use frame_text::{FramedEnding, FramedEvent};
use start_value::Start;
use state_text::{CallState, HeadStart};

/// The frame whose run a report shows.
#[derive(Clone, Copy, PartialEq, Eq, Debug)]
pub enum FrameName {
    /// That of the entry.
    Entry,
    /// That of the contract of an address.
    Contract { at: u32 },
}

/// The ending that a report names, with the address and the number of its step.
#[derive(Clone, Copy, PartialEq, Eq, Debug)]
pub enum CalledEnding {
    /// One of a run without contract steps from the entry.
    Plain(FramedEnding),
    /// An event for which a frame is not proved.
    UnprovedBy {
        frame: FrameName,
        event: FramedEvent,
        at: u32,
        step: u64,
    },
    /// One backward transfer more than `k`, for which a frame is not proved.
    UnprovedTurns {
        frame: FrameName,
        k: u64,
        at: u32,
        step: u64,
    },
}

impl CalledEnding {
    /// The ending of a run, for which a frame is not proved.
    pub fn unproved(frame: FrameName, ending: FramedEnding) -> CalledEnding
        ensures { called_ending_of result ≡ texts.unproved (frame_name_of frame) (framed_ending_of ending) }
    {
        match ending {
            FramedEnding::Fails { event, at, step }
            | FramedEnding::NotInductive { event, at, step } => CalledEnding::UnprovedBy {
                frame,
                event,
                at,
                step,
            },
            FramedEnding::Turns { k, at, step } => CalledEnding::UnprovedTurns {
                frame,
                k,
                at,
                step,
            },
        }
    }

    /// The frame whose run it ends.
    pub fn frame(self) -> FrameName
        ensures { frame_name_of result ≡ frame_name (called_ending_of self) }
    {
        match self {
            CalledEnding::Plain(_) => FrameName::Entry,
            CalledEnding::UnprovedBy { frame, .. } => frame,
            CalledEnding::UnprovedTurns { frame, .. } => frame,
        }
    }
}

/// What the contract of an address may change, by the numbers of registers and flags.
#[derive(Drop)]
pub struct ContractChanges {
    pub at: u32,
    /// Registers, in the machine's order.
    pub registers: Vec<u8>,
    /// Flags, as N 3, Z 2, C 1 and V 0, the highest first.
    pub flags: Vec<u8>,
}

/// The ending that a report names with the start that shows it, with the head state where the segment begins in one, and with what contract steps are given.
#[derive(Drop)]
pub struct CalledText {
    pub named: CalledEnding,
    /// The state from which the run of the function begins. Where a head state follows, its choices are none and are not printed.
    pub start: Start,
    pub head: Option<HeadStart>,
    /// What contract steps are given, in the order of their steps.
    pub calls: Vec<CallState>,
}
