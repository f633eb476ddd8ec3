//! What a report over frames shows.
ghost use Rattle.std.specs.Prelude.{◌≡◌};
ghost use Rattle.state_text.specs.Starts.{frame_event_of};
ghost use Rattle.frame_text.specs.Texts.{framed_event_of};

use start_value::Start;
use state_text::{Event, FrameEvent, HeadStart};

/// How a segment of a frame fails, whose runs are cut at heads and step over contracts.
#[derive(Clone, Copy, PartialEq, Eq, Debug)]
pub enum FramedEvent {
    /// As a run of the tables may; an assert line that is no invariant.
    OfStep(Event),
    /// An invariant line of the notes, by its number, is false.
    InvariantFails { line: u64 },
    /// What a called contract needs, by its line of the notes, is false.
    NeedsFails { line: u64 },
    /// A store to a byte that the frame's contract may not write.
    WritesFails,
    /// What the frame's contract has to give at the exit, by its line of the notes, is false.
    GivesFails { line: u64 },
    /// A register or a flag has changed that the frame's contract may not change.
    ModifiesFails,
}

impl FramedEvent {
    /// The event of a frame that steps over no contract.
    pub fn of(event: FrameEvent) -> FramedEvent
        ensures { framed_event_of result ≡ frame_event_of event }
    {
        match event {
            FrameEvent::OfStep(event) => FramedEvent::OfStep(event),
            FrameEvent::InvariantFails { line } => FramedEvent::InvariantFails { line },
        }
    }
}

/// The ending that a report over frames names, with the address and the number of its step.
#[derive(Clone, Copy, PartialEq, Eq, Debug)]
pub enum FramedEnding {
    /// An event of a segment.
    Fails {
        event: FramedEvent,
        at: u32,
        step: u64,
    },
    /// One backward transfer more than `k`.
    Turns {
        k: u64,
        at: u32,
        step: u64,
    },
    /// The invariants are not inductive, by an event of a segment from a head.
    NotInductive {
        event: FramedEvent,
        at: u32,
        step: u64,
    },
}

/// The ending that a report names with the start that shows it, and with the head state where the segment begins in one.
#[derive(Drop)]
pub struct FramedText {
    pub named: FramedEnding,
    /// The state from which the run of the function begins. Where a head state follows, its choices are none and are not printed.
    pub start: Start,
    pub head: Option<HeadStart>,
}
