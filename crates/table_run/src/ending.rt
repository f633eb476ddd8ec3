//! What a run comes to, and why a state is no entry state.
use state_text::{Event, FrameEvent};
use thiserror::Error;

/// Why a state at the function's address is no entry state. Where several faults apply, the first in this order is answered.
#[derive(Clone, Copy, PartialEq, Eq, Debug, Error)]
pub enum EntryFault {
    /// At the address in the link register no row can stand.
    #[error("link")]
    Link,
    /// The require line of this number is the first that is false.
    #[error("require {line}")]
    Require { line: u32 },
    /// The byte at this address, which is kept or fixed, is not the file's; it is the first such byte.
    #[error("byte {at:08x}")]
    Byte { at: u32 },
}

/// What a run comes to, with the address and the number of the last step that was made; steps are counted from 0.
#[derive(Clone, Copy)]
pub enum Ending {
    /// The function returned, and each ensure line is true.
    Exit { at: u32, step: u64 },
    /// An event.
    Failed { event: Event, at: u32, step: u64 },
    /// One backward transfer more than is allowed.
    Turned { at: u32, step: u64 },
    /// None of these within the steps that were allowed.
    Left { at: u32, step: u64 },
}

/// What a step comes to; the state and the stack are those that it leaves.
#[derive(Clone, Copy)]
pub(crate) enum StepEnd {
    /// An event.
    Stops(Event),
    /// The next place.
    Arrives,
    /// The exit, where each ensure line is true.
    Exits,
}

/// What a run of a frame comes to, with the address and the number of the last step that was made; steps are counted from 0, and the arrival at a head is one.
#[derive(Clone, Copy)]
pub enum FrameEnding {
    /// The function returned, and each ensure line is true.
    Exit {
        at: u32,
        step: u64,
    },
    /// An event.
    Failed {
        event: FrameEvent,
        at: u32,
        step: u64,
    },
    /// One backward transfer more than is allowed.
    Turned {
        at: u32,
        step: u64,
    },
    /// The run arrived at a head, whose assert lines are all true.
    Cut {
        at: u32,
        step: u64,
    },
    /// None of these within the steps that were allowed.
    Left {
        at: u32,
        step: u64,
    },
}

/// What a step comes to in a frame; the state and the stack are those that it leaves.
#[derive(Clone, Copy)]
pub(crate) enum FrameStepEnd {
    /// An event.
    Halts(FrameEvent),
    /// The next place, which is no head.
    GoesTo,
    /// A head.
    Reaches,
    /// The exit, where each ensure line is true.
    Leaves,
}

/// How a run of a frame fails that steps over contracts; it has no heads.
#[derive(Clone, Copy, PartialEq, Eq, Debug)]
pub enum CalledEvent {
    /// As a run of the tables may.
    OfStep(Event),
    /// What a called contract needs, by its line of the notes, is false.
    NeedsFails { line: u32 },
    /// A store to a byte that the frame's contract may not write.
    WritesFails,
    /// What the frame's contract has to give at the exit, by its line of the notes, is false.
    GivesFails { line: u32 },
    /// A register or a flag has changed that the frame's contract may not change.
    ModifiesFails,
}

/// What a run of a frame comes to that steps over contracts, with the address and the number of the last step that was made; steps are counted from 0, and a
/// contract step is one.
#[derive(Clone, Copy, PartialEq, Eq, Debug)]
pub enum CalledEnding {
    /// The function returned, and what is judged at its exit is true.
    Exit {
        at: u32,
        step: u64,
    },
    /// An event.
    Failed {
        event: CalledEvent,
        at: u32,
        step: u64,
    },
    /// One backward transfer more than is allowed.
    Turned {
        at: u32,
        step: u64,
    },
    /// None of these within the steps that were allowed.
    Left {
        at: u32,
        step: u64,
    },
    /// The contract step of this number is not given what it has to be given, or what is given there is given to no contract step.
    NoCall {
        step: u64,
    },
    /// What the contract step is given breaks what its contract gives, by its line of the notes.
    NotGiven {
        line: u32,
        at: u32,
        step: u64,
    },
}

/// What a run comes to, and whether one of its steps was a contract step.
#[derive(Clone, Copy)]
pub struct CalledRun {
    pub called: bool,
    pub ending: CalledEnding,
}

/// What a step comes to in a frame that steps over contracts; the state and the stack are those that it leaves.
#[derive(Clone, Copy)]
pub(crate) enum CalledStepEnd {
    /// An event.
    Halts(CalledEvent),
    /// A place at which a row is executed next.
    GoesTo,
    /// A contract that is stepped over.
    Calls,
    /// The exit, where what is judged there is true.
    Leaves,
    /// No run: what a contract step is given breaks a line of what its contract gives.
    Breaks { line: u32 },
    /// What is given is given to no contract step, or none is given to one.
    NoCall,
}
