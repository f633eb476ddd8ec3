//! What an answer is judged to be.
use model_text::ModelFaultKind;
use start_value::Start;
use state_text::Event;

/// How the run of an accepted start ends.
#[derive(Clone, Copy, PartialEq, Eq, Debug)]
pub enum End {
    /// Nothing is asked of the run.
    AtEntry,
    /// An event, at an address and a step.
    Failed { event: Event, at: u32, step: u64 },
    /// One backward transfer too many, at an address and a step.
    Turned { at: u32, step: u64 },
}

/// What the answer to a question is judged to be.
#[derive(Drop)]
pub enum Judged {
    /// The text is refused at a line, which counts from 1.
    Refused { line: u64, kind: ModelFaultKind },
    /// The question is not true of the answer's values.
    Untrue,
    /// The question is true of them. The start has their registers, their flags, those of their bytes that the require lines and the run read, and the choices
    /// that the run draws; for the question of entry states there is no run, and no choice.
    Accepted { end: End, start: Start },
}
