//! Verdicts over frames.
use cnf_form::Proof;
use frame_text::FramedEvent;
use question_form::Asked;
use start_value::Start;
use state_text::{CallState, HeadStart};
use verdict::Exceeded;

/// How a segment of a frame ends that shows a verdict, with the address and the number of its last step; steps are counted from 0 where the segment begins.
#[derive(Clone, Copy)]
pub enum Named {
    /// By an event.
    Failed {
        event: FramedEvent,
        at: u32,
        step: u64,
    },
    /// By one backward transfer too many.
    Turned {
        at: u32,
        step: u64,
    },
}

/// What shows that a frame passes which has no head.
#[derive(Drop)]
pub enum Passed {
    /// An entry state; no run fails, and none makes too many backward transfers.
    Refutations {
        start: Start,
        fail: Proof,
        turn: Proof,
    },
    /// There is no entry state.
    EntryRefuted(Proof),
}

/// A verdict on a function whose notes have invariants or contracts, or the budget that does not suffice for one, with what shows it. Ranks count the frames: those
/// of the contracts in their order, and last the function's own. Addresses and steps are those of the last step of a segment; steps are counted from 0 where the
/// segment begins.
#[derive(Drop)]
pub enum FrameVerdict {
    /// There are neither heads nor contracts, and every run from every entry state returns without an event: there is the start, no run fails, and none makes too
    /// many backward transfers.
    Holds {
        start: Start,
        fail: Proof,
        turn: Proof,
    },
    /// There are contracts, and every run of every frame returns without an event. The function's own frame, which is the last, has an entry state; a contract's
    /// frame may have none.
    ByFrames(Vec<Passed>),
    /// There is a head, and every segment from every entry state and from every head state returns or arrives at a head without an event: there is the start, no
    /// segment from an entry state fails, none from a head state, and none makes too many backward transfers. So no run fails, but one may not return.
    Partial {
        start: Start,
        fail: Proof,
        step: Proof,
        turn: Proof,
    },
    /// There is no entry state of the function, and the frames of the contracts pass.
    Vacuous(Proof),
    /// The segment from the start has an event, at an address and a step. It makes no contract step, and the frames of the contracts pass.
    Fails {
        event: FramedEvent,
        at: u32,
        step: u64,
        start: Start,
    },
    /// No segment from an entry state fails, and the one from the head state, which is one for the start, has an event, at an address and a step.
    NotInductive {
        event: FramedEvent,
        at: u32,
        step: u64,
        start: Start,
        head: HeadStart,
    },
    /// No segment fails, and the one from the start, or from the head state, makes one backward transfer too many, at an address and a step. It makes no contract
    /// step, and the frames of the contracts pass.
    Unroll {
        at: u32,
        step: u64,
        start: Start,
        head: Option<HeadStart>,
    },
    /// The frames of lower ranks pass, and in this one the run from the start has an event, or none has one, and it makes one backward transfer too many. These
    /// are its contract steps; in the function's own frame it makes one.
    Unproved {
        rank: usize,
        ending: Named,
        start: Start,
        calls: Vec<CallState>,
    },
    /// All frames together have too many points, or their price is too high.
    Exceeded(Exceeded),
    /// The frames of lower ranks pass, and the conflicts did not suffice for a question of this one.
    Conflicts {
        rank: usize,
        question: Asked,
        proof: Proof,
    },
}
