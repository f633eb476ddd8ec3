//! Answers, and steps on the way to one.
use cnf_form::Proof;
use frame_verdict::Passed;
use pair_form::PairKind;
use pair_verdict::Holding;
use question_form::{Asked, Kind};
use start_value::Start;
use state_text::{CallState, HeadStart};

/// What shows that an answer is right.
#[derive(Drop)]
pub enum Evidence {
    /// Nothing: the answer needs none.
    None,
    /// An entry state, and that no run fails and none makes too many backward transfers.
    Refutations {
        start: Start,
        fail: Proof,
        turn: Proof,
    },
    /// That there is no entry state.
    EntryRefuted(Proof),
    /// The start whose run ends as the answer says.
    RunOf(Start),
    /// A question, and the search that spent the conflicts on it.
    SpentOn {
        question: Kind,
        proof: Proof,
    },
    /// An entry state, and that no segment from one fails, none from a head state, and none makes too many backward transfers.
    Inductive {
        start: Start,
        fail: Proof,
        step: Proof,
        turn: Proof,
    },
    /// A start, and the head state from which the segment goes that ends as the answer says.
    FromHead {
        start: Start,
        head: HeadStart,
    },
    /// For each frame, in the order of ranks, what shows that it passes: those of the contracts, and last the function's own.
    Frames(Vec<Passed>),
    /// The start of the frame of a rank, and what is given to the contract steps of its run, which ends as the answer says.
    WithCalls {
        rank: usize,
        start: Start,
        calls: Vec<CallState>,
    },
    /// A question of the frame of a rank, and the search that spent the conflicts on it. Without contracts the entry's frame is the one frame, of rank 0.
    SpentOnFrame {
        rank: usize,
        question: Asked,
        proof: Proof,
    },
    /// Two starts, one of each function, whose runs exit apart.
    Two {
        first: Start,
        second: Start,
    },
    /// That each of two functions holds, a linked pair of their entry states, and that no linked pair exits apart.
    Both {
        first: Holding,
        second: Holding,
        first_start: Start,
        second_start: Start,
        difference: Proof,
    },
    /// A question about two functions, and the search that spent the conflicts on it.
    SpentOnPair {
        question: PairKind,
        proof: Proof,
    },
    /// The points that were found, one more than the budget, or the price.
    Count(u128),
}

/// A text that is written, the exit status, and what shows that they are right.
#[derive(Drop)]
pub struct Answer {
    pub status: u8,
    pub text: Vec<u8>,
    pub evidence: Evidence,
}

/// A step on the way to an answer: it is there already, or there is something to go on with.
#[derive(Drop)]
pub enum Step<T> {
    Answered(Answer),
    Go(T),
}
