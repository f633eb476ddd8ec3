//! Verdicts on two functions, with what shows them.
use cnf_form::Proof;
use pair_form::PairKind;
use start_value::Start;
use verdict::{Exceeded, Verdict};

/// What shows that a function holds: a start from an entry state, and refutations of the fail and the turn question.
#[derive(Drop)]
pub struct Holding {
    pub start: Start,
    pub fail: Proof,
    pub turn: Proof,
}

/// A verdict on two functions with links between them, or the budget that does not suffice for one, with what shows it.
#[derive(Drop)]
pub enum PairVerdict {
    /// The first function does not hold, or its own conflicts are spent.
    First(Verdict),
    /// The first function holds. The second does not, or its own conflicts are spent.
    Second(Verdict),
    /// Both hold, and no two entry states are linked.
    NoPair(Proof),
    /// Both hold, and the runs from two linked starts exit in states that differ first on a line of the links, by steps that are counted from 0.
    Differs {
        line: u32,
        first_step: u64,
        second_step: u64,
        first: Start,
        second: Start,
    },
    /// Both hold, the two starts are linked, and no linked runs exit in states that differ.
    Equal {
        first: Holding,
        second: Holding,
        first_start: Start,
        second_start: Start,
        difference: Proof,
    },
    /// There are too many points together, or the price of both is too high.
    Exceeded(Exceeded),
    /// Both hold, and the conflicts did not suffice for a question about both.
    Conflicts {
        question: PairKind,
        proof: Proof,
    },
}

/// What a question about two functions comes to.
#[derive(Drop)]
pub enum PairAnswered {
    /// It is true, and a start of each function shows it.
    Sat { first: Start, second: Start },
    /// It is true of nothing.
    Refuted(Proof),
    /// The conflicts are spent.
    Spent(Proof),
}
