//! Verdicts, and what questions come to.
use cnf_form::Proof;
use question_form::Kind;
use start_value::Start;
use state_text::Event;

/// What a question comes to.
#[derive(Drop)]
pub enum Answered {
    /// It is true, and this start shows it.
    Sat(Start),
    /// It is true of nothing.
    Refuted(Proof),
    /// The conflicts are spent.
    Spent(Proof),
}

/// The budget that does not suffice for any question, with what shows it.
#[derive(Clone, Copy)]
pub enum Exceeded {
    /// There are more points than the budget, of which so many were found.
    Points { count: u64 },
    /// The price is above the budget.
    Size { price: u128 },
}

/// A verdict, or the budget that does not suffice for one, with what shows it.
#[derive(Drop)]
pub enum Verdict {
    /// Every run from every entry state returns without an event: there is the start, no run fails, and none makes too many backward transfers.
    Holds {
        start: Start,
        fail: Proof,
        turn: Proof,
    },
    /// There is no entry state.
    Vacuous(Proof),
    /// The run from the start has an event, at an address and a step.
    Fails {
        event: Event,
        at: u32,
        step: u64,
        start: Start,
    },
    /// No run fails, and the one from the start makes one backward transfer too many, at an address and a step.
    Unroll {
        at: u32,
        step: u64,
        start: Start,
    },
    /// There are too many points, or the price is too high.
    Exceeded(Exceeded),
    /// The conflicts did not suffice for a question.
    Conflicts {
        question: Kind,
        proof: Proof,
    },
}

/// A verdict, and a number of backward transfers that no run exceeds where the verdict is that the program holds. It is at most the budget's.
#[derive(Drop)]
pub struct Judged {
    pub verdict: Verdict,
    pub turns: u64,
}

/// What the command that certifies a question comes to.
#[derive(Drop)]
pub enum Certified {
    /// There are too many points, or the price is too high.
    Exceeded(Exceeded),
    /// The conflicts did not suffice.
    Conflicts(Proof),
    /// The question is true of some reading.
    Satisfiable,
    /// The question is true of nothing.
    Refuted(Proof),
}

/// What the command that prints the script of a question comes to.
#[derive(Drop)]
pub enum Scripted {
    /// There are too many points, or the price is too high.
    Exceeded(Exceeded),
    /// The script, in SMT-LIB 2.6.
    Script(String),
}
