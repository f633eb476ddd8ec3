//! What the questions of one frame come to.
use crate::segments::Shown;
use crate::verdicts::Named;
use cnf_form::Proof;
use question_form::Asked;
use start_value::Start;

/// A segment as it is shown, whether it makes a contract step, and how it ends.
#[derive(Drop)]
pub struct Ended {
    pub shown: Shown,
    pub called: bool,
    pub ending: Named,
}

/// What the questions of a frame come to, in their order.
#[derive(Drop)]
pub enum Judged {
    /// There is no head, and every run from every entry state returns without an event: there is the start, no run fails, and none makes too many backward
    /// transfers.
    Holds {
        start: Start,
        fail: Proof,
        turn: Proof,
    },
    /// There is a head, and every segment returns or arrives at a head without an event.
    Partial {
        start: Start,
        fail: Proof,
        step: Proof,
        turn: Proof,
    },
    /// There is no entry state.
    Vacuous(Proof),
    /// A segment ends as the first question asks that is true.
    Shows(Ended),
    /// The conflicts did not suffice for a question.
    Spent {
        question: Asked,
        proof: Proof,
    },
}
