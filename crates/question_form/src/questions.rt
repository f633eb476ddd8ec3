//! What the condition of a function hands on: its points as terms, and its questions.
ghost use Rattle.std.specs.Prelude.{◌≡◌};
ghost use Rattle.frame_spec.specs.FrameQuestions as questions;
ghost use Rattle.question_form.specs.Asked as specs;
ghost use Rattle.question_form.specs.Asked.{frame_question};

use crate::{Asked, Unrolled};
use term_dag::{Dag, Term};

/// A passive program: one bit for each point, which says whether it is met, and one each for an event of the entry's segment, for one of a segment from a head,
/// and for one backward transfer too many. Whether the entry condition is met is no part of it.
#[derive(Drop)]
pub struct Passive<'a> {
    pub unrolled: &'a Unrolled<'a>,
    pub dag: Dag,
    /// For each point, in their order, whether it is met.
    pub met: Vec<Term>,
    /// Whether an event comes in the entry's segment.
    pub fails: Term,
    /// Whether one comes in a segment that begins at a head.
    pub steps: Term,
    /// Whether one backward transfer too many comes.
    pub turns: Term,
}

/// A question of a passive program: the bit that says whether it is true, over nodes of its own.
#[derive(Drop)]
pub struct Question<'a> {
    pub passive: &'a Passive<'a>,
    pub asked: Asked,
    pub dag: Dag,
    pub root: Term,
}
