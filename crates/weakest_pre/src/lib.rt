//! The weakest precondition of a function: each of its questions as one term over the state at entry.
#![tactic(auto)]

mod copies;
mod entry;
mod facts;
mod folding;

ghost use Rattle.std.specs.Prelude.{◌≡◌, [], true, IfOk};
ghost use Rattle.term_spec.specs.Terms.{HasWidth};
ghost use Rattle.term_spec.specs.Passive.{IsPassive};
ghost use Rattle.walk_spec.specs.Unrolled.{is_register_of};
ghost use Rattle.walk_spec.specs.Unrolling.{IsWalkable};
ghost use Rattle.term_spec.specs.WalkQuestions.{TellsQuestion};
ghost use Rattle.frame_terms.specs.PassiveFrames as frames;
ghost use Rattle.question_form.specs.Asked.{asked_of};
ghost use Rattle.question_form.specs.FrameQuestions.{frame_of_question, frame_passive_of, frame_question_of, heads_of_question};
ghost use Rattle.question_form.specs.FrameViews.{frame_unrolled_of};
ghost use Rattle.question_form.specs.Views.{unrolled_of};
ghost use Rattle.question_form.specs.Questions.{passive_of, program_of_question, question_of, term_of};
ghost use Rattle.weakest_pre.specs.Entry.{HasReadableLines, IsEntryBit};
ghost use Rattle.weakest_pre.specs.Roots.{HasAskedBit, IsTermOf, IsTied, IsTiedBy};

pub use crate::entry::{all_true, both, entry_bit};
pub use crate::facts::Facts;
pub use crate::folding::folded_copies;
use crate::folding::folded_copy;
use question_form::{Asked, Kind, Passive, Question};
use std::alloc::{AllocError, Global};
use term_dag::{Dag, Term};

/// Whether the entry condition is met, and a bit of the passive program is 1, which is copied. What the entry condition says of registers is put into the copy:
/// it counts only where the condition is met. The error is want of memory.
fn tied(
    alloc: Global,
    dag: &mut Dag,
    passive: &Passive,
    entry: Term,
    end: Term,
) -> Result<Term, AllocError>
    requires entry { IsEntryBit (unrolled_of passive.now.unrolled.now) [] dag.old entry.0 }
    requires end { HasWidth passive.now.dag 1 end.0 }
    ensures { IfOk result (λ t. IsTied passive.now.dag dag.old dag.new entry.0 end.0 t.0) }
{
    let facts = Facts::of_entry(alloc, passive.unrolled)?;
    let end = folded_copy(alloc, dag, &passive.dag, &facts, end)?;
    let bit = both(dag, entry, end)?;
    Ok(bit)
}

/// The bit that says whether a question is true, from the one that says whether the entry condition is met. The error is want of memory.
fn root(
    alloc: Global,
    dag: &mut Dag,
    passive: &Passive,
    asked: Asked,
    entry: Term,
) -> Result<Term, AllocError>
    requires bit { HasAskedBit passive.now asked }
    requires entry { IsEntryBit (unrolled_of passive.now.unrolled.now) [] dag.old entry.0 }
    ensures { IfOk result (λ t. IsTiedBy passive.now asked dag.old entry.0 (record { nodes = dag.new; root = t.0 })) }
{
    let end = match asked {
        Asked::Entry => return Ok(entry),
        Asked::Fail => passive.fails,
        Asked::Step => passive.steps,
        Asked::Turn => passive.turns,
    };
    let bit = tied(alloc, dag, passive, entry, end)?;
    Ok(bit)
}

/// A question of a passive program as a term of one bit. The error is want of memory.
fn asking<'a>(
    alloc: Global,
    passive: &'a Passive<'a>,
    asked: Asked,
) -> Result<Question<'a>, AllocError>
    requires link { is_register_of (unrolled_of passive.now.unrolled.now) passive.now.unrolled.now.link ≡ true }
    requires lines { HasReadableLines (unrolled_of passive.now.unrolled.now) }
    requires bit { HasAskedBit passive.now asked }
    ensures is { IfOk result (λ q. IsTermOf q.passive.now q.asked (term_of q)) }
    ensures of { IfOk result (λ q. (q.passive.now ≡ passive.now) × (q.asked ≡ asked)) }
{
    let mut dag = Dag::new(alloc);
    let entry = entry_bit(alloc, &mut dag, passive.unrolled)?;
    let root = root(alloc, &mut dag, passive, asked, entry)?;
    Ok(Question {
        passive,
        asked,
        dag,
        root,
    })
}

/// A question of a passive program of a frame as a term of one bit: whether the entry condition is met, but for the bytes of the file, and the segments end as
/// the question asks. Of the program's terms those are copied that the question reaches, folded by what the entry condition says of registers where that makes
/// them no more. The error is want of memory.
pub fn frame_question<'a>(
    alloc: Global,
    passive: &'a Passive<'a>,
    asked: Asked,
) -> Result<Question<'a>, AllocError>
    requires walkable { frames.IsWalkable (frame_unrolled_of passive.now.unrolled.now) }
    requires passive { frames.IsPassive (frame_unrolled_of passive.now.unrolled.now) passive.now.unrolled.now.heads (frame_passive_of passive.now) }
    ensures tells { IfOk result (λ q. frames.TellsQuestion (frame_of_question q) (heads_of_question q) (frame_question_of q) (term_of q)) }
    ensures of { IfOk result (λ q. (q.passive.now ≡ passive.now) × (q.asked ≡ asked)) }
{
    let question = asking(alloc, passive, asked)?;
    Ok(question)
}

/// A question of a passive program as a term of one bit: whether the entry condition is met, but for the bytes of the file, and the run of the points ends as
/// the question asks. It is made as that of the program's frame. The error is want of memory.
pub fn question<'a>(
    alloc: Global,
    passive: &'a Passive<'a>,
    kind: Kind,
) -> Result<Question<'a>, AllocError>
    requires walkable { IsWalkable (unrolled_of passive.now.unrolled.now) }
    requires passive { IsPassive (unrolled_of passive.now.unrolled.now) (passive_of passive.now) }
    ensures tells { IfOk result (λ q. TellsQuestion (program_of_question q) (question_of q) (term_of q)) }
    ensures of { IfOk result (λ q. (q.passive.now ≡ passive.now) × (q.asked ≡ asked_of kind)) }
{
    let question = asking(alloc, passive, Asked::of_program(kind))?;
    Ok(question)
}
