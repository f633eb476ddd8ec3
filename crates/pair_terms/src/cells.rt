//! A side of a question about two functions, as cells.

ghost use Rattle.std.specs.Prelude.{◌≡◌, ℕ, ◌<◌, ◌≤◌, ◌++◌, Some, IfOk, drop, length, take};
ghost use Rattle.walk_spec.specs.Unrolled.{byte_of_runs};
ghost use Rattle.pair_form.specs.Views.{AreOfProgram, program_of_side_question};
ghost use Rattle.pair_terms.specs.Sides.{CanBeCells, TellsCellsOf};

use mem_cells::{CelledWords, cells_with_words};
use pair_form::{SideCells, SideQuestion};
use std::alloc::{AllocError, Global};
use term_dag::Term;

/// The words of a side: those of the entry, and those of the exit.
fn words_of(alloc: Global, side: &SideQuestion) -> Result<Vec<Term>, AllocError>
    ensures { IfOk result (λ words. words.items ≡ side.now.entries.items ++ side.now.exits.items) }
{
    let mut words = side.entries.to_vec(alloc)?;
    words.extend_from_slice(&side.exits)?;
    Ok(words)
}

/// The first terms of a list, and the others.
#[derive(Drop)]
struct Split {
    first: Vec<Term>,
    last: Vec<Term>,
}

/// A list in two, so many terms first.
fn halves(alloc: Global, words: &[Term], count: usize) -> Result<Split, AllocError>
    requires { count ≤ length words.now }
    ensures first { IfOk result (λ h. h.first.items ≡ take count words.now) }
    ensures last { IfOk result (λ h. h.last.items ≡ drop count words.now) }
{
    let first = words[..count].to_vec(alloc)?;
    let last = words[count..].to_vec(alloc)?;
    Ok(Split { first, last })
}

/// A side without memory: its cells, in which those known bytes are asked that were added, and the four of each literal's word, with the places of its words.
///
/// # Errors
///
/// Out of memory; more terms or base reads than 32 bits number are the same error.
pub fn side_cells<'a>(
    alloc: Global,
    side: &'a SideQuestion<'a>,
    added: &[u32],
) -> Result<SideCells<'a>, AllocError>
    requires ready { CanBeCells side.now }
    requires bytes { (a b : ℕ) → byte_of_runs (program_of_side_question side.now).known a ≡ Some b → b < 256 }
    ensures of { IfOk result (λ c. c.celled.question.now ≡ side.now.question) }
    ensures tells { IfOk result (λ c. TellsCellsOf side.now added.now c) }
    ensures of_program { IfOk result (λ c. AreOfProgram c.celled) }
{
    let count = side.entries.len();
    let words = words_of(alloc, side)?;
    let CelledWords { celled, words } = cells_with_words(alloc, &side.question, &words, added)?;
    let split = halves(alloc, &words, count)?;
    Ok(SideCells {
        celled,
        entries: split.first,
        exits: split.last,
    })
}
