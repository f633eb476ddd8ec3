//! The clauses of cells.
ghost use Rattle.std.specs.Prelude.{◌≡◌, Contains, IfOk};
ghost use Rattle.term_spec.specs.Terms.{HasWidth, TermNode};
ghost use Rattle.term_spec.specs.Cells.{AreFormed, IsOfWords};
ghost use Rattle.term_spec.specs.ClauseForm.{TellsClauses};
ghost use Rattle.frame_terms.specs.FrameCells as frames;
ghost use Rattle.frame_terms.specs.FrameClauseForm as frame_clauses;
ghost use Rattle.frame_terms.specs.HeadlessTerms.{as_cells};
ghost use Rattle.cnf_form.specs.Views.{cnf_of};
ghost use Rattle.question_form.specs.FrameQuestions.{heads_of_question};
ghost use Rattle.question_form.specs.FrameViews.{IsHeadless};
ghost use Rattle.mem_cells.specs.FrameViews.{frame_cells_of, frame_of_cells};
ghost use Rattle.mem_cells.specs.Views.{cells_of, program_of_cells};
ghost use Rattle.bit_blast.specs.CellClauses.{AreClauses, AreReadsOf};
ghost use Rattle.bit_blast.specs.Places.{AreInOrder, IsNamed};

use crate::cells::tie_said;
use crate::input_places::InputPlaces;
use crate::laying::places_of;
use crate::nodes::operand;
use crate::words::words_of;
use cnf_form::Cnf;
use gates::Circuit;
use mem_cells::Celled;
use std::alloc::{AllocError, Global};
use word_gates::parts::inputs;

/// The clauses of cells whose inputs have places. The error is want of memory, which more than 2^31 variables are.
fn clauses_of(alloc: Global, places: &InputPlaces, c: &Celled) -> Result<Cnf, AllocError>
    requires words { (n : TermNode) → Contains c.now.dag n → IsOfWords n }
    requires named { (n : TermNode) → Contains c.now.dag n → IsNamed places.now n }
    requires order { AreInOrder places.now }
    requires root { HasWidth c.now.dag 1 c.now.root.0 }
    requires reads { AreReadsOf places.now (frame_cells_of c.now) }
    ensures { IfOk result (λ f. AreClauses places.now (frame_cells_of c.now) (cnf_of f)) }
{
    let mut circuit = Circuit::new(alloc, places.inputs)?;
    let inputs = inputs(alloc, &circuit, 0, places.inputs)?;
    let words = words_of(alloc, &mut circuit, places, &inputs, &c.dag)?;
    let mut ties = Vec::new(alloc);
    tie_said(&mut ties, places, &inputs, &words, c)?;
    let root = operand(&words, c.root);
    let cnf = circuit.cnf(ties, root[0])?;
    Ok(cnf)
}

/// The clauses of a question of a frame without memory. Their first variables are the inputs: the bits of the registers at entry in the order of a state, the
/// flags, those of a head state, where there is a head, the choices of the points that draw, and the bytes of the base reads, each with its lowest bit first.
/// Values of the inputs extend to the other variables in at most one way that satisfies the clauses, and exactly where they make the question true and what is
/// said of the base reads; besides the inputs there is a variable for each gate, and one more.
///
/// # Errors
///
/// Want of memory, which more than 2^31 variables are.
pub fn blast_frame(alloc: Global, c: &Celled) -> Result<Cnf, AllocError>
    requires { frames.AreFormed (frame_of_cells c.now) (heads_of_question c.now.question.now) (frame_cells_of c.now) }
    ensures { IfOk result (λ f. frame_clauses.TellsClauses (frame_of_cells c.now) (heads_of_question c.now.question.now) (frame_cells_of c.now) (cnf_of f)) }
{
    let places = places_of(alloc, c)?;
    let cnf = clauses_of(alloc, &places, c)?;
    Ok(cnf)
}

/// The clauses of a question of a program without memory, as those of its frame: it has no head, and the bytes of its base reads are the last inputs in the
/// order of the reads.
///
/// # Errors
///
/// Want of memory, which more than 2^31 variables are.
pub fn blast(alloc: Global, c: &Celled) -> Result<Cnf, AllocError>
    requires flat { frame_cells_of c.now ≡ as_cells (cells_of c.now) }
    requires headless { IsHeadless c.now.question.now.passive.now.unrolled.now }
    requires formed { AreFormed (program_of_cells c.now) (cells_of c.now) }
    ensures { IfOk result (λ f. TellsClauses (program_of_cells c.now) (cells_of c.now) (cnf_of f)) }
{
    let places = places_of(alloc, c)?;
    let cnf = clauses_of(alloc, &places, c)?;
    Ok(cnf)
}
