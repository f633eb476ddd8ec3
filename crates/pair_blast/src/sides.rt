//! The words of both sides.
ghost use Rattle.std.specs.Prelude.{◌≡◌, ℕ, ◌+◌, ◌≤◌, ◌↔◌, Bool, true, length, IfOk};
ghost use Rattle.term_spec.specs.Terms.{term_gates};
ghost use Rattle.term_spec.specs.Cells.{AreFormed};
ghost use Rattle.term_spec.specs.ClauseForm.{MakesTrue, reading};
ghost use Rattle.pair_spec.specs.PairEvidence.{behind};
ghost use Rattle.pair_spec.specs.PairTerms.{same_words};
ghost use Rattle.gates.specs.Circuits.{next, Grows, Holds, Within};
ghost use Rattle.gates.specs.Pushes.{satisfied, AreOver};
ghost use Rattle.mem_cells.specs.Views.{cells_of, program_of_cells};
ghost use Rattle.bit_blast.specs.Laid.{ArePlaces};
ghost use Rattle.bit_blast.specs.Places.{seen};
ghost use Rattle.bit_blast.specs.CellWords.{AreCellWords};
ghost use Rattle.pair_form.specs.Views.{AreOfProgram};
ghost use Rattle.pair_blast.specs.PairWords.{AreAlike, AreWordsWhere, words_read};

use crate::linked::linked_inputs;
use crate::ties::{tie_entries, tie_equal};
use bit_blast::{InputPlaces, cell_words, operand, push_tie, tie_reads};
use cnf_form::Clause;
use gates::{Bit, Circuit};
use mem_cells::Celled;
use pair_form::SideCells;
use std::alloc::{AllocError, Global};
use word_gates::parts::inputs;

/// The words of a side, where bits stand for its inputs; adds the clauses of what is said of its base reads, and that its question is true.
fn side_words(
    alloc: Global,
    circuit: &mut Circuit,
    ties: &mut Vec<Clause>,
    places: &InputPlaces,
    inputs: &[Bit],
    c: &Celled,
) -> Result<Vec<Vec<Bit>>, AllocError>
    requires of { AreOfProgram c.now }
    requires formed { AreFormed (program_of_cells c.now) (cells_of c.now) }
    requires placed { ArePlaces (program_of_cells c.now) (cells_of c.now) places.now }
    requires all { length inputs.now ≡ places.now.inputs }
    requires within { Within (next circuit.old) inputs.now }
    ensures grows { IfOk result (λ ws. Grows circuit.old circuit.new (term_gates (cells_of c.now).nodes)) }
    ensures words { IfOk result (λ ws. AreCellWords (program_of_cells c.now) (cells_of c.now) inputs.now circuit.new ws.items) }
    ensures value { IfOk result (λ ws. (v : ℕ → Bool) → Holds v circuit.new → (satisfied v ties.new.items ≡ true) ↔
        ((satisfied v ties.old.items ≡ true) × MakesTrue (program_of_cells c.now) (cells_of c.now) (seen inputs.now v))) }
    ensures over { IfOk result (λ ws. AreOver (next circuit.old) ties.old.items → AreOver (next circuit.new) ties.new.items) }
{
    let words = cell_words(alloc, circuit, places, inputs, c)?;
    tie_reads(ties, circuit, places, inputs, &words, c)?;
    let root = operand(&words, c.root);
    push_tie(ties, &[root[0]])?;
    Ok(words)
}

/// The words of the first side, whose inputs are the first ones.
pub fn first_words(
    circuit: &mut Circuit,
    ties: &mut Vec<Clause>,
    places: &InputPlaces,
    c: &Celled,
) -> Result<Vec<Vec<Bit>>, AllocError>
    requires of { AreOfProgram c.now }
    requires formed { AreFormed (program_of_cells c.now) (cells_of c.now) }
    requires placed { ArePlaces (program_of_cells c.now) (cells_of c.now) places.now }
    requires all { places.now.inputs ≤ circuit.old.inputs }
    ensures grows { IfOk result (λ ws. Grows circuit.old circuit.new (term_gates (cells_of c.now).nodes)) }
    ensures words { IfOk result (λ ws. AreWordsWhere (λ v. Holds v circuit.new) (reading (program_of_cells c.now) (cells_of c.now)) (cells_of c.now).nodes
        (next circuit.new) ws.items) }
    ensures value { IfOk result (λ ws. (v : ℕ → Bool) → Holds v circuit.new → (satisfied v ties.new.items ≡ true) ↔
        ((satisfied v ties.old.items ≡ true) × MakesTrue (program_of_cells c.now) (cells_of c.now) v)) }
    ensures over { IfOk result (λ ws. AreOver (next circuit.old) ties.old.items → AreOver (next circuit.new) ties.new.items) }
{
    let alloc = *ties.allocator();
    let own = inputs(alloc, circuit, 0, places.inputs)?;
    let words = side_words(alloc, circuit, ties, places, &own, c)?;
    Ok(words)
}

/// The words of the second side, whose inputs stand after the first side's. Adds besides the clauses that the linked words are equal; where an input of this
/// side is linked, the word of the first side stands for it, so that what both sides compute of it alike has the same gates.
pub fn second_words(
    circuit: &mut Circuit,
    ties: &mut Vec<Clause>,
    places: &InputPlaces,
    words: &[Vec<Bit>],
    first: &SideCells,
    before: u32,
    second: &SideCells,
) -> Result<Vec<Vec<Bit>>, AllocError>
    requires of { AreOfProgram second.now.celled }
    requires formed { AreFormed (program_of_cells second.now.celled) (cells_of second.now.celled) }
    requires placed { ArePlaces (program_of_cells second.now.celled) (cells_of second.now.celled) places.now }
    requires all { before + places.now.inputs ≤ circuit.old.inputs }
    requires words { AreWordsWhere (λ v. Holds v circuit.old) (reading (program_of_cells first.now.celled) (cells_of first.now.celled))
        (cells_of first.now.celled).nodes (next circuit.old) words.now }
    requires alike { AreAlike (cells_of first.now.celled).nodes (cells_of second.now.celled).nodes first.now.entries.items second.now.entries.items }
    ensures grows { IfOk result (λ ws. Grows circuit.old circuit.new (term_gates (cells_of second.now.celled).nodes)) }
    ensures words { IfOk result (λ ws. AreWordsWhere (λ v. Holds v circuit.new × (satisfied v ties.new.items ≡ true))
        (λ v. reading (program_of_cells second.now.celled) (cells_of second.now.celled) (behind before v)) (cells_of second.now.celled).nodes
        (next circuit.new) ws.items) }
    ensures value { IfOk result (λ ws. (v : ℕ → Bool) → Holds v circuit.new → (satisfied v ties.new.items ≡ true) ↔
        ((satisfied v ties.old.items ≡ true) × MakesTrue (program_of_cells second.now.celled) (cells_of second.now.celled) (behind before v)
        × (same_words (words_read (reading (program_of_cells first.now.celled) (cells_of first.now.celled) v) (cells_of first.now.celled).nodes
        first.now.entries.items) (words_read (reading (program_of_cells second.now.celled) (cells_of second.now.celled) (behind before v))
        (cells_of second.now.celled).nodes second.now.entries.items) ≡ true))) }
    ensures over { IfOk result (λ ws. AreOver (next circuit.old) ties.old.items → AreOver (next circuit.new) ties.new.items) }
{
    let alloc = *ties.allocator();
    let own = inputs(alloc, circuit, before, places.inputs)?;
    let (dag, others) = (&second.celled.dag, &second.entries);
    let bits = linked_inputs(alloc, places, &own, words, &first.entries, dag, others)?;
    tie_equal(ties, &own, &bits)?;
    let made = side_words(alloc, circuit, ties, places, &bits, &second.celled)?;
    tie_entries(ties, words, &made, &first.entries, others)?;
    Ok(made)
}
