//! The words of cells, and what is said of their base reads, where bits stand for the inputs.
ghost use Rattle.std.specs.Prelude.{◌≡◌, ℕ, ◌↔◌, ◌&&◌, All, Bool, true, length, IfOk, OnOk};
ghost use Rattle.std.specs.List.{list_all};
ghost use Rattle.term_spec.specs.Terms.{term_gates};
ghost use Rattle.term_spec.specs.Cells.{AreFormed, IsAllowed};
ghost use Rattle.term_spec.specs.ClauseForm.{reading};
ghost use Rattle.gates.specs.Circuits.{next, Grows, Holds, Within};
ghost use Rattle.gates.specs.Pushes.{satisfied, AreOver};
ghost use Rattle.frame_terms.specs.HeadlessTerms.{as_cells};
ghost use Rattle.mem_cells.specs.FrameViews.{frame_cells_of};
ghost use Rattle.mem_cells.specs.Views.{cells_of, program_of_cells};
ghost use Rattle.bit_blast.specs.BitWords.{AreWithin};
ghost use Rattle.bit_blast.specs.Said.{CanAgree, CanBeAsked, agrees_at, asked_at};
ghost use Rattle.bit_blast.specs.Laid.{ArePlaces};
ghost use Rattle.bit_blast.specs.Places.{AreInOrder, seen};
ghost use Rattle.bit_blast.specs.CellWords.{AreCellWords};

use crate::input_places::InputPlaces;
use crate::reads::{tie_agreements, tie_asked};
use crate::words::words_of;
use cnf_form::Clause;
use gates::{Bit, Circuit};
use mem_cells::Celled;
use std::alloc::{AllocError, Global};

/// The words of cells, of which each takes at most its term's gates. A bit stands for each input.
///
/// # Errors
///
/// Out of memory, which 2^32 terms are.
pub fn cell_words(
    alloc: Global,
    circuit: &mut Circuit,
    places: &InputPlaces,
    inputs: &[Bit],
    c: &Celled,
) -> Result<Vec<Vec<Bit>>, AllocError>
    requires formed { AreFormed (program_of_cells c.now) (cells_of c.now) }
    requires placed { ArePlaces (program_of_cells c.now) (cells_of c.now) places.now }
    requires all { length inputs.now ≡ places.now.inputs }
    requires within { Within (next circuit.old) inputs.now }
    ensures grows { IfOk result (λ ws. Grows circuit.old circuit.new (term_gates (cells_of c.now).nodes)) }
    ensures words { IfOk result (λ ws. AreCellWords (program_of_cells c.now) (cells_of c.now) inputs.now circuit.new ws.items) }
{
    let words = words_of(alloc, circuit, places, inputs, &c.dag)?;
    Ok(words)
}

/// Adds the clauses of what is said of the base reads of cells.
pub fn tie_reads(
    ties: &mut Vec<Clause>,
    circuit: &Circuit,
    places: &InputPlaces,
    inputs: &[Bit],
    words: &[Vec<Bit>],
    c: &Celled,
) -> Result<(), AllocError>
    requires flat { frame_cells_of c.now ≡ as_cells (cells_of c.now) }
    requires formed { AreFormed (program_of_cells c.now) (cells_of c.now) }
    requires placed { ArePlaces (program_of_cells c.now) (cells_of c.now) places.now }
    requires all { length inputs.now ≡ places.now.inputs }
    requires within { Within (next circuit.now) inputs.now }
    requires words { AreCellWords (program_of_cells c.now) (cells_of c.now) inputs.now circuit.now words.now }
    ensures value { OnOk result ((v : ℕ → Bool) → Holds v circuit.now → (satisfied v ties.new.items ≡ true) ↔
        ((satisfied v ties.old.items ≡ true) × IsAllowed (cells_of c.now) (reading (program_of_cells c.now) (cells_of c.now) (seen inputs.now v)))) }
    ensures over { OnOk result (AreOver (next circuit.now) ties.old.items → AreOver (next circuit.now) ties.new.items) }
{
    let _circuit = circuit;
    tie_said(ties, places, inputs, words, c)?;
    Ok(())
}

/// Adds the clauses of what is said of the base reads of cells of a frame.
pub fn tie_said(
    ties: &mut Vec<Clause>,
    places: &InputPlaces,
    inputs: &[Bit],
    words: &[Vec<Bit>],
    c: &Celled,
) -> Result<(), AllocError>
    requires order { AreInOrder places.now }
    requires all { length inputs.now ≡ places.now.inputs }
    requires agrees { All (CanAgree places.now words.now) c.now.agrees.items }
    requires asked { All (CanBeAsked places.now words.now) c.now.asked.items }
    ensures value { OnOk result ((v : ℕ → Bool) → satisfied v ties.new.items ≡ ((satisfied v ties.old.items &&
        list_all (agrees_at places.now inputs.now words.now v) c.now.agrees.items) &&
        list_all (asked_at places.now inputs.now words.now v) c.now.asked.items)) }
    ensures over { OnOk result ((n : ℕ) → Within n inputs.now → AreWithin n words.now → AreOver n ties.old.items → AreOver n ties.new.items) }
{
    tie_agreements(ties, places, inputs, words, &c.agrees)?;
    tie_asked(ties, places, inputs, words, &c.asked)?;
    Ok(())
}
