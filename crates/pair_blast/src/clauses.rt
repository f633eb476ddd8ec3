//! The clauses of a question about two functions.
ghost use Rattle.std.specs.Prelude.{◌≡◌, ℕ, ◌+◌, ◌↔◌, Bool, true, List, [], IfOk, OnOk};
ghost use Rattle.call_spec.specs.Calls.{DifferenceOfExits};
ghost use Rattle.term_spec.specs.Terms.{term_gates};
ghost use Rattle.term_spec.specs.Cells.{AreFormed};
ghost use Rattle.pair_spec.specs.Links.{Link};
ghost use Rattle.pair_spec.specs.PairTerms.{HaveWidths, MakesPairTrue, TellsPair, exit_widths, first_reading, second_reading};
ghost use Rattle.std.specs.List.{flat_map};
ghost use Rattle.cnf_form.specs.Views.{cnf_of};
ghost use Rattle.gates.specs.Circuits.{next, Grows, Holds};
ghost use Rattle.gates.specs.Pushes.{satisfied, AreOver};
ghost use Rattle.bit_blast.specs.Laid.{ArePlaces};
ghost use Rattle.pair_form.specs.Views.{AreOfProgram, pair_question_of, program_of_side_cells, side_cells_of};
ghost use Rattle.pair_blast.specs.PairWords.{HaveSameWidths, bits_compared};

use crate::ends::tie_exits;
use crate::sides::{first_words, second_words};
use bit_blast::{InputPlaces, places_of};
use cnf_form::{Clause, Cnf};
use gates::Circuit;
use pair_form::{PairKind, SideCells};
use std::alloc::{AllocError, Global};

/// A circuit for the inputs of both sides.
fn circuit_of(
    alloc: Global,
    first: &InputPlaces,
    second: &InputPlaces,
) -> Result<Circuit, AllocError>
    ensures { IfOk result (λ c. c ≡ record { inputs = first.now.inputs + second.now.inputs; gates = [] }) }
{
    match first.inputs.checked_add(second.inputs) {
        Some(count) => Ok(Circuit::new(alloc, count)?),
        None => Err(AllocError),
    }
}

/// Makes the words of both sides, and adds the clauses that the question is true.
fn tie_sides(
    circuit: &mut Circuit,
    ties: &mut Vec<Clause>,
    first_places: &InputPlaces,
    second_places: &InputPlaces,
    first: &SideCells,
    second: &SideCells,
    kind: PairKind,
) -> Result<(), AllocError>
    requires first_of { AreOfProgram first.now.celled }
    requires second_of { AreOfProgram second.now.celled }
    requires first_formed { AreFormed (program_of_side_cells first.now) (side_cells_of first.now).cells }
    requires second_formed { AreFormed (program_of_side_cells second.now) (side_cells_of second.now).cells }
    requires entries { HaveSameWidths (side_cells_of first.now).cells.nodes (side_cells_of first.now).entries
        (side_cells_of second.now).cells.nodes (side_cells_of second.now).entries }
    requires exits { pair_question_of kind ≡ DifferenceOfExits → HaveSameWidths (side_cells_of first.now).cells.nodes (side_cells_of first.now).exits
        (side_cells_of second.now).cells.nodes (side_cells_of second.now).exits }
    requires first_placed { ArePlaces (program_of_side_cells first.now) (side_cells_of first.now).cells first_places.now }
    requires second_placed { ArePlaces (program_of_side_cells second.now) (side_cells_of second.now).cells second_places.now }
    requires all { circuit.old.inputs ≡ first_places.now.inputs + second_places.now.inputs }
    ensures grows { OnOk result (Grows circuit.old circuit.new (term_gates (side_cells_of first.now).cells.nodes
        + term_gates (side_cells_of second.now).cells.nodes
        + bits_compared (pair_question_of kind) (side_cells_of first.now).cells.nodes first.now.exits.items)) }
    ensures value { OnOk result ((v : ℕ → Bool) → Holds v circuit.new → (satisfied v ties.new.items ≡ true) ↔ ((satisfied v ties.old.items ≡ true) ×
        MakesPairTrue (pair_question_of kind) (side_cells_of first.now) (side_cells_of second.now)
        (first_reading (program_of_side_cells first.now) (side_cells_of first.now) v)
        (second_reading (program_of_side_cells first.now) (side_cells_of first.now) (program_of_side_cells second.now) (side_cells_of second.now) v))) }
    ensures over { OnOk result (AreOver (next circuit.old) ties.old.items → AreOver (next circuit.new) ties.new.items) }
{
    let words = first_words(circuit, ties, first_places, &first.celled)?;
    let before = first_places.inputs;
    let others = second_words(circuit, ties, second_places, &words, first, before, second)?;
    tie_exits(
        circuit,
        ties,
        &words,
        &others,
        &first.exits,
        &second.exits,
        kind,
    )?;
    Ok(())
}

/// The clauses of a question about two functions. Their first variables are the inputs of the first side and then those of the second, each side's in the order
/// of `bit_blast::blast`. Values of the inputs extend to the other variables in at most one way that satisfies the clauses, and exactly where they make both
/// sides true, the linked words of the entries equal and, for a difference, some of the words of the exits different. Besides the inputs there is a variable
/// for each gate, and one more; the links have at most 512 gates each, and as many for each of their bytes.
///
/// # Errors
///
/// Out of memory, which more than 2^31 variables are.
pub fn blast_two(
    alloc: Global,
    first: &SideCells,
    second: &SideCells,
    kind: PairKind,
) -> Result<Cnf, AllocError>
    requires first_of { AreOfProgram first.now.celled }
    requires second_of { AreOfProgram second.now.celled }
    requires first_formed { AreFormed (program_of_side_cells first.now) (side_cells_of first.now).cells }
    requires second_formed { AreFormed (program_of_side_cells second.now) (side_cells_of second.now).cells }
    requires entries { HaveSameWidths (side_cells_of first.now).cells.nodes (side_cells_of first.now).entries
        (side_cells_of second.now).cells.nodes (side_cells_of second.now).entries }
    requires exits { pair_question_of kind ≡ DifferenceOfExits → HaveSameWidths (side_cells_of first.now).cells.nodes (side_cells_of first.now).exits
        (side_cells_of second.now).cells.nodes (side_cells_of second.now).exits }
    ensures { (links : List Link) → (pair_question_of kind ≡ DifferenceOfExits →
        HaveWidths (side_cells_of first.now).cells.nodes (side_cells_of first.now).exits (flat_map exit_widths links)) →
        IfOk result (λ f. TellsPair (program_of_side_cells first.now) (program_of_side_cells second.now) links (pair_question_of kind)
        (side_cells_of first.now) (side_cells_of second.now) (cnf_of f)) }
{
    let first_places = places_of(alloc, &first.celled)?;
    let second_places = places_of(alloc, &second.celled)?;
    let mut circuit = circuit_of(alloc, &first_places, &second_places)?;
    let mut ties = Vec::new(alloc);
    tie_sides(
        &mut circuit,
        &mut ties,
        &first_places,
        &second_places,
        first,
        second,
        kind,
    )?;
    let root = circuit.constant(true);
    let cnf = circuit.cnf(ties, root)?;
    Ok(cnf)
}
