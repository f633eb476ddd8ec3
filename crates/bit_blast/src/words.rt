//! The circuits of lists of nodes.
ghost use Rattle.std.specs.Prelude.{◌≡◌, length, Contains, IfOk, OnOk};
ghost use Rattle.term_spec.specs.Terms.{TermNode};
ghost use Rattle.term_spec.specs.Cells.{IsOfWords};
ghost use Rattle.gates.specs.Circuits.{next, Within};
ghost use Rattle.bit_blast.specs.Places.{AreInOrder, IsNamed};
ghost use Rattle.bit_blast.specs.BitWords.{AreBlasted};

use crate::input_places::InputPlaces;
use crate::nodes::word_of;
use gates::{Bit, Circuit};
use std::alloc::{AllocError, Global};
use term_dag::{Dag, Term};

/// The words of terms, each over those before it, where bits stand for the inputs. The error is want of memory, which 2^32 terms are.
pub fn words_of(
    alloc: Global,
    circuit: &mut Circuit,
    places: &InputPlaces,
    inputs: &[Bit],
    dag: &Dag,
) -> Result<Vec<Vec<Bit>>, AllocError>
    requires of_words { (n : TermNode) → Contains dag.now n → IsOfWords n }
    requires named { (n : TermNode) → Contains dag.now n → IsNamed places.now n }
    requires order { AreInOrder places.now }
    requires all { length inputs.now ≡ places.now.inputs }
    requires within { Within (next circuit.old) inputs.now }
    ensures { IfOk result (λ ws. AreBlasted places.now inputs.now circuit.old circuit.new dag.now ws.items) }
{
    let count = dag.nodes();
    if count > u32::MAX as usize {
        return Err(AllocError);
    }
    let mut words = Vec::with_capacity(alloc, count)?;
    for i in 0..count {
        let node = dag.node(Term(i as u32));
        let word = word_of(alloc, circuit, places, inputs, &words, node)?;
        words.push(word)?;
    }
    Ok(words)
}
