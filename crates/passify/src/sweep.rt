//! What is kept of the points while they are handled in their order.

ghost use Rattle.std.specs.Prelude.{◌≡◌, ◌≤◌, ◌<◌, ◌+◌, ◌*◌, IfOk, IfSome, length};
ghost use Rattle.term_spec.specs.Terms.{HasWidth};
ghost use Rattle.walk_spec.specs.Unrolled.{WalkTurns};
ghost use Rattle.passify.specs.Sweeps.{AreTermsOf, AreWell, ComesTo, Hands, HasEvent, IsJoined, Steps, term_at, bits_of, terms_of};

use crate::bits::either;
use crate::spans::Span;
use std::alloc::{AllocError, Global};
use term_dag::{Dag, Term};
use term_names::{Names, copied, selected};

/// The terms of the state at entry and of its address; for each point whether it is met, and for those that are still to be handled, and were come to, the
/// terms of what is carried there; whether an event came in the entry's segment, whether one came in a segment from a head, and whether one backward transfer
/// too many did. Beside these the bytes that the frame's own contract may write, by the state at entry; none where it has none.
#[derive(Drop)]
pub struct Sweep {
    pub entry: Names,
    pub at: u32,
    pub pc: Term,
    pub met: Vec<Term>,
    pub states: Vec<Option<Names>>,
    pub fails: Term,
    pub steps: Term,
    pub turns: Term,
    pub own: Vec<Span>,
}

/// An event comes where the bit is 1.
pub fn fail(dag: &mut Dag, sweep: &mut Sweep, hit: Term) -> Result<(), AllocError>
    requires well { AreWell dag.old sweep.old }
    requires hit { HasWidth dag.old 1 hit.0 }
    ensures steps { IfOk result (λ _. Steps dag.old dag.new sweep.old sweep.new 1 0 0 0 2 (λ m. ⊥)) }
    ensures hands { IfOk result (λ _. Hands dag.old dag.new sweep.old sweep.new hit.0 (λ from x w b. HasEvent w)) }
{
    sweep.fails = either(dag, sweep.fails, hit)?;
    Ok(())
}

/// One backward transfer too many comes where the bit is 1.
pub fn turn(dag: &mut Dag, sweep: &mut Sweep, hit: Term) -> Result<(), AllocError>
    requires well { AreWell dag.old sweep.old }
    requires hit { HasWidth dag.old 1 hit.0 }
    ensures steps { IfOk result (λ _. Steps dag.old dag.new sweep.old sweep.new 1 0 0 0 2 (λ m. ⊥)) }
    ensures hands { IfOk result (λ _. Hands dag.old dag.new sweep.old sweep.new hit.0 (λ from x w b. w ≡ WalkTurns)) }
{
    sweep.turns = either(dag, sweep.turns, hit)?;
    Ok(())
}

/// The terms of what is carried to a place where the bit is 1, and else of what was carried there before, where the place was met. The first to come has its
/// terms copied; a later one is told from those before by a bit that tells no more than that.
fn joined(
    alloc: Global,
    dag: &mut Dag,
    hit: Term,
    met: Term,
    names: &Names,
    state: &Option<Names>,
) -> Result<Names, AllocError>
    requires hit { HasWidth dag.old 1 hit.0 }
    requires met { HasWidth dag.old 1 met.0 }
    requires names { AreTermsOf names.now dag.old names.now }
    requires state { IfSome state.now (λ n. AreTermsOf names.now dag.old n) }
    ensures { IfOk result (λ n. IsJoined names.now dag.old dag.new hit.0 met.0 names.now state.now n) }
{
    match state {
        None => {
            let names = copied(alloc, names)?;
            Ok(names)
        }
        Some(state) => {
            let first = dag.separator(hit, met);
            let names = selected(alloc, dag, first, names, state)?;
            Ok(names)
        }
    }
}

/// The walk comes to a place where the bit is 1, with what the terms denote.
pub fn arrive(
    alloc: Global,
    dag: &mut Dag,
    sweep: &mut Sweep,
    hit: Term,
    names: &Names,
    place: u32,
) -> Result<(), AllocError>
    requires well { AreWell dag.old sweep.old }
    requires hit { HasWidth dag.old 1 hit.0 }
    requires names { AreTermsOf sweep.old.entry dag.old names.now }
    requires place { place < length sweep.old.met.items }
    ensures steps { IfOk result (λ _. Steps dag.old dag.new sweep.old sweep.new (bits_of names.now + 1) 0 0 1 (2 * terms_of names.now + 2) (λ m. ⊥)) }
    ensures hands { IfOk result (λ _. Hands dag.old dag.new sweep.old sweep.new hit.0 (ComesTo dag.old names.now place)) }
{
    let place = place as usize;
    let met = sweep.met[place];
    let state = joined(alloc, dag, hit, met, names, &sweep.states[place])?;
    sweep.met[place] = either(dag, met, hit)?;
    sweep.states[place] = Some(state);
    Ok(())
}
