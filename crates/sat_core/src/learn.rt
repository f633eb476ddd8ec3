//! Learns clauses that are told by a search, if they follow and say something new.
ghost use Rattle.std.specs.Prelude.{◌≡◌, ◌-◌, [], true, false, length, IfOk, OnOk, IfSome};
ghost use Rattle.clause_spec.specs.Clauses.{has, IsOnVariables};
ghost use Rattle.clause_spec.specs.Refutation.{is_tautology};
ghost use Rattle.sat_core.specs.Descents.{IsDecided};
ghost use Rattle.sat_core.specs.Answers.{IsLearned};
ghost use Rattle.sat_core.specs.Propagators.{IsSound};

use crate::minimise::{Learned, minimise, refute};
use crate::propagator::Propagator;
use crate::table::is_true;
use cnf_form::Lit;
use std::alloc::{AllocError, Global};

/// Whether each literal is over one of the variables below the size.
fn are_over(lits: &[Lit], size: usize) -> bool
    ensures { result ≡ true → IsOnVariables (size - 1) lits.now }
{
    for lit in lits {
        if lit.variable() as usize >= size {
            return false;
        }
    }
    true
}

/// Whether a literal is among others.
fn is_among(lits: &[Lit], lit: Lit) -> bool
    ensures { result ≡ has lits.now lit }
{
    for other in lits {
        if other.is_same(lit) {
            return true;
        }
    }
    false
}

/// Whether some literal stands before its negation.
fn has_both(lits: &[Lit]) -> bool
    ensures { result ≡ is_tautology lits.now }
{
    for (i, lit) in lits.iter().enumerate() {
        if is_among(&lits[i + 1..], lit.opposite()) {
            return true;
        }
    }
    false
}

/// Whether propagation from the negations of all literals but the last gives no conflict, and not the last one. The trail has no steps, before and after.
fn is_news(propagator: &mut Propagator, lits: &[Lit]) -> bool
    requires sound { IsSound propagator.old }
    requires empty { propagator.old.trail.steps.items ≡ [] }
    requires within { IsOnVariables (length propagator.old.trail.table.items - 1) lits.now }
    requires plain { is_tautology lits.now ≡ false }
    ensures sound { IsSound propagator.new }
    ensures empty { propagator.new.trail.steps.items ≡ [] }
    ensures clauses { propagator.new.clauses ≡ propagator.old.clauses }
    ensures size { length propagator.new.trail.table.items ≡ length propagator.old.trail.table.items }
    ensures decided { result ≡ true → IsDecided propagator.old.clauses.items lits.now }
{
    if lits.is_empty() {
        return true;
    }
    let last = lits[lits.len() - 1];
    propagator.trail.deny(&lits[..lits.len() - 1]);
    match propagator.propagate(0) {
        Some(_) => {
            propagator.trail.back_to(0);
            false
        }
        None => {
            let is_open = !is_true(&propagator.trail.table, last);
            propagator.trail.back_to(0);
            is_open
        }
    }
}

/// Learns what is needed of a clause. `None` is the answer where it does not follow by unit propagation, or where propagation from all its literals but the
/// last has it already. The trail has no steps, before and after. What an `Err` leaves is open.
pub fn learn(
    alloc: Global,
    propagator: &mut Propagator,
    lits: &[Lit],
) -> Result<Option<Learned>, AllocError>
    requires sound { IsSound propagator.old }
    requires empty { propagator.old.trail.steps.items ≡ [] }
    ensures sound { OnOk result (IsSound propagator.new) }
    ensures empty { OnOk result (propagator.new.trail.steps.items ≡ []) }
    ensures clauses { propagator.new.clauses ≡ propagator.old.clauses }
    ensures size { length propagator.new.trail.table.items ≡ length propagator.old.trail.table.items }
    ensures learned { IfOk result (λ o. IfSome o (λ r. IsLearned propagator.old.clauses.items
        (length propagator.old.trail.table.items - 1) r.lits.items r.hints.items)) }
{
    if !are_over(lits, propagator.trail.table.len()) {
        return Ok(None);
    }
    if has_both(lits) {
        return Ok(None);
    }
    if !is_news(propagator, lits) {
        return Ok(None);
    }
    let Some(_hints) = refute(alloc, propagator, lits)? else {
        return Ok(None);
    };
    let learned = minimise(alloc, propagator, lits)?;
    Ok(Some(learned))
}
