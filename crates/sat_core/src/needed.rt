//! Whether a clause can lose no literal.
ghost use Rattle.std.specs.Prelude.{◌≡◌, ◌-◌, [], true, false, length};
ghost use Rattle.clause_spec.specs.Clauses.{Literal, IsOnVariables};
ghost use Rattle.clause_spec.specs.UnitPropagation.{Includes, negations};
ghost use Rattle.sat_core.specs.Kept.{IsNeeded};
ghost use Rattle.sat_core.specs.Tables.{true_in};
ghost use Rattle.sat_core.specs.Propagators.{IsSound};
ghost use Rattle.sat_core.specs.Trials.{IsCalm, IsLater, also, AreTested};

use crate::propagator::Propagator;
use cnf_form::Lit;

/// Makes all literals false, and propagates. `true` is the answer where one of them is true, or a conflict follows. Takes no memory.
fn assume(propagator: &mut Propagator, lits: &[Lit]) -> bool
    requires sound { IsSound propagator.old }
    requires calm { IsCalm propagator.old }
    requires within { IsOnVariables (length propagator.old.trail.table.items - 1) lits.now }
    ensures later { IsLater propagator.old propagator.new }
    ensures calm { result ≡ false → IsCalm propagator.new }
    ensures denied { result ≡ false → Includes (negations lits.now) (true_in propagator.new.trail.table.items) }
{
    let from = propagator.trail.steps.len();
    if propagator.trail.refuse(lits) {
        return true;
    }
    match propagator.propagate(from) {
        Some(_) => true,
        None => false,
    }
}

/// Tests some literals where others are false, and takes back what that made true. Takes no memory.
#[cycle(needed)]
fn are_needed_where(propagator: &mut Propagator, lits: &[Lit], assumed: &[Lit]) -> bool
    requires sound { IsSound propagator.old }
    requires calm { IsCalm propagator.old }
    requires within { IsOnVariables (length propagator.old.trail.table.items - 1) lits.now }
    requires over { IsOnVariables (length propagator.old.trail.table.items - 1) assumed.now }
    ensures later { IsLater propagator.old propagator.new }
    ensures back { propagator.new.trail.steps.items ≡ propagator.old.trail.steps.items }
    ensures tested { result ≡ true → AreTested propagator.old.clauses.items (also (true_in propagator.old.trail.table.items) assumed.now) lits.now }
{
    let mark = propagator.trail.steps.len();
    if assume(propagator, assumed) {
        propagator.trail.back_to(mark);
        return false;
    }
    let are_tested = are_needed(propagator, lits);
    propagator.trail.back_to(mark);
    are_tested
}

/// Whether propagation gives no conflict from the negations of all literals but one, whichever, and of those that are false already. Each half is tested where
/// the other one is false. Takes no memory.
#[cycle(needed)]
fn are_needed(propagator: &mut Propagator, lits: &[Lit]) -> bool
    requires sound { IsSound propagator.old }
    requires calm { IsCalm propagator.old }
    requires within { IsOnVariables (length propagator.old.trail.table.items - 1) lits.now }
    ensures later { IsLater propagator.old propagator.new }
    ensures back { propagator.new.trail.steps.items ≡ propagator.old.trail.steps.items }
    ensures tested { result ≡ true → AreTested propagator.old.clauses.items (true_in propagator.old.trail.table.items) lits.now }
{
    if lits.len() < 2 {
        return true;
    }
    let half = lits.len() / 2;
    if !are_needed_where(propagator, &lits[half..], &lits[..half]) {
        return false;
    }
    are_needed_where(propagator, &lits[..half], &lits[half..])
}

/// Whether a clause is found to follow by unit propagation without none of its literals. The trail has no steps, before and after. Takes no memory.
pub fn is_least(propagator: &mut Propagator, lits: &[Lit]) -> bool
    requires sound { IsSound propagator.old }
    requires empty { propagator.old.trail.steps.items ≡ [] }
    requires within { IsOnVariables (length propagator.old.trail.table.items - 1) lits.now }
    ensures sound { IsSound propagator.new }
    ensures empty { propagator.new.trail.steps.items ≡ [] }
    ensures clauses { propagator.new.clauses ≡ propagator.old.clauses }
    ensures size { length propagator.new.trail.table.items ≡ length propagator.old.trail.table.items }
    ensures needed { result ≡ true → (l : Literal) → IsNeeded propagator.old.clauses.items lits.now l }
{
    match propagator.propagate(0) {
        Some(_) => {
            propagator.trail.back_to(0);
            false
        }
        None => {
            let is_needed = are_needed(propagator, lits);
            propagator.trail.back_to(0);
            is_needed
        }
    }
}
