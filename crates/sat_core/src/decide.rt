//! Decides variables, the greatest first.
ghost use Rattle.std.specs.Prelude.{◌≡◌, ◌+◌, ◌≢◌, ◌-◌, ◌<◌, ◌≤◌, ◌^◌, ℕ, [], None, length, slice_index_or, IfOk, OnOk, IfSome, IfNone};
ghost use Rattle.sat_core.specs.Tables.{IsFilled};
ghost use Rattle.sat_core.specs.Descents.{IsDescent};
ghost use Rattle.sat_core.specs.Propagators.{IsSound};

use crate::propagator::Propagator;
use crate::trail::NO_CLAUSE;
use cnf_form::Lit;
use std::alloc::{AllocError, Global};

/// What a descent ends in.
#[derive(Drop)]
pub enum Descent {
    /// Every variable has a value, and no clause is false.
    Model,
    /// There is a conflict. These are the negations of the decisions.
    Blocked(Vec<Lit>),
}

/// The greatest variable that is open.
pub fn pick(table: &[Option<bool>]) -> Option<usize>
    ensures filled { IfNone result (IsFilled table.now) }
    ensures open { IfSome result (λ v. (1 ≤ v) × (v < length table.now) × (slice_index_or table.now v None ≡ None)) }
    ensures greatest { IfSome result (λ v. (k : ℕ) → v < k → k < length table.now → slice_index_or table.now k None ≢ None) }
{
    for v in (1..table.len()).rev() {
        if table[v].is_none() {
            return Some(v);
        }
    }
    None
}

/// Propagates and decides by turns, on a trail without steps. A variable is decided true. What an `Err` leaves is open.
pub fn descend(alloc: Global, propagator: &mut Propagator) -> Result<Descent, AllocError>
    requires sound { IsSound propagator.old }
    requires empty { propagator.old.trail.steps.items ≡ [] }
    requires few { length propagator.old.trail.table.items ≤ 2 ^ 62 + 1 }
    ensures sound { OnOk result (IsSound propagator.new) }
    ensures clauses { propagator.new.clauses ≡ propagator.old.clauses }
    ensures size { length propagator.new.trail.table.items ≡ length propagator.old.trail.table.items }
    ensures descent { IfOk result (IsDescent propagator.old.clauses.items propagator.new.trail.table.items) }
{
    let mut full = Vec::new(alloc);
    let mut from = 0;
    loop {
        if let Some(_) = propagator.propagate(from) {
            return Ok(Descent::Blocked(full));
        }
        let Some(variable) = pick(&propagator.trail.table) else {
            return Ok(Descent::Model);
        };
        let decision = Lit::new(variable as u64, true);
        full.push(decision.opposite())?;
        from = propagator.trail.steps.len();
        propagator.trail.push(NO_CLAUSE, decision);
    }
}
