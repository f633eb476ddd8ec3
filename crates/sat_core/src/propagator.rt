//! Clauses that are propagated.
ghost use Rattle.std.specs.Prelude.{◌≡◌, Bool, take, reverse, ◌-◌, ◌+◌, ◌≤◌, ◌^◌, ◌∷◌, ◌++◌, [], false, true, length, vec_capacity, IfOk, OnOk, IfSome, IfNone};
ghost use Rattle.clause_spec.specs.Clauses.{Literal, same, has, IsOnVariables};
ghost use Rattle.clause_spec.specs.UnitPropagation.{Includes};
ghost use Rattle.sat_core.specs.ClosedSets.{IsQuiet};
ghost use Rattle.sat_core.specs.Links.{AreKept};
ghost use Rattle.sat_core.specs.Steps.{told, IsConflictAt};
ghost use Rattle.sat_core.specs.Tables.{true_in};
ghost use Rattle.sat_core.specs.Trails.{nothing, IsRun};
ghost use Rattle.sat_core.specs.Moves.{IsShort, AreMet};
ghost use Rattle.sat_core.specs.Propagators.{IsSound};

use crate::propagate::propagate;
use crate::trail::Trail;
use crate::watches::Watches;
use cnf_form::{Clause, Lit};
use std::alloc::{AllocError, Global};

/// Clauses with their watches, and the literals that became true.
#[derive(Drop)]
pub struct Propagator {
    pub clauses: Vec<Clause>,
    /// The places of the clauses that have no two different literals.
    pub short: Vec<usize>,
    pub watches: Watches,
    pub trail: Trail,
}

/// The first literal of a clause, and the first that is another one.
fn first_two(clause: &[Lit]) -> Option<(Lit, Lit)>
    ensures none { IfNone result (IsShort clause.now) }
    ensures first { IfSome result (λ p. has clause.now p.0 ≡ true) }
    ensures second { IfSome result (λ p. has clause.now p.1 ≡ true) }
    ensures apart { IfSome result (λ p. same p.0 p.1 ≡ false) }
{
    if clause.is_empty() {
        return None;
    }
    let first = clause[0];
    for lit in clause {
        if !first.is_same(*lit) {
            return Some((first, *lit));
        }
    }
    None
}

impl Propagator {
    /// No clauses. `size` is one more than the number of variables.
    pub fn new(alloc: Global, size: usize) -> Result<Propagator, AllocError>
        requires { size ≤ 2 ^ 62 + 1 }
        ensures sound { IfOk result (λ p. IsSound p) }
        ensures size { IfOk result (λ p. length p.trail.table.items ≡ size) }
        ensures steps { IfOk result (λ p. p.trail.steps.items ≡ []) }
        ensures clauses { IfOk result (λ p. p.clauses.items ≡ []) }
    {
        Ok(Propagator {
            clauses: Vec::new(alloc),
            short: Vec::new(alloc),
            watches: Watches::new(alloc, size)?,
            trail: Trail::new(alloc, size)?,
        })
    }

    /// Adds a clause. What an `Err` leaves is open.
    pub fn add(&mut self, clause: Clause) -> Result<(), AllocError>
        requires sound { IsSound self.old }
        requires over { IsOnVariables (length self.old.trail.table.items - 1) clause }
        ensures sound { OnOk result (IsSound self.new) }
        ensures clauses { OnOk result (self.new.clauses.items ≡ self.old.clauses.items ++ clause ∷ []) }
        ensures trail { self.new.trail ≡ self.old.trail }
    {
        let place = self.clauses.len();
        let two = first_two(clause.lits());
        self.clauses.push(clause)?;
        match two {
            None => {
                self.short.push(place)?;
                Ok(())
            }
            Some(pair) => {
                self.watches.add(place, pair.0, pair.1)?;
                Ok(())
            }
        }
    }

    /// Propagates until no clause is a unit, or one is a conflict, whose place is the answer. Of the first `from` steps all watches were visited. Takes no
    /// memory.
    ///
    /// `cuts` speaks of all that was true at some time before: what was kept of it is kept.
    pub fn propagate(&mut self, from: usize) -> Option<usize>
        requires sound { IsSound self.old }
        requires from { from ≤ length self.old.trail.steps.items }
        requires kept { AreKept self.old.watches.watched.items [] (told nothing (reverse (take from self.old.trail.steps.items)))
            (true_in self.old.trail.table.items) }
        ensures sound { IsSound self.new }
        ensures clauses { self.new.clauses ≡ self.old.clauses }
        ensures short { self.new.short ≡ self.old.short }
        ensures size { length self.new.trail.table.items ≡ length self.old.trail.table.items }
        ensures room { vec_capacity self.new.trail.steps ≡ vec_capacity self.old.trail.steps }
        ensures grows { Includes (true_in self.old.trail.table.items) (true_in self.new.trail.table.items) }
        ensures run { IsRun self.old.clauses.items self.old.trail.steps.items self.new.trail.steps.items }
        ensures kept { IfNone result (AreKept self.new.watches.watched.items [] (true_in self.new.trail.table.items) (true_in self.new.trail.table.items)) }
        ensures met { IfNone result (AreMet self.old.clauses.items self.old.short.items (true_in self.new.trail.table.items)) }
        ensures quiet { IfNone result (IsQuiet self.old.clauses.items (true_in self.new.trail.table.items)) }
        ensures cuts { (done holds : Literal → Bool) → Includes done (true_in self.old.trail.table.items) →
            Includes holds (true_in self.old.trail.table.items) →
            AreKept self.old.watches.watched.items [] done holds → AreKept self.new.watches.watched.items [] done holds }
        ensures conflict { IfSome result (λ k. IsConflictAt self.old.clauses.items (true_in self.new.trail.table.items) k) }
    {
        propagate(
            &self.clauses,
            &self.short,
            &mut self.watches,
            &mut self.trail,
            from,
        )
    }
}
