//! The state of a search.
ghost use Rattle.std.specs.Prelude.{◌≡◌, ◌+◌, ◌≤◌, ◌^◌, [], length, vec_capacity, IfOk, IfSome, IfNone};
ghost use Rattle.clause_spec.specs.Clauses.{AreOnVariables};
ghost use Rattle.sat_core.specs.ClosedSets.{IsQuiet};
ghost use Rattle.sat_core.specs.Tables.{true_in};
ghost use Rattle.clause_spec.specs.UnitPropagation.{Includes};
ghost use Rattle.sat_core.specs.Steps.{IsConflictAt};
ghost use Rattle.sat_core.specs.Trails.{IsRun};
ghost use Rattle.sat_core.specs.Propagators.{IsSound};
ghost use Rattle.sat_core.specs.Solvers.{IsSolver};

use crate::propagator::Propagator;
use cnf_form::{Clause, Cnf};
use std::alloc::{AllocError, Global};

/// The greatest number of a log, which no variable and no id is above.
pub const GREATEST_NUMBER: u64 = 1 << 62;

/// A search for values that satisfy clauses.
#[derive(Drop)]
pub struct Solver {
    variables: u64,
    /// How many clauses may be learned.
    conflicts: u64,
    /// The clauses, with a trail on which it is tried what follows.
    pub(crate) main: Propagator,
    /// Of so many steps all watches were visited.
    done: usize,
}

/// A propagator of clauses over so many variables.
pub fn propagator_of(
    alloc: Global,
    clauses: &[Clause],
    variables: u64,
) -> Result<Propagator, AllocError>
    requires over { AreOnVariables variables clauses.now }
    requires few { variables ≤ 2 ^ 62 }
    ensures sound { IfOk result (λ p. IsSound p) }
    ensures size { IfOk result (λ p. length p.trail.table.items ≡ variables + 1) }
    ensures empty { IfOk result (λ p. p.trail.steps.items ≡ []) }
    ensures clauses { IfOk result (λ p. p.clauses.items ≡ clauses.now) }
{
    let mut propagator = Propagator::new(alloc, variables as usize + 1)?;
    for clause in clauses {
        propagator.add(Clause::from_slice(alloc, clause.lits())?)?;
    }
    Ok(propagator)
}

impl Solver {
    /// A search that may learn so many clauses. The only error is want of memory; more than 2^62 variables count as that.
    pub fn new(alloc: Global, cnf: &Cnf, conflicts: u64) -> Result<Solver, AllocError>
        requires some { 1 ≤ conflicts }
        requires over { AreOnVariables cnf.now.variables cnf.now.clauses.items }
        ensures solver { IfOk result (λ s. IsSolver s) }
        ensures clauses { IfOk result (λ s. s.main.clauses.items ≡ cnf.now.clauses.items) }
        ensures variables { IfOk result (λ s. s.variables ≡ cnf.now.variables) }
        ensures conflicts { IfOk result (λ s. s.conflicts ≡ conflicts) }
        ensures sound { IfOk result (λ s. IsSound s.main) }
        ensures empty { IfOk result (λ s. s.main.trail.steps.items ≡ []) }
        ensures size { IfOk result (λ s. length s.main.trail.table.items ≡ cnf.now.variables + 1) }
        ensures small { IfOk result (λ s. cnf.now.variables ≤ 2 ^ 62) }
    {
        if cnf.variables > GREATEST_NUMBER {
            return Err(AllocError);
        }
        Ok(Solver {
            variables: cnf.variables,
            conflicts,
            main: propagator_of(alloc, &cnf.clauses, cnf.variables)?,
            done: 0,
        })
    }

    /// Makes all literals true that follow by unit propagation. `Some` is the place of a clause whose literals are all false then; where it is `None`, no
    /// clause is a unit or false. Takes no memory.
    pub fn propagate(&mut self) -> Option<usize>
        requires { IsSolver self.old }
        ensures solver { IsSolver self.new }
        ensures clauses { self.new.main.clauses ≡ self.old.main.clauses }
        ensures variables { self.new.variables ≡ self.old.variables }
        ensures conflicts { self.new.conflicts ≡ self.old.conflicts }
        ensures room { vec_capacity self.new.main.trail.steps ≡ vec_capacity self.old.main.trail.steps }
        ensures grows { Includes (true_in self.old.main.trail.table.items) (true_in self.new.main.trail.table.items) }
        ensures run { IsRun self.old.main.clauses.items self.old.main.trail.steps.items self.new.main.trail.steps.items }
        ensures more { length self.old.main.trail.steps.items ≤ length self.new.main.trail.steps.items }
        ensures quiet { IfNone result (IsQuiet self.old.main.clauses.items (true_in self.new.main.trail.table.items)) }
        ensures conflict { IfSome result (λ k. IsConflictAt self.old.main.clauses.items (true_in self.new.main.trail.table.items) k) }
        ensures visited { IfNone result (self.new.done ≡ length self.new.main.trail.steps.items) }
    {
        match self.main.propagate(self.done) {
            Some(conflict) => {
                self.done = 0;
                Some(conflict)
            }
            None => {
                self.done = self.main.trail.steps.len();
                None
            }
        }
    }
}
