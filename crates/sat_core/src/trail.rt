//! The literals that became true, in order.
ghost use Rattle.std.specs.Prelude.{◌≡◌, ◌-◌, ◌≤◌, ◌+◌, ◌<◌, ◌^◌, ◌∷◌, ◌++◌, [], false, List, length, take, IfOk, vec_capacity};
ghost use Rattle.clause_spec.specs.Clauses.{Literal, opposite, IsOnVariables};
ghost use Rattle.clause_spec.specs.Refutation.{added, is_tautology};
ghost use Rattle.clause_spec.specs.UnitPropagation.{Includes, negations};
ghost use Rattle.sat_core.specs.Tables.{true_in};
ghost use Rattle.sat_core.specs.Trails.{IsTrail};
ghost use Rattle.sat_core.specs.declared.trail.Step.{Step};

use crate::table::{assign, is_true};
use cnf_form::Lit;
use std::alloc::{AllocError, Global};

/// A literal that became true.
#[derive(Clone, Copy)]
pub struct Step {
    /// The place, from 0 on, of a clause whose other literals were false. Of a literal that was taken as true it is `NO_CLAUSE`.
    pub clause: usize,
    /// The literal.
    pub lit: Lit,
}

/// No clause has this place.
pub const NO_CLAUSE: usize = usize::MAX;

/// The variables' values, and the steps that made them.
#[derive(Drop)]
pub struct Trail {
    /// For each variable, from the number 1 on, its value.
    pub table: Vec<Option<bool>>,
    pub steps: Vec<Step>,
}

impl Trail {
    /// A trail without steps. `size` is one more than the number of variables.
    pub fn new(alloc: Global, size: usize) -> Result<Trail, AllocError>
        ensures trail { IfOk result (λ t. IsTrail t.table.items t.steps.items (vec_capacity t.steps)) }
        ensures size { IfOk result (λ t. length t.table.items ≡ size) }
        ensures empty { IfOk result (λ t. t.steps.items ≡ []) }
    {
        Ok(Trail {
            table: vec![in alloc; None; size]?,
            steps: Vec::with_capacity(alloc, size)?,
        })
    }

    /// A literal that was open becomes true by a clause. Takes no memory.
    pub fn push(&mut self, clause: usize, lit: Lit)
        requires trail { IsTrail self.old.table.items self.old.steps.items (vec_capacity self.old.steps) }
        requires within { lit.variable < length self.old.table.items }
        requires open { true_in self.old.table.items lit ≡ false }
        requires not_false { true_in self.old.table.items (opposite lit) ≡ false }
        ensures trail { IsTrail self.new.table.items self.new.steps.items (vec_capacity self.new.steps) }
        ensures steps { self.new.steps.items ≡ self.old.steps.items ++ record { clause = clause; lit = lit } ∷ [] }
        ensures size { length self.new.table.items ≡ length self.old.table.items }
        ensures room { vec_capacity self.new.steps ≡ vec_capacity self.old.steps }
        ensures values { (m : Literal) → true_in self.new.table.items m ≡ added lit (true_in self.old.table.items) m }
    {
        assign(self.table.as_mut_slice(), lit);
        self.steps.push_reserved(Step { clause, lit });
    }

    /// Takes back all steps behind the first `count`.
    pub fn back_to(&mut self, count: usize)
        requires trail { IsTrail self.old.table.items self.old.steps.items (vec_capacity self.old.steps) }
        ensures trail { IsTrail self.new.table.items self.new.steps.items (vec_capacity self.new.steps) }
        ensures steps { self.new.steps.items ≡ take count self.old.steps.items }
        ensures size { length self.new.table.items ≡ length self.old.table.items }
    {
        while self.steps.len() > count {
            let Some(step) = self.steps.pop() else {
                return;
            };
            self.table[step.lit.variable() as usize] = None;
        }
    }

    /// Makes every literal of a clause false on a trail without steps. Takes no memory.
    pub fn deny(&mut self, clause: &[Lit])
        requires trail { IsTrail self.old.table.items self.old.steps.items (vec_capacity self.old.steps) }
        requires empty { self.old.steps.items ≡ [] }
        requires within { IsOnVariables (length self.old.table.items - 1) clause.now }
        requires plain { is_tautology clause.now ≡ false }
        ensures trail { IsTrail self.new.table.items self.new.steps.items (vec_capacity self.new.steps) }
        ensures size { length self.new.table.items ≡ length self.old.table.items }
        ensures values { (m : Literal) → true_in self.new.table.items m ≡ negations clause.now m }
    {
        for lit in clause {
            if is_true(&self.table, lit.opposite()) {
                continue;
            }
            self.push(NO_CLAUSE, lit.opposite());
        }
    }

    /// Makes every literal of a clause false. `true` is the answer where it comes to one that is true. Takes no memory.
    pub fn refuse(&mut self, clause: &[Lit]) -> bool
        requires trail { IsTrail self.old.table.items self.old.steps.items (vec_capacity self.old.steps) }
        requires within { IsOnVariables (length self.old.table.items - 1) clause.now }
        ensures trail { IsTrail self.new.table.items self.new.steps.items (vec_capacity self.new.steps) }
        ensures steps { (more : List Step) × (self.new.steps.items ≡ self.old.steps.items ++ more) }
        ensures size { length self.new.table.items ≡ length self.old.table.items }
        ensures grows { Includes (true_in self.old.table.items) (true_in self.new.table.items) }
        ensures denied { result ≡ false → Includes (negations clause.now) (true_in self.new.table.items) }
    {
        for lit in clause {
            if is_true(&self.table, *lit) {
                return true;
            }
            if is_true(&self.table, lit.opposite()) {
                continue;
            }
            self.push(NO_CLAUSE, lit.opposite());
        }
        false
    }
}
