//! The hints of a learned clause.
ghost use Rattle.std.specs.Prelude.{◌≡◌, ◌-◌, ℕ, Bool, None, true, false, length, map, reverse, slice_index_or, IfOk};
ghost use Rattle.std.specs.List.{list_all};
ghost use Rattle.clause_spec.specs.Clauses.{Literal, has, AreOnVariables, IsOnVariables};
ghost use Rattle.clause_spec.specs.Refutation.{judge_hints, at_start};
ghost use Rattle.cnf_form.specs.Views.{hint_of};
ghost use Rattle.sat_core.specs.Steps.{IsWay};
ghost use Rattle.sat_core.specs.Kept.{names};

use crate::trail::Step;
use cnf_form::{Clause, Hint, Lit};
use std::alloc::{AllocError, Global};

/// Marks the variables of a clause. No mark is taken away.
fn mark(needed: &mut [bool], clause: &[Lit])
    requires { IsOnVariables (length needed.old - 1) clause.now }
    ensures stays { (v : ℕ) → slice_index_or needed.old v false ≡ true → slice_index_or needed.new v false ≡ true }
    ensures marked { (l : Literal) → has clause.now l ≡ true → slice_index_or needed.new l.variable false ≡ true }
{
    for lit in clause {
        needed[lit.variable() as usize] = true;
    }
}

/// The hints that lead to the conflict at a clause: of the steps before it, those that it needs, and no others.
///
/// Going backwards, a step is needed where its variable stands in the clause of the conflict, or of a step that is needed. `size` is one more than the number
/// of variables.
pub fn prune(
    alloc: Global,
    clauses: &[Clause],
    size: usize,
    mut steps: Vec<Step>,
    clause: usize,
) -> Result<Vec<Hint>, AllocError>
    requires over { AreOnVariables (size - 1) clauses.now }
    requires way { (given : Literal → Bool) × IsWay clauses.now given (reverse steps.items) clause }
    ensures judged { IfOk result (λ hints. (given : Literal → Bool) → IsWay clauses.now given (reverse steps.items) clause →
        judge_hints (at_start clauses.now) given (map hint_of hints.items) ≡ None) }
    ensures named { IfOk result (λ hints. list_all (names (length clauses.now)) hints.items ≡ true) }
{
    let mut slots = vec![in alloc; false; size]?;
    let needed = slots.as_mut_slice();
    let mut hints = Vec::new(alloc);
    mark(needed, clauses[clause].lits());
    hints.push(Hint::ById(clause as u64 + 1))?;
    while let Some(step) = steps.pop() {
        if !needed[step.lit.variable() as usize] {
            continue;
        }
        mark(needed, clauses[step.clause].lits());
        hints.push(Hint::ById(step.clause as u64 + 1))?;
    }
    hints.reverse();
    Ok(hints)
}
