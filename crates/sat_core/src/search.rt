//! The search.
ghost use Rattle.std.specs.Prelude.{◌≡◌, ◌+◌, ◌-◌, ◌≤◌, ◌^◌, [], length, IfOk, OnOk, IfSome};
ghost use Rattle.clause_spec.specs.Clauses.{AreOnVariables};
ghost use Rattle.cnf_form.specs.Views.{cnf_of};
ghost use Rattle.sat_core.specs.Answers.{IsTurn, IsAnswer};
ghost use Rattle.sat_core.specs.Propagators.{IsSound};

use crate::answer::Answer;
use crate::decide::{Descent, descend};
use crate::learn::learn;
use crate::minimise::{Learned, minimise};
use crate::propagator::Propagator;
use crate::settle::{Settled, are_model, settle};
use crate::solver::{GREATEST_NUMBER, Solver};
use crate::table::values;
use cdcl_engine::{Guide, Proposal};
use cnf_form::{Clause, Cnf, Log, LogLine};
use std::alloc::{AllocError, Global};

/// What a turn of the search ends in.
#[derive(Drop)]
enum Turn {
    /// Values that satisfy the clauses.
    Model(Vec<bool>),
    Clause(Learned),
}

/// Decides until there are satisfying values, or a clause to learn, on a trail without steps. This is asked only where a proposal told nothing new.
fn take_turn(alloc: Global, propagator: &mut Propagator) -> Result<Turn, AllocError>
    requires sound { IsSound propagator.old }
    requires empty { propagator.old.trail.steps.items ≡ [] }
    requires some { 1 ≤ length propagator.old.trail.table.items }
    requires few { length propagator.old.trail.table.items ≤ 2 ^ 62 + 1 }
    ensures sound { OnOk result (IsSound propagator.new) }
    ensures empty { OnOk result (propagator.new.trail.steps.items ≡ []) }
    ensures clauses { propagator.new.clauses ≡ propagator.old.clauses }
    ensures size { length propagator.new.trail.table.items ≡ length propagator.old.trail.table.items }
    ensures turn { IfOk result (IsTurn (length propagator.old.trail.table.items - 1) propagator.old.clauses.items) }
{
    match descend(alloc, propagator)? {
        Descent::Model => {
            let list = values(alloc, &propagator.trail.table)?;
            propagator.trail.back_to(0);
            Ok(Turn::Model(list))
        }
        Descent::Blocked(full) => {
            propagator.trail.back_to(0);
            let learned = minimise(alloc, propagator, &full)?;
            Ok(Turn::Clause(learned))
        }
    }
}

/// What a proposal comes to, if it is right and says something new. The trail has no steps, before and after. What an `Err` leaves is open.
fn try_proposal(
    alloc: Global,
    propagator: &mut Propagator,
    proposal: Proposal,
) -> Result<Option<Turn>, AllocError>
    requires sound { IsSound propagator.old }
    requires empty { propagator.old.trail.steps.items ≡ [] }
    requires some { 1 ≤ length propagator.old.trail.table.items }
    ensures sound { OnOk result (IsSound propagator.new) }
    ensures empty { OnOk result (propagator.new.trail.steps.items ≡ []) }
    ensures clauses { propagator.new.clauses ≡ propagator.old.clauses }
    ensures size { length propagator.new.trail.table.items ≡ length propagator.old.trail.table.items }
    ensures turn { IfOk result (λ o. IfSome o (IsTurn (length propagator.old.trail.table.items - 1) propagator.old.clauses.items)) }
{
    match proposal {
        Proposal::Values(values) => {
            let variables = propagator.trail.table.len() - 1;
            if are_model(&values, variables as u64, &propagator.clauses) {
                return Ok(Some(Turn::Model(values)));
            }
            Ok(None)
        }
        Proposal::Clause(lits) => match learn(alloc, propagator, &lits)? {
            Some(learned) => Ok(Some(Turn::Clause(learned))),
            None => Ok(None),
        },
    }
}

/// Searches until there are satisfying values, or a clause to learn. The trail has no steps, before and after. What an `Err` leaves is open.
fn next_turn(
    alloc: Global,
    propagator: &mut Propagator,
    guide: &mut Guide,
) -> Result<Turn, AllocError>
    requires sound { IsSound propagator.old }
    requires empty { propagator.old.trail.steps.items ≡ [] }
    requires some { 1 ≤ length propagator.old.trail.table.items }
    requires few { length propagator.old.trail.table.items ≤ 2 ^ 62 + 1 }
    ensures sound { OnOk result (IsSound propagator.new) }
    ensures empty { OnOk result (propagator.new.trail.steps.items ≡ []) }
    ensures clauses { propagator.new.clauses ≡ propagator.old.clauses }
    ensures size { length propagator.new.trail.table.items ≡ length propagator.old.trail.table.items }
    ensures turn { IfOk result (IsTurn (length propagator.old.trail.table.items - 1) propagator.old.clauses.items) }
{
    let proposal = guide.propose(alloc)?;
    if let Some(turn) = try_proposal(alloc, propagator, proposal)? {
        return Ok(turn);
    }
    let turn = take_turn(alloc, propagator)?;
    Ok(turn)
}

/// Looks for values that satisfy the clauses, and learns at most as many clauses as there are conflicts to spend.
///
/// First it searches with clauses as the implication graph leaves them, whose log is checked where it is a refutation. Only where that ends undecided, it
/// begins again with clauses that can lose no literal, since only a log that spends the conflicts owes those. After the last conflict it goes on until it has
/// values, a refutation, or one more clause to learn. Learned clauses have the ids after those of the clauses, which count from 1. The only error is out of
/// memory. More than 2^62 variables or clauses count as that, since no machine has room for them.
pub fn solve(alloc: Global, cnf: &Cnf, conflicts: u64) -> Result<Answer, AllocError>
    requires some { 1 ≤ conflicts }
    requires over { AreOnVariables cnf.now.variables cnf.now.clauses.items }
    ensures { IfOk result (IsAnswer (cnf_of cnf.now) conflicts) }
{
    if let Settled::Answer(answer) = settle(alloc, cnf, conflicts)? {
        return Ok(answer);
    }
    let mut solver = Solver::new(alloc, cnf, conflicts)?;
    let mut guide = Guide::new(alloc, cnf)?;
    let mut lines = Vec::new(alloc);
    loop {
        let learned = match next_turn(alloc, &mut solver.main, &mut guide)? {
            Turn::Model(list) => return Ok(Answer::Sat(list)),
            Turn::Clause(learned) => learned,
        };
        let is_last = learned.lits.is_empty();
        if !is_last && lines.len() as u64 == conflicts {
            return Ok(Answer::Spent(Log { lines }));
        }
        let id = solver.main.clauses.len() as u64 + 1;
        if id > GREATEST_NUMBER {
            return Err(AllocError);
        }
        let clause = Clause::from_slice(alloc, &learned.lits)?;
        lines.push(LogLine::Add {
            id,
            clause,
            hints: learned.hints,
        })?;
        if is_last {
            return Ok(Answer::Unsat(Log { lines }));
        }
        guide.take(&learned.lits)?;
        let again = Clause::from_slice(alloc, &learned.lits)?;
        solver.main.add(again)?;
    }
}
