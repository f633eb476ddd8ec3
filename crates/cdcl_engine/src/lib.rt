//! A search for satisfying values by conflicts (CDCL), of which nothing is proved but that it is safe and ends: what it finds is to be checked.
//!
//! - Unit propagation watches two literals of each clause, with a third one in the watch that is looked at first (Moskewicz et al., Chaff, 2001; Een and
//!   Sorensson, MiniSat, 2003). Clauses stand in one list of numbers, in the order of the watches, so that those visited together lie together.
//! - A conflict is resolved back to its first unique implication point (Marques-Silva and Sakallah, GRASP, 1996), and the clause is minimised recursively
//!   (Sorensson and Biere, 2009). Each learned clause is recorded with the clauses that it follows from, in the order in which they become units, so that the
//!   log of a refutation needs no search of its own (Cruz-Filipe et al., LRAT, 2017). Only what the last line needs is handed out.
//! - Decisions take the variable with the greatest score, which conflicts raise and which decays by 0.95 (EVSIDS: Een and Sorensson, 2003; Biere, 2008), with
//!   the sign that it had last (Pipatsrisawat and Darwiche, 2007).
//! - A restart is due where the mean number of levels of the last learned clauses is a tenth above that of all, after 50 conflicts at least (Audemard and
//!   Simon, Glucose, 2009; Biere and Froehlich, 2015). What the next decisions would make again stays on the trail (van der Tak et al., 2011).
//! - Of the learned clauses that are over more than two levels half are deleted now and then, those over the most levels first (Audemard and Simon, 2009). Then
//!   true clauses are dropped and false literals are cut, where no decision stands.
//! - A conflict that would take back more than 100 decisions takes one back, and the trail goes on with literals of lower levels (Nadel and Ryvchin,
//!   chronological backtracking, 2018; Moehle and Biere, 2019).
//! - Large sets before the search, and others after 2,000 conflicts, are simplified, within a share of the effort: failed literals and equivalent literals by
//!   turns (Freeman, 1995; Tarjan's components, 1972), bounded variable elimination with subsumption (Een and Biere, SatELite, 2005). Each new clause is a line
//!   of the record, and values are completed by a stack of the clauses that were taken out (Jarvisalo and Biere, 2010).
//! - Numbers of 32 bits name clauses and literals. Where they do not suffice, the search gives up; it never answers that as out of memory.
//!
//! A second search, `Guide`, proposes clauses and values to a search that is proved, and learns what that one tells it. It deletes and simplifies nothing.
#![tactic(auto)]

ghost use Rattle.std.specs.Prelude.{◌≤◌, IfOk};
ghost use Rattle.cdcl_engine.specs.Findings.{IsFinding};

mod arena;
mod assignment;
mod cells;
mod completion;
mod components;
mod elimination;
mod equivalences;
mod explorer;
mod guide;
mod levels;
mod load;
mod names;
mod occurrences;
mod order;
mod preprocessing;
mod probing;
mod rebuilding;
mod record;
mod reduction;
mod resolution;
mod restarts;
mod search;
mod trimming;
mod trying;
mod watching;

use crate::assignment::Assignment;
use crate::cells::count_of;
use crate::completion::Completion;
pub use crate::guide::{Guide, Proposal};
use crate::load::load;
use crate::names::Names;
use crate::record::Record;
use crate::reduction::Reduction;
use crate::search::{Search, Turn};
use crate::trimming::log_of;
use cnf_form::{Cnf, Log};
use std::alloc::{AllocError, Global};

/// There are fewer variables and clauses than this.
const GREATEST_COUNT: usize = 1 << 30;

/// What the fast search says.
#[derive(Drop)]
pub enum Finding {
    /// Values of the variables, the first of which is that of variable 1.
    Values(Vec<bool>),
    /// The log of a refutation.
    Refutation(Log),
    /// So many clauses were learned without an answer: at least as many as there are conflicts to spend.
    Spent(u64),
    /// There is no room left in numbers of 32 bits.
    Full,
}

/// For each literal whether it is true; those of open variables are false.
fn truths(alloc: Global, assignment: &Assignment) -> Result<Vec<bool>, AllocError> {
    let mut holds = Vec::new(alloc);
    for number in 0..assignment.variables() {
        let is_true = assignment.is_true(count_of(number).saturating_mul(2));
        holds.push(is_true)?;
        holds.push(!is_true)?;
    }
    Ok(holds)
}

/// The values of all variables; those that no clause uses are false.
fn values_of(
    alloc: Global,
    variables: u64,
    holds: &[bool],
    names: &Names,
) -> Result<Vec<bool>, AllocError> {
    let mut values = vec![in alloc; false; variables as usize]?;
    for number in 0..names.len() {
        let place = names.variable(number).saturating_sub(1) as usize;
        let even = number.saturating_mul(2);
        if place < values.len() && even < holds.len() {
            values[place] = holds[even];
        }
    }
    Ok(values)
}

/// Whether ids and literals have numbers of 32 bits.
fn are_few(cnf: &Cnf, names: &Names) -> bool {
    cnf.clauses.len() < GREATEST_COUNT && names.len() < GREATEST_COUNT
}

/// Searches until there are values or a refutation, or one more clause would be learned than there are conflicts to spend. It gives up as well where its
/// clauses have no room in numbers of 32 bits.
pub fn explore(alloc: Global, cnf: &Cnf, conflicts: u64) -> Result<Finding, AllocError>
    ensures { IfOk result (IsFinding conflicts) }
{
    let names = Names::new(alloc, &cnf.clauses)?;
    if !are_few(cnf, &names) {
        return Ok(Finding::Full);
    }
    let mut search = Search {
        explorer: load(alloc, &cnf.clauses, &names)?,
        record: Record::new(alloc, count_of(cnf.clauses.len()), names.len())?,
        reduction: Reduction::new(alloc),
        completion: Completion::new(alloc),
        due: 0,
    };
    let turns = conflicts.saturating_add(1);
    let mut learned = 0;
    while learned < turns {
        if search.is_full() {
            return Ok(Finding::Full);
        }
        match search.take_turn(alloc)? {
            Turn::Values => {
                let mut holds = truths(alloc, &search.explorer.assignment)?;
                search.completion.complete(holds.as_mut_slice());
                let values = values_of(alloc, cnf.variables, &holds, &names)?;
                return Ok(Finding::Values(values));
            }
            Turn::Refutation => {
                search.explorer.let_go(alloc);
                let log = log_of(alloc, &search.record, &names)?;
                return Ok(Finding::Refutation(log));
            }
            Turn::Learned => learned += 1,
        }
    }
    Ok(Finding::Spent(learned))
}
