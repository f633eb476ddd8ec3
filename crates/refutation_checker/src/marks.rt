//! What a checker keeps between two lines, and the check of a whole log.
ghost use Rattle.std.specs.Prelude.{◌≡◌, ℕ, ◌≤◌, ◌<◌, ◌+◌, ◌-◌, List, Some, None, IfOk, IfSome, option_map, take, length, slice_index_or, vec_len, vec_capacity};
ghost use Rattle.clause_spec.specs.Clauses.{AreOnVariables, Unsatisfiable};
ghost use Rattle.clause_spec.specs.Refutation as spec;
ghost use Rattle.cnf_form.specs.Views.{cnf_of, lines_of};
ghost use Rattle.refutation_checker.specs.Answers.{cause_of, refusal_of};
ghost use Rattle.refutation_checker.specs.Known.{HaveTaken, IsGood, known_of, known_behind};
ghost use Rattle.refutation_checker.specs.Slots.{IsWithin};

use crate::cause::{Cause, Checked};
use crate::entries::{Entry, delete};
use crate::judge::{is_lawful, judge_clause};
use crate::names::names_and_size;
use crate::slots::{Slot, forget};
use cnf_form::{Clause, Cnf, Log, LogLine};
use std::alloc::{AllocError, Global};

/// What a checker keeps between two lines of a log: the clauses by their ids, and the last value of each variable that has a slot.
#[derive(Drop)]
pub struct Marks<'a> {
    names: Vec<u64>,
    slots: Vec<Slot>,
    entries: Vec<Entry<'a>>,
    last: u64,
    ended: bool,
}

/// Adds a clause under an id above every id before.
fn add<'a>(marks: &mut Marks<'a>, id: u64, clause: &'a Clause)
    requires good { IsGood marks.old }
    requires above { marks.old.last < id }
    requires within { IsWithin marks.old.names.items (length marks.old.slots.items) clause.now }
    requires room { vec_len marks.old.entries < vec_capacity marks.old.entries }
    ensures good { IsGood marks.new }
    ensures known { (hints : List spec.Hint) →
        known_of marks.new ≡ spec.known_after_line (known_of marks.old) (spec.Add id clause.now hints) }
    ensures names { marks.new.names ≡ marks.old.names }
    ensures slots { marks.new.slots ≡ marks.old.slots }
    ensures len { vec_len marks.new.entries ≡ vec_len marks.old.entries + 1 }
    ensures capacity { vec_capacity marks.old.entries ≤ vec_capacity marks.new.entries }
{
    let entry = Entry {
        id,
        is_present: true,
        clause,
    };
    match marks.entries.push(entry) {
        Ok(()) => (),
        Err(_) => unreachable!(),
    }
    marks.last = marks.last.max(id);
    marks.ended = clause.lits().is_empty();
}

/// Takes the clauses of the ids away, by a line with an id of its own.
fn remove(marks: &mut Marks<'_>, id: u64, ids: &[u64])
    requires good { IsGood marks.old }
    ensures good { IsGood marks.new }
    ensures known { known_of marks.new ≡ spec.known_after_line (known_of marks.old) (spec.Delete id ids.now) }
    ensures names { marks.new.names ≡ marks.old.names }
    ensures slots { marks.new.slots ≡ marks.old.slots }
    ensures len { vec_len marks.new.entries ≡ vec_len marks.old.entries }
    ensures capacity { vec_capacity marks.old.entries ≤ vec_capacity marks.new.entries }
{
    delete(marks.entries.as_mut_slice(), ids);
    marks.last = marks.last.max(id);
}

impl<'a> Marks<'a> {
    /// The marks before the first line of a log, with room for what all its lines add.
    pub fn new(alloc: Global, cnf: &'a Cnf, log: &Log) -> Result<Marks<'a>, AllocError>
        requires { AreOnVariables cnf.now.variables cnf.now.clauses.items }
        ensures { IfOk result (λ m. HaveTaken m (cnf_of cnf.now) (lines_of log.now) 0) }
    {
        let (names, size) = names_and_size(alloc, cnf, log)?;
        let room = cnf
            .clauses
            .len()
            .checked_add(log.lines.len())
            .ok_or(AllocError)?;
        let slots = vec![in alloc; Slot {
            line: 0,
            positive: false
        }; size]?;
        let mut entries = Vec::with_capacity(alloc, room)?;
        for (i, clause) in cnf.clauses.iter().enumerate() {
            let entry = Entry {
                id: i as u64 + 1,
                is_present: true,
                clause,
            };
            match entries.push(entry) {
                Ok(()) => (),
                Err(_) => unreachable!(),
            }
        }
        Ok(Marks {
            names,
            slots,
            entries,
            last: cnf.clauses.len() as u64,
            ended: false,
        })
    }
}

/// The first cause for which a line of the log is refused, if there is one; else the marks take the line.
///
/// Lines count from 1. The marks have taken every line before this one, and after a refusal they still stand there. It takes no memory.
pub fn check_line<'a>(
    marks: &mut Marks<'a>,
    cnf: &'a Cnf,
    log: &'a Log,
    line: usize,
) -> Option<Cause>
    requires from { 1 ≤ line }
    requires to { line ≤ length (lines_of log.now) }
    requires taken { HaveTaken marks.old (cnf_of cnf.now) (lines_of log.now) (line - 1) }
    ensures judged { option_map cause_of result ≡ spec.judge cnf.now.variables
        (known_behind cnf.now.clauses.items (lines_of log.now) (line - 1)) (slice_index_or (lines_of log.now) (line - 1) spec.Bad) }
    ensures taken { result ≡ None → HaveTaken marks.new (cnf_of cnf.now) (lines_of log.now) line }
    ensures refused { IfSome result (λ c. HaveTaken marks.new (cnf_of cnf.now) (lines_of log.now) (line - 1)) }
{
    let given = &log.lines[line - 1];
    if !is_lawful(given) {
        return Some(Cause::NotOfGrammar);
    }
    if marks.ended {
        return None;
    }
    match given {
        LogLine::Bad => Some(Cause::NotOfGrammar),
        LogLine::Delete { id, ids } => {
            remove(marks, *id, ids);
            None
        }
        LogLine::Add { id, clause, hints } => {
            let lits = clause.lits();
            let cause = judge_clause(
                &marks.entries,
                &marks.names,
                &mut marks.slots,
                line,
                cnf.variables,
                marks.last,
                *id,
                lits,
                hints,
            );
            if cause.is_none() {
                add(marks, *id, clause);
            } else {
                forget(&mut marks.slots);
            }
            cause
        }
    }
}

/// Checks that a log is a refutation of clauses.
pub fn check(alloc: Global, cnf: &Cnf, log: &Log) -> Result<Checked, AllocError>
    requires { AreOnVariables cnf.now.variables cnf.now.clauses.items }
    ensures exact { IfOk result (λ r. refusal_of r ≡ spec.refusal cnf.now.variables cnf.now.clauses.items (lines_of log.now)) }
    ensures sound { IfOk result (λ r. r ≡ Checked.Yes → Unsatisfiable cnf.now.clauses.items) }
{
    let mut marks = Marks::new(alloc, cnf, log)?;
    for i in 0..log.lines.len() {
        if let Some(cause) = check_line(&mut marks, cnf, log, i + 1) {
            return Ok(Checked::No { line: i + 1, cause });
        }
    }
    if marks.ended {
        Ok(Checked::Yes)
    } else {
        Ok(Checked::No {
            line: log.lines.len() + 1,
            cause: Cause::NoEmptyClause,
        })
    }
}
