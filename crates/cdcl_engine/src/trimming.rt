//! The log of a refutation, with only those lines that it needs.
use crate::names::Names;
use crate::record::Record;
use cnf_form::{Clause, Hint, Log, LogLine};
use std::alloc::{AllocError, Global};

/// For each line whether the last one follows from it.
fn needed_lines(alloc: Global, record: &Record) -> Result<Vec<bool>, AllocError> {
    let mut slots = vec![in alloc; false; record.len()]?;
    let needed = slots.as_mut_slice();
    for line in (0..needed.len()).rev() {
        if !needed[line] && line + 1 < needed.len() {
            continue;
        }
        needed[line] = true;
        for hint in record.hints(line) {
            if let Some(before) = record.line_of(*hint) {
                if before < needed.len() {
                    needed[before] = true;
                }
            }
        }
    }
    Ok(slots)
}

/// The clause of a line.
fn clause_of(alloc: Global, names: &Names, lits: &[u32]) -> Result<Clause, AllocError> {
    let mut clause = Clause::new(alloc);
    for code in lits {
        clause.push(names.lit(*code))?;
    }
    Ok(clause)
}

/// The hints of a line, where `ids` are the new ids of the lines.
fn hints_of(
    alloc: Global,
    record: &Record,
    line: usize,
    ids: &[u64],
) -> Result<Vec<Hint>, AllocError> {
    let old = record.hints(line);
    let mut hints = Vec::with_capacity(alloc, old.len())?;
    for hint in old {
        let id = match record.line_of(*hint) {
            None => *hint as u64,
            Some(before) => { if before < ids.len() { ids[before] } else { 0 } }
        };
        hints.push(Hint::ById(id))?;
    }
    Ok(hints)
}

/// The lines that the last one needs, with the ids after those of the clauses.
pub fn log_of(alloc: Global, record: &Record, names: &Names) -> Result<Log, AllocError> {
    let needed = needed_lines(alloc, record)?;
    let mut ids = Vec::with_capacity(alloc, needed.len())?;
    let mut lines = Vec::new(alloc);
    let mut last = record.given() as u64;
    for (line, is_needed) in needed.iter().enumerate() {
        if *is_needed {
            last = last.saturating_add(1);
            let clause = clause_of(alloc, names, record.lits(line))?;
            let hints = hints_of(alloc, record, line, &ids)?;
            lines.push(LogLine::Add {
                id: last,
                clause,
                hints,
            })?;
        }
        ids.push(last)?;
    }
    Ok(Log { lines })
}
