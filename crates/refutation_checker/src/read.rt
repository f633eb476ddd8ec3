//! Reads a log (LRAT).
ghost use Rattle.std.specs.Prelude.{◌≡◌, ◌++◌, ◌∷◌, [], List, ℕ, IfOk, map, not, ◌&&◌};
ghost use Rattle.std.specs.List.{list_any};
ghost use Rattle.clause_spec.specs.CertificateGrammar.{Integer, parts, is_zero, is_ended, some_below, added_by, deleted_by, proof_line, log_of, hint_of as hint_from};
ghost use Rattle.cnf_form.specs.Views.{hint_of, line_of, lines_of};
ghost use Rattle.refutation_checker.specs.Readings.{read_as};

use crate::judge::is_lawful;
use cnf_form::lists::{literals, split_at_zero};
use cnf_form::number::{Number, integer};
use cnf_form::words::{next_line, next_word, numbers};
use cnf_form::{Hint, Log, LogLine};
use std::alloc::{AllocError, Global};

/// The hints of numbers.
fn hints_of(alloc: Global, numbers: &[Number]) -> Result<Vec<Hint>, AllocError>
    ensures { IfOk result (λ hints. map hint_of hints.items ≡ map hint_from numbers.now) }
{
    let mut hints = Vec::new(alloc);
    for number in numbers {
        let hint = if number.is_negative() {
            Hint::Negative(number.size())
        } else {
            Hint::ById(number.size())
        };
        hints.push(hint)?;
    }
    Ok(hints)
}

/// The ids of numbers.
fn ids_of(alloc: Global, numbers: &[Number]) -> Result<Vec<u64>, AllocError>
    ensures { IfOk result (λ ids. ids.items ≡ map (λ (n : Integer). n.size) numbers.now) }
{
    let mut ids = Vec::new(alloc);
    for number in numbers {
        ids.push(number.size())?;
    }
    Ok(ids)
}

/// Whether a number is below 0.
fn has_below(numbers: &[Number]) -> bool
    ensures { result ≡ some_below numbers.now }
{
    for number in numbers {
        if number.is_negative() {
            return true;
        }
    }
    false
}

/// The line that adds a clause, of the numbers behind its id.
fn addition(alloc: Global, id: u64, numbers: &[Number]) -> Result<LogLine, AllocError>
    ensures { IfOk result (λ l. read_as (line_of l) ≡ read_as (added_by id (is_ended numbers.now) (parts is_zero numbers.now))) }
{
    let Some((literal_numbers, behind)) = split_at_zero(numbers) else {
        return Ok(LogLine::Bad);
    };
    let Some((hint_numbers, rest)) = split_at_zero(behind) else {
        return Ok(LogLine::Bad);
    };
    if !rest.is_empty() {
        return Ok(LogLine::Bad);
    }
    let Some(clause) = literals(alloc, literal_numbers)? else {
        return Ok(LogLine::Bad);
    };
    let hints = hints_of(alloc, hint_numbers)?;
    Ok(LogLine::Add { id, clause, hints })
}

/// The line that deletes clauses, of the numbers behind the d.
fn deletion(alloc: Global, id: u64, numbers: &[Number]) -> Result<LogLine, AllocError>
    ensures { IfOk result (λ l. line_of l ≡ deleted_by id (is_ended numbers.now && not (some_below numbers.now)) (parts is_zero numbers.now)) }
{
    if has_below(numbers) {
        return Ok(LogLine::Bad);
    }
    let Some((id_numbers, rest)) = split_at_zero(numbers) else {
        return Ok(LogLine::Bad);
    };
    if !rest.is_empty() {
        return Ok(LogLine::Bad);
    }
    let ids = ids_of(alloc, id_numbers)?;
    Ok(LogLine::Delete { id, ids })
}

/// What the words of a line say, whose numbers may be above those of the grammar.
fn unbounded(alloc: Global, text: &[u8]) -> Result<LogLine, AllocError>
    ensures { IfOk result (λ l. read_as (line_of l) ≡ proof_line text.now) }
{
    let Some((word, rest)) = next_word(text) else {
        return Ok(LogLine::Bad);
    };
    let Some(id) = integer(word) else {
        return Ok(LogLine::Bad);
    };
    if id.is_negative() {
        return Ok(LogLine::Bad);
    }
    let Some((word, behind)) = next_word(rest) else {
        return Ok(LogLine::Bad);
    };
    if word == b"d".as_slice() {
        match numbers(alloc, behind)? {
            None => Ok(LogLine::Bad),
            Some(ids) => {
                let line = deletion(alloc, id.size(), &ids)?;
                Ok(line)
            }
        }
    } else {
        match numbers(alloc, rest)? {
            None => Ok(LogLine::Bad),
            Some(lists) => {
                let line = addition(alloc, id.size(), &lists)?;
                Ok(line)
            }
        }
    }
}

/// A line of a log.
fn read_line(alloc: Global, text: &[u8]) -> Result<LogLine, AllocError>
    ensures { IfOk result (λ l. line_of l ≡ proof_line text.now) }
{
    let line = unbounded(alloc, text)?;
    if is_lawful(&line) {
        Ok(line)
    } else {
        Ok(LogLine::Bad)
    }
}

/// The log of a text in LRAT. It ends at the first line that is not of the grammar, which is kept as such.
pub fn read_lrat(alloc: Global, text: &[u8]) -> Result<Log, AllocError>
    ensures { IfOk result (λ log. lines_of log ≡ log_of text.now) }
{
    let mut lines = Vec::new(alloc);
    let mut rest = text;
    while let Some((line, behind)) = next_line(rest) {
        let read = read_line(alloc, line)?;
        let is_last = matches!(&read, LogLine::Bad);
        lines.push(read)?;
        if is_last {
            return Ok(Log { lines });
        }
        rest = behind;
    }
    Ok(Log { lines })
}
