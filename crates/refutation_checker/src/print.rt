//! The text of a log (LRAT).
ghost use Rattle.std.specs.Prelude.{◌≡◌, ◌++◌, ◌∷◌, [], List, ℕ, codes, IfOk, OnOk, length, map};
ghost use Rattle.clause_spec.specs.Certificates.{hint_text, to_zero, log_line, log_text};
ghost use Rattle.word_spec.specs.Texts.{lines, number_text, joined};
ghost use Rattle.cnf_form.specs.Views.{hint_of, line_of, lines_of};

use cnf_form::print::{print_literals, print_number};
use cnf_form::{Hint, Log, LogLine};
use std::alloc::{AllocError, Global};

/// Appends a hint.
fn print_hint(out: &mut Vec<u8>, hint: Hint) -> Result<(), AllocError>
    ensures { OnOk result (out.new.items ≡ out.old.items ++ hint_text (hint_of hint)) }
{
    match hint {
        Hint::ById(id) => print_number(out, id)?,
        Hint::Negative(size) => {
            out.extend_from_slice(b"-")?;
            print_number(out, size)?;
        }
    }
    Ok(())
}

/// Appends hints with a blank behind each, and 0.
fn print_hints(out: &mut Vec<u8>, hints: &[Hint]) -> Result<(), AllocError>
    ensures { OnOk result (out.new.items ≡ out.old.items ++ joined (to_zero (map hint_text (map hint_of hints.now)))) }
{
    for hint in hints {
        print_hint(out, *hint)?;
        out.extend_from_slice(b" ")?;
    }
    out.extend_from_slice(b"0")?;
    Ok(())
}

/// Appends ids with a blank behind each, and 0.
fn print_ids(out: &mut Vec<u8>, ids: &[u64]) -> Result<(), AllocError>
    ensures { OnOk result (out.new.items ≡ out.old.items ++ joined (to_zero (map number_text ids.now))) }
{
    for id in ids {
        print_number(out, *id)?;
        out.extend_from_slice(b" ")?;
    }
    out.extend_from_slice(b"0")?;
    Ok(())
}

/// Appends the text of a line, without its line feed.
fn print_line(out: &mut Vec<u8>, line: &LogLine) -> Result<(), AllocError>
    ensures { OnOk result (out.new.items ≡ out.old.items ++ log_line (line_of line.now)) }
{
    match line {
        LogLine::Add { id, clause, hints } => {
            print_number(out, *id)?;
            out.extend_from_slice(b" ")?;
            print_literals(out, clause.lits())?;
            out.extend_from_slice(b" ")?;
            print_hints(out, hints)?;
        }
        LogLine::Delete { id, ids } => {
            print_number(out, *id)?;
            out.extend_from_slice(b" d ")?;
            print_ids(out, ids)?;
        }
        LogLine::Bad => (),
    }
    Ok(())
}

/// The text of a log in LRAT. A line that is not of the grammar is an empty one, which is none either.
pub fn print_lrat(alloc: Global, log: &Log) -> Result<Vec<u8>, AllocError>
    ensures { IfOk result (λ text. text.items ≡ log_text (lines_of log.now)) }
{
    let mut out = Vec::new(alloc);
    for line in &log.lines {
        print_line(&mut out, line)?;
        out.extend_from_slice(b"\n")?;
    }
    Ok(out)
}
