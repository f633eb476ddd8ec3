//! What a run prints, as text or as JSON.
ghost use Rattle.std.specs.Prelude.{◌≡◌, ◌≤◌, IfOk};
ghost use Rattle.suite_report.specs.RunTexts as spec;
ghost use Rattle.suite_report.specs.Views.{told_of};

use crate::json::json_line;
use crate::printing::{summary, told_line};
use crate::told::Told;
use std::alloc::{AllocError, Global};

/// The line of a check, as text or as JSON. The error is out of memory.
pub fn line_by(alloc: Global, json: bool, told: &Told<'_>) -> Result<Vec<u8>, AllocError>
    ensures { IfOk result (λ v. v.items ≡ spec.line_by json (told_of told.now)) }
{
    if json {
        let text = json_line(alloc, told)?;
        return Ok(text);
    }
    let text = told_line(alloc, told)?;
    Ok(text)
}

/// What stands behind the last line of so many checks, of which some came to what is expected: nothing behind JSON. The error is out of memory.
pub fn summary_by(
    alloc: Global,
    json: bool,
    all: usize,
    expected: usize,
) -> Result<Vec<u8>, AllocError>
    requires { expected ≤ all }
    ensures { IfOk result (λ v. v.items ≡ spec.summary_by json all expected) }
{
    if json {
        return Ok(Vec::new(alloc));
    }
    let text = summary(alloc, all, expected)?;
    Ok(text)
}
