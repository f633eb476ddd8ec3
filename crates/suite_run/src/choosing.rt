//! Which checks of a suite are run, and their names.
ghost use Rattle.std.specs.Prelude.{◌≡◌, IfOk, map, option_copied};
ghost use Rattle.suite_file.specs.Views.{check_view};
ghost use Rattle.suite_run.specs.Chosen as spec;

use std::alloc::{AllocError, Global};
use suite_file::Check;
use suite_report::has_part;

fn is_chosen(check: &Check, only: Option<&str>) -> bool
    ensures { result ≡ spec.is_chosen (option_copied only.entry) (check_view check.now) }
{
    match only {
        Some(part) => has_part(part.as_bytes(), check.name.as_bytes()),
        None => true,
    }
}

/// The checks whose names have a text, in their order: all where there is no text. The error is out of memory.
pub fn chosen<'a>(
    alloc: Global,
    checks: &'a [Check],
    only: Option<&str>,
) -> Result<Vec<&'a Check>, AllocError>
    ensures { IfOk result (λ v. map (λ c. check_view c.now) v.items ≡ spec.chosen (option_copied only.entry) (map check_view checks.now)) }
{
    let mut chosen = Vec::new(alloc);
    for check in checks {
        if !is_chosen(check, only) {
            continue;
        }
        chosen.push(check)?;
    }
    Ok(chosen)
}

/// The names of checks, a line each. The error is out of memory.
pub fn list_text(alloc: Global, checks: &[&Check]) -> Result<Vec<u8>, AllocError>
    ensures { IfOk result (λ v. v.items ≡ spec.list_text (map (λ c. check_view c.now) checks.now)) }
{
    let mut text = Vec::new(alloc);
    for check in checks {
        text.extend_from_slice(check.name.as_bytes())?;
        text.extend_from_slice(b"\n")?;
    }
    Ok(text)
}
