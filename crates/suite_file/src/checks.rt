//! The checks of a suite, from the tables of its array.
ghost use Rattle.std.specs.Prelude.{◌≡◌, ◌+◌, ◌<◌, ◌^◌, [], IfOk, IfErr, IfNone, IfSome, map, option_copied, string_bytes};
ghost use Rattle.std.specs.List.{list_any};
ghost use Rattle.std.specs.Str.{bytes_eq};
ghost use Rattle.toml.specs.View.{items_view, table_view, view};
ghost use Rattle.suite_file.specs.Suites as spec;
ghost use Rattle.suite_file.specs.Suites.{Got, check_in, checks_in, first_repeated};
ghost use Rattle.suite_file.specs.Views.{IsRefusal, check_view, defaults_view, draft_view, place_of};

use crate::check::{Check, Draft, check_of, copied};
use crate::fault::{Place, SuiteFault};
use crate::keys::{only_keys, text_at, texts_at};
use std::alloc::{AllocError, Global};
use toml::{Table, Value};

/// What stands for a value that a check lacks.
#[derive(Drop)]
pub(crate) struct Defaults<'a> {
    pub(crate) elf: Option<&'a str>,
    pub(crate) options: Vec<String>,
}

/// The keys that a check may have.
const CHECK_KEYS: [&str; 5] = ["elf", "expect", "name", "notes", "options"];

/// The texts of a check, of which its notes must be there, and its ELF file where the suite names none.
fn draft_of<'a>(
    table: &'a Table,
    place: Place,
    elf: Option<&'a str>,
) -> Result<Draft<'a>, SuiteFault>
    ensures ok { IfOk result (λ d. spec.check_of (place_of place) (option_copied elf.entry) (table_view table.now) ≡ Got (draft_view d)) }
    ensures refused { IfErr result (IsRefusal (spec.check_of (place_of place) (option_copied elf.entry) (table_view table.now))) }
{
    let Some(notes) = text_at(table, place, "notes")? else {
        return Err(SuiteFault::Missing {
            place,
            key: "notes",
        });
    };
    let name = text_at(table, place, "name")?;
    let own_elf = text_at(table, place, "elf")?;
    let Some(elf) = own_elf.or(elf) else {
        return Err(SuiteFault::Missing { place, key: "elf" });
    };
    let expect = text_at(table, place, "expect")?;
    Ok(Draft {
        name: name.unwrap_or(notes),
        notes,
        elf,
        expect: expect.unwrap_or("holds"),
    })
}

/// The check of a value of the array, which is the one of this number.
fn check_in(
    alloc: Global,
    value: &Value,
    number: usize,
    defaults: &Defaults<'_>,
) -> Result<Check, SuiteFault>
    ensures ok { IfOk result (λ c. check_in (defaults_view defaults.now) number (view value.now) ≡ Got (check_view c)) }
    ensures refused { IfErr result (IsRefusal (check_in (defaults_view defaults.now) number (view value.now))) }
{
    let place = Place::Check(number);
    let Some(table) = value.as_table() else {
        return Err(SuiteFault::WrongType {
            place,
            key: "check",
        });
    };
    only_keys(table, place, &CHECK_KEYS)?;
    let draft = draft_of(table, place, defaults.elf)?;
    let options = match texts_at(alloc, table, place, "options")? {
        Some(options) => options,
        None => copied(alloc, &defaults.options)?,
    };
    let check = check_of(alloc, draft, options)?;
    Ok(check)
}

/// The checks of the values of an array.
pub(crate) fn checks_in(
    alloc: Global,
    values: &[Value],
    defaults: &Defaults<'_>,
) -> Result<Vec<Check>, SuiteFault>
    ensures ok { IfOk result (λ v. checks_in (defaults_view defaults.now) 1 (items_view values.now) ≡ Got (map check_view v.items)) }
    ensures refused { IfErr result (IsRefusal (checks_in (defaults_view defaults.now) 1 (items_view values.now))) }
{
    let mut checks = Vec::new(alloc);
    for (i, value) in values.iter().enumerate() {
        checks.push(check_in(alloc, value, i + 1, defaults)?)?;
    }
    Ok(checks)
}

/// Whether a check has this name.
fn is_named(checks: &[Check], name: &str) -> bool
    ensures { result ≡ list_any (λ e. bytes_eq e.name name.now) (map check_view checks.now) }
{
    for check in checks {
        if check.name.as_str() == name {
            return true;
        }
    }
    false
}

/// The first name that an earlier check has.
pub(crate) fn first_repeated(checks: &[Check]) -> Option<&str>
    ensures { option_copied result ≡ first_repeated [] (map check_view checks.now) }
{
    for (i, check) in checks.iter().enumerate() {
        let name = check.name.as_str();
        if is_named(&checks[..i], name) {
            return Some(name);
        }
    }
    None
}
