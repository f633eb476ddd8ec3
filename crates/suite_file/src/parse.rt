//! Suites, from their texts.
ghost use Rattle.std.specs.Prelude.{◌≡◌, IfOk, IfErr};
ghost use Rattle.toml.specs.View.{array_view, table_view};
ghost use Rattle.suite_file.specs.Suites.{Got, asked_in, defaults_in, suite_in, suite_of};
ghost use Rattle.suite_file.specs.Views.{IsRefusal, defaults_view, suite_view};

use crate::check::Suite;
use crate::checks::{Defaults, checks_in, first_repeated};
use crate::fault::{Place, SuiteFault};
use crate::keys::{array_at, only_keys, text_at, texts_at};
use std::alloc::Global;
use toml::Table;
use toml::value::Array;

/// The keys that a suite may have.
const SUITE_KEYS: [&str; 3] = ["check", "elf", "options"];

/// What stands for the values that a check lacks.
fn defaults_of<'a>(alloc: Global, table: &'a Table) -> Result<Defaults<'a>, SuiteFault>
    ensures ok { IfOk result (λ d. defaults_in (table_view table.now) ≡ Got (defaults_view d)) }
    ensures refused { IfErr result (IsRefusal (defaults_in (table_view table.now))) }
{
    only_keys(table, Place::Defaults, &SUITE_KEYS)?;
    let elf = text_at(table, Place::Defaults, "elf")?;
    let options = match texts_at(alloc, table, Place::Defaults, "options")? {
        Some(options) => options,
        None => Vec::new(alloc),
    };
    Ok(Defaults { elf, options })
}

/// The array of the checks, of which there is one at least.
fn array_of(table: &Table) -> Result<&Array, SuiteFault>
    ensures ok { IfOk result (λ v. asked_in (table_view table.now) ≡ Got (array_view v.now)) }
    ensures refused { IfErr result (IsRefusal (asked_in (table_view table.now))) }
{
    match array_at(table, Place::Defaults, "check")? {
        Some(array) if !array.is_empty() => Ok(array),
        _ => Err(SuiteFault::Empty),
    }
}

/// The suite of a table.
fn suite_in(alloc: Global, table: &Table) -> Result<Suite, SuiteFault>
    ensures ok { IfOk result (λ s. suite_in (table_view table.now) ≡ Got (suite_view s)) }
    ensures refused { IfErr result (IsRefusal (suite_in (table_view table.now))) }
{
    let defaults = defaults_of(alloc, table)?;
    let array = array_of(table)?;
    let checks = checks_in(alloc, array, &defaults)?;
    match first_repeated(&checks) {
        Some(name) => {
            let name = String::from_str(alloc, name)?;
            Err(SuiteFault::RepeatedName(name))
        }
        None => Ok(Suite { checks }),
    }
}

/// The suite of a text. The defaults `elf` and `options` stand above its checks, the tables `[[check]]`, each with its `notes`, and where it has them its `name`,
/// `elf`, `options` and `expect`. Of a table the unknown keys are judged first, then the values; the checks are judged in their order, and behind them their names.
///
/// # Errors
///
/// The first fault of the text, or want of memory.
pub fn parse_suite(alloc: Global, text: &str) -> Result<Suite, SuiteFault>
    ensures ok { IfOk result (λ s. suite_of text.now ≡ Got (suite_view s)) }
    ensures refused { IfErr result (IsRefusal (suite_of text.now)) }
{
    match toml::table_from_str(alloc, text) {
        Ok(table) => {
            let suite = suite_in(alloc, &table)?;
            Ok(suite)
        }
        Err(error) if error.is_memory() => Err(SuiteFault::Memory),
        Err(error) => Err(SuiteFault::NotToml(error)),
    }
}
