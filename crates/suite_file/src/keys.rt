//! Values under the keys of a table.
ghost use Rattle.std.specs.Prelude.{◌≡◌, IfOk, IfErr, OnOk, map, option_copied, option_map, string_bytes};
ghost use Rattle.std.specs.List.{list_any};
ghost use Rattle.std.specs.Str.{bytes_eq};
ghost use Rattle.toml.specs.Data.{get_member};
ghost use Rattle.toml.specs.View.{array_view, table_view, view};
ghost use Rattle.suite_file.specs.Suites.{Got, items_at, only_keys, text_at, texts_at, texts_in};
ghost use Rattle.suite_file.specs.Views.{IsRefusal, place_of};

use crate::fault::{Place, SuiteFault};
use std::alloc::Global;
use toml::value::Array;
use toml::{Table, Value};

fn is_among(known: &[&str], key: &str) -> bool
    ensures { result ≡ list_any (λ x. bytes_eq x key.now) (map (λ k. k.now) known.now) }
{
    for k in known {
        if *k == key {
            return true;
        }
    }
    false
}

/// Refuses a table with another key than these.
pub(crate) fn only_keys(table: &Table, place: Place, known: &[&str]) -> Result<(), SuiteFault>
    ensures ok { OnOk result (only_keys (place_of place) (map (λ k. k.now) known.now) (table_view table.now) ≡ Got tt) }
    ensures refused { IfErr result (IsRefusal (only_keys (place_of place) (map (λ k. k.now) known.now) (table_view table.now))) }
{
    for (key, _) in table.iter() {
        if !is_among(known, key.as_str()) {
            let key = key.clone()?;
            return Err(SuiteFault::UnknownKey { place, key });
        }
    }
    Ok(())
}

fn value_at<'a>(table: &'a Table, key: &str) -> Option<&'a Value>
    ensures { option_map (λ x. view x.now) result ≡ get_member key.now (table_view table.now) }
{
    table.get(key)
}

/// The text under a key, if there is one.
pub(crate) fn text_at<'a>(
    table: &'a Table,
    place: Place,
    key: &'static str,
) -> Result<Option<&'a str>, SuiteFault>
    ensures ok { IfOk result (λ t. text_at (place_of place) key.now (table_view table.now) ≡ Got (option_copied t)) }
    ensures refused { IfErr result (IsRefusal (text_at (place_of place) key.now (table_view table.now))) }
{
    let Some(value) = value_at(table, key) else {
        return Ok(None);
    };
    match value.as_str() {
        Some(text) => Ok(Some(text)),
        None => Err(SuiteFault::WrongType { place, key }),
    }
}

/// The array under a key, if there is one.
pub(crate) fn array_at<'a>(
    table: &'a Table,
    place: Place,
    key: &'static str,
) -> Result<Option<&'a Array>, SuiteFault>
    ensures ok { IfOk result (λ t. items_at (place_of place) key.now (table_view table.now) ≡ Got (option_map (λ v. array_view v.now) t)) }
    ensures refused { IfErr result (IsRefusal (items_at (place_of place) key.now (table_view table.now))) }
{
    let Some(value) = value_at(table, key) else {
        return Ok(None);
    };
    match value.as_array() {
        Some(array) => Ok(Some(array)),
        None => Err(SuiteFault::WrongType { place, key }),
    }
}

/// The texts of an array of texts.
fn texts_in(
    alloc: Global,
    array: &Array,
    place: Place,
    key: &'static str,
) -> Result<Vec<String>, SuiteFault>
    ensures ok { IfOk result (λ v. texts_in (place_of place) key.now (array_view array.now) ≡ Got (map string_bytes v.items)) }
    ensures refused { IfErr result (IsRefusal (texts_in (place_of place) key.now (array_view array.now))) }
{
    let mut texts = Vec::new(alloc);
    for value in array {
        let Some(text) = value.as_str() else {
            return Err(SuiteFault::WrongType { place, key });
        };
        texts.push(String::from_str(alloc, text)?)?;
    }
    Ok(texts)
}

/// The texts of the array under a key, if there is one.
pub(crate) fn texts_at(
    alloc: Global,
    table: &Table,
    place: Place,
    key: &'static str,
) -> Result<Option<Vec<String>>, SuiteFault>
    ensures ok { IfOk result (λ t. texts_at (place_of place) key.now (table_view table.now) ≡ Got (option_map (λ v. map string_bytes v.items) t)) }
    ensures refused { IfErr result (IsRefusal (texts_at (place_of place) key.now (table_view table.now))) }
{
    let Some(array) = array_at(table, place, key)? else {
        return Ok(None);
    };
    let texts = texts_in(alloc, array, place, key)?;
    Ok(Some(texts))
}
