//! The words of the command line by which a check is asked.
ghost use Rattle.std.specs.Prelude.{◌≡◌, ◌++◌, ◌∷◌, [], codes, IfOk, OnOk, map, string_bytes};
ghost use Rattle.suite_report.specs.Words as spec;

use std::alloc::{AllocError, Global};

/// Whether an option is named among words: one of them begins with its name.
fn names(options: &[String], name: &[u8]) -> bool
    ensures { result ≡ spec.names name.now (map string_bytes options.now) }
{
    for option in options {
        if option.as_bytes().starts_with(name) {
            return true;
        }
    }
    false
}

/// Appends a word. What an `Err` leaves is open.
fn push(words: &mut Vec<String>, alloc: Global, word: &str) -> Result<(), AllocError>
    ensures { OnOk result (map string_bytes words.new.items ≡ map string_bytes words.old.items ++ word.now ∷ []) }
{
    words.push(String::from_str(alloc, word)?)?;
    Ok(())
}

/// Appends an option with its value, where it is not named among words. What an `Err` leaves is open.
fn push_default(
    words: &mut Vec<String>,
    alloc: Global,
    options: &[String],
    name: &str,
    value: &str,
) -> Result<(), AllocError>
    ensures { OnOk result (map string_bytes words.new.items
        ≡ map string_bytes words.old.items ++ spec.default_words name.now value.now (map string_bytes options.now)) }
{
    if names(options, name.as_bytes()) {
        return Ok(());
    }
    push(words, alloc, name)?;
    push(words, alloc, value)?;
    Ok(())
}

/// The words `verify elf notes`, behind the program's name, with the budgets of suites where the options name none, and the options. The error is out of memory.
pub fn verify_words(alloc: Global, options: &[String]) -> Result<Vec<String>, AllocError>
    ensures { IfOk result (λ v. map string_bytes v.items ≡ spec.verify_words (map string_bytes options.now)) }
{
    let mut words = Vec::new(alloc);
    push(&mut words, alloc, "bilv")?;
    push(&mut words, alloc, "verify")?;
    push(&mut words, alloc, "elf")?;
    push(&mut words, alloc, "notes")?;
    push_default(&mut words, alloc, options, "--size", "4000000000000000000")?;
    push_default(&mut words, alloc, options, "--points", "1048576")?;
    for option in options {
        push(&mut words, alloc, option.as_str())?;
    }
    Ok(words)
}
