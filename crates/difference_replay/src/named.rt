//! The first line of a report that names a difference.
ghost use Rattle.std.specs.Prelude.{◌≡◌, map, IfOk, IfSome};
ghost use Rattle.std.specs.Option.{option_map};
ghost use Rattle.std.specs.Str.{bytes_eq};
ghost use Rattle.word_spec.specs.Texts.{words_in, decimal_word, at_most};
ghost use Rattle.pair_spec.specs.Differs.{named_numbers, difference_of_words};
ghost use Rattle.difference_replay.specs.Named.{named_of, AreSteps};

use line_tokens::{decimal_at_most, first_words};
use std::alloc::{AllocError, Global};

/// The greatest number of a step that a text names.
const LAST_STEP: u64 = 16_777_215;

/// The difference that a report names.
#[derive(Clone, Copy)]
pub(crate) struct NamedDifference {
    /// The line of the links on which the exits differ.
    pub(crate) line: u64,
    /// The number of the step by which the first function exits, counted from 0.
    pub(crate) first: u64,
    /// The same of the second function.
    pub(crate) second: u64,
}

/// Whether a word is this text.
pub(crate) fn is_word(word: &[u8], text: &[u8]) -> bool
    ensures { result ≡ bytes_eq word.now text.now }
{
    word == text
}

/// The difference of three numbers, where all are there and both steps are such that a text names them.
fn named_numbers(line: &[u8], first: &[u8], second: &[u8]) -> Option<NamedDifference>
    ensures said { option_map named_of result ≡ named_numbers (at_most 18446744073709551615 (decimal_word line.now))
        (at_most 16777215 (decimal_word first.now)) (at_most 16777215 (decimal_word second.now)) }
    ensures steps { IfSome result AreSteps }
{
    let line = decimal_at_most(u64::MAX, line)?;
    let first = decimal_at_most(LAST_STEP, first)?;
    let second = decimal_at_most(LAST_STEP, second)?;
    Some(NamedDifference {
        line,
        first,
        second,
    })
}

/// The difference that words name.
fn difference_of_words(words: &[&[u8]]) -> Option<NamedDifference>
    ensures said { option_map named_of result ≡ difference_of_words (map (λ word. word.now) words.now) }
    ensures steps { IfSome result AreSteps }
{
    let [differs, line, steps, first, second] = words else {
        return None;
    };
    if !is_word(differs, b"differs") {
        return None;
    }
    if !is_word(steps, b"steps") {
        return None;
    }
    named_numbers(line, first, second)
}

/// The difference that a line names, if it names one. The error is out of memory.
pub(crate) fn difference_in(
    alloc: Global,
    text: &[u8],
) -> Result<Option<NamedDifference>, AllocError>
    ensures said { IfOk result (λ d. option_map named_of d ≡ difference_of_words (words_in text.now)) }
    ensures steps { IfOk result (λ d. IfSome d AreSteps) }
{
    let words = first_words(alloc, text)?;
    Ok(difference_of_words(&words))
}
