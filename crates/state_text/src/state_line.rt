//! What a line of a state text says.
ghost use Rattle.std.specs.Prelude.{◌≡◌, ℕ, List, [], ◌∷◌, map, length, Option, Some, None, min, MatchOption, IfSome, IfNone, IfOk};
ghost use Rattle.std.specs.Option.{option_map};
ghost use Rattle.std.specs.Str.{bytes_eq};
ghost use Rattle.word_spec.specs.Texts.{decimal_word, at_most};
ghost use Rattle.machine_spec.specs.StateText as texts;
ghost use Rattle.machine_spec.specs.StateText.{place_of, event_of_word, event_of_line, after_fails, after_unknown, after_state, after_byte, after_choice, after_end, register_line, line_of, line_of_words, value_of, place_in, ChoiceLine};
ghost use Rattle.start_value.specs.Starts.{layout_of};
ghost use Rattle.state_text.specs.Starts.{event_of, named_of};
ghost use Rattle.state_text.specs.Lines.{line_said, capped_line};

use crate::start::{Event, NamedEnding};
use line_tokens::{decimal_at_most, first_words, hex_word, is_decimal};
use start_value::Layout;
use std::alloc::{AllocError, Global};

/// What a line of the grammar says. A choice above 3 is taken for 4, which no line may have.
#[derive(Clone, Copy)]
pub enum StateLine {
    Named(NamedEnding),
    Machine,
    /// A register or a flag, by its place among the names of the layout.
    Register { place: usize, value: u32 },
    Byte { at: u32, value: u8 },
    Choice { step: u32, choice: u8 },
    End,
}

/// Whether a word is this text.
pub fn is_word(word: &[u8], text: &[u8]) -> bool
    ensures { result ≡ bytes_eq word.now text.now }
{
    word == text
}

/// The address and the number of a step that four words say.
pub fn place_of(at: &[u8], address: &[u8], step: &[u8], number: &[u8]) -> Option<(u32, u64)>
    ensures { result ≡ place_of at.now address.now step.now number.now }
{
    if !is_word(at, b"at") || !is_word(step, b"step") {
        return None;
    }
    let address = hex_word(8, address)?;
    let number = decimal_at_most(16_777_215, number)?;
    Some((address, number))
}

/// The event of one word.
pub fn event_of_word(word: &[u8]) -> Option<Event>
    ensures { option_map event_of result ≡ event_of_word word.now }
{
    if is_word(word, b"fetch") {
        return Some(Event::FetchFails);
    }
    if is_word(word, b"norow") {
        return Some(Event::NoRow);
    }
    if is_word(word, b"halfword") {
        return Some(Event::HalfwordFails);
    }
    if is_word(word, b"codewrite") {
        return Some(Event::CodeWritten);
    }
    if is_word(word, b"trap") {
        return Some(Event::Trapped);
    }
    if is_word(word, b"align") {
        return Some(Event::AlignFails);
    }
    if is_word(word, b"jump") {
        return Some(Event::JumpFails);
    }
    None
}

/// The event of a line of notes.
pub fn event_of_line(word: &[u8], number: &[u8]) -> Option<Event>
    ensures { option_map event_of result ≡ event_of_line word.now (at_most 18446744073709551615 (decimal_word number.now)) }
{
    let line = decimal_at_most(u64::MAX, number)?;
    if is_word(word, b"assert") {
        return Some(Event::AssertFails { line });
    }
    if is_word(word, b"ensure") {
        return Some(Event::EnsureFails { line });
    }
    None
}

/// The line behind the word `byte`.
pub(crate) fn after_byte(words: &[&[u8]]) -> Option<StateLine>
    ensures { option_map line_said result ≡ option_map capped_line (after_byte (map (λ word. word.now) words.now)) }
{
    let [at, value] = words else {
        return None;
    };
    let at = hex_word(8, at)?;
    let value = hex_word(2, value)? as u8;
    Some(StateLine::Byte { at, value })
}

/// An event at a place.
fn fails_line(event: Option<Event>, place: Option<(u32, u64)>) -> Option<StateLine>
    ensures { option_map line_said result ≡ option_map capped_line (texts.fails_line (option_map event_of event) place) }
{
    let event = event?;
    let (at, step) = place?;
    Some(StateLine::Named(NamedEnding::FailsBy { event, at, step }))
}

/// A number of backward transfers at a place.
fn unknown_line(k: Option<u64>, place: Option<(u32, u64)>) -> Option<StateLine>
    ensures { option_map line_said result ≡ option_map capped_line (texts.unknown_line k place) }
{
    let k = k?;
    let (at, step) = place?;
    Some(StateLine::Named(NamedEnding::UnknownBy { k, at, step }))
}

/// The line behind the word `fails`.
fn after_fails(words: &[&[u8]]) -> Option<StateLine>
    ensures { option_map line_said result ≡ option_map capped_line (after_fails (map (λ word. word.now) words.now)) }
{
    match words {
        [event, at, address, step, number] => fails_line(
            event_of_word(event),
            place_of(at, address, step, number),
        ),
        [event, line, at, address, step, number] => fails_line(
            event_of_line(event, line),
            place_of(at, address, step, number),
        ),
        _ => None,
    }
}

/// The line behind the word `unknown`.
fn after_unknown(words: &[&[u8]]) -> Option<StateLine>
    ensures { option_map line_said result ≡ option_map capped_line (after_unknown (map (λ word. word.now) words.now)) }
{
    let [unroll, k, at, address, step, number] = words else {
        return None;
    };
    if !is_word(unroll, b"unroll") {
        return None;
    }
    unknown_line(
        decimal_at_most(4096, k),
        place_of(at, address, step, number),
    )
}

/// The line behind the word `state`.
fn after_state(layout: Layout, words: &[&[u8]]) -> Option<StateLine>
    ensures { option_map line_said result ≡ option_map capped_line (after_state (layout_of layout) (map (λ word. word.now) words.now)) }
{
    let [machine] = words else {
        return None;
    };
    if !is_word(machine, layout.machine()) {
        return None;
    }
    Some(StateLine::Machine)
}

/// A choice, of which those above 3 are taken for 4.
fn choice_word(word: &[u8]) -> Option<u8>
    ensures { result ≡ option_map (λ n. min n 4) (decimal_word word.now) }
{
    if !is_decimal(word) {
        return None;
    }
    match decimal_at_most(3, word) {
        None => Some(4),
        Some(choice) => Some(choice as u8),
    }
}

/// The number of a step.
fn step_word(word: &[u8]) -> Option<u32>
    ensures { result ≡ at_most 16777215 (decimal_word word.now) }
{
    let step = decimal_at_most(16_777_215, word)?;
    Some(step as u32)
}

/// The line behind the word `choice`.
fn after_choice(words: &[&[u8]]) -> Option<StateLine>
    ensures { option_map line_said result ≡ option_map capped_line (after_choice (map (λ word. word.now) words.now)) }
{
    let [step, choice] = words else {
        return None;
    };
    choice_line(step_word(step), choice_word(choice))
}

/// A choice at a step.
fn choice_line(step: Option<u32>, choice: Option<u8>) -> Option<StateLine>
    ensures { (n : Option ℕ) → choice ≡ option_map (λ n. min n 4) n →
        option_map line_said result ≡ option_map capped_line (texts.pair_line ChoiceLine (texts.both step n)) }
{
    let step = step?;
    let choice = choice?;
    Some(StateLine::Choice { step, choice })
}

/// The line of the word `end`.
fn after_end(words: &[&[u8]]) -> Option<StateLine>
    ensures { option_map line_said result ≡ option_map capped_line (after_end (map (λ word. word.now) words.now)) }
{
    if words.is_empty() {
        return Some(StateLine::End);
    }
    None
}

/// The place of a name among names.
fn place_in(names: &[&[u8]], word: &[u8]) -> Option<usize>
    ensures { result ≡ place_in (map (λ name. name.now) names.now) word.now }
{
    for (place, name) in names.iter().enumerate() {
        if is_word(word, name) {
            return Some(place);
        }
    }
    None
}

/// The value of a register or a flag at a place.
fn value_of(layout: Layout, place: usize, word: &[u8]) -> Option<u32>
    ensures { result ≡ value_of (layout_of layout) place word.now }
{
    if place < layout.register_count() {
        return hex_word(8, word);
    }
    let value = decimal_at_most(1, word)?;
    Some(value as u32)
}

/// The line of a register or a flag.
fn register_line(layout: Layout, place: Option<usize>, words: &[&[u8]]) -> Option<StateLine>
    ensures { option_map line_said result ≡ option_map capped_line (register_line (layout_of layout) place (map (λ word. word.now) words.now)) }
{
    let place = place?;
    let [word] = words else {
        return None;
    };
    let value = value_of(layout, place, word)?;
    Some(StateLine::Register { place, value })
}

/// The line of words.
fn line_of_words(layout: Layout, words: &[&[u8]]) -> Option<StateLine>
    ensures { option_map line_said result ≡ option_map capped_line (line_of_words (layout_of layout) (map (λ word. word.now) words.now)) }
{
    let [word, rest @ ..] = words else {
        return None;
    };
    if is_word(word, b"fails") {
        return after_fails(rest);
    }
    if is_word(word, b"unknown") {
        return after_unknown(rest);
    }
    if is_word(word, b"state") {
        return after_state(layout, rest);
    }
    if is_word(word, b"byte") {
        return after_byte(rest);
    }
    if is_word(word, b"choice") {
        return after_choice(rest);
    }
    if is_word(word, b"end") {
        return after_end(rest);
    }
    register_line(layout, place_in(layout.names(), word), rest)
}

/// What a line says, if it is of the grammar.
///
/// # Errors
///
/// Where memory runs out.
pub fn state_line(
    alloc: Global,
    layout: Layout,
    text: &[u8],
) -> Result<Option<StateLine>, AllocError>
    ensures { IfOk result (λ line. option_map line_said line ≡ option_map capped_line (line_of (layout_of layout) text.now)) }
{
    let words = first_words(alloc, text)?;
    Ok(line_of_words(layout, &words))
}
