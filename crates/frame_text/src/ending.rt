//! Reads the ending that a first line says.
ghost use Rattle.std.specs.Prelude.{◌≡◌, false, true, IfOk, map};
ghost use Rattle.std.specs.Option.{option_map};
ghost use Rattle.word_spec.specs.Texts.{at_most, decimal_word, words_in};
ghost use Rattle.frame_texts_spec.specs.FrameTexts as texts;
ghost use Rattle.frame_texts_spec.specs.FrameTexts.{FramedFails, after_not, ending_after, ending_of, frame_line, frame_word, framed, new_ending};
ghost use Rattle.start_value.specs.Starts.{layout_of};
ghost use Rattle.state_text.specs.Starts.{named_of};
ghost use Rattle.frame_text.specs.Texts.{framed_ending_of, framed_event_of};
ghost use Rattle.frame_text.specs.Endings.{event_and_place, event_at, event_said, fails_words, line_by, word_by};

use crate::text::{FramedEnding, FramedEvent};
use line_tokens::{decimal_at_most, first_words};
use start_value::Layout;
use state_text::{NamedEnding, event_of_line, event_of_word, first_named, is_word, place_of};
use std::alloc::{AllocError, Global};

/// The event of one word that only frames have.
fn frame_word(word: &[u8]) -> Option<FramedEvent>
    ensures { option_map framed_event_of result ≡ frame_word word.now }
{
    if is_word(word, b"writes") {
        return Some(FramedEvent::WritesFails);
    }
    if is_word(word, b"modifies") {
        return Some(FramedEvent::ModifiesFails);
    }
    None
}

/// The event of a line of notes that only frames have.
fn frame_line(word: &[u8], number: &[u8]) -> Option<FramedEvent>
    ensures { option_map framed_event_of result ≡ frame_line word.now (at_most 18446744073709551615 (decimal_word number.now)) }
{
    let line = decimal_at_most(u64::MAX, number)?;
    if is_word(word, b"invariant") {
        return Some(FramedEvent::InvariantFails { line });
    }
    if is_word(word, b"needs") {
        return Some(FramedEvent::NeedsFails { line });
    }
    if is_word(word, b"gives") {
        return Some(FramedEvent::GivesFails { line });
    }
    None
}

/// The event of one word: also of a step, where any is sought.
fn word_event(any: bool, word: &[u8]) -> Option<FramedEvent>
    ensures { option_map framed_event_of result ≡ word_by any word.now }
{
    if any {
        if let Some(event) = event_of_word(word) {
            return Some(FramedEvent::OfStep(event));
        }
    }
    frame_word(word)
}

/// The event of a line of notes: also of a step, where any is sought.
fn line_event(any: bool, word: &[u8], number: &[u8]) -> Option<FramedEvent>
    ensures { option_map framed_event_of result ≡ line_by any word.now (at_most 18446744073709551615 (decimal_word number.now)) }
{
    if any {
        if let Some(event) = event_of_line(word, number) {
            return Some(FramedEvent::OfStep(event));
        }
    }
    frame_line(word, number)
}

/// An event with its place, where both are there.
fn with_place(
    event: Option<FramedEvent>,
    place: Option<(u32, u64)>,
) -> Option<(FramedEvent, (u32, u64))>
    ensures { option_map event_said result ≡ event_and_place (option_map framed_event_of event) place }
{
    let event = event?;
    let place = place?;
    Some((event, place))
}

/// The event that words name, and its place; where not any event is sought, one that only frames have.
pub fn event_at(any: bool, words: &[&[u8]]) -> Option<(FramedEvent, (u32, u64))>
    ensures { option_map event_said result ≡ event_at any (map (λ word. word.now) words.now) }
{
    match words {
        [event, at, address, step, number] => with_place(
            word_event(any, event),
            place_of(at, address, step, number),
        ),
        [event, line, at, address, step, number] => with_place(
            line_event(any, event, line),
            place_of(at, address, step, number),
        ),
        _ => None,
    }
}

/// The ending behind the word `fails`.
fn after_fails(words: &[&[u8]]) -> Option<FramedEnding>
    ensures { option_map framed_ending_of result ≡ ending_after FramedFails (word_by false) (line_by false) (map (λ word. word.now) words.now) }
{
    let (event, (at, step)) = event_at(false, words)?;
    Some(FramedEnding::Fails { event, at, step })
}

/// The ending of a line that does not begin with the word `not`, if no run of the tables has it.
fn fails_ending(words: &[&[u8]]) -> Option<FramedEnding>
    ensures { option_map framed_ending_of result ≡ fails_words (map (λ word. word.now) words.now) }
{
    let [word, rest @ ..] = words else {
        return None;
    };
    if !is_word(word, b"fails") {
        return None;
    }
    after_fails(rest)
}

/// The ending behind the word `inductive`.
fn after_inductive(words: &[&[u8]]) -> Option<FramedEnding>
    ensures { option_map framed_ending_of result ≡ ending_after texts.NotInductiveBy (word_by true) (line_by true) (map (λ word. word.now) words.now) }
{
    let (event, (at, step)) = event_at(true, words)?;
    Some(FramedEnding::NotInductive { event, at, step })
}

/// The ending behind the word `not`.
fn after_not(words: &[&[u8]]) -> Option<FramedEnding>
    ensures { option_map framed_ending_of result ≡ after_not (map (λ word. word.now) words.now) }
{
    let [word, rest @ ..] = words else {
        return None;
    };
    if !is_word(word, b"inductive") {
        return None;
    }
    after_inductive(rest)
}

/// The ending that a line says, if no run of the tables has it. Behind `not ` stand at most seven words.
fn new_ending(alloc: Global, text: &[u8]) -> Result<Option<FramedEnding>, AllocError>
    ensures { IfOk result (λ o. option_map framed_ending_of o ≡ new_ending (words_in text.now)) }
{
    if text.starts_with(b"not ") {
        let words = first_words(alloc, &text[4..])?;
        return Ok(after_not(&words));
    }
    let words = first_words(alloc, text)?;
    Ok(fails_ending(&words))
}

/// The ending of a run of the tables.
fn of_tables(named: NamedEnding) -> FramedEnding
    ensures { framed_ending_of result ≡ framed (named_of named) }
{
    match named {
        NamedEnding::FailsBy { event, at, step } => FramedEnding::Fails {
            event: FramedEvent::OfStep(event),
            at,
            step,
        },
        NamedEnding::UnknownBy { k, at, step } => FramedEnding::Turns { k, at, step },
    }
}

/// The ending that a first line says.
///
/// # Errors
///
/// Where memory runs out.
pub fn framed_ending(
    alloc: Global,
    layout: Layout,
    text: &[u8],
) -> Result<Option<FramedEnding>, AllocError>
    ensures { IfOk result (λ o. option_map framed_ending_of o ≡ ending_of (layout_of layout) text.now) }
{
    if let Some(named) = first_named(alloc, layout, text)? {
        return Ok(Some(of_tables(named)));
    }
    let ending = new_ending(alloc, text)?;
    Ok(ending)
}
