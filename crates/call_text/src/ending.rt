//! Reads the ending that a first line says.
ghost use Rattle.std.specs.Prelude.{◌≡◌, IfOk, map};
ghost use Rattle.std.specs.Option.{option_map};
ghost use Rattle.word_spec.specs.Texts.{words_in};
ghost use Rattle.machine_spec.specs.StateText.{after_unknown};
ghost use Rattle.frame_texts_spec.specs.CallTexts.{after_frame, call_ending_of, frame_in, unproved_ending};
ghost use Rattle.frame_texts_spec.specs.FrameTexts.{framed, named_in};
ghost use Rattle.start_value.specs.Starts.{layout_of};
ghost use Rattle.frame_text.specs.Texts.{framed_ending_of};
ghost use Rattle.call_text.specs.Lines.{after_unproved};
ghost use Rattle.call_text.specs.Texts.{called_ending_of, changes_at, frame_name_of};

use crate::changes::changes_at;
use crate::text::{CalledEnding, ContractChanges, FrameName};
use frame_text::{FramedEnding, event_at, framed_ending};
use line_tokens::{decimal_at_most, first_words, hex_word};
use start_value::Layout;
use state_text::{is_word, place_of};
use std::alloc::{AllocError, Global};

/// The frame that a word names.
fn frame_in(contracts: &[ContractChanges], word: &[u8]) -> Option<FrameName>
    ensures { option_map frame_name_of result ≡ frame_in (changes_at contracts.now) word.now }
{
    if is_word(word, b"entry") {
        return Some(FrameName::Entry);
    }
    let at = hex_word(8, word)?;
    let _contract = changes_at(contracts, at)?;
    Some(FrameName::Contract { at })
}

/// An ending by backward transfers.
fn turns_in(words: &[&[u8]]) -> Option<FramedEnding>
    ensures { option_map framed_ending_of result ≡ option_map framed (named_in (after_unknown (map (λ word. word.now) words.now))) }
{
    let [unroll, k, at, address, step, number] = words else {
        return None;
    };
    if !is_word(unroll, b"unroll") {
        return None;
    }
    let k = decimal_at_most(4096, k)?;
    let (at, step) = place_of(at, address, step, number)?;
    Some(FramedEnding::Turns { k, at, step })
}

/// The ending after the name of a frame.
fn after_frame(words: &[&[u8]]) -> Option<FramedEnding>
    ensures { option_map framed_ending_of result ≡ after_frame (map (λ word. word.now) words.now) }
{
    if let Some((event, (at, step))) = event_at(true, words) {
        return Some(FramedEnding::Fails { event, at, step });
    }
    turns_in(words)
}

/// The ending after the word `unproved`.
fn after_unproved(contracts: &[ContractChanges], words: &[&[u8]]) -> Option<CalledEnding>
    ensures { option_map called_ending_of result ≡ after_unproved (changes_at contracts.now) (map (λ word. word.now) words.now) }
{
    let [frame, rest @ ..] = words else {
        return None;
    };
    let frame = frame_in(contracts, frame)?;
    let ending = after_frame(rest)?;
    Some(CalledEnding::unproved(frame, ending))
}

/// The ending that a line says, if only notes with contracts have it. After `unproved ` stand at most seven words.
fn unproved_ending(
    alloc: Global,
    contracts: &[ContractChanges],
    text: &[u8],
) -> Result<Option<CalledEnding>, AllocError>
    ensures { IfOk result (λ o. option_map called_ending_of o ≡ unproved_ending (changes_at contracts.now) (words_in text.now)) }
{
    if !text.starts_with(b"unproved ") {
        return Ok(None);
    }
    let words = first_words(alloc, &text[9..])?;
    Ok(after_unproved(contracts, &words))
}

/// The ending that a first line says.
pub(crate) fn called_ending(
    alloc: Global,
    layout: Layout,
    contracts: &[ContractChanges],
    text: &[u8],
) -> Result<Option<CalledEnding>, AllocError>
    ensures { IfOk result (λ o. option_map called_ending_of o ≡ call_ending_of (layout_of layout) (changes_at contracts.now) text.now) }
{
    if let Some(named) = framed_ending(alloc, layout, text)? {
        return Ok(Some(CalledEnding::Plain(named)));
    }
    let ending = unproved_ending(alloc, contracts, text)?;
    Ok(ending)
}
