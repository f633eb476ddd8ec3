//! What a line in the blocks says.
ghost use Rattle.std.specs.Prelude.{◌≡◌, ◌+◌, ◌++◌, ◌≤◌, ◌<◌, IfOk, IfSome, OnOk, length, map};
ghost use Rattle.std.specs.Option.{option_map};
ghost use Rattle.word_spec.specs.Texts.{lines, split_lines};
ghost use Rattle.frame_texts_spec.specs.CallTexts.{block_line_of, body_of, call_in, call_of};
ghost use Rattle.start_value.specs.Starts.{layout_of};
ghost use Rattle.call_text.specs.Lines.{blocks_said, block_said, capped_block};

use frame_text::{Mark, mark_of};
use line_tokens::{decimal_at_most, first_line, first_words, hex_word};
use start_value::Layout;
use state_text::{StateLine, is_word, line_of, push_text};
use std::alloc::{AllocError, Global};

/// A line in the blocks: one that begins a block, one of a start, or one of the beginning of a head part.
#[derive(Clone, Copy)]
pub(crate) enum BlockLine {
    Begins { step: u32, at: u32 },
    OfStart(StateLine),
    OfHead(Mark),
}

/// The lines before the first block, which were copied.
#[derive(Clone, Copy)]
pub(crate) struct Before<'a> {
    /// How many they are.
    pub(crate) count: u64,
    /// The text from the line on that begins the first block, if there is one.
    pub(crate) blocks: Option<&'a [u8]>,
}

/// The step and the address of words that begin a block.
fn call_in(words: &[&[u8]]) -> Option<(u32, u32)>
    ensures { result ≡ call_in (map (λ word. word.now) words.now) }
{
    let [word, step, at] = words else {
        return None;
    };
    if !is_word(word, b"call") {
        return None;
    }
    let step = decimal_at_most(16_777_215, step)?;
    let at = hex_word(8, at)?;
    Some((step as u32, at))
}

/// The step and the address of a line that begins a block.
fn call_of(alloc: Global, text: &[u8]) -> Result<Option<(u32, u32)>, AllocError>
    ensures { IfOk result (λ o. o ≡ call_of text.now) }
{
    let words = first_words(alloc, text)?;
    Ok(call_in(&words))
}

/// What a line in the blocks says.
pub(crate) fn block_line(
    alloc: Global,
    layout: Layout,
    text: &[u8],
) -> Result<Option<BlockLine>, AllocError>
    ensures { IfOk result (λ o. option_map block_said o ≡ option_map capped_block (block_line_of (layout_of layout) text.now)) }
{
    if let Some((step, at)) = call_of(alloc, text)? {
        return Ok(Some(BlockLine::Begins { step, at }));
    }
    if let Some(line) = line_of(alloc, layout, text)? {
        return Ok(Some(BlockLine::OfStart(line)));
    }
    let Some(mark) = mark_of(alloc, layout, text)? else {
        return Ok(None);
    };
    Ok(Some(BlockLine::OfHead(mark)))
}

/// Appends the lines before the first block. What an `Err` leaves is open.
pub(crate) fn copy_before<'a>(
    alloc: Global,
    out: &mut Vec<u8>,
    text: &'a [u8],
) -> Result<Before<'a>, AllocError>
    ensures text { OnOk result (out.new.items ≡ out.old.items ++ lines (body_of (split_lines text.now)).lines) }
    ensures count { IfOk result (λ b. b.count ≡ length (body_of (split_lines text.now)).lines) }
    ensures blocks { IfOk result (λ b. blocks_said b.blocks ≡ (body_of (split_lines text.now)).blocks) }
    ensures some { IfOk result (λ b. IfSome b.blocks (λ rest. 0 < length rest.now)) }
    ensures room { IfOk result (λ b. IfSome b.blocks (λ rest. b.count + length rest.now ≤ length text.now)) }
{
    let mut count = 0u64;
    let mut rest = text;
    while !rest.is_empty() {
        let (line, others) = first_line(rest);
        if call_of(alloc, line)?.is_some() {
            return Ok(Before {
                count,
                blocks: Some(rest),
            });
        }
        push_text(out, line)?;
        push_text(out, b"\n")?;
        count += 1;
        rest = others;
    }
    Ok(Before {
        count,
        blocks: None,
    })
}
