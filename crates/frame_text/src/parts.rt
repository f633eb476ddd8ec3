//! Splits a text at the lines of a head's address and of return addresses.
ghost use Rattle.std.specs.Prelude.{◌≡◌, ◌+◌, ◌++◌, ◌≤◌, ◌<◌, ◌^◌, IfOk, OnOk, length, map};
ghost use Rattle.std.specs.Option.{option_map};
ghost use Rattle.word_spec.specs.Texts.{lines, split_lines};
ghost use Rattle.frame_texts_spec.specs.FrameTexts.{mark_in, mark_of, part_of, stack_of};
ghost use Rattle.start_value.specs.Starts.{layout_of};
ghost use Rattle.frame_text.specs.Parts.{behind_said, length_behind, mark_said};

use line_tokens::{first_line, first_words, hex_word};
use start_value::Layout;
use state_text::{is_word, push_text};
use std::alloc::{AllocError, Global};

/// A line of a head part's beginning.
#[derive(Clone, Copy)]
pub enum Mark {
    /// The address of a head.
    Head(u32),
    /// A return address on the stack.
    Stack(u32),
}

/// The first part of a text, whose lines were copied.
#[derive(Clone, Copy)]
pub(crate) struct FirstPart<'a> {
    /// How many lines it has.
    pub(crate) count: u64,
    /// The line that ends it, and what stands behind that line.
    pub(crate) behind: Option<(Mark, &'a [u8])>,
}

/// What words say of a head part's beginning.
fn mark_in(words: &[&[u8]]) -> Option<Mark>
    ensures { option_map mark_said result ≡ mark_in (map (λ word. word.now) words.now) }
{
    let [word, address] = words else {
        return None;
    };
    if is_word(word, b"head") {
        let at = hex_word(8, address)?;
        return Some(Mark::Head(at));
    }
    if is_word(word, b"stack") {
        let at = hex_word(8, address)?;
        return Some(Mark::Stack(at));
    }
    None
}

/// What a line says of a head part's beginning.
///
/// # Errors
///
/// Where memory runs out.
pub fn mark_of(alloc: Global, layout: Layout, text: &[u8]) -> Result<Option<Mark>, AllocError>
    ensures { IfOk result (λ m. option_map mark_said m ≡ mark_of (layout_of layout) text.now) }
{
    let words = first_words(alloc, text)?;
    Ok(mark_in(&words))
}

/// Appends the lines of a text's first part. What an `Err` leaves is open.
pub(crate) fn copy_part<'a>(
    alloc: Global,
    layout: Layout,
    out: &mut Vec<u8>,
    text: &'a [u8],
) -> Result<FirstPart<'a>, AllocError>
    ensures text { OnOk result (out.new.items ≡ out.old.items ++ lines (part_of (layout_of layout) (split_lines text.now)).lines) }
    ensures count { IfOk result (λ p. p.count ≡ length (part_of (layout_of layout) (split_lines text.now)).lines) }
    ensures behind { IfOk result (λ p. option_map behind_said p.behind ≡ (part_of (layout_of layout) (split_lines text.now)).behind) }
    ensures room { IfOk result (λ p. p.count + length_behind p.behind ≤ length text.now) }
{
    let mut count = 0u64;
    let mut rest = text;
    while !rest.is_empty() {
        let (line, others) = first_line(rest);
        match mark_of(alloc, layout, line)? {
            Some(mark) => {
                return Ok(FirstPart {
                    count,
                    behind: Some((mark, others)),
                });
            }
            None => {
                push_text(out, line)?;
                push_text(out, b"\n")?;
                count += 1;
                rest = others;
            }
        }
    }
    Ok(FirstPart {
        count,
        behind: None,
    })
}

/// Appends the return addresses with which a text begins, and gives what stands behind them. What an `Err` leaves is open.
pub(crate) fn read_stack<'a>(
    alloc: Global,
    layout: Layout,
    stack: &mut Vec<u32>,
    text: &'a [u8],
) -> Result<&'a [u8], AllocError>
    ensures stack { OnOk result (stack.new.items ≡ stack.old.items ++ (stack_of (layout_of layout) (split_lines text.now)).addresses) }
    ensures behind { IfOk result (λ rest. split_lines rest.now ≡ (stack_of (layout_of layout) (split_lines text.now)).behind) }
    ensures room { IfOk result (λ rest. length stack.new.items + length rest.now ≤ length stack.old.items + length text.now) }
{
    let mut rest = text;
    while !rest.is_empty() {
        let (line, others) = first_line(rest);
        let Some(Mark::Stack(at)) = mark_of(alloc, layout, line)? else {
            return Ok(rest);
        };
        stack.push(at)?;
        rest = others;
    }
    Ok(rest)
}
