//! The two blocks of a report, each as the text of a state behind some ending.
ghost use Rattle.std.specs.Prelude.{◌≡◌, ◌≤◌, ◌∷◌, length, take, drop, IfOk};
ghost use Rattle.word_spec.specs.Texts.{split_lines};
ghost use Rattle.difference_replay.specs.Blocks.{first_text, lines_to_end};

use crate::named::is_word;
use line_tokens::first_line;
use std::alloc::{AllocError, Global};

/// Some ending, as the first line of the text of a state.
const SOME_ENDING: &[u8] = b"fails fetch at 0x00000000 step 0\n";

/// The first block of a report.
#[derive(Drop)]
pub(crate) struct Block<'a> {
    /// Some ending and the lines of the block.
    pub(crate) text: Vec<u8>,
    /// How many lines the block has.
    pub(crate) lines: u64,
    /// The bytes after it.
    pub(crate) rest: &'a [u8],
}

/// The lines up to the first that is `end`, that one included, and the text after them; all lines where none is. The error is out of memory.
pub(crate) fn first_block<'a>(alloc: Global, text: &'a [u8]) -> Result<Block<'a>, AllocError>
    ensures text { IfOk result (λ b.
        split_lines b.text.items ≡ first_text ∷ take (lines_to_end (split_lines text.now)) (split_lines text.now)) }
    ensures lines { IfOk result (λ b. b.lines ≡ lines_to_end (split_lines text.now)) }
    ensures few { IfOk result (λ b. b.lines ≤ length text.now) }
    ensures rest { IfOk result (λ b. split_lines b.rest.now ≡ drop (lines_to_end (split_lines text.now)) (split_lines text.now)) }
    ensures shorter { IfOk result (λ b. length b.rest.now ≤ length text.now) }
{
    let mut block = Vec::new(alloc);
    block.extend_from_slice(SOME_ENDING)?;
    let mut lines = 0u64;
    let mut rest = text;
    while !rest.is_empty() {
        let (line, others) = first_line(rest);
        block.extend_from_slice(line)?;
        block.push(b'\n')?;
        lines += 1;
        rest = others;
        if is_word(line, b"end") {
            return Ok(Block {
                text: block,
                lines,
                rest,
            });
        }
    }
    Ok(Block {
        text: block,
        lines,
        rest,
    })
}

/// Some ending and the lines of a text. The error is out of memory.
pub(crate) fn last_block(alloc: Global, text: &[u8]) -> Result<Vec<u8>, AllocError>
    ensures { IfOk result (λ v. split_lines v.items ≡ first_text ∷ split_lines text.now) }
{
    let mut block = Vec::new(alloc);
    block.extend_from_slice(SOME_ENDING)?;
    block.extend_from_slice(text)?;
    Ok(block)
}
