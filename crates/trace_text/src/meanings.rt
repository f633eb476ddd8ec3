//! A list of statements on one line.
ghost use Rattle.std.specs.Prelude.{◌≡◌, ◌++◌, ◌≤◌, ◌==◌, OnOk, length};
ghost use Rattle.std.specs.List.{prefix_len};
ghost use Rattle.word_spec.specs.Texts.{split_lines};
ghost use Rattle.machine_spec.specs.BilText.{list_text};
ghost use Rattle.bil_ast.specs.Views.{statements};
ghost use Rattle.trace_texts_spec.specs.StepLines.{ended, in_line, is_space, opens_block, outdented};

use bil_ast::Stmt;
use bil_print::print_stmts;
use line_tokens::first_line;
use state_text::push_text;
use std::alloc::{AllocError, Global};

/// How many blanks stand in front of a text.
fn blanks(text: &[u8]) -> usize
    ensures count { result ≡ prefix_len is_space text.now }
    ensures within { result ≤ length text.now }
{
    text.iter().take_while(|b| **b == 32).count()
}

/// A text without the blanks in front.
fn outdented<'a>(text: &'a [u8]) -> &'a [u8]
    ensures { result.now ≡ outdented text.now }
{
    let count = blanks(text);
    &text[count..]
}

/// Whether a text ends with a bracket that opens a block.
fn opens_block(text: &[u8]) -> bool
    ensures { result ≡ opens_block text.now }
{
    if text.is_empty() {
        return false;
    }
    text[text.len() - 1] == b'{'
}

/// Appends a line among others on one line.
fn push_ended(out: &mut Vec<u8>, text: &[u8]) -> Result<(), AllocError>
    ensures { OnOk result (out.new.items ≡ out.old.items ++ ended text.now) }
{
    push_text(out, outdented(text))?;
    if opens_block(text) {
        return Ok(());
    }
    push_text(out, b";")?;
    Ok(())
}

/// Appends the lines of a text, each with a blank in front.
fn push_in_line(out: &mut Vec<u8>, text: &[u8]) -> Result<(), AllocError>
    ensures { OnOk result (out.new.items ≡ out.old.items ++ in_line (split_lines text.now)) }
{
    let mut rest = text;
    while !rest.is_empty() {
        let (line, others) = first_line(rest);
        push_text(out, b" ")?;
        push_ended(out, line)?;
        rest = others;
    }
    Ok(())
}

/// Appends a list of statements on one line. What an `Err` leaves is open.
pub(crate) fn push_statements(
    alloc: Global,
    out: &mut Vec<u8>,
    list: &[Stmt],
) -> Result<(), AllocError>
    ensures { OnOk result (out.new.items ≡ out.old.items ++ in_line (split_lines (list_text 0 (statements list.now)))) }
{
    let text = print_stmts(alloc, list)?;
    push_in_line(out, &text)?;
    Ok(())
}
