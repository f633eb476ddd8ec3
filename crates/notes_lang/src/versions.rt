//! The version of notes, and the upgrade to version 2.
ghost use Rattle.std.specs.Prelude.{◌≡◌, IfOk};
ghost use Rattle.notes_spec.specs.NotesGrammar as grammar;
ghost use Rattle.notes_spec.specs.Upgrades.{upgraded};
ghost use Rattle.notes_lang.specs.Reading.{tokens_view};
ghost use Rattle.notes_lang.specs.Version.{IsVersionOf};

use crate::parser::is_word;
use crate::sayings::is_two;
use crate::texts::first_line;
use line_tokens::{Token, tokens};
use std::alloc::{AllocError, Global};

/// Whether a line says that its text is of version 2, or not; `None` where the line says nothing.
fn version_of(tokens: &[Token]) -> Option<bool>
    ensures { IsVersionOf (tokens_view tokens.now) result }
{
    let (first, rest) = tokens.split_first()?;
    Some(is_word(first, b"notes") && is_two(rest))
}

/// Whether the first line that says something is `notes 2`: the text is of version 2.
pub(crate) fn is_second_text(alloc: Global, text: &[u8]) -> Result<bool, AllocError>
    ensures { IfOk result (λ b. b ≡ grammar.is_second (grammar.lines_of text.now)) }
{
    let mut at = 0usize;
    while at < text.len() {
        let rest = &text[at..];
        let (line, behind) = first_line(rest);
        let tokens = tokens(alloc, line)?;
        if let Some(is_second) = version_of(&tokens) {
            return Ok(is_second);
        }
        at = text.len() - behind.len();
    }
    Ok(false)
}

/// The text of version 2 that says the same notes, each line number one greater: a text of version 2 as it is, and a text of version 1 after the line
/// `notes 2`. It has 8 bytes more then, and is as lawful as the text; nothing is asked of its length.
///
/// # Errors
///
/// Where memory runs out.
pub fn upgrade(alloc: Global, text: &[u8]) -> Result<Vec<u8>, AllocError>
    ensures { IfOk result (λ t. t.items ≡ upgraded text.now) }
{
    let is_second = is_second_text(alloc, text)?;
    let mut out = Vec::new(alloc);
    if !is_second {
        out.extend_from_slice(b"notes 2\n")?;
    }
    out.extend_from_slice(text)?;
    Ok(out)
}
