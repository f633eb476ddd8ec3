//! The words that begin lines of a template's own.
ghost use Rattle.std.specs.Prelude.{◌≡◌};
ghost use Rattle.std.specs.Option.{option_map};
ghost use Rattle.note_template.specs.TemplateLines.{own_word};
ghost use Rattle.note_template.specs.Forms.{own_of};

use crate::bytes::is_text;

/// A word that begins a line of a template's own.
#[derive(Clone, Copy)]
pub(crate) enum OwnWord {
    Abi,
    Stack,
    Global,
    Only,
}

/// The word that a text is.
pub(crate) fn own_word(text: &[u8]) -> Option<OwnWord>
    ensures { option_map own_of result ≡ own_word text.now }
{
    if is_text(text, b"abi") {
        return Some(OwnWord::Abi);
    }
    if is_text(text, b"stack") {
        return Some(OwnWord::Stack);
    }
    if is_text(text, b"global") {
        return Some(OwnWord::Global);
    }
    if is_text(text, b"only") {
        return Some(OwnWord::Only);
    }
    None
}
