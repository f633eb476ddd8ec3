//! The words of a node.
ghost use Rattle.std.specs.Prelude.{◌≡◌, ◌<◌, ◌++◌, [], ◌∷◌, if◌then◌else◌, map, OnOk};
ghost use Rattle.std.specs.List.{flat_map};
ghost use Rattle.word_spec.specs.Texts.{spaced};
ghost use Rattle.bilv_spec.specs.GraphText.{letter_text, successor_words, kept_names, keeps_words};
ghost use Rattle.graph_nodes.specs.Graphs.{letter_of, successor_of, has_flag};

use graph_nodes::{Letter, Successor, has_flag};
use state_text::{push_text, push_word};
use std::alloc::AllocError;

/// The text of a letter.
fn letter_text(letter: Letter) -> &'static [u8]
    ensures { result.now ≡ letter_text (letter_of letter) }
{
    match letter {
        Letter::Next => b"n",
        Letter::Jump => b"j",
        Letter::Call => b"c",
        Letter::Return => b"r",
    }
}

/// Appends the letter and the address of a successor, with a blank before each.
fn push_successor(out: &mut Vec<u8>, letter: Letter, to: u32) -> Result<(), AllocError>
    ensures { OnOk result (out.new.items ≡ out.old.items ++ spaced (successor_words (successor_of (record { letter = letter; to = to })))) }
{
    push_text(out, b" ")?;
    push_text(out, letter_text(letter))?;
    push_text(out, b" ")?;
    push_word(out, to)?;
    Ok(())
}

/// Appends successors in order.
pub(crate) fn push_successors(out: &mut Vec<u8>, successors: &[Successor]) -> Result<(), AllocError>
    ensures { OnOk result (out.new.items ≡ out.old.items ++ spaced (flat_map successor_words (map successor_of successors.now))) }
{
    for successor in successors {
        push_successor(out, successor.letter, successor.to)?;
    }
    Ok(())
}

/// Appends a word with a blank before it, or nothing.
pub(crate) fn push_if(out: &mut Vec<u8>, said: bool, word: &[u8]) -> Result<(), AllocError>
    ensures { OnOk result (out.new.items ≡ out.old.items ++ spaced (if said then word.now ∷ [] else [])) }
{
    if !said {
        return Ok(());
    }
    push_text(out, b" ")?;
    push_text(out, word)?;
    Ok(())
}

/// Appends the kept flags, if there are any, in the order N Z C V.
pub(crate) fn push_kept(out: &mut Vec<u8>, set: u8) -> Result<(), AllocError>
    ensures { OnOk result (out.new.items ≡ out.old.items ++ spaced (keeps_words (kept_names (has_flag set)))) }
{
    if set % 16 == 0 {
        return Ok(());
    }
    push_text(out, b" keeps")?;
    push_if(out, has_flag(set, 3), b"N")?;
    push_if(out, has_flag(set, 2), b"Z")?;
    push_if(out, has_flag(set, 1), b"C")?;
    push_if(out, has_flag(set, 0), b"V")?;
    Ok(())
}
