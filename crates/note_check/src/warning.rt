//! Warnings and their texts.
ghost use Rattle.std.specs.Prelude.{◌≡◌, ◌++◌, OnOk};
ghost use Rattle.word_spec.specs.Texts.{number_text, word_text};
ghost use Rattle.note_check.specs.Warnings.{about_text, constant_text, placed_text, range_text, warning_text};

use state_text::{push_number, push_text, push_word};
use std::alloc::{AllocError, Global};

/// Something that makes an answer mean less than it seems. Lines are numbered from 1 on.
#[derive(Clone, Copy, Debug, PartialEq, Eq)]
pub enum Warning {
    /// An assert line at an address that the flow graph does not reach: it is never judged.
    UnreachedAssert { line: u32, at: u32 },
    /// An invariant at such an address.
    UnreachedInvariant { line: u32, at: u32 },
    /// A targets line at such an address.
    UnreachedTargets { at: u32 },
    /// A contract at an address to which no path leads from the function's entry: it is verified, and nothing uses it.
    UncalledContract { at: u32 },
    /// A loaded segment that is executable and writable, by its first and its last address: a store to its data is refused as one to code.
    WritableCode { first: u32, last: u32 },
    /// The file says that it has compressed instructions, and they were not asked for.
    CompressedCode,
    /// The function's symbol says that it is Thumb code, which is not read.
    ThumbFunction,
    /// A line names the function by a symbol, and the file has no symbol table.
    NoSymbols,
    /// A require line that says the same of every state.
    ConstantRequire { line: u32 },
    /// An ensure line that says the same of every state.
    ConstantEnsure { line: u32 },
}

/// Writes a word, a line's number and an address.
fn push_placed(
    alloc: Global,
    out: &mut Vec<u8>,
    word: &[u8],
    line: u32,
    at: u32,
) -> Result<(), AllocError>
    ensures { OnOk result (out.new.items ≡ out.old.items ++ placed_text word.now line at) }
{
    push_text(out, word)?;
    push_number(alloc, out, line as u64)?;
    push_text(out, b" at ")?;
    push_word(out, at)?;
    push_text(out, b" is not reached")?;
    Ok(())
}

/// Writes an address between two texts.
fn push_about(out: &mut Vec<u8>, front: &[u8], at: u32, back: &[u8]) -> Result<(), AllocError>
    ensures { OnOk result (out.new.items ≡ out.old.items ++ about_text front.now at back.now) }
{
    push_text(out, front)?;
    push_word(out, at)?;
    push_text(out, back)?;
    Ok(())
}

/// Writes that code from an address to another is writable.
fn push_range(out: &mut Vec<u8>, first: u32, last: u32) -> Result<(), AllocError>
    ensures { OnOk result (out.new.items ≡ out.old.items ++ range_text first last) }
{
    push_text(out, b"code from ")?;
    push_word(out, first)?;
    push_text(out, b" to ")?;
    push_word(out, last)?;
    push_text(out, b" is writable: a store there is codewrite")?;
    Ok(())
}

/// Writes a word and the number of a line that says the same of every state.
fn push_constant(alloc: Global, out: &mut Vec<u8>, word: &[u8], line: u32) -> Result<(), AllocError>
    ensures { OnOk result (out.new.items ≡ out.old.items ++ constant_text word.now line) }
{
    push_text(out, word)?;
    push_number(alloc, out, line as u64)?;
    push_text(out, b" says the same of every state")?;
    Ok(())
}

/// Writes what a warning says, without a line feed.
///
/// # Errors
///
/// Want of memory.
pub fn push_warning(alloc: Global, out: &mut Vec<u8>, warning: Warning) -> Result<(), AllocError>
    ensures { OnOk result (out.new.items ≡ out.old.items ++ warning_text warning) }
{
    match warning {
        Warning::UnreachedAssert { line, at } => {
            push_placed(alloc, out, b"assert ", line, at)?;
            Ok(())
        }
        Warning::UnreachedInvariant { line, at } => {
            push_placed(alloc, out, b"invariant ", line, at)?;
            Ok(())
        }
        Warning::UnreachedTargets { at } => {
            push_about(out, b"targets at ", at, b" are not reached")?;
            Ok(())
        }
        Warning::UncalledContract { at } => {
            push_about(out, b"contract at ", at, b" is not reached")?;
            Ok(())
        }
        Warning::WritableCode { first, last } => {
            push_range(out, first, last)?;
            Ok(())
        }
        Warning::CompressedCode => {
            push_text(out, b"the file has compressed code: use --rvc")?;
            Ok(())
        }
        Warning::ThumbFunction => {
            push_text(out, b"the function is Thumb code")?;
            Ok(())
        }
        Warning::NoSymbols => {
            push_text(out, b"the file has no symbols: use entry")?;
            Ok(())
        }
        Warning::ConstantRequire { line } => {
            push_constant(alloc, out, b"require ", line)?;
            Ok(())
        }
        Warning::ConstantEnsure { line } => {
            push_constant(alloc, out, b"ensure ", line)?;
            Ok(())
        }
    }
}
