//! The text of notes.
ghost use Rattle.std.specs.Prelude.{◌≡◌, ◌&&◌, All, List, map, not, IfOk, IfErr, OnOk};
ghost use Rattle.notes_spec.specs.Scopes as scopes;
ghost use Rattle.notes_spec.specs.NotesGrammar as grammar;
ghost use Rattle.notes_spec.specs.NotesGrammar.{IsNotesText};
ghost use Rattle.notes_spec.specs.FrameNotes.{IsFrameText};
ghost use Rattle.notes_value.specs.Reads.{AreOver, AreReadable, IsReadableContract};
ghost use Rattle.notes_lang.specs.Named.{vocabulary_of};
ghost use Rattle.notes_lang.specs.Drafting.{IsDraft};
ghost use Rattle.notes_value.specs.NoteViews.{notes_of};
ghost use Rattle.notes_value.specs.FrameViews.{contract_of};
ghost use Rattle.notes_lang.specs.Framed.{IsContractOver, frame_notes_of};
ghost use Rattle.notes_lang.specs.Judging.{IsNext};
ghost use Rattle.notes_lang.specs.Saying.{consts_after, is_something, says_of};
ghost use Rattle.notes_lang.specs.Scoping.{constant_of, scope_of};
ghost use Rattle.notes_lang.specs.Parsing.{IsLinesRead, IsRefused, layout_flags, layout_registers, layout_vocabulary};

use crate::drafts::Draft;
use crate::faults::{FaultKind, judge};
use crate::names::{Names, Vocabulary};
use crate::notes::{Dialect, FrameNotes, Notes};
use crate::sayings::Says;
use crate::scopes::{Constant, Mode, Scope};
use crate::texts::first_line;
use crate::versions::is_second_text;
use start_value::Layout;
use std::alloc::{AllocError, Global};
use thiserror::Error;

/// The first line of notes that is refused, with its first fault.
#[derive(Clone, Copy, PartialEq, Eq, Debug, Error)]
#[error("line {line} {kind}")]
pub struct NoteFault {
    /// The line, counted from 1.
    pub line: u32,
    /// Why it is refused.
    pub kind: FaultKind,
}

/// Why notes were not read.
#[derive(Drop, Debug, Error)]
pub enum NotesError {
    /// The notes are refused.
    #[error("{0}")]
    Fault(NoteFault),
    /// Want of memory.
    #[error("out of memory")]
    Memory,
}

/// The vocabulary of a machine, in a dialect.
fn vocabulary(layout: Layout, dialect: Dialect) -> Vocabulary
    ensures { vocabulary_of result ≡ layout_vocabulary layout dialect }
{
    match layout {
        Layout::Rv32 { compressed } => Vocabulary {
            names: Names::Rv32,
            narrow: compressed,
            dialect,
        },
        Layout::Arm { .. } => Vocabulary {
            names: Names::Arm,
            narrow: false,
            dialect,
        },
    }
}

/// Whether no line so far says something, after one more line.
fn still_first(is_first: bool, says: &Says) -> bool
    ensures { result ≡ (is_first && not (is_something (says_of says.now))) }
{
    match says {
        Says::Nothing => is_first,
        _ => false,
    }
}

/// Adds the constant of a line to those so far.
fn declare<'a>(consts: &mut Vec<Constant<'a>>, says: &Says<'a>) -> Result<(), AllocError>
    ensures { OnOk result (map constant_of consts.new.items ≡ consts_after (map constant_of consts.old.items) (says_of says.now)) }
{
    match says {
        Says::Const(word, number) => consts.push(Constant {
            word: *word,
            number: *number,
        })?,
        _ => {}
    }
    Ok(())
}

/// What the next line says, or its least fault.
fn next<'a>(
    alloc: Global,
    scope: Scope<'a, '_>,
    draft: &Draft,
    line: u32,
    text: &'a [u8],
) -> Result<Result<Says<'a>, FaultKind>, AllocError>
    requires { (scope_of scope).mode ≡ scopes.Strict }
    ensures { IfOk result (λ r. (earlier : List grammar.Says) → IsDraft earlier draft.now → IsNext (scope_of scope.entry) line text.now earlier r) }
{
    let says = match judge(alloc, scope, line, text)? {
        Ok(says) => says,
        Err(kind) => return Ok(Err(kind)),
    };
    match draft.fault(scope, &says) {
        Some(kind) => Ok(Err(kind)),
        None => Ok(Ok(says)),
    }
}

/// What the lines of a text say, with the number of the line behind the last, or the first line that is refused.
fn read_lines(
    alloc: Global,
    words: Vocabulary,
    text: &[u8],
) -> Result<Result<(Draft, u32), NoteFault>, AllocError>
    ensures { IfOk result (λ r. IsLinesRead (vocabulary_of words) text.now r) }
{
    let is_second = is_second_text(alloc, text)?;
    let outside: Vec<&[u8]> = Vec::new(alloc);
    let mut consts = Vec::new(alloc);
    let mut is_first = true;
    let mut draft = Draft::new(alloc);
    let mut at = 0usize;
    let mut line = 1u32;
    while at < text.len() {
        let rest = &text[at..];
        let (first, behind) = first_line(rest);
        let scope = Scope {
            words,
            consts: &consts,
            bound: &outside,
            is_second,
            is_first,
            mode: Mode::Strict,
        };
        let says = match next(alloc, scope, &draft, line, first)? {
            Ok(says) => says,
            Err(kind) => return Ok(Err(NoteFault { line, kind })),
        };
        declare(&mut consts, &says)?;
        is_first = still_first(is_first, &says);
        draft.add(alloc, line, says)?;
        at = text.len() - behind.len();
        line += 1;
    }
    Ok(Ok((draft, line)))
}

/// The notes that a text says, with its invariants and contracts, for the machine of a layout, in a dialect. `Fault` tells the first line that is refused, with
/// the first of its faults; where each line is good but none names the function, it is the line behind the last. A text whose first line that says something is
/// `notes 2` is of version 2. What the expressions of the notes and of their contracts read, and what the contracts change, the machine has; the numbers of
/// expressions have 32 bits; a line of a contract writes 1 to 256 bytes, and all lines of one contract together write fewer than 2 ^ 64.
pub fn parse(
    alloc: Global,
    bytes: &[u8],
    layout: Layout,
    dialect: Dialect,
) -> Result<FrameNotes, NotesError>
    ensures ok { IfOk result (λ n. IsNotesText (layout_vocabulary layout dialect) bytes.now (notes_of n.notes)) }
    ensures framed { IfOk result (λ n. IsFrameText (layout_vocabulary layout dialect) bytes.now (frame_notes_of n)) }
    ensures readable { IfOk result (λ n. AreReadable (layout_registers layout) (notes_of n.notes)) }
    ensures over { IfOk result (λ n. AreOver (layout_registers layout) (layout_flags layout) (notes_of n.notes)) }
    ensures contracts { IfOk result (λ n. All (λ x. IsReadableContract (layout_registers layout) (contract_of x)) n.contracts.items) }
    ensures changes { IfOk result (λ n. All (λ x. IsContractOver (layout_registers layout) (layout_flags layout) (contract_of x)) n.contracts.items) }
    ensures err { IfErr result (λ error. IsRefused (layout_vocabulary layout dialect) bytes.now error) }
{
    let Ok(read) = read_lines(alloc, vocabulary(layout, dialect), bytes) else {
        return Err(NotesError::Memory);
    };
    let (draft, line) = match read {
        Ok(read) => read,
        Err(fault) => return Err(NotesError::Fault(fault)),
    };
    match draft.finish() {
        Some(notes) => Ok(notes),
        None => Err(NotesError::Fault(NoteFault {
            line,
            kind: FaultKind::Entry,
        })),
    }
}

/// The notes that a text says, without invariants and contracts, of which a text in the dialects `Plain` and `Paired` has none; in all else as `parse`.
pub fn parse_notes(
    alloc: Global,
    bytes: &[u8],
    layout: Layout,
    dialect: Dialect,
) -> Result<Notes, NotesError>
    ensures ok { IfOk result (λ notes. IsNotesText (layout_vocabulary layout dialect) bytes.now (notes_of notes)) }
    ensures readable { IfOk result (λ notes. AreReadable (layout_registers layout) (notes_of notes)) }
    ensures over { IfOk result (λ notes. AreOver (layout_registers layout) (layout_flags layout) (notes_of notes)) }
    ensures err { IfErr result (λ error. IsRefused (layout_vocabulary layout dialect) bytes.now error) }
{
    match parse(alloc, bytes, layout, dialect) {
        Ok(read) => Ok(read.notes),
        Err(error) => Err(error),
    }
}
