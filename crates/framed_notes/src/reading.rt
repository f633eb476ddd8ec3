//! Notes that may have invariants or contracts.
ghost use Rattle.std.specs.Prelude.{◌≡◌, All, IfErr, IfOk};
ghost use Rattle.std.specs.List.Sorted.{IsStrictlyIncreasing};
ghost use Rattle.answer_spec.specs.FrameAnswers as answers;
ghost use Rattle.notes_spec.specs.FrameNotes.{IsFrameText};
ghost use Rattle.notes_spec.specs.Scopes.{in_dialect};
ghost use Rattle.notes_lang.specs.Framed.{IsContractOver, frame_notes_of};
ghost use Rattle.notes_lang.specs.Parsing.{IsRefused, layout_flags, layout_registers, layout_vocabulary};
ghost use Rattle.notes_value.specs.FrameViews.{contract_of};
ghost use Rattle.notes_value.specs.NoteViews.{notes_of};
ghost use Rattle.notes_value.specs.Reads.{AreOver, AreReadable, IsReadableContract};
ghost use Rattle.notes_lang.specs.declared.notes.Dialect as dialects;

use crate::dialects::dialect_for;
use notes_lang::{NotesError, parse};
use notes_value::FrameNotes;
use start_value::Layout;
use std::alloc::Global;

/// The notes of one function that a text says, with its invariants and contracts, for the machine of a layout. Lines of invariants and of contracts are known
/// where the text has one of either; a text with both is refused. The numbers of the lines that are invariants rise. What the notes and their contracts read and
/// change is of the machine.
///
/// # Errors
///
/// `Fault` tells the first line that is refused, with the first of its faults; where each line is good but none names the function, it is the line after the
/// last. `Memory` is want of memory.
pub fn parse_headed(alloc: Global, bytes: &[u8], layout: Layout) -> Result<FrameNotes, NotesError>
    ensures said { (d : dialects.Dialect) → IfOk result (λ n. IsFrameText (in_dialect (answers.dialect_for bytes.now) (layout_vocabulary layout d)) bytes.now
        (frame_notes_of n)) }
    ensures rising { IfOk result (λ n. IsStrictlyIncreasing n.invariants.items) }
    ensures readable { IfOk result (λ n. AreReadable (layout_registers layout) (notes_of n.notes)) }
    ensures over { IfOk result (λ n. AreOver (layout_registers layout) (layout_flags layout) (notes_of n.notes)) }
    ensures contracts { IfOk result (λ n. All (λ x. IsReadableContract (layout_registers layout) (contract_of x)) n.contracts.items) }
    ensures changes { IfOk result (λ n. All (λ x. IsContractOver (layout_registers layout) (layout_flags layout) (contract_of x)) n.contracts.items) }
    ensures refused { (d : dialects.Dialect) → IfErr result (IsRefused (in_dialect (answers.dialect_for bytes.now) (layout_vocabulary layout d)) bytes.now) }
{
    let Ok(dialect) = dialect_for(alloc, bytes) else {
        return Err(NotesError::Memory);
    };
    match parse(alloc, bytes, layout, dialect) {
        Ok(read) => Ok(read),
        Err(error) => Err(error),
    }
}
