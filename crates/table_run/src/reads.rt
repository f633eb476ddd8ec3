//! The addresses that lines and rows read, in a state.
ghost use Rattle.std.specs.Prelude.{◌≡◌, ◌++◌, All, IfOk, OnOk, map, None, Some};
ghost use Rattle.std.specs.Option.{option_map};
ghost use Rattle.word_spec.specs.Memory as memory;
ghost use Rattle.machine_spec.specs.Machine.{addresses};
ghost use Rattle.model_spec.specs.Reads.{assert_reads, line_reads};
ghost use Rattle.notes_value.specs.Views.{expr_of};
ghost use Rattle.notes_value.specs.Reads.{IsReadable};
ghost use Rattle.notes_value.specs.NoteViews.{assert_of, note_line_of};
ghost use Rattle.notes_index.specs.Indexed.{AreIndexed, IsIndex, assert_places};
ghost use Rattle.program_value.specs.Programs.{program_of};
ghost use Rattle.table_run.specs.Traces.{IsStage, early_reads, reached_row, stage_reads};

use crate::lines::false_assert;
use crate::words::decoded_at;
use byte_mem::View;
use file_words::fetchable;
use machine_law::{Machine, length};
use notes_index::{Index, group};
use notes_value::{Assert, NoteLine, add_reads, add_span, value};
use program_value::Program;
use std::alloc::{AllocError, Global};

/// When a run reads: before it begins, the require lines; before a step is made, the assert lines of its address and the bytes that its row loads; and before
/// an exit is judged, the ensure lines.
#[derive(Clone, Copy)]
pub(crate) enum Stage<'a> {
    Entry,
    Step(&'a Index),
    Exit,
}

/// Adds the addresses that lines read, up to the first line that is false. The error is want of memory.
fn add_line_reads<V: View>(
    lines: &[NoteLine],
    now: &V,
    entry: &V,
    big: bool,
    places: &mut Vec<u32>,
) -> Result<(), AllocError>
    requires { All (λ l. IsReadable V.has_register (expr_of l.says)) lines.now }
    ensures { OnOk result (places.new.items
        ≡ places.old.items ++ line_reads (memory.endian big) (map note_line_of lines.now) (V.view now.now) (V.view entry.now)) }
{
    for line in lines {
        add_reads(&line.says, now, entry, big, places)?;
        if value(&line.says, now, entry, big) == 0 {
            return Ok(());
        }
    }
    Ok(())
}

/// Adds the addresses that the assert lines of the state's address read, up to the first line that is false. The error is want of memory.
fn add_assert_reads<V: View>(
    asserts: &[Assert],
    index: &[(u32, usize)],
    now: &V,
    entry: &V,
    big: bool,
    places: &mut Vec<u32>,
) -> Result<(), AllocError>
    requires index { IsIndex (assert_places asserts.now) index.now }
    requires readable { All (λ l. IsReadable V.has_register (expr_of l.says)) asserts.now }
    ensures { OnOk result (places.new.items
        ≡ places.old.items ++ assert_reads (memory.endian big) (map assert_of asserts.now) (V.view now.now) (V.view entry.now)) }
{
    let (low, high) = group(index, now.pc());
    for i in low..high {
        let says = &asserts[index[i].1].says;
        add_reads(says, now, entry, big, places)?;
        if value(says, now, entry, big) == 0 {
            return Ok(());
        }
    }
    Ok(())
}

/// Adds the addresses of the bytes that are loaded or stored: the first address and the number of the bytes. The error is want of memory.
pub(crate) fn add_bytes(places: &mut Vec<u32>, bytes: Option<(u32, u8)>) -> Result<(), AllocError>
    ensures { OnOk result (places.new.items ≡ places.old.items ++ addresses bytes) }
{
    match bytes {
        None => Ok(()),
        Some((first, count)) => {
            add_span(places, first, count)?;
            Ok(())
        }
    }
}

/// The instruction that the next step comes to: none where an assert line is false, where it cannot be fetched, and where the word has no row.
pub(crate) fn reached<M: Machine>(
    p: &Program<M>,
    index: &Index,
    entry: &M::State,
    state: &M::State,
) -> Option<M::Insn>
    requires index { AreIndexed p.now.notes.now index.now }
    ensures { option_map M.Machine.row result ≡ reached_row (program_of p.now) (M.State.view entry.now) (M.State.view state.now) }
{
    if let Some(_) = false_assert(&p.notes.asserts, &index.asserts, state, entry, p.big) {
        return None;
    }
    let at = state.pc();
    let word = decoded_at::<M>(p, state, at);
    if !fetchable(p.image, at, length::<M>(word)) {
        return None;
    }
    M::decode(word)
}

/// Adds the addresses that a step reads before its row is judged. The error is want of memory.
fn add_step_reads<M: Machine>(
    p: &Program<M>,
    index: &Index,
    entry: &M::State,
    state: &M::State,
    places: &mut Vec<u32>,
) -> Result<(), AllocError>
    requires index { AreIndexed p.now.notes.now index.now }
    ensures { OnOk result (places.new.items
        ≡ places.old.items ++ early_reads (program_of p.now) (M.State.view entry.now) (M.State.view state.now)) }
{
    add_assert_reads(
        &p.notes.asserts,
        &index.asserts,
        state,
        entry,
        p.big,
        places,
    )?;
    match reached::<M>(p, index, entry, state) {
        None => Ok(()),
        Some(insn) => {
            add_bytes(places, M::loaded(&insn, state))?;
            Ok(())
        }
    }
}

/// The addresses that a run reads at a stage, in a state, each as often as it is read. The error is want of memory.
pub(crate) fn places_read<M: Machine>(
    alloc: Global,
    p: &Program<M>,
    stage: Stage,
    entry: &M::State,
    state: &M::State,
) -> Result<Vec<u32>, AllocError>
    requires index { IsStage p.now.notes.now stage }
    ensures { IfOk result (λ v. v.items ≡ stage_reads (program_of p.now) stage.entry (M.State.view entry.now) (M.State.view state.now)) }
{
    let mut places = Vec::new(alloc);
    match stage {
        Stage::Entry => {
            add_line_reads(&p.notes.required, state, entry, p.big, &mut places)?;
            Ok(places)
        }
        Stage::Step(index) => {
            add_step_reads::<M>(p, index, entry, state, &mut places)?;
            Ok(places)
        }
        Stage::Exit => {
            add_line_reads(&p.notes.ensured, state, entry, p.big, &mut places)?;
            Ok(places)
        }
    }
}
