//! Lines of notes in a state.
ghost use Rattle.std.specs.Prelude.{◌≡◌, map, All};
ghost use Rattle.word_spec.specs.Memory as memory;
ghost use Rattle.bilv_spec.specs.Run as meaning;
ghost use Rattle.notes_value.specs.Views.{expr_of};
ghost use Rattle.notes_value.specs.Reads.{IsReadable};
ghost use Rattle.notes_value.specs.NoteViews.{note_line_of, assert_of};
ghost use Rattle.std.specs.List.Sorted.{IsStrictlyIncreasing};
ghost use Rattle.frame_spec.specs.Frames.{invariants_of};
ghost use Rattle.table_run.specs.FrameEnds.{frame_of};
ghost use Rattle.notes_index.specs.Indexed.{assert_places, IsIndex};

use crate::cuts::is_line;
use byte_mem::View;
use notes_index::group;
use notes_value::{Assert, NoteLine, value};

/// The number of the first line that is false in the state now, for a run that began in the state at entry.
pub(crate) fn false_line<V: View>(lines: &[NoteLine], now: &V, entry: &V, big: bool) -> Option<u32>
    requires { All (λ l. IsReadable V.has_register (expr_of l.says)) lines.now }
    ensures { result ≡ meaning.false_line (memory.endian big) (map note_line_of lines.now) (V.view now.now) (V.view entry.now) }
{
    for line in lines {
        if value(&line.says, now, entry, big) == 0 {
            return Some(line.line);
        }
    }
    None
}

/// The number of the first assert line of the state's address that is false.
pub(crate) fn false_assert<V: View>(
    asserts: &[Assert],
    index: &[(u32, usize)],
    now: &V,
    entry: &V,
    big: bool,
) -> Option<u32>
    requires index { IsIndex (assert_places asserts.now) index.now }
    requires readable { All (λ l. IsReadable V.has_register (expr_of l.says)) asserts.now }
    ensures { result ≡ meaning.false_assert (memory.endian big) (map assert_of asserts.now) (V.view now.now) (V.view entry.now) }
{
    let (low, high) = group(index, now.pc());
    let mut least = asserts.len();
    for i in low..high {
        let place = index[i].1;
        if place >= least {
            continue;
        }
        if value(&asserts[place].says, now, entry, big) == 0 {
            least = place;
        }
    }
    if least == asserts.len() {
        return None;
    }
    Some(asserts[least].line)
}

/// The number of the first invariant of the state's address that is false.
pub(crate) fn false_invariant<V: View>(
    asserts: &[Assert],
    invariants: &[u32],
    now: &V,
    entry: &V,
    big: bool,
) -> Option<u32>
    requires rising { IsStrictlyIncreasing invariants.now }
    requires readable { All (λ l. IsReadable V.has_register (expr_of l.says)) asserts.now }
    ensures { (p : meaning.Program) → result ≡ meaning.false_assert (memory.endian big)
        (invariants_of (frame_of p invariants.now) (map assert_of asserts.now)) (V.view now.now) (V.view entry.now) }
{
    let at = now.pc();
    for line in asserts {
        if line.at != at {
            continue;
        }
        if !is_line(line.line as u64, invariants) {
            continue;
        }
        if value(&line.says, now, entry, big) == 0 {
            return Some(line.line);
        }
    }
    None
}
