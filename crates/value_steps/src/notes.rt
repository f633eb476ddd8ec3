//! The values of the line of a number.
ghost use Rattle.std.specs.Prelude.{◌≡◌, ◌++◌, ℕ, Bool, OnOk, IfSome, map, All};
ghost use Rattle.std.specs.Option.{option_map};
ghost use Rattle.word_spec.specs.Memory as memory;
ghost use Rattle.trace_texts_spec.specs.ValueLines.{assert_at, note_at, values_told};
ghost use Rattle.notes_value.specs.Views.{expr_of};
ghost use Rattle.notes_value.specs.NoteViews.{assert_of, note_line_of};
ghost use Rattle.notes_value.specs.Reads.{IsReadable};
ghost use Rattle.value_steps.specs.Called.{names_of};

use crate::lines::push_value_lines;
use byte_mem::View;
use notes_value::{Assert, Expr, NoteLine};
use start_value::Layout;
use std::alloc::{AllocError, Global};

/// What the first line of a number says.
fn note_at<'a>(lines: &'a [NoteLine], line: u32) -> Option<&'a Expr>
    ensures found { option_map (λ e. expr_of e.now) result ≡ note_at line (map note_line_of lines.now) }
    ensures readable { (has : ℕ → Bool) → All (λ l. IsReadable has (expr_of l.says)) lines.now → IfSome result (λ e. IsReadable has (expr_of e.now)) }
{
    for note in lines {
        if note.line == line {
            return Some(&note.says);
        }
    }
    None
}

/// What the first `assert` line of a number says.
fn assert_at<'a>(lines: &'a [Assert], line: u32) -> Option<&'a Expr>
    ensures found { option_map (λ e. expr_of e.now) result ≡ assert_at line (map assert_of lines.now) }
    ensures readable { (has : ℕ → Bool) → All (λ l. IsReadable has (expr_of l.says)) lines.now → IfSome result (λ e. IsReadable has (expr_of e.now)) }
{
    for note in lines {
        if note.line == line {
            return Some(&note.says);
        }
    }
    None
}

/// Appends the values of the line of a number among lines as [`push_value_lines`] does, or nothing where there is none. What an `Err` leaves is open.
pub fn push_note_values<V: View>(
    alloc: Global,
    out: &mut Vec<u8>,
    layout: Layout,
    lines: &[NoteLine],
    line: u32,
    now: &V,
    old: &V,
    big: bool,
) -> Result<(), AllocError>
    requires readable { All (λ l. IsReadable V.has_register (expr_of l.says)) lines.now }
    ensures { OnOk result (out.new.items ≡ out.old.items
        ++ values_told (names_of layout) (memory.endian big) (V.view now.now) (V.view old.now) (note_at line (map note_line_of lines.now))) }
{
    match note_at(lines, line) {
        None => Ok(()),
        Some(says) => {
            push_value_lines(alloc, out, layout, says, now, old, big)?;
            Ok(())
        }
    }
}

/// Appends the values of the `assert` line of a number among lines as [`push_value_lines`] does, or nothing where there is none; invariants are among such lines.
/// What an `Err` leaves is open.
pub fn push_assert_values<V: View>(
    alloc: Global,
    out: &mut Vec<u8>,
    layout: Layout,
    lines: &[Assert],
    line: u32,
    now: &V,
    old: &V,
    big: bool,
) -> Result<(), AllocError>
    requires readable { All (λ l. IsReadable V.has_register (expr_of l.says)) lines.now }
    ensures { OnOk result (out.new.items ≡ out.old.items
        ++ values_told (names_of layout) (memory.endian big) (V.view now.now) (V.view old.now) (assert_at line (map assert_of lines.now))) }
{
    match assert_at(lines, line) {
        None => Ok(()),
        Some(says) => {
            push_value_lines(alloc, out, layout, says, now, old, big)?;
            Ok(())
        }
    }
}
