//! The flags that lines of notes name outside `old`.
ghost use Rattle.std.specs.Prelude.{◌≡◌, ◌==◌, ◌&&◌, ℕ, map};
ghost use Rattle.std.specs.List.{list_any};
ghost use Rattle.bilv_spec.specs.LiveFlags.{names_flag};
ghost use Rattle.notes_value.specs.Views.{expr_of};
ghost use Rattle.notes_value.specs.NoteViews.{assert_of, note_line_of};
ghost use Rattle.notes_index.specs.Indexed.{assert_places, IsIndex};
ghost use Rattle.graph_nodes.specs.Graphs.{IsFlagSet};

use notes_index::group;
use notes_value::{Assert, Expr, NoteLine};

/// The set of one flag, none where the number is above 3.
fn only(flag: u8) -> u8
    ensures { IsFlagSet result (λ f. flag == f) }
{
    match flag {
        0 => 1,
        1 => 2,
        2 => 4,
        3 => 8,
        _ => 0,
    }
}

/// The flags that an expression names outside `old`, as a set: N 8, Z 4, C 2 and V 1.
pub fn named_flags(expr: &Expr) -> u8
    ensures { IsFlagSet result (λ f. names_flag f (expr_of expr.now)) }
{
    match expr {
        Expr::Number(_) | Expr::Register(_) | Expr::Pc | Expr::Bound | Expr::Old(_) => 0,
        Expr::Flag(flag) => only(*flag),
        Expr::Memory(_, a) | Expr::Not(a) => named_flags(a),
        Expr::All(_, _, a) => named_flags(a),
        Expr::Binary(_, a, b) => named_flags(a) | named_flags(b),
    }
}

/// The flags that assert lines of an address name outside `old`.
pub(crate) fn asserted(asserts: &[Assert], index: &[(u32, usize)], at: u32) -> u8
    requires { IsIndex (assert_places asserts.now) index.now }
    ensures { IsFlagSet result (λ f. list_any (λ x. (x.at == at) && names_flag f x.says) (map assert_of asserts.now)) }
{
    let (low, high) = group(index, at);
    let mut set = 0;
    for i in low..high {
        set |= named_flags(&asserts[index[i].1].says);
    }
    set
}

/// The flags that lines name outside `old`.
pub(crate) fn ensured(lines: &[NoteLine]) -> u8
    ensures { IsFlagSet result (λ f. list_any (λ l. names_flag f l.says) (map note_line_of lines.now)) }
{
    let mut set = 0;
    for line in lines {
        set |= named_flags(&line.says);
    }
    set
}
