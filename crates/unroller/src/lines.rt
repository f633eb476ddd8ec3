//! What several lines of notes cost.
ghost use Rattle.std.specs.Prelude.{◌≡◌, ◌<◌, ℕ, length, map, slice_index_or, []};
ghost use Rattle.std.specs.List.{flat_map};
ghost use Rattle.notes_value.specs.NoteViews.{note_line_of, assert_of};
ghost use Rattle.question_form.specs.Views.{assert_exit};
ghost use Rattle.walk_spec.specs.Prices.{line_of};
ghost use Rattle.unroller.specs.LineCosts.{AreLineCosts};
ghost use Rattle.unroller.specs.Totals.{IsSum};

use crate::costs::{LineCost, line_cost};
use notes_value::{Assert, NoteLine};

/// The cost of no line.
pub fn nothing() -> LineCost
    ensures { AreLineCosts result [] }
{
    LineCost { price: 0, loads: 0 }
}

/// The sum of two costs.
pub fn sum(a: LineCost, b: LineCost) -> LineCost
    ensures { IsSum a b result }
{
    LineCost {
        price: a.price.saturating_add(b.price),
        loads: a.loads.saturating_add(b.loads),
    }
}

/// What lines cost.
pub fn lines_cost(lines: &[NoteLine]) -> LineCost
    ensures { AreLineCosts result (map (λ l. l.says) (map note_line_of lines.now)) }
{
    let mut total = nothing();
    for line in lines {
        total = sum(total, line_cost(&line.says));
    }
    total
}

/// What the assert lines at places cost.
pub fn asserts_cost(asserts: &[Assert], places: &[(u32, usize)]) -> LineCost
    requires { (i : ℕ) (d : ℕ × ℕ) → i < length places.now → (slice_index_or places.now i d).1 < length asserts.now }
    ensures { AreLineCosts result (flat_map line_of (map (assert_exit (map assert_of asserts.now)) places.now)) }
{
    let mut total = nothing();
    for place in places {
        total = sum(total, line_cost(&asserts[place.1].says));
    }
    total
}
