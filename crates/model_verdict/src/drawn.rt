//! The points whose choices a script declares.
ghost use Rattle.std.specs.Prelude.{◌≡◌, ◌≢◌, ℕ, ◌<◌, length, slice_index, IfOk};
ghost use Rattle.question_form.specs.Views.{unrolled_of};
ghost use Rattle.model_verdict.specs.Readings.{AreDrawn};

use question_form::Unrolled;
use std::alloc::{AllocError, Global};

/// For each number of a point whether its row reads the choice; the numbers are those of the points by their places. The error is want of memory.
pub fn drawn_by_number(
    alloc: Global,
    unrolled: &Unrolled,
    numbers: &[u32],
) -> Result<Vec<bool>, AllocError>
    requires count { length numbers.now ≡ length unrolled.now.points.items }
    requires within { (i : ℕ) → i < length numbers.now → slice_index numbers.now i < length numbers.now }
    requires distinct { (i j : ℕ) → i < j → j < length numbers.now → slice_index numbers.now i ≢ slice_index numbers.now j }
    ensures { IfOk result (λ v. AreDrawn (unrolled_of unrolled.now) numbers.now v.items) }
{
    let mut drawn = vec![in alloc; false; numbers.len()]?;
    for place in 0..numbers.len() {
        drawn[numbers[place] as usize] = unrolled.draws(unrolled.points[place].code);
    }
    Ok(drawn)
}
