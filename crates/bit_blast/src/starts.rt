//! The flags of a start.
ghost use Rattle.std.specs.Prelude.{◌≡◌, ℕ, ◌<◌, ◌+◌, slice_index, IfOk};
ghost use Rattle.clause_spec.specs.Clauses.{valuation};
ghost use Rattle.term_spec.specs.ClauseForm.{bits_from};

use crate::values::number_at;
use std::alloc::{AllocError, Global};

/// The flags by their numbers.
pub fn flags_by_number(
    alloc: Global,
    values: &[bool],
    first: u32,
    count: u8,
) -> Result<Vec<u8>, AllocError>
    ensures { IfOk result (λ w. (f : ℕ) → f < count → slice_index w.items f ≡ bits_from (valuation values.now) (first + f) 1) }
{
    let mut flags = Vec::new(alloc);
    for i in 0..count {
        flags.push(number_at(values, first as usize + i as usize, 1) as u8)?;
    }
    Ok(flags)
}
