//! Numbers that values have.
ghost use Rattle.std.specs.Prelude.{◌≡◌, ◌≤◌, ◌<◌, ◌+◌, ◌*◌, ◌^◌, length, map, IfOk};
ghost use Rattle.clause_spec.specs.Clauses.{valuation};
ghost use Rattle.term_spec.specs.ClauseForm.{bits_from};

use std::alloc::{AllocError, Global};

/// The number of so many values from one on, the lowest bit first. Values behind the list are false.
pub fn number_at(values: &[bool], first: usize, count: u32) -> u32
    requires few { count ≤ 32 }
    requires fits { first + 32 < 2 ^ 64 }
    ensures value { result ≡ bits_from (valuation values.now) first count }
    ensures below { result < 2 ^ count }
{
    let mut number = 0u64;
    for i in 0..count {
        let place = first + i as usize;
        if place < values.len() && values[place] {
            number += 1u64 << i;
        }
    }
    number as u32
}
