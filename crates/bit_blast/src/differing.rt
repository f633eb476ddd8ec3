//! Addresses in order.
ghost use Rattle.std.specs.Prelude.{◌↔◌, ℕ, Contains, IfOk};
ghost use Rattle.std.specs.List.Sorted.{IsStrictlyIncreasing};

use std::alloc::AllocError;

/// Addresses, rising and each once. The error is want of memory.
pub fn addresses_in_order(mut found: Vec<u32>) -> Result<Vec<u32>, AllocError>
    ensures rise { IfOk result (λ v. IsStrictlyIncreasing v.items) }
    ensures same { IfOk result (λ v. (x : ℕ) → Contains found.items x ↔ Contains v.items x) }
{
    found.sort()?;
    found.dedup();
    Ok(found)
}
