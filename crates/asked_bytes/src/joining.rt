//! Rising addresses, put together.
ghost use Rattle.std.specs.Prelude.{◌≡◌, ◌≤◌, ◌<◌, ◌⊎◌, ℕ, true, false, IfOk, Contains, length, slice_index};
ghost use Rattle.asked_bytes.specs.AskedBytes.{AreRising, IsMerged};

use std::alloc::{AllocError, Global};

/// Whether the next of two lists is that of the first one, by places in each, one of which is within its list.
fn comes_first(added: &[u32], i: usize, further: &[u32], j: usize) -> bool
    requires some { i < length added.now ⊎ j < length further.now }
    ensures first { result ≡ true → (i < length added.now) × (j < length further.now → slice_index added.now i < slice_index further.now j) }
    ensures second { result ≡ false → (j < length further.now) × (i < length added.now → slice_index further.now j ≤ slice_index added.now i) }
{
    if i >= added.len() {
        return false;
    }
    if j >= further.len() {
        return true;
    }
    added[i] < further[j]
}

/// The addresses with further ones, rising; both are rising, and have no address in common. The error is want of memory.
pub fn with_further(alloc: Global, added: &[u32], further: &[u32]) -> Result<Vec<u32>, AllocError>
    requires added { AreRising added.now }
    requires further { AreRising further.now }
    requires apart { (a : ℕ) → Contains further.now a → ¬ Contains added.now a }
    ensures { IfOk result (λ v. IsMerged added.now further.now v.items) }
{
    let mut joined = Vec::new(alloc);
    let mut i = 0;
    let mut j = 0;
    while i < added.len() || j < further.len() {
        if comes_first(added, i, further, j) {
            joined.push(added[i])?;
            i += 1;
        } else {
            joined.push(further[j])?;
            j += 1;
        }
    }
    Ok(joined)
}
