//! Arrays of bytes as they are changed.
ghost use Rattle.std.specs.Prelude.{◌≡◌, ◌<◌, ℕ, length, drop, IfOk};
ghost use Rattle.std.specs.List.Sorted.{IsNonDecreasingBy, IsPermutation, IsStableByKey};
ghost use Rattle.std.specs.Ordering.{nat_cmp};
ghost use Rattle.machine_spec.specs.StateText.{AreRising};
ghost use Rattle.model_text.specs.Stores.{last_byte, byte_or, last_of_each, is_last_of, AreBytes};

use crate::model::ModelMemory;
use std::alloc::{AllocError, Global};

/// An array that has one byte at every address, and then its changes, of which the last of an address counts.
#[derive(Drop)]
pub(crate) struct Stored {
    pub(crate) fill: u8,
    pub(crate) stores: Vec<(u32, u8)>,
}

/// The changes by rising addresses; those of one address stay in their order.
fn sorted(mut stores: Vec<(u32, u8)>) -> Result<Vec<(u32, u8)>, AllocError>
    ensures moved { IfOk result (λ v. IsPermutation stores.items v.items) }
    ensures rising { IfOk result (λ v. IsNonDecreasingBy (λ x. x.0) v.items) }
    ensures stable { IfOk result (λ v. IsStableByKey (λ x. x.0) nat_cmp stores.items v.items) }
{
    stores.sort_by_key(|x| x.0)?;
    Ok(stores)
}

/// Whether the change at a place is the last of its address, where those of one address stand together.
fn is_last(stores: &[(u32, u8)], place: usize) -> bool
    requires { place < length stores.now }
    ensures { result ≡ is_last_of (drop place stores.now) }
{
    if place + 1 == stores.len() {
        return true;
    }
    stores[place].0 != stores[place + 1].0
}

/// The last change of each address, where those of one address stand together. The error is want of memory.
fn last_of_each(alloc: Global, stores: &[(u32, u8)]) -> Result<Vec<(u32, u8)>, AllocError>
    ensures { IfOk result (λ v. v.items ≡ last_of_each stores.now) }
{
    let mut last = Vec::new(alloc);
    for place in 0..stores.len() {
        if is_last(stores, place) {
            last.push(stores[place])?;
        }
    }
    Ok(last)
}

impl Stored {
    /// The array by rising addresses: a sort of its changes. The error is want of memory.
    pub(crate) fn settle(self, alloc: Global) -> Result<ModelMemory, AllocError>
        requires { AreBytes self.stores.items }
        ensures rising { IfOk result (λ m. AreRising m.bytes.items) }
        ensures ranges { IfOk result (λ m. AreBytes m.bytes.items) }
        ensures bytes { IfOk result (λ m. (a : ℕ) → byte_or m.fill m.bytes.items a ≡ last_byte self.fill self.stores.items a) }
    {
        let fill = self.fill;
        let stores = sorted(self.stores)?;
        let bytes = last_of_each(alloc, &stores)?;
        Ok(ModelMemory { fill, bytes })
    }
}
