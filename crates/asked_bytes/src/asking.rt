//! The next addresses whose bytes are asked.
ghost use Rattle.std.specs.Prelude.{ℕ, map, Contains, IfOk};
ghost use Rattle.known_bytes.specs.Runs.{AreRuns, run_of};
ghost use Rattle.asked_bytes.specs.AskedBytes.{AreAdded, AreFurther, AreMore};

use crate::blocks::known_beside;
use crate::joining::with_further;
use known_bytes::Known;
use std::alloc::{AllocError, Global};

/// The addresses whose bytes are asked next: those that were asked, and the known ones in the blocks of the broken ones, these among them. The error is want of
/// memory.
pub fn asked_next(
    alloc: Global,
    known: &[Known],
    added: &[u32],
    broken: &[u32],
) -> Result<Vec<u32>, AllocError>
    requires added { AreAdded (map run_of known.now) added.now }
    requires broken { AreFurther (map run_of known.now) added.now broken.now }
    ensures more { IfOk result (λ v. AreMore (map run_of known.now) added.now v.items) }
    ensures asked { IfOk result (λ v. AreRuns known.now → (a : ℕ) → Contains broken.now a → Contains v.items a) }
{
    let beside = known_beside(alloc, known, added, broken)?;
    if beside.is_empty() {
        let joined = with_further(alloc, added, broken)?;
        return Ok(joined);
    }
    let joined = with_further(alloc, added, &beside)?;
    Ok(joined)
}
