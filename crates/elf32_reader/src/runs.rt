//! The runs of addresses whose bytes no run of a program changes.
ghost use Rattle.std.specs.Prelude.{ℕ, ◌≡◌, ◌≤◌, ◌<◌, ◌+◌, ◌^◌, ◌⊎◌, length, IfOk, OnOk, true};
ghost use Rattle.std.specs.List.{All};
ghost use Rattle.elf32_reader.specs.Loads.{segment, has_addresses, IsApart};
ghost use Rattle.elf32_reader.specs.Images.{keeps, IsRunsTo, ExtendsRun, PushesRun};

use crate::segments::ProgramHeader;
use std::alloc::{AllocError, Global};

/// The bytes of a segment with these flags are kept: it is executable (bit 0), or not writable (bit 1).
pub(crate) fn is_kept(flags: u32) -> bool
    ensures { result ≡ keeps flags }
{
    flags % 2 == 1 || flags / 2 % 2 != 1
}

/// Adds a run that begins behind the last one, and joins the two where no address lies between them.
fn add_run(runs: &mut Vec<(u32, u32)>, first: u32, last: u32) -> Result<(), AllocError>
    ensures { OnOk result (ExtendsRun runs.old.items first last runs.new.items ⊎ PushesRun runs.old.items first last runs.new.items) }
{
    let count = runs.len();
    if count > 0 {
        let before = runs[count - 1];
        if before.1 as u64 + 1 == first as u64 {
            runs[count - 1] = (before.0, last);
            return Ok(());
        }
    }
    runs.push((first, last))?;
    Ok(())
}

/// The maximal runs of kept addresses of segments that stand apart.
pub(crate) fn kept_runs(
    alloc: Global,
    found: &[ProgramHeader],
) -> Result<Vec<(u32, u32)>, AllocError>
    requires apart { IsApart found.now }
    requires solid { All (λ h. has_addresses (segment h) ≡ true) found.now }
    requires below { All (λ h. h.address + h.in_memory ≤ 2 ^ 32) found.now }
    ensures { IfOk result (λ v. IsRunsTo found.now (length found.now) v.items) }
{
    let mut runs: Vec<(u32, u32)> = Vec::new(alloc);
    for h in found {
        if is_kept(h.flags) {
            add_run(&mut runs, h.address, h.address + (h.in_memory - 1))?;
        }
    }
    Ok(runs)
}
