//! The loaded addresses, part by part.
ghost use Rattle.std.specs.Prelude.{ℕ, ◌≡◌, ◌≤◌, ◌<◌, ◌+◌, ◌^◌, length, MatchOption, None};
ghost use Rattle.bilv_spec.specs.Elf.{loaded};
ghost use Rattle.elf32_reader.specs.Images.{IsTied};
ghost use Rattle.elf32_reader.specs.Portions.{IsFirstPart, IsPartOf};

use crate::runs::is_kept;
use crate::segments::{ProgramHeader, begun};

/// The loaded addresses of one segment from one of them on.
#[derive(Clone, Copy)]
pub struct Part<'a> {
    /// The first address.
    pub first: u32,
    /// The last address; it belongs to the part.
    pub last: u32,
    /// No run changes these bytes: they are executable, or not writable.
    pub kept: bool,
    /// The flags of the segment: X is 1, W is 2, R is 4.
    pub flags: u32,
    /// The bytes that the file has for the addresses from the first on; bytes of the part behind them are 0.
    pub bytes: &'a [u8],
}

/// The part of a segment from one of its addresses on.
fn part_of<'a>(file: &'a [u8], h: ProgramHeader, a: u32) -> Part<'a>
    requires low { h.address ≤ a }
    requires high { a < h.address + h.in_memory }
    requires below { h.address + h.in_memory ≤ 2 ^ 32 }
    requires inside { h.offset + h.in_file ≤ length file.now }
    ensures { IsPartOf file.now h a result }
{
    let passed = if a - h.address < h.in_file {
        a - h.address
    } else {
        h.in_file
    };
    let from = h.offset as usize + passed as usize;
    let end = h.offset as usize + h.in_file as usize;
    Part {
        first: a,
        last: h.address + (h.in_memory - 1),
        kept: is_kept(h.flags),
        flags: h.flags,
        bytes: &file[from..end],
    }
}

/// The first loaded part from an address on.
pub(crate) fn first_part<'a>(file: &'a [u8], found: &[ProgramHeader], a: u32) -> Option<Part<'a>>
    requires { IsTied file.now found.now }
    ensures { MatchOption result ((x : ℕ) → a ≤ x → loaded file.now x ≡ None) (IsFirstPart file.now a) }
{
    let place = begun(found, a);
    if place > 0 {
        let h = found[place - 1];
        if a - h.address < h.in_memory {
            return Some(part_of(file, h, a));
        }
    }
    if place == found.len() {
        return None;
    }
    let h = found[place];
    Some(part_of(file, h, h.address))
}
