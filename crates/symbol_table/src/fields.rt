//! The numbers of a file, in the byte order that its header names.
ghost use Rattle.std.specs.Prelude.{◌≡◌, ◌≤◌, ◌+◌, length};
ghost use Rattle.bilv_spec.specs.Elf.{field};

use byteorder::{BigEndian, ByteOrder, LittleEndian};

/// The number of the two bytes at `at`.
#[tactic(auto, using(elf32_reader::proofs::Numbers::numbers))]
pub(crate) fn half(file: &[u8], at: usize) -> u16
    requires order { 6 ≤ length file.now }
    requires room { at + 2 ≤ length file.now }
    ensures { result ≡ field file.now 2 at }
{
    if file[5] == 2 {
        BigEndian::read_u16(&file[at..])
    } else {
        LittleEndian::read_u16(&file[at..])
    }
}

/// The number of the four bytes at `at`.
#[tactic(auto, using(elf32_reader::proofs::Numbers::numbers))]
pub(crate) fn word(file: &[u8], at: usize) -> u32
    requires order { 6 ≤ length file.now }
    requires room { at + 4 ≤ length file.now }
    ensures { result ≡ field file.now 4 at }
{
    if file[5] == 2 {
        BigEndian::read_u32(&file[at..])
    } else {
        LittleEndian::read_u32(&file[at..])
    }
}
