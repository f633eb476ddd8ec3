//! Small programs.
ghost use Rattle.std.specs.Prelude.{IfOk};
ghost use Rattle.asked_bytes.specs.AskedBytes.{AreRising};

use machine_law::Machine;
use std::alloc::{AllocError, Global};

/// The number of RISC-V in a file's header.
pub const RISC_V: u8 = 0xf3;

/// The number of ARM.
pub const ARM: u8 = 0x28;

/// The header of a file for RISC-V with one program header behind it.
const HEADER: [u8; 52] = [
    0x7f, 0x45, 0x4c, 0x46, 0x01, 0x01, 0x01, 0x00, 0x00, 0x00, 0x00, 0x00, 0x00, 0x00, 0x00, 0x00,
    0x02, 0x00, 0xf3, 0x00, 0x01, 0x00, 0x00, 0x00, 0x00, 0x00, 0x01, 0x00, 0x34, 0x00, 0x00, 0x00,
    0x00, 0x00, 0x00, 0x00, 0x00, 0x00, 0x00, 0x00, 0x34, 0x00, 0x20, 0x00, 0x01, 0x00, 0x00, 0x00,
    0x00, 0x00, 0x00, 0x00,
];

/// Where the code begins.
pub const ENTRY: u32 = 0x1_0000;

/// Words of code, the text of their notes, and how many backward transfers a run may make.
#[derive(Clone, Copy)]
pub struct Program<'a> {
    pub words: &'a [u32],
    pub notes: &'a [u8],
    pub k: u8,
}

/// The same with what was read, on a machine.
#[derive_where(Clone, Copy)]
pub struct Case<'a, 'b, M: Machine> {
    pub words: &'b [u32],
    pub program: program_value::Program<'a, M>,
    pub k: u8,
}

/// The header of a file for a machine of this number.
fn header(machine: u8) -> [u8; 52] {
    let mut header = HEADER;
    header[18] = machine;
    header
}

/// A file of at most 100,000 words of code, for a machine of this number. The error is more of them, or out of memory.
pub fn file(alloc: Global, machine: u8, words: &[u32]) -> Result<Vec<u8>, AllocError> {
    if words.len() > 100_000 {
        return Err(AllocError);
    }
    let size = words.len() as u32 * 4;
    let mut file = Vec::from_slice(alloc, &header(machine))?;
    for number in [1, 84, ENTRY, ENTRY, size, size, 5, 4] {
        file.extend_from_slice(&number.to_le_bytes())?;
    }
    for word in words {
        file.extend_from_slice(&word.to_le_bytes())?;
    }
    Ok(file)
}

/// `ret`.
const RETURN: u32 = 0x0000_8067;

/// 32 times: where `a0` is 0, 1 is added to it.
pub fn diamonds(alloc: Global) -> Result<Vec<u32>, AllocError> {
    let mut words = Vec::new(alloc);
    for _ in 0..32 {
        words.extend_from_slice(&[0x0005_1463, 0x0015_0513])?;
    }
    words.push(RETURN)?;
    Ok(words)
}

/// Of 64 words from `sp` on each is loaded, added to `a0`, and the sum stored in its place; then each is loaded and added again.
pub fn frame(alloc: Global) -> Result<Vec<u32>, AllocError> {
    let mut words = Vec::new(alloc);
    for place in 0..64u32 {
        let offset = 4 * place;
        // lw a2,offset(sp); add a0,a0,a2; sw a0,offset(sp)
        let store = 0x00a1_2023 + (offset / 32 << 25) + (offset % 32 << 7);
        words.extend_from_slice(&[0x0001_2603 + (offset << 20), 0x00c5_0533, store])?;
    }
    for place in 0..64u32 {
        // lw a2,offset(sp); add a0,a0,a2
        words.extend_from_slice(&[0x0001_2603 + (4 * place << 20), 0x00c5_0533])?;
    }
    words.push(RETURN)?;
    Ok(words)
}

/// Where the data behind loads begin.
pub const DATA: u32 = ENTRY + 4 * 802;

/// Behind a first word 400 bytes from the address in `a1` on are loaded and added to `a0`; then come 64 KiB of data.
pub fn loads(alloc: Global, first: u32) -> Result<Vec<u32>, AllocError> {
    let mut words = vec![in alloc; first]?;
    for place in 0..400u32 {
        // lbu a2,place(a1); add a0,a0,a2
        words.extend_from_slice(&[0x0005_c603 + (place << 20), 0x00c5_0533])?;
    }
    words.push(RETURN)?;
    words.resize(802 + 16384, 0x1234_5678)?;
    Ok(words)
}

/// So many addresses from one on, rising.
pub fn addresses(alloc: Global, first: u32, count: u32) -> Result<Vec<u32>, AllocError>
    ensures { IfOk result (λ v. AreRising v.items) }
{
    let mut addresses = Vec::new(alloc);
    for place in 0..count {
        addresses.push(first.wrapping_add(place))?;
    }
    addresses.sort()?;
    addresses.dedup();
    Ok(addresses)
}
