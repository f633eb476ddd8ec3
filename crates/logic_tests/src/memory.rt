//! The bytes of a memory.
use bv_word::Word;
use byte_mem::{Bytes32, Endian};
use std::alloc::AllocError;

/// Addresses wrap, and a byte that is 0 is not listed.
#[test]
fn bytes_are_listed(rt: HostRuntime) -> Result<(), AllocError> {
    let mut memory = Bytes32::new(rt.alloc());
    memory.store(0xFFFF_FFFE, 4, Endian::Little, Word::new(32, 0x4400_2211))?;
    let entries = memory.entries(rt.alloc())?;
    let expected = [(1, 0x44), (0xFFFF_FFFE, 0x11), (0xFFFF_FFFF, 0x22)];
    assert_eq!(rt; entries.as_slice(), expected.as_slice());
    Ok(())
}

/// What is stored in reserved room is in the memory and in its copy.
#[test]
fn copies_have_the_bytes(rt: HostRuntime) -> Result<(), AllocError> {
    let mut memory = Bytes32::new(rt.alloc());
    memory.reserve(4)?;
    memory.store(0xFFFF_FFFE, 4, Endian::Little, Word::new(32, 0x4433_2211))?;
    let copy = memory.copy(rt.alloc())?;
    let expected = [
        (0, 0x33),
        (1, 0x44),
        (0xFFFF_FFFE, 0x11),
        (0xFFFF_FFFF, 0x22),
    ];
    let entries = memory.entries(rt.alloc())?;
    assert_eq!(rt; entries.as_slice(), expected.as_slice());
    let entries = copy.entries(rt.alloc())?;
    assert_eq!(rt; entries.as_slice(), expected.as_slice());
    Ok(())
}
