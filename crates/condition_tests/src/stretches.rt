//! Stretches of addresses whose bytes a file and notes give.
use crate::programs::{RISC_V, file};
use elf32_reader::read_image;
use known_bytes::known_stretch;
use notes_lang::{Dialect, parse_notes};
use start_value::Layout;
use std::alloc::Global;
use std::test::Fail;

/// Where the flags of the segment are in a file.
const FLAGS: usize = 76;

/// Whether a file of one writable word gives the byte at an address, by the text of notes, and the last address up to which it is so.
fn stretch(alloc: Global, text: &[u8], at: u32) -> Result<(bool, u32), Fail> {
    let mut file = file(alloc, RISC_V, &[0x0000_8067])?;
    if let Some(flags) = file.get_mut(FLAGS) {
        *flags = 6;
    }
    let image = read_image(alloc, &file)?;
    let layout = Layout::Rv32 { compressed: false };
    let notes = parse_notes(alloc, text, layout, Dialect::Plain)?;
    let stretch = known_stretch(&image, &notes, at);
    Ok((stretch.known, stretch.last))
}

/// Fixed bytes end with the segment, also where the range goes on; bytes that nothing gives go on behind it.
#[test]
fn stretches_are_whole(rt: HostRuntime) -> Result<(), Fail> {
    let fixed: &[u8] = b"entry 0x10000\nfixed 0x10000 0x1000f\n";
    let found = stretch(rt.alloc(), fixed, 0x1_0000)?;
    assert_eq!(rt; found, (true, 0x1_0003));
    let found = stretch(rt.alloc(), b"entry 0x10000\n", 0)?;
    assert_eq!(rt; found, (false, u32::MAX));
    Ok(())
}
