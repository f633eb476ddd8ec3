//! What is told of small files and their notes.
ghost use Rattle.bilv_spec.specs.ElfFaults.{IsImage};
ghost use Rattle.bilv_spec.specs.Files.{order_of};
ghost use Rattle.std.specs.Prelude.{◌≡◌};
ghost use Rattle.word_spec.specs.Memory.{Little};

use crate::files::{ARM, ENTRY, RISC_V, Sample, file};
use elf32_reader::{ElfFault, Image, read_image};
use framed_notes::parse_headed;
use note_check::{Warning, push_warning, warnings, wrong_option};
use program_value::Program;
use rv_lift::Rv32;
use start_value::{Layout, Profile};
use std::alloc::{AllocError, Global};
use std::test::Fail;

/// `addi a0,a0,1` and `ret`.
const ADD: [u32; 2] = [0x0015_0513, 0x0000_8067];

/// The same, and behind it a `ret` to which nothing leads.
const ADD_MORE: [u32; 3] = [0x0015_0513, 0x0000_8067, 0x0000_8067];

/// `mov pc,lr`.
const RETURN: [u32; 1] = [0xe1a0_f00e];

/// A file of RISC-V.
fn risc_v(words: &[u32]) -> Sample {
    Sample {
        machine: RISC_V,
        flags: 0,
        access: 5,
        words,
        symbol: None,
    }
}

/// A file of ARM, with a symbol of a value.
fn arm(value: u32) -> Sample<'static> {
    Sample {
        machine: ARM,
        flags: 0x500_0000,
        access: 5,
        words: &RETURN,
        symbol: Some(value),
    }
}

/// The lines of warnings.
fn lines(alloc: Global, warnings: &[Warning]) -> Result<Vec<u8>, AllocError> {
    let mut text = Vec::new(alloc);
    for warning in warnings {
        push_warning(alloc, &mut text, *warning)?;
        text.push(b'\n')?;
    }
    Ok(text)
}

/// What is told of notes over the image of a little-endian file of RISC-V.
fn told_over(
    alloc: Global,
    file: &[u8],
    image: &Image,
    notes: &[u8],
    rvc: bool,
) -> Result<Vec<u8>, Fail>
    requires accepted { IsImage file.now }
    requires order { order_of image.now ≡ Little }
{
    let read = parse_headed(alloc, notes, Layout::Rv32 { compressed: false })?;
    let program = Program::<Rv32<0>>::new(image, &read.notes, ENTRY);
    let invariants = read.invariants.as_slice();
    let contracts = read.contracts.as_slice();
    let found = warnings::<Rv32<0>>(alloc, file, &program, invariants, contracts, rvc)?;
    let text = lines(alloc, &found)?;
    Ok(text)
}

/// What is told of a file of RISC-V and its notes.
fn told(alloc: Global, sample: Sample, notes: &[u8], rvc: bool) -> Result<Vec<u8>, Fail> {
    let file = file(alloc, sample)?;
    let bytes = file.as_slice();
    let image = read_image(alloc, bytes)?;
    if !image.is_risc_v() {
        return Err(Fail::from(ElfFault::Machine));
    }
    told_over(alloc, bytes, &image, notes, rvc)
}

/// What is told of the options of a file and its notes.
fn told_options(
    alloc: Global,
    sample: Sample,
    layout: Layout,
    notes: &[u8],
    rvc: bool,
) -> Result<Vec<u8>, Fail> {
    let file = file(alloc, sample)?;
    let bytes = file.as_slice();
    let _image = read_image(alloc, bytes)?;
    let read = parse_headed(alloc, notes, layout)?;
    let found = wrong_option(alloc, bytes, &read.notes, rvc)?;
    let text = lines(alloc, &found)?;
    Ok(text)
}

/// Addresses that the graph has, and one that it has not.
#[test]
fn lines_that_are_not_reached_are_told(rt: HostRuntime) -> Result<(), Fail> {
    let alloc = rt.alloc();
    let cases: [(&[u8], &[u8]); 6] = [
        (
            b"entry 0x10000\nassert 0x10004 a0 = 2\ntargets 0x10004 0x10000\n",
            b"",
        ),
        (
            b"entry 0x10000\nassert 0x10008 a0 = 2\n",
            b"assert 2 at 0x00010008 is not reached\n",
        ),
        (
            b"notes 2\nentry 0x10000\ninvariant 0x10008 a0 = 2\ninvariant 0x10004 a0 = 2\n",
            b"invariant 3 at 0x00010008 is not reached\n",
        ),
        (
            b"entry 0x10000\ntargets 0x10008 0x10000\n",
            b"targets at 0x00010008 are not reached\n",
        ),
        (
            b"notes 2\nentry 0x10000\nneeds 0x10008 a0 = 1\nassert 0x10008 a0 = 1\n",
            b"contract at 0x00010008 is not reached\n",
        ),
        (b"notes 2\nentry 0x10000\nneeds 0x10004 a0 = 1\n", b""),
    ];
    for (notes, expected) in cases {
        let text = told(alloc, risc_v(&ADD_MORE), notes, false)?;
        assert_eq!(rt; text.as_slice(), expected);
    }
    Ok(())
}

/// A segment with both of the flags, with one and with the other.
#[test]
fn code_that_may_be_written_is_told(rt: HostRuntime) -> Result<(), Fail> {
    let alloc = rt.alloc();
    let warning: &[u8] =
        b"code from 0x00010000 to 0x00010007 is writable: a store there is codewrite\n";
    let cases: [(u32, &[u8]); 3] = [(7, warning), (3, warning), (5, b"")];
    for (access, expected) in cases {
        let sample = Sample {
            access,
            ..risc_v(&ADD)
        };
        let text = told(alloc, sample, b"entry 0x10000\n", false)?;
        assert_eq!(rt; text.as_slice(), expected);
    }
    Ok(())
}

/// The file's flags have compressed instructions, or not, and they are asked for, or not.
#[test]
fn compressed_code_is_told(rt: HostRuntime) -> Result<(), Fail> {
    let alloc = rt.alloc();
    let warning: &[u8] = b"the file has compressed code: use --rvc\n";
    let cases: [(u32, bool, &[u8]); 4] = [
        (1, false, warning),
        (1, true, b""),
        (4, false, b""),
        (5, false, warning),
    ];
    for (flags, rvc, expected) in cases {
        let sample = Sample {
            flags,
            ..risc_v(&ADD)
        };
        let text = told(alloc, sample, b"entry 0x10000\n", rvc)?;
        assert_eq!(rt; text.as_slice(), expected);
    }
    Ok(())
}

/// Symbols of ARM state and of Thumb code, named and not.
#[test]
fn thumb_code_is_told(rt: HostRuntime) -> Result<(), Fail> {
    let alloc = rt.alloc();
    let layout = Layout::Arm {
        big: false,
        profile: Profile::V4,
    };
    let warning: &[u8] = b"the function is Thumb code\n";
    let cases: [(u32, &[u8], &[u8]); 6] = [
        (0x1_0001, b"function sum\n", warning),
        (0x1_0001, b"entry 0x10000\n", warning),
        (0x1_0000, b"function sum\n", b""),
        (0x1_0001, b"function su\n", b""),
        (0x1_0001, b"function summ\n", b""),
        (0x1_0005, b"entry 0x10000\n", b""),
    ];
    for (value, notes, expected) in cases {
        let text = told_options(alloc, arm(value), layout, notes, false)?;
        assert_eq!(rt; text.as_slice(), expected);
    }
    Ok(())
}

/// A name to be looked up, with a symbol table and without one; in a file of RISC-V no value is that of Thumb code.
#[test]
fn a_file_without_symbols_is_told(rt: HostRuntime) -> Result<(), Fail> {
    let alloc = rt.alloc();
    let layout = Layout::Rv32 { compressed: false };
    let none = risc_v(&ADD);
    let one = Sample {
        symbol: Some(0x1_0001),
        ..none
    };
    let warning: &[u8] = b"the file has no symbols: use entry\n";
    let cases: [(Sample, &[u8], &[u8]); 3] = [
        (none, b"function sum\n", warning),
        (none, b"entry 0x10000\n", b""),
        (one, b"function sum\n", b""),
    ];
    for (sample, notes, expected) in cases {
        let text = told_options(alloc, sample, layout, notes, false)?;
        assert_eq!(rt; text.as_slice(), expected);
    }
    Ok(())
}

/// Lines of constants alone, and lines that name something of a state.
#[test]
fn lines_of_constants_are_told(rt: HostRuntime) -> Result<(), Fail> {
    let alloc = rt.alloc();
    let cases: [(&[u8], &[u8]); 4] = [
        (
            b"entry 0x10000\nrequire 1\n",
            b"require 2 says the same of every state\n",
        ),
        (
            b"notes 2\nentry 0x10000\nensure all i 0 3 (i <u 4)\nrequire not (old(5) = 5)\n",
            b"require 4 says the same of every state\nensure 3 says the same of every state\n",
        ),
        (
            b"entry 0x10000\nrequire a0 = a0\nensure 1 = mem8[4]\nensure pc = 0\n",
            b"",
        ),
        (b"entry 0x10000\nassert 0x10000 1 = 1\n", b""),
    ];
    for (notes, expected) in cases {
        let text = told(alloc, risc_v(&ADD), notes, false)?;
        assert_eq!(rt; text.as_slice(), expected);
    }
    Ok(())
}
