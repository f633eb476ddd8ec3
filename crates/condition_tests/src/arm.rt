//! The known bytes that values go against, of a load of ARM from its own code.
ghost use Rattle.std.specs.Prelude.{◌≡◌, ◌<◌};
ghost use Rattle.bilv_spec.specs.Files.{order_of};
ghost use Rattle.verdict.specs.Measures.{IsMeasurable};
ghost use Rattle.word_spec.specs.Memory.{Little};
ghost use Rattle.word_spec.specs.Profiles.{V4};

use crate::programs::{ARM, Case, ENTRY, Program, file};
use crate::studies::{broken_of, passive_of, unrolled};
use arm_lift::Arm;
use elf32_reader::{ElfFault, Image, read_image};
use notes_lang::{Dialect, parse_notes};
use question_form::Unrolled;
use start_value::{Layout, Profile};
use std::alloc::{AllocError, Global};
use std::test::Fail;

/// `ldr r0,[r1]` and `mov pc,lr`.
const LOAD: [u32; 2] = [0xe591_0000, 0xe1a0_f00e];

/// The broken bytes of an unrolled program.
fn broken_unrolled(
    alloc: Global,
    unrolled: &Unrolled,
    place: usize,
    at: u32,
) -> Result<[usize; 3], AllocError>
    requires measurable { IsMeasurable unrolled.now }
    requires place { place < 31 }
{
    let passive = passive_of(alloc, unrolled)?;
    let found = broken_of(alloc, &passive, place, at)?;
    Ok(found)
}

/// The broken bytes of a program of an image.
fn broken_case(
    alloc: Global,
    case: &Case<Arm<0, 0>>,
    place: usize,
    at: u32,
) -> Result<[usize; 3], Fail>
    requires { place < 31 }
{
    let k = u64::from(case.k);
    let unrolled = unrolled::<Arm<0, 0>>(alloc, &case.program, k)?;
    let found = broken_unrolled(alloc, &unrolled, place, at)?;
    Ok(found)
}

/// The broken bytes of words and notes over the words' file.
fn broken_by_notes(
    alloc: Global,
    image: &Image,
    program: &Program,
    place: usize,
    at: u32,
) -> Result<[usize; 3], Fail>
    requires order { order_of image.now ≡ Little }
    requires place { place < 31 }
{
    let layout = Layout::Arm {
        big: false,
        profile: Profile::V4,
    };
    let notes = parse_notes(alloc, program.notes, layout, Dialect::Plain)?;
    let case = Case {
        words: program.words,
        program: program_value::Program::new(image, &notes, ENTRY),
        k: program.k,
    };
    broken_case(alloc, &case, place, at)
}

/// The first, the last and the number of the known bytes of a program that are broken by zeros, where the register at a place is an address.
fn broken_in(alloc: Global, program: &Program, place: usize, at: u32) -> Result<[usize; 3], Fail>
    requires { place < 31 }
{
    let file = file(alloc, ARM, program.words)?;
    let image = read_image(alloc, file.as_slice())?;
    if image.is_risc_v() || image.is_big_machine() {
        return Err(Fail::from(ElfFault::Machine));
    }
    broken_by_notes(alloc, &image, program, place, at)
}

/// Where `r1` is the address of the second word, zeros are not the four bytes that it has.
#[test]
fn zeros_are_not_the_code(rt: HostRuntime) -> Result<(), Fail> {
    let program = Program {
        words: &LOAD,
        notes: b"entry 0x10000\nrequire r1 = 0x10004\nensure r0 = 0xE1A0F00E\n",
        k: 0,
    };
    let found = broken_in(rt.alloc(), &program, 1, 0x1_0004)?;
    assert_eq!(rt; found, [0x1_0004, 0x1_0007, 4]);
    Ok(())
}
