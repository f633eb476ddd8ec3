//! The lines of steps.
ghost use Rattle.bilv_spec.specs.Files.{order_of};
ghost use Rattle.std.specs.Prelude.{◌≡◌};
ghost use Rattle.word_spec.specs.Memory.{Little};

use elf32_reader::{ElfFault, Image, read_image};
use rv_lift::Rv32;
use seen_step::{Change, SeenStep, StepKind};
use std::alloc::{AllocError, Global};
use std::test::Fail;
use symbol_table::{SymbolTable, read_symbols};
use trace_text::push_last_steps;

/// A file for RISC-V with `addi a0,a0,1` and `ret` at 0x10000, and a writable word at 0x20000. It has no symbols.
const FILE: [u8; 128] = [
    0x7f, 0x45, 0x4c, 0x46, 0x01, 0x01, 0x01, 0x00, 0x00, 0x00, 0x00, 0x00, 0x00, 0x00, 0x00, 0x00,
    0x02, 0x00, 0xf3, 0x00, 0x01, 0x00, 0x00, 0x00, 0x00, 0x00, 0x01, 0x00, 0x34, 0x00, 0x00, 0x00,
    0x00, 0x00, 0x00, 0x00, 0x00, 0x00, 0x00, 0x00, 0x34, 0x00, 0x20, 0x00, 0x02, 0x00, 0x00, 0x00,
    0x00, 0x00, 0x00, 0x00, 0x01, 0x00, 0x00, 0x00, 0x74, 0x00, 0x00, 0x00, 0x00, 0x00, 0x01, 0x00,
    0x00, 0x00, 0x01, 0x00, 0x08, 0x00, 0x00, 0x00, 0x08, 0x00, 0x00, 0x00, 0x05, 0x00, 0x00, 0x00,
    0x04, 0x00, 0x00, 0x00, 0x01, 0x00, 0x00, 0x00, 0x7c, 0x00, 0x00, 0x00, 0x00, 0x00, 0x02, 0x00,
    0x00, 0x00, 0x02, 0x00, 0x04, 0x00, 0x00, 0x00, 0x08, 0x00, 0x00, 0x00, 0x06, 0x00, 0x00, 0x00,
    0x04, 0x00, 0x00, 0x00, 0x13, 0x05, 0x15, 0x00, 0x67, 0x80, 0x00, 0x00, 0x11, 0x22, 0x33, 0x44,
];

/// A change.
fn change(place: u32, old: u32, new: u32) -> Change {
    Change { place, old, new }
}

/// A step that changes nothing.
fn step(alloc: Global, number: u64, kind: StepKind, at: u32, depth: usize) -> SeenStep {
    SeenStep {
        number,
        kind,
        at,
        to: at,
        depth,
        later: depth,
        stored: None,
        regs: Vec::new(alloc),
        flags: Vec::new(alloc),
        bytes: Vec::new(alloc),
    }
}

/// A contract step that changes a register and a byte, an arrival at a head, the step of the first row, and that of the second, which returns.
fn steps(alloc: Global) -> Result<Vec<SeenStep>, AllocError> {
    let mut given = step(alloc, 3, StepKind::Contract, 0x2_0000, 1);
    given.later = 0;
    given.regs.push(change(2, 0x4000, 0x3ff0))?;
    given.bytes.push(change(0x2_0003, 0x44, 0))?;
    let head = step(alloc, 4, StepKind::Arrival, 0x1_0000, 0);
    let mut first = step(alloc, 5, StepKind::Row, 0x1_0000, 0);
    first.regs.push(change(10, 1, 2))?;
    let last = step(alloc, 6, StepKind::Row, 0x1_0004, 0);
    let list = vec![in alloc; given, head, first, last]?;
    Ok(list)
}

/// The lines of the last steps over the image of a little-endian file of RISC-V.
fn told_over(
    alloc: Global,
    image: &Image,
    symbols: &SymbolTable,
    last: usize,
) -> Result<Vec<u8>, Fail>
    requires { order_of image.now ≡ Little }
{
    let mut out = Vec::new(alloc);
    let steps = steps(alloc)?;
    push_last_steps::<Rv32<0>>(alloc, &mut out, image, symbols, &steps, last)?;
    Ok(out)
}

/// The lines of the last steps.
fn told(alloc: Global, last: usize) -> Result<Vec<u8>, Fail> {
    let image = read_image(alloc, &FILE)?;
    let symbols = read_symbols(alloc, &FILE)?;
    if !image.is_risc_v() {
        return Err(Fail::from(ElfFault::Machine));
    }
    told_over(alloc, &image, &symbols, last)
}

#[test]
fn each_step_has_a_line(rt: HostRuntime) -> Result<(), Fail> {
    let out = told(rt.alloc(), 4)?;
    let wanted: &[u8] =
        b"3 0x00020000  contract  sp x2 0x00004000 -> 0x00003ff0  [0x00020003] 44 -> 00  return, depth 0
4 0x00010000  head
5 0x00010000  13 05 15 00  x10 := x10 + 0x1:32;  a0 x10 0x00000001 -> 0x00000002
6 0x00010004  67 80 00 00  jmp (x1 + 0x0:32) & 0xfffffffe:32;
";
    assert_eq!(rt; out.as_slice(), wanted);
    Ok(())
}

#[test]
fn steps_before_the_last_are_left_out(rt: HostRuntime) -> Result<(), Fail> {
    let out = told(rt.alloc(), 1)?;
    let wanted: &[u8] = b".. 3 steps left out
6 0x00010004  67 80 00 00  jmp (x1 + 0x0:32) & 0xfffffffe:32;
";
    assert_eq!(rt; out.as_slice(), wanted);
    let out = told(rt.alloc(), 0)?;
    let wanted: &[u8] = b".. 4 steps left out\n";
    assert_eq!(rt; out.as_slice(), wanted);
    Ok(())
}
