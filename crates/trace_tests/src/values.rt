//! The values of a line.
use byte_mem::Bytes32;
use machine_law::Machine;
use notes_value::{Expr, Operator, Size};
use rv_lift::Rv32;
use start_value::{Layout, Start};
use std::alloc::{AllocError, Global};
use std::test::Fail;
use value_steps::push_value_lines;

/// A state in which `a0` and `a1` have values, and all else is 0.
fn state(alloc: Global, a0: u32, a1: u32) -> Result<<Rv32<0> as Machine>::State, AllocError> {
    let regs = vec![in alloc;
        0, 0, 0, 0, 0, 0, 0, 0, 0, a0, a1, 0, 0, 0, 0, 0, 0, 0, 0, 0, 0, 0, 0, 0, 0, 0, 0, 0, 0, 0,
        0,
    ]?;
    let start = Start {
        regs,
        flags: 0,
        bytes: Vec::new(alloc),
        choices: Vec::new(alloc),
    };
    Ok(Rv32::<0>::make(&start, 0x1_0000, Bytes32::new(alloc)))
}

const LAYOUT: Layout = Layout::Rv32 { compressed: false };

#[test]
fn each_part_is_told(rt: HostRuntime) -> Result<(), Fail> {
    let alloc = rt.alloc();
    let now = state(alloc, 7, 1)?;
    let old = state(alloc, 1, 6)?;
    // a0 <u old(a1 + 0)
    let sum = Expr::Binary(
        Operator::Plus,
        Box::new(alloc, Expr::Register(11))?,
        Box::new(alloc, Expr::Number(0))?,
    );
    let line = Expr::Binary(
        Operator::Below,
        Box::new(alloc, Expr::Register(10))?,
        Box::new(alloc, Expr::Old(Box::new(alloc, sum)?))?,
    );
    let mut out = Vec::new(alloc);
    push_value_lines(alloc, &mut out, LAYOUT, &line, &now, &old, false)?;
    let wanted: &[u8] = b"value 0x00000000 a0 <u old(a1 + 0)
value 0x00000007 a0
value 0x00000006 old(a1 + 0)
value 0x00000006 old(a1)
";
    assert_eq!(rt; out.as_slice(), wanted);
    Ok(())
}

#[test]
fn the_first_false_instance_is_told(rt: HostRuntime) -> Result<(), Fail> {
    let alloc = rt.alloc();
    let now = state(alloc, 2, 0)?;
    // all i 0 3 (i <u a0)
    let inner = Expr::Binary(
        Operator::Below,
        Box::new(alloc, Expr::Bound)?,
        Box::new(alloc, Expr::Register(10))?,
    );
    let line = Expr::All(0, 3, Box::new(alloc, inner)?);
    let mut out = Vec::new(alloc);
    push_value_lines(alloc, &mut out, LAYOUT, &line, &now, &now, false)?;
    let wanted: &[u8] = b"value 0x00000000 2 <u a0\nvalue 0x00000002 a0\n";
    assert_eq!(rt; out.as_slice(), wanted);
    Ok(())
}

#[test]
fn loads_are_told(rt: HostRuntime) -> Result<(), Fail> {
    let alloc = rt.alloc();
    let now = state(alloc, 2, 0)?;
    // not mem8[a0]
    let line = Expr::Not(Box::new(
        alloc,
        Expr::Memory(Size::Byte, Box::new(alloc, Expr::Register(10))?),
    )?);
    let mut out = Vec::new(alloc);
    push_value_lines(alloc, &mut out, LAYOUT, &line, &now, &now, false)?;
    let wanted: &[u8] = b"value 0x00000001 not mem8[a0]
value 0x00000000 mem8[a0]
value 0x00000002 a0
";
    assert_eq!(rt; out.as_slice(), wanted);
    Ok(())
}
