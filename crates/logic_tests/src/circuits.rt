//! Gates of operators one word of which is a constant.
ghost use Rattle.std.specs.Prelude.{◌≡◌, length};
ghost use Rattle.gates.specs.Circuits.{next, Within};

use gates::{Bit, Circuit};
use std::alloc::{AllocError, Global};
use word_gates::arithmetic::product;
use word_gates::compare::equal;
use word_gates::parts::{constant, inputs};
use word_gates::shift::{shift_left, shift_signed};

#[derive(Clone, Copy)]
enum Operator {
    ShiftLeft,
    ShiftSigned,
    Product,
    Equal,
}

/// Builds the circuit of an operator on two words of 32 bits, and gives the bits of its value.
fn build(
    alloc: Global,
    circuit: &mut Circuit,
    operator: Operator,
    a: &[Bit],
    b: &[Bit],
) -> Result<Vec<Bit>, AllocError>
    requires a_width { length a.now ≡ 32 }
    requires b_width { length b.now ≡ 32 }
    requires a_within { Within (next circuit.old) a.now }
    requires b_within { Within (next circuit.old) b.now }
{
    match operator {
        Operator::ShiftLeft => shift_left(alloc, circuit, a, b),
        Operator::ShiftSigned => shift_signed(alloc, circuit, a, b),
        Operator::Product => product(alloc, circuit, a, b),
        Operator::Equal => {
            let mut bits = Vec::new(alloc);
            bits.push(equal(circuit, a, b)?)?;
            Ok(bits)
        }
    }
}

/// The gates up to the last one that is a bit of an operator's value on 32 inputs and a constant. The inputs and true are the variables before the gates.
fn gates_of(alloc: Global, operator: Operator, value: u64) -> Result<u32, AllocError> {
    let mut circuit = Circuit::new(alloc, 32)?;
    let a = inputs(alloc, &circuit, 0, 32)?;
    let b = constant(alloc, &circuit, 32, value)?;
    let bits = build(alloc, &mut circuit, operator, &a, &b)?;
    let mut last = 32;
    for bit in &bits {
        last = last.max(bit.code() / 2);
    }
    Ok(last.saturating_sub(32))
}

/// A shift by a constant is wiring, a product by one takes a sum less than it has bits that are 1, and equality with one a gate less than bits.
#[test]
fn constants_save_gates(rt: HostRuntime) -> Result<(), AllocError> {
    let most = [
        (Operator::ShiftLeft, 7, 0),
        (Operator::ShiftSigned, 33, 0),
        (Operator::Product, 8, 0),
        (Operator::Product, 5, 64),
        (Operator::Equal, 0x1234_5678, 31),
    ];
    for (operator, value, most) in most {
        assert!(rt; gates_of(rt.alloc(), operator, value)? <= most, "{value}");
    }
    Ok(())
}
