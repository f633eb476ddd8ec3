//! What computations and shifts ask of a word, what they make of two words of 32 bits, and their prices: a line for each, in the order of the variants.
use crate::plain::{ImmediateOp, RegisterOp, ShiftOp};
use bil_ast::BinaryOp::{
    And, Divide, Less, Minus, Modulo, Or, Plus, ShiftLeft, ShiftRight, ShiftSigned, SignedDivide,
    SignedLess, SignedModulo, Times, Xor,
};
use word_formula::Extension::{Signed, Unsigned};
use word_formula::Formula;
use word_formula::Formula::{Operator, Shift, Truth, Upper};

/// The line of an operation.
#[derive(Clone, Copy)]
pub struct Operation {
    /// What its words have in funct3, below 8.
    pub funct3: u32,
    /// What they have in funct7, below 128, which a computation with an immediate does not ask.
    pub funct7: u32,
    /// What it makes of the first register's word and the second's, the immediate or the amount.
    pub formula: Formula,
    /// The price of its row: multiplications and divisions are dear.
    pub price: u64,
}

const PLAIN: u64 = 1024;

const DEAR: u64 = 20_000;

macro_rules! operations {
    ($($name:ident $funct3:literal $funct7:literal $formula:expr, $price:expr;)*) => {
        [$(Operation { funct3: $funct3, funct7: $funct7, formula: $formula, price: $price }),*]
    };
}

/// Computations with an immediate (section 2.4).
const IMMEDIATES: [Operation; 6] = operations! {
    Addi 0 0 Operator(Plus), PLAIN;
    Slti 2 0 Truth(SignedLess), PLAIN;
    Sltiu 3 0 Truth(Less), PLAIN;
    Xori 4 0 Operator(Xor), PLAIN;
    Ori 6 0 Operator(Or), PLAIN;
    Andi 7 0 Operator(And), PLAIN;
};

/// Shifts by a number (section 2.4).
const SHIFTS: [Operation; 3] = operations! {
    Slli 1 0 Operator(ShiftLeft), PLAIN;
    Srli 5 0 Operator(ShiftRight), PLAIN;
    Srai 5 32 Operator(ShiftSigned), PLAIN;
};

/// Computations with two registers (sections 2.4, 7.1 and 7.2).
const REGISTERS: [Operation; 18] = operations! {
    Add 0 0 Operator(Plus), PLAIN;
    Sub 0 32 Operator(Minus), PLAIN;
    Sll 1 0 Shift(ShiftLeft), PLAIN;
    Slt 2 0 Truth(SignedLess), PLAIN;
    Sltu 3 0 Truth(Less), PLAIN;
    Xor 4 0 Operator(Xor), PLAIN;
    Srl 5 0 Shift(ShiftRight), PLAIN;
    Sra 5 32 Shift(ShiftSigned), PLAIN;
    Or 6 0 Operator(Or), PLAIN;
    And 7 0 Operator(And), PLAIN;
    Mul 0 1 Operator(Times), DEAR;
    Mulh 1 1 Upper(Signed, Signed), DEAR;
    Mulhsu 2 1 Upper(Signed, Unsigned), DEAR;
    Mulhu 3 1 Upper(Unsigned, Unsigned), DEAR;
    Div 4 1 Operator(SignedDivide), DEAR;
    Divu 5 1 Operator(Divide), DEAR;
    Rem 6 1 Operator(SignedModulo), DEAR;
    Remu 7 1 Operator(Modulo), DEAR;
};

impl ImmediateOp {
    ghost use Rattle.std.specs.Prelude.{◌≡◌, ◌<◌};
    ghost use Rattle.rv_decode.specs.Operations.{immediate_line};

    /// Its line.
    #[tactic(auto, using(crate::proofs::Small::immediate_small))]
    pub fn line(self) -> Operation
        ensures line { result ≡ immediate_line self }
        ensures funct3 { result.funct3 < 8 }
    {
        IMMEDIATES[self as usize]
    }
}

impl ShiftOp {
    ghost use Rattle.std.specs.Prelude.{◌≡◌, ◌<◌};
    ghost use Rattle.rv_decode.specs.Operations.{shift_line};

    /// Its line.
    #[tactic(auto, using(crate::proofs::Small::shift_small, crate::proofs::Small::shift_upper_small))]
    pub fn line(self) -> Operation
        ensures line { result ≡ shift_line self }
        ensures funct3 { result.funct3 < 8 }
        ensures funct7 { result.funct7 < 128 }
    {
        SHIFTS[self as usize]
    }
}

impl RegisterOp {
    ghost use Rattle.std.specs.Prelude.{◌≡◌, ◌<◌};
    ghost use Rattle.rv_decode.specs.Operations.{register_line};

    /// Its line.
    #[tactic(auto, using(crate::proofs::Small::register_small, crate::proofs::Small::register_upper_small))]
    pub fn line(self) -> Operation
        ensures line { result ≡ register_line self }
        ensures funct3 { result.funct3 < 8 }
        ensures funct7 { result.funct7 < 128 }
    {
        REGISTERS[self as usize]
    }
}
