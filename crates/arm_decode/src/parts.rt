//! The parts of instructions.
ghost use Rattle.std.specs.Prelude.{◌≡◌, ◌<◌, ◌/◌, ◌==◌, ℕ};
ghost use Rattle.machine_spec.specs.Arm.{is_load, is_pre, writes_back};
ghost use Rattle.arm_decode.specs.Parts as parts;
ghost use Rattle.arm_decode.specs.Parts.{condition_number, opcode_number, kind_number, HasIndexing, HasHalfwordOp};

use crate::register::{AnyRegister, Register, ShiftAmount};

/// When an instruction does something (section A3.2).
#[derive(Clone, Copy)]
pub enum Condition {
    Eq,
    Ne,
    Cs,
    Cc,
    Mi,
    Pl,
    Vs,
    Vc,
    Hi,
    Ls,
    Ge,
    Lt,
    Gt,
    Le,
    Al,
}

impl Condition {
    /// The condition of a code.
    pub fn of(code: u32) -> Condition
        requires { code < 15 }
        ensures { condition_number result ≡ code }
    {
        match code {
            0 => Condition::Eq,
            1 => Condition::Ne,
            2 => Condition::Cs,
            3 => Condition::Cc,
            4 => Condition::Mi,
            5 => Condition::Pl,
            6 => Condition::Vs,
            7 => Condition::Vc,
            8 => Condition::Hi,
            9 => Condition::Ls,
            10 => Condition::Ge,
            11 => Condition::Lt,
            12 => Condition::Gt,
            13 => Condition::Le,
            _ => Condition::Al,
        }
    }

    /// Whether it always holds.
    pub fn is_always(self) -> bool
        ensures { result ≡ (condition_number self == 14) }
    {
        match self {
            Condition::Al => true,
            _ => false,
        }
    }
}

/// What data processing makes (section A3.4).
#[derive(Clone, Copy)]
pub enum Opcode {
    And,
    Eor,
    Sub,
    Rsb,
    Add,
    Adc,
    Sbc,
    Rsc,
    Tst,
    Teq,
    Cmp,
    Cmn,
    Orr,
    Mov,
    Bic,
    Mvn,
}

impl Opcode {
    /// The opcode of a number.
    pub fn of(number: u32) -> Opcode
        requires { number < 16 }
        ensures { opcode_number result ≡ number }
    {
        match number {
            0 => Opcode::And,
            1 => Opcode::Eor,
            2 => Opcode::Sub,
            3 => Opcode::Rsb,
            4 => Opcode::Add,
            5 => Opcode::Adc,
            6 => Opcode::Sbc,
            7 => Opcode::Rsc,
            8 => Opcode::Tst,
            9 => Opcode::Teq,
            10 => Opcode::Cmp,
            11 => Opcode::Cmn,
            12 => Opcode::Orr,
            13 => Opcode::Mov,
            14 => Opcode::Bic,
            _ => Opcode::Mvn,
        }
    }

    /// Whether it is one of TST, TEQ, CMP and CMN, which write no register.
    pub fn is_test(self) -> bool
        ensures { result ≡ parts.is_test self }
    {
        match self {
            Opcode::Tst | Opcode::Teq | Opcode::Cmp | Opcode::Cmn => true,
            _ => false,
        }
    }

    /// Whether it is a logical one: its C is the shifter's, and it keeps V.
    pub fn is_logical(self) -> bool
        ensures { result ≡ parts.is_logical self }
    {
        match self {
            Opcode::And
            | Opcode::Eor
            | Opcode::Tst
            | Opcode::Teq
            | Opcode::Orr
            | Opcode::Mov
            | Opcode::Bic
            | Opcode::Mvn => true,
            _ => false,
        }
    }

    /// Whether it is one of ADC, SBC and RSC, which add the carry.
    pub fn adds_carry(self) -> bool
        ensures { result ≡ parts.adds_carry self }
    {
        match self {
            Opcode::Adc | Opcode::Sbc | Opcode::Rsc => true,
            _ => false,
        }
    }
}

/// How a register is shifted (section A5.1).
#[derive(Clone, Copy)]
pub enum ShiftKind {
    Lsl,
    Lsr,
    Asr,
    Ror,
}

impl ShiftKind {
    /// The kind of a number.
    pub fn of(number: u32) -> ShiftKind
        requires { number < 4 }
        ensures { kind_number result ≡ number }
    {
        match number {
            0 => ShiftKind::Lsl,
            1 => ShiftKind::Lsr,
            2 => ShiftKind::Asr,
            _ => ShiftKind::Ror,
        }
    }
}

/// The operand of data processing (section A5.1).
#[derive(Clone, Copy)]
pub enum Operand {
    /// A number of 8 bits, rotated to the right by twice the rotation, 0 to 15.
    Number {
        byte: u8,
        rotation: u8,
    },
    /// A register, shifted by a number.
    ByNumber {
        register: AnyRegister,
        kind: ShiftKind,
        amount: ShiftAmount,
    },
    /// A register, shifted by the low byte of another.
    ByRegister {
        register: Register,
        kind: ShiftKind,
        amount: Register,
    },
}

impl Operand {
    /// Whether the carry out of its shift is the flag C, whatever the registers are.
    pub fn keeps_carry(self) -> bool
        ensures { result ≡ parts.keeps_carry self }
    {
        match self {
            Operand::Number { rotation, .. } => rotation == 0,
            Operand::ByNumber { kind, amount, .. } => match kind {
                ShiftKind::Lsl => amount.bits() == 0,
                ShiftKind::Lsr | ShiftKind::Asr | ShiftKind::Ror => false,
            },
            Operand::ByRegister { .. } => false,
        }
    }

    /// Whether it is a rotation through the carry.
    pub fn is_rrx(self) -> bool
        ensures { result ≡ parts.is_rrx self }
    {
        match self {
            Operand::Number { .. } | Operand::ByRegister { .. } => false,
            Operand::ByNumber { kind, amount, .. } => match kind {
                ShiftKind::Ror => amount.bits() == 0,
                ShiftKind::Lsl | ShiftKind::Lsr | ShiftKind::Asr => false,
            },
        }
    }

    /// Whether it is shifted by a register.
    pub fn is_by_register(self) -> bool
        ensures { result ≡ parts.is_by_register self }
    {
        matches!(self, Operand::ByRegister { .. })
    }
}

/// Whether the offset is added before the access, and whether the base is written back (section A5.2).
#[derive(Clone, Copy)]
pub enum Indexing {
    /// Before it, and the base stays.
    Offset,
    /// Before it, and the base is written back.
    Pre,
    /// Behind it: the base is the address, and is written back.
    Post,
}

impl Indexing {
    /// Whether the offset is added before the access.
    pub fn is_before(self) -> bool
        ensures { (w : ℕ) → HasIndexing w self → result ≡ is_pre w }
    {
        match self {
            Indexing::Offset | Indexing::Pre => true,
            Indexing::Post => false,
        }
    }

    /// Whether the base is written back.
    pub fn writes_back(self) -> bool
        ensures { (w : ℕ) → HasIndexing w self → result ≡ writes_back w }
    {
        match self {
            Indexing::Offset => false,
            Indexing::Pre | Indexing::Post => true,
        }
    }
}

/// How the address of an access is made of a base and an offset (section A5.2).
#[derive(Clone, Copy)]
pub struct Addressing {
    /// Whether the offset is added; else it is subtracted.
    pub is_up: bool,
    pub indexing: Indexing,
}

/// The offset of LDR, LDRB, STR and STRB (section A5.2).
#[derive(Clone, Copy)]
pub enum Offset {
    /// A number of 12 bits.
    Number(u16),
    /// A register, shifted by a number.
    Shifted {
        register: Register,
        kind: ShiftKind,
        amount: ShiftAmount,
    },
}

/// The offset of LDRH, STRH, LDRSB and LDRSH (section A5.3).
#[derive(Clone, Copy)]
pub enum HalfwordOffset {
    /// A number of 8 bits.
    Number(u8),
    Register(Register),
}

/// An access to a halfword or a signed byte (section A5.3).
#[derive(Clone, Copy)]
pub enum HalfwordOp {
    Ldrh,
    Ldrsb,
    Ldrsh,
    Strh,
}

impl HalfwordOp {
    /// Whether it is a load.
    pub fn is_load(self) -> bool
        ensures { (w : ℕ) → HasHalfwordOp w self → result ≡ is_load w }
    {
        match self {
            HalfwordOp::Ldrh | HalfwordOp::Ldrsb | HalfwordOp::Ldrsh => true,
            HalfwordOp::Strh => false,
        }
    }
}
