//! The names of registers and flags.
ghost use Rattle.std.specs.Prelude.{◌≡◌, map, option_map};
ghost use Rattle.std.specs.List.{list_any};
ghost use Rattle.std.specs.Str.{bytes_eq};
ghost use Rattle.notes_spec.specs.Scopes.{reserved_first};
ghost use Rattle.notes_spec.specs.RvNames.{name_in, rv_names};
ghost use Rattle.notes_spec.specs.ArmNames.{arm_names};
ghost use Rattle.notes_value.specs.Views.{expr_of};
ghost use Rattle.notes_lang.specs.Named.{meaning_of, named_of, names_of};

use crate::notes::Dialect;
use notes_value::Expr;

/// What a name stands for.
#[derive(Clone, Copy)]
pub(crate) enum Meaning {
    Number(u32),
    Register(u8),
    Flag(u8),
    Pc,
    Bound,
}

/// Which words name something of the machine: the registers of RV32IM, or the registers and flags of ARM.
#[derive(Clone, Copy)]
pub(crate) enum Names {
    Rv32,
    Arm,
}

/// Which words name something of the machine, whether some of its rows have 2 bytes, and which lines of invariants and contracts there may be.
#[derive(Clone, Copy)]
pub(crate) struct Vocabulary {
    pub(crate) names: Names,
    pub(crate) narrow: bool,
    pub(crate) dialect: Dialect,
}

/// The registers x0 to x31 with the names of the ABI, and the program counter (RISC-V Unprivileged ISA 20191213, chapter 25).
const RV_NAMES: [(&[u8], Meaning); 66] = [
    (b"zero", Meaning::Number(0)),
    (b"x0", Meaning::Number(0)),
    (b"ra", Meaning::Register(1)),
    (b"x1", Meaning::Register(1)),
    (b"sp", Meaning::Register(2)),
    (b"x2", Meaning::Register(2)),
    (b"gp", Meaning::Register(3)),
    (b"x3", Meaning::Register(3)),
    (b"tp", Meaning::Register(4)),
    (b"x4", Meaning::Register(4)),
    (b"t0", Meaning::Register(5)),
    (b"x5", Meaning::Register(5)),
    (b"t1", Meaning::Register(6)),
    (b"x6", Meaning::Register(6)),
    (b"t2", Meaning::Register(7)),
    (b"x7", Meaning::Register(7)),
    (b"s0", Meaning::Register(8)),
    (b"x8", Meaning::Register(8)),
    (b"s1", Meaning::Register(9)),
    (b"x9", Meaning::Register(9)),
    (b"a0", Meaning::Register(10)),
    (b"x10", Meaning::Register(10)),
    (b"a1", Meaning::Register(11)),
    (b"x11", Meaning::Register(11)),
    (b"a2", Meaning::Register(12)),
    (b"x12", Meaning::Register(12)),
    (b"a3", Meaning::Register(13)),
    (b"x13", Meaning::Register(13)),
    (b"a4", Meaning::Register(14)),
    (b"x14", Meaning::Register(14)),
    (b"a5", Meaning::Register(15)),
    (b"x15", Meaning::Register(15)),
    (b"a6", Meaning::Register(16)),
    (b"x16", Meaning::Register(16)),
    (b"a7", Meaning::Register(17)),
    (b"x17", Meaning::Register(17)),
    (b"s2", Meaning::Register(18)),
    (b"x18", Meaning::Register(18)),
    (b"s3", Meaning::Register(19)),
    (b"x19", Meaning::Register(19)),
    (b"s4", Meaning::Register(20)),
    (b"x20", Meaning::Register(20)),
    (b"s5", Meaning::Register(21)),
    (b"x21", Meaning::Register(21)),
    (b"s6", Meaning::Register(22)),
    (b"x22", Meaning::Register(22)),
    (b"s7", Meaning::Register(23)),
    (b"x23", Meaning::Register(23)),
    (b"s8", Meaning::Register(24)),
    (b"x24", Meaning::Register(24)),
    (b"s9", Meaning::Register(25)),
    (b"x25", Meaning::Register(25)),
    (b"s10", Meaning::Register(26)),
    (b"x26", Meaning::Register(26)),
    (b"s11", Meaning::Register(27)),
    (b"x27", Meaning::Register(27)),
    (b"t3", Meaning::Register(28)),
    (b"x28", Meaning::Register(28)),
    (b"t4", Meaning::Register(29)),
    (b"x29", Meaning::Register(29)),
    (b"t5", Meaning::Register(30)),
    (b"x30", Meaning::Register(30)),
    (b"t6", Meaning::Register(31)),
    (b"x31", Meaning::Register(31)),
    (b"fp", Meaning::Register(8)),
    (b"pc", Meaning::Pc),
];

/// The registers and flags (ARM Architecture Reference Manual, sections A2.4 and A2.5; fp and ip are names of the procedure call standard).
const ARM_NAMES: [(&[u8], Meaning); 25] = [
    (b"r0", Meaning::Register(0)),
    (b"r1", Meaning::Register(1)),
    (b"r2", Meaning::Register(2)),
    (b"r3", Meaning::Register(3)),
    (b"r4", Meaning::Register(4)),
    (b"r5", Meaning::Register(5)),
    (b"r6", Meaning::Register(6)),
    (b"r7", Meaning::Register(7)),
    (b"r8", Meaning::Register(8)),
    (b"r9", Meaning::Register(9)),
    (b"r10", Meaning::Register(10)),
    (b"r11", Meaning::Register(11)),
    (b"r12", Meaning::Register(12)),
    (b"r13", Meaning::Register(13)),
    (b"r14", Meaning::Register(14)),
    (b"r15", Meaning::Pc),
    (b"fp", Meaning::Register(11)),
    (b"ip", Meaning::Register(12)),
    (b"sp", Meaning::Register(13)),
    (b"lr", Meaning::Register(14)),
    (b"pc", Meaning::Pc),
    (b"N", Meaning::Flag(3)),
    (b"Z", Meaning::Flag(2)),
    (b"C", Meaning::Flag(1)),
    (b"V", Meaning::Flag(0)),
];

/// The words that are no names in both versions.
const RESERVED: [&[u8]; 7] = [b"mem8", b"mem16", b"mem32", b"old", b"not", b"and", b"or"];

/// What the first row of a table with this name stands for.
#[tactic(auto, using(crate::proofs::Tables::row_at, crate::proofs::Tables::no_row))]
fn find(table: &[(&[u8], Meaning)], word: &[u8]) -> Option<Meaning>
    ensures { option_map meaning_of result ≡ name_in (map named_of table.now) word.now }
{
    for (name, meaning) in table {
        if word == *name {
            return Some(*meaning);
        }
    }
    None
}

/// What a word stands for on RV32IM.
#[tactic(auto, unfolding(notes_spec::specs::RvNames::rv_table))]
fn find_rv(word: &[u8]) -> Option<Meaning>
    ensures { option_map meaning_of result ≡ rv_names word.now }
{
    find(&RV_NAMES, word)
}

/// What a word stands for on ARM.
#[tactic(auto, unfolding(notes_spec::specs::ArmNames::arm_table))]
fn find_arm(word: &[u8]) -> Option<Meaning>
    ensures { option_map meaning_of result ≡ arm_names word.now }
{
    find(&ARM_NAMES, word)
}

/// Whether a word is one of these.
pub(crate) fn is_among(words: &[&[u8]], word: &[u8]) -> bool
    ensures { result ≡ list_any (λ other. bytes_eq word.now other.now) words.now }
{
    words.iter().any(|other| word == *other)
}

/// Whether a word is no name in both versions.
pub(crate) fn is_reserved_first(word: &[u8]) -> bool
    ensures { result ≡ list_any (bytes_eq word.now) reserved_first }
{
    is_among(&RESERVED, word)
}

/// What a word stands for on the machine.
pub(crate) fn find_meaning(names: Names, word: &[u8]) -> Option<Meaning>
    ensures { option_map meaning_of result ≡ names_of names word.now }
{
    match names {
        Names::Rv32 => find_rv(word),
        Names::Arm => find_arm(word),
    }
}

/// The expression that a meaning is.
pub(crate) fn expression(meaning: Meaning) -> Expr
    ensures { expr_of result ≡ meaning_of meaning }
{
    match meaning {
        Meaning::Number(n) => Expr::Number(n),
        Meaning::Register(r) => Expr::Register(r),
        Meaning::Flag(f) => Expr::Flag(f),
        Meaning::Pc => Expr::Pc,
        Meaning::Bound => Expr::Bound,
    }
}
