//! What rows make of words.
ghost use Rattle.std.specs.Prelude.{◌≡◌};
ghost use Rattle.word_spec.specs.Memory.{Little, load, memory_of};
ghost use Rattle.word_spec.specs.Words.{signed_lt};
ghost use Rattle.rv_decode.specs.Plains as insns;

use bv_word::Word;
use byte_mem::{Bytes32, Endian};
use rv_decode::{BranchOp, LoadOp, StoreOp};

fn word(bits: u32) -> Word
    ensures width { result.width ≡ 32 }
    ensures bits { result.bits ≡ bits }
{
    Word::new(32, bits as u64)
}

fn bits(word: Word) -> u32
    requires { word.width ≡ 32 }
    ensures { result ≡ word.bits }
{
    word.bits as u32
}

fn is_below(a: u32, b: u32) -> bool
    ensures { result ≡ signed_lt 32 a b }
{
    word(a).slt(word(b)).bits == 1
}

/// What a branch tests.
pub(crate) fn test(op: BranchOp, a: u32, b: u32) -> bool
    ensures { result ≡ insns.test_of op a b }
{
    match op {
        BranchOp::Beq => a == b,
        BranchOp::Bne => a != b,
        BranchOp::Blt => is_below(a, b),
        BranchOp::Bge => !is_below(a, b),
        BranchOp::Bltu => a < b,
        BranchOp::Bgeu => a >= b,
    }
}

/// What a load makes of the bytes at an address.
pub(crate) fn load(op: LoadOp, memory: &Bytes32, a: u32) -> u32
    ensures { result ≡ insns.extended op (load Little (insns.loaded_bytes op) (memory_of memory.now.entries) a) }
{
    match op {
        LoadOp::Lb => bits(memory.load(a, 1, Endian::Little).signed(32)),
        LoadOp::Lh => bits(memory.load(a, 2, Endian::Little).signed(32)),
        LoadOp::Lw => bits(memory.load(a, 4, Endian::Little)),
        LoadOp::Lbu => bits(memory.load(a, 1, Endian::Little).unsigned(32)),
        LoadOp::Lhu => bits(memory.load(a, 2, Endian::Little).unsigned(32)),
    }
}

/// How many bytes a store writes.
pub fn stored_bytes(op: StoreOp) -> u8
    ensures { result ≡ insns.stored_bytes op }
{
    match op {
        StoreOp::Sb => 1,
        StoreOp::Sh => 2,
        StoreOp::Sw => 4,
    }
}

/// How many bytes a load reads.
pub fn loaded_bytes(op: LoadOp) -> u8
    ensures { result ≡ insns.loaded_bytes op }
{
    match op {
        LoadOp::Lb | LoadOp::Lbu => 1,
        LoadOp::Lh | LoadOp::Lhu => 2,
        LoadOp::Lw => 4,
    }
}
