//! Words of 32 bits.
ghost use Rattle.std.specs.Prelude.{◌≡◌, ◌≤◌, ◌<◌, ◌+◌, ◌*◌, ◌-◌, ◌/◌, ◌%◌, ◌^◌};
ghost use Rattle.word_spec.specs.Words as words;

use bv_word::Word;

pub(crate) fn word(bits: u32) -> Word
    ensures width { result.width ≡ 32 }
    ensures bits { result.bits ≡ bits }
{
    Word::new(32, bits as u64)
}

pub(crate) fn bits(word: Word) -> u32
    requires { word.width ≡ 32 }
    ensures { result ≡ word.bits }
{
    word.bits as u32
}

/// One bit, 0 or 1.
pub(crate) fn bit_at(i: u32, value: u32) -> u32
    requires { i < 32 }
    ensures { result ≡ words.bit_at i value }
{
    (value >> i) % 2
}

/// Whether a bit is set.
#[tactic(auto, using(crate::proofs::Bits::of_test))]
pub(crate) fn is_set(i: u32, value: u32) -> bool
    requires { i < 32 }
    ensures { words.bit result ≡ words.bit_at i value }
{
    bit_at(i, value) == 1
}

/// Each bit turned.
pub(crate) fn complement(value: u32) -> u32
    ensures { result ≡ words.complement 32 value }
{
    u32::MAX - value
}

/// A rotation to the right.
#[tactic(auto, using(crate::proofs::Bits::rotated_fits))]
pub(crate) fn rotated_right(value: u32, amount: u32) -> u32
    ensures { result ≡ words.ror 32 value amount }
{
    let amount = amount % 32;
    let wide = value as u64;
    ((wide >> amount) + wide % (1 << amount) * (1 << (32 - amount))) as u32
}

/// The lower half of a product.
pub(crate) fn multiplied(x: u32, y: u32) -> u32
    ensures { result ≡ words.mul 32 x y }
{
    bits(word(x).mul(word(y)))
}

/// A number of 8 or 16 bits, with its sign, in 32 bits.
pub(crate) fn extended(width: u8, value: u32) -> u32
    requires some { 1 ≤ width }
    requires few { width ≤ 32 }
    requires fits { value < 2 ^ width }
    ensures { result ≡ words.sign_extend width 32 value }
{
    bits(Word::new(width, value as u64).signed(32))
}
