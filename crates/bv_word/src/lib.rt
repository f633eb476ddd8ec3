//! Words of 1 to 64 bits, with the operators of fixed-size bit vectors (SMT-LIB 2.6, theory FixedSizeBitVectors).
//!
//! Division by zero gives all ones and leaves the dividend as remainder. An amount at or above the width shifts all bits out.
#![tactic(auto)]

ghost use Rattle.std.specs.Prelude.{◌≡◌, ◌≤◌, ◌<◌, ◌+◌, ◌-◌, ◌%◌, ◌^◌, ◌==◌, bit_and, bit_or, bit_xor, nat_lt, nat_le, if◌then◌else◌};
ghost use Rattle.word_spec.specs.Words as words;

/// A number below 2 to the width.
#[derive(Clone, Copy)]
pub struct Word {
    pub width: u8,
    pub bits: u64,
    pub ghost some: { 1 ≤ width },
    pub ghost few: { width ≤ 64 },
    pub ghost below: { bits < 2 ^ width },
}

/// All ones.
#[tactic(auto, using(crate::proofs::Bits::ones_at))]
fn ones(width: u8) -> u64
    requires some { 1 ≤ width }
    requires few { width ≤ 64 }
    ensures { result ≡ 2 ^ width - 1 }
{
    u64::MAX >> (64 - width)
}

/// The lowest bits.
#[tactic(auto, using(crate::proofs::Bits::cut))]
fn low_bits(width: u8, bits: u64) -> u64
    requires some { 1 ≤ width }
    requires few { width ≤ 64 }
    ensures { result ≡ bits % 2 ^ width }
{
    bits & ones(width)
}

/// The word of one bit that is 1 for true.
fn truth(holds: bool) -> Word
    ensures width { result.width ≡ 1 }
    ensures bits { result.bits ≡ words.bit holds }
{
    Word {
        width: 1,
        bits: if holds { 1 } else { 0 },
    }
}

/// Whether exactly one holds.
fn differ(one: bool, other: bool) -> bool
    ensures { result ≡ words.differ one other }
{
    if one { !other } else { other }
}

impl Word {
    /// The word of these bits.
    pub fn new(width: u8, bits: u64) -> Word
        requires some { 1 ≤ width }
        requires few { width ≤ 64 }
        requires below { bits < 2 ^ width }
        ensures width { result.width ≡ width }
        ensures bits { result.bits ≡ bits }
    {
        Word { width, bits }
    }

    /// The word of the lowest bits.
    fn cut(width: u8, bits: u64) -> Word
        requires some { 1 ≤ width }
        requires few { width ≤ 64 }
        ensures width { result.width ≡ width }
        ensures bits { result.bits ≡ bits % 2 ^ width }
    {
        Word {
            width,
            bits: low_bits(width, bits),
        }
    }

    /// A word of the same width.
    fn with_bits(self, bits: u64) -> Word
        requires { bits < 2 ^ self.width }
        ensures width { result.width ≡ self.width }
        ensures bits { result.bits ≡ bits }
    {
        Word {
            width: self.width,
            bits,
        }
    }

    /// The sum.
    #[tactic(auto, using(crate::proofs::Bits::cut_twice))]
    pub fn add(self, other: Word) -> Word
        requires { self.width ≡ other.width }
        ensures width { result.width ≡ self.width }
        ensures bits { result.bits ≡ words.add self.width self.bits other.bits }
    {
        Word::cut(self.width, self.bits.wrapping_add(other.bits))
    }

    /// The difference.
    #[tactic(auto, using(crate::proofs::Bits::add_negated))]
    pub fn sub(self, other: Word) -> Word
        requires { self.width ≡ other.width }
        ensures width { result.width ≡ self.width }
        ensures bits { result.bits ≡ words.sub self.width self.bits other.bits }
    {
        self.add(other.neg())
    }

    /// The product.
    #[tactic(auto, using(crate::proofs::Bits::cut_twice))]
    pub fn mul(self, other: Word) -> Word
        requires { self.width ≡ other.width }
        ensures width { result.width ≡ self.width }
        ensures bits { result.bits ≡ words.mul self.width self.bits other.bits }
    {
        Word::cut(self.width, self.bits.wrapping_mul(other.bits))
    }

    /// The unsigned quotient.
    #[tactic(auto, using(crate::proofs::Bits::quotient_le))]
    pub fn udiv(self, other: Word) -> Word
        requires { self.width ≡ other.width }
        ensures width { result.width ≡ self.width }
        ensures bits { result.bits ≡ words.udiv self.width self.bits other.bits }
    {
        if other.bits == 0 {
            self.with_bits(ones(self.width))
        } else {
            self.with_bits(self.bits / other.bits)
        }
    }

    /// The unsigned remainder.
    pub fn urem(self, other: Word) -> Word
        requires { self.width ≡ other.width }
        ensures width { result.width ≡ self.width }
        ensures bits { result.bits ≡ words.urem self.width self.bits other.bits }
    {
        if other.bits == 0 {
            self
        } else {
            self.with_bits(self.bits % other.bits)
        }
    }

    /// Whether the signed reading is below 0.
    #[tactic(auto, using(crate::proofs::Bits::top_bit))]
    pub fn is_negative(self) -> bool
        ensures { result ≡ words.is_negative self.width self.bits }
    {
        self.bits >> (self.width - 1) != 0
    }

    /// The absolute value of the signed reading.
    #[tactic(auto, using(crate::proofs::Bits::negated))]
    fn magnitude(self) -> Word
        ensures width { result.width ≡ self.width }
        ensures bits { result.bits ≡ words.magnitude self.width self.bits }
    {
        if self.is_negative() { self.neg() } else { self }
    }

    /// The word, or its negative.
    fn with_sign(self, minus: bool) -> Word
        ensures width { result.width ≡ self.width }
        ensures bits { result.bits ≡ words.with_sign self.width minus self.bits }
    {
        if minus { self.neg() } else { self }
    }

    /// The signed quotient, cut toward 0.
    #[tactic(auto, using(crate::proofs::Bits::small))]
    pub fn sdiv(self, other: Word) -> Word
        requires { self.width ≡ other.width }
        ensures width { result.width ≡ self.width }
        ensures bits { result.bits ≡ words.sdiv self.width self.bits other.bits }
    {
        if other.bits == 0 {
            return self.with_bits(ones(self.width));
        }
        let quotient = self.magnitude().udiv(other.magnitude());
        quotient.with_sign(differ(self.is_negative(), other.is_negative()))
    }

    /// The signed remainder, with the dividend's sign.
    pub fn srem(self, other: Word) -> Word
        requires { self.width ≡ other.width }
        ensures width { result.width ≡ self.width }
        ensures bits { result.bits ≡ words.srem self.width self.bits other.bits }
    {
        if other.bits == 0 {
            return self;
        }
        let remainder = self.magnitude().urem(other.magnitude());
        remainder.with_sign(self.is_negative())
    }

    /// The bits that both words have.
    #[tactic(auto, using(crate::proofs::Bits::and_below))]
    pub fn and(self, other: Word) -> Word
        requires { self.width ≡ other.width }
        ensures width { result.width ≡ self.width }
        ensures bits { result.bits ≡ bit_and self.bits other.bits }
    {
        self.with_bits(self.bits & other.bits)
    }

    /// The bits that one of the words has.
    #[tactic(auto, using(std::proofs::lemmas::Nat::or_lt))]
    pub fn or(self, other: Word) -> Word
        requires { self.width ≡ other.width }
        ensures width { result.width ≡ self.width }
        ensures bits { result.bits ≡ bit_or self.bits other.bits }
    {
        self.with_bits(self.bits | other.bits)
    }

    /// The bits that exactly one of the words has.
    #[tactic(auto, using(std::proofs::lemmas::Nat::xor_lt))]
    pub fn xor(self, other: Word) -> Word
        requires { self.width ≡ other.width }
        ensures width { result.width ≡ self.width }
        ensures bits { result.bits ≡ bit_xor self.bits other.bits }
    {
        self.with_bits(self.bits ^ other.bits)
    }

    /// A shift to the left.
    #[tactic(auto, using(crate::proofs::Bits::cut_twice, crate::proofs::Bits::all_out_left))]
    pub fn shl(self, other: Word) -> Word
        requires { self.width ≡ other.width }
        ensures width { result.width ≡ self.width }
        ensures bits { result.bits ≡ words.shl self.width self.bits other.bits }
    {
        if other.bits < self.width as u64 {
            Word::cut(self.width, self.bits << other.bits)
        } else {
            self.with_bits(0)
        }
    }

    /// A shift to the right, with zeros.
    #[tactic(auto, using(crate::proofs::Bits::quotient_le, crate::proofs::Bits::all_out_right))]
    pub fn shr(self, other: Word) -> Word
        requires { self.width ≡ other.width }
        ensures width { result.width ≡ self.width }
        ensures bits { result.bits ≡ words.shr self.width self.bits other.bits }
    {
        if other.bits < self.width as u64 {
            self.with_bits(self.bits >> other.bits)
        } else {
            self.with_bits(0)
        }
    }

    /// A shift to the right, with the sign.
    pub fn sar(self, other: Word) -> Word
        requires { self.width ≡ other.width }
        ensures width { result.width ≡ self.width }
        ensures bits { result.bits ≡ words.sar self.width self.bits other.bits }
    {
        if self.is_negative() {
            self.not().shr(other).not()
        } else {
            self.shr(other)
        }
    }

    /// Each bit turned.
    pub fn not(self) -> Word
        ensures width { result.width ≡ self.width }
        ensures bits { result.bits ≡ words.complement self.width self.bits }
    {
        self.with_bits(ones(self.width) - self.bits)
    }

    /// The negative.
    pub fn neg(self) -> Word
        ensures width { result.width ≡ self.width }
        ensures bits { result.bits ≡ words.neg self.width self.bits }
    {
        Word::cut(self.width, (ones(self.width) - self.bits).wrapping_add(1))
    }

    /// 1 where the words are equal, of width 1.
    pub fn eq(self, other: Word) -> Word
        requires { self.width ≡ other.width }
        ensures width { result.width ≡ 1 }
        ensures bits { result.bits ≡ words.bit (self.bits == other.bits) }
    {
        truth(self.bits == other.bits)
    }

    /// 1 where the word is below the other, unsigned.
    pub fn ult(self, other: Word) -> Word
        requires { self.width ≡ other.width }
        ensures width { result.width ≡ 1 }
        ensures bits { result.bits ≡ words.bit (nat_lt self.bits other.bits) }
    {
        truth(self.bits < other.bits)
    }

    /// 1 where the word is at most the other, unsigned.
    pub fn ule(self, other: Word) -> Word
        requires { self.width ≡ other.width }
        ensures width { result.width ≡ 1 }
        ensures bits { result.bits ≡ words.bit (nat_le self.bits other.bits) }
    {
        truth(self.bits <= other.bits)
    }

    /// The word with its upper bit turned: the signed order becomes the unsigned one.
    #[tactic(auto, using(crate::proofs::Bits::half_below, crate::proofs::Bits::cut_twice))]
    fn flip(self) -> Word
        ensures width { result.width ≡ self.width }
        ensures bits { result.bits ≡ words.flip self.width self.bits }
    {
        Word::cut(self.width, self.bits.wrapping_add(1 << (self.width - 1)))
    }

    /// 1 where the word is below the other, signed.
    pub fn slt(self, other: Word) -> Word
        requires { self.width ≡ other.width }
        ensures width { result.width ≡ 1 }
        ensures bits { result.bits ≡ words.bit (words.signed_lt self.width self.bits other.bits) }
    {
        self.flip().ult(other.flip())
    }

    /// 1 where the word is at most the other, signed.
    pub fn sle(self, other: Word) -> Word
        requires { self.width ≡ other.width }
        ensures width { result.width ≡ 1 }
        ensures bits { result.bits ≡ words.bit (words.signed_le self.width self.bits other.bits) }
    {
        self.flip().ule(other.flip())
    }

    /// The lowest bits, `width` of them.
    pub fn low(self, width: u8) -> Word
        requires some { 1 ≤ width }
        requires few { width ≤ self.width }
        ensures width { result.width ≡ width }
        ensures bits { result.bits ≡ words.word width self.bits }
    {
        Word::cut(width, self.bits)
    }

    /// The highest bits, `width` of them.
    #[tactic(auto, using(crate::proofs::Bits::upper_below))]
    pub fn high(self, width: u8) -> Word
        requires some { 1 ≤ width }
        requires few { width ≤ self.width }
        ensures width { result.width ≡ width }
        ensures bits { result.bits ≡ words.high self.width width self.bits }
    {
        Word {
            width,
            bits: self.bits >> (self.width - width),
        }
    }

    /// The word in `width` bits, with zeros above.
    #[tactic(auto, using(crate::proofs::Bits::widened))]
    pub fn unsigned(self, width: u8) -> Word
        requires some { self.width ≤ width }
        requires few { width ≤ 64 }
        ensures width { result.width ≡ width }
        ensures bits { result.bits ≡ self.bits }
    {
        Word {
            width,
            bits: self.bits,
        }
    }

    /// The word in `width` bits, with its sign above.
    #[tactic(auto, using(crate::proofs::Bits::widened))]
    pub fn signed(self, width: u8) -> Word
        requires some { self.width ≤ width }
        requires few { width ≤ 64 }
        ensures width { result.width ≡ width }
        ensures bits { result.bits ≡ words.sign_extend self.width width self.bits }
    {
        if self.is_negative() {
            Word {
                width,
                bits: self.bits + (ones(width) - ones(self.width)),
            }
        } else {
            Word {
                width,
                bits: self.bits,
            }
        }
    }

    /// The bits from `hi` down to `lo`.
    pub fn extract(self, hi: u8, lo: u8) -> Word
        requires some { lo ≤ hi }
        requires few { hi < self.width }
        ensures width { result.width ≡ hi + 1 - lo }
        ensures bits { result.bits ≡ words.bits hi lo self.bits }
    {
        Word::cut(hi + 1 - lo, self.bits >> lo)
    }

    /// The word above the other.
    #[tactic(auto, using(crate::proofs::Bits::joined, crate::proofs::Bits::joined_below))]
    pub fn concat(self, other: Word) -> Word
        requires { self.width + other.width ≤ 64 }
        ensures width { result.width ≡ self.width + other.width }
        ensures bits { result.bits ≡ words.concat other.width self.bits other.bits }
    {
        Word {
            width: self.width + other.width,
            bits: (self.bits << other.width) | other.bits,
        }
    }

    /// The first of two words where this one, of width 1, is 1, else the second.
    pub fn ite(self, yes: Word, no: Word) -> Word
        requires test { self.width ≡ 1 }
        requires same { yes.width ≡ no.width }
        ensures width { result.width ≡ yes.width }
        ensures bits { result.bits ≡ (if self.bits == 1 then yes.bits else no.bits) }
    {
        if self.bits == 1 { yes } else { no }
    }
}
