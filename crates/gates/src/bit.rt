//! Bits.
ghost use Rattle.std.specs.Prelude.{◌≡◌, ℕ, suc, ◌<◌, ◌^◌, Bool, not};
ghost use Rattle.word_spec.specs.Words.{differ};
ghost use Rattle.gates.specs.Circuits.{variable_of, bit_value, literal_of};

use cnf_form::Lit;

/// A variable of a circuit or its negation: twice the variable, and 1 more for the negation. Variables count from 0 here, and from 1 in clauses.
#[derive(Clone, Copy, PartialEq, Eq)]
pub struct Bit {
    code: u32,
}

impl Bit {
    /// The bit that is true where the variable is.
    pub fn new(variable: u32) -> Bit
        requires { variable < 2 ^ 31 }
        ensures variable { variable_of result ≡ variable }
        ensures value { (v : ℕ → Bool) → bit_value v result ≡ v (suc variable) }
    {
        Bit { code: 2 * variable }
    }

    /// The bit that is true where this one is false.
    pub fn negation(self) -> Bit
        ensures variable { variable_of result ≡ variable_of self }
        ensures value { (v : ℕ → Bool) → bit_value v result ≡ not (bit_value v self) }
    {
        if self.code % 2 == 0 {
            Bit {
                code: self.code + 1,
            }
        } else {
            Bit {
                code: self.code - 1,
            }
        }
    }

    /// The bit of the variable, and whether this one is its negation.
    pub(crate) fn split(self) -> (Bit, bool)
        ensures variable { variable_of result.0 ≡ variable_of self }
        ensures value { (v : ℕ → Bool) → bit_value v self ≡ differ (bit_value v result.0) result.1 }
    {
        if self.code % 2 == 0 {
            (self, false)
        } else {
            (self.negation(), true)
        }
    }

    /// The bit, or its negation.
    pub(crate) fn negated_if(self, negated: bool) -> Bit
        ensures variable { variable_of result ≡ variable_of self }
        ensures value { (v : ℕ → Bool) → bit_value v result ≡ differ (bit_value v self) negated }
    {
        if negated { self.negation() } else { self }
    }

    /// The literal of the clauses.
    pub fn lit(self) -> Lit
        ensures { result ≡ literal_of self }
    {
        Lit::new((self.code / 2) as u64 + 1, self.code % 2 == 0)
    }

    /// Twice the variable, and 1 more for the negation.
    pub fn code(self) -> u32
        ensures { result ≡ self.code }
    {
        self.code
    }
}
