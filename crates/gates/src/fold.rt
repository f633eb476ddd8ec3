//! Gates with their operands folded: constants, equal and opposite operands take none, and those that are left have an order and signs that are always the
//! same.
ghost use Rattle.std.specs.Prelude.{◌≡◌, ℕ, ◌<◌, ◌&&◌, ◌||◌, Bool, cond, not, IfOk};
ghost use Rattle.word_spec.specs.Words.{differ};
ghost use Rattle.gates.specs.Circuits.{next, Holds, IsBit, variable_of, bit_value, majority, parity, same};

use crate::bit::Bit;
use crate::circuit::Circuit;
use crate::gate::Gate;
use crate::order::{ordered, sorted};
use std::alloc::AllocError;

impl Circuit {
    /// Both.
    pub fn and(&mut self, a: Bit, b: Bit) -> Result<Bit, AllocError>
        requires a_within { variable_of a < next self.old }
        requires b_within { variable_of b < next self.old }
        ensures made { IfOk result (IsBit self.old self.new 1) }
        ensures value { IfOk result (λ l. (v : ℕ → Bool) → Holds v self.new → bit_value v l ≡ (bit_value v a && bit_value v b)) }
    {
        let one = self.constant(true);
        let zero = self.constant(false);
        if a == zero || b == zero || a == b.negation() {
            return Ok(zero);
        }
        if a == one || a == b {
            return Ok(b);
        }
        if b == one {
            return Ok(a);
        }
        let (low, high) = ordered(a, b);
        let bit = self.gate(Gate::And(low, high))?;
        Ok(bit)
    }

    /// One of the two, or both.
    pub fn or(&mut self, a: Bit, b: Bit) -> Result<Bit, AllocError>
        requires a_within { variable_of a < next self.old }
        requires b_within { variable_of b < next self.old }
        ensures made { IfOk result (IsBit self.old self.new 1) }
        ensures value { IfOk result (λ l. (v : ℕ → Bool) → Holds v self.new → bit_value v l ≡ (bit_value v a || bit_value v b)) }
    {
        let neither = self.and(a.negation(), b.negation())?;
        Ok(neither.negation())
    }

    /// One of the two, and not both.
    pub fn xor(&mut self, a: Bit, b: Bit) -> Result<Bit, AllocError>
        requires a_within { variable_of a < next self.old }
        requires b_within { variable_of b < next self.old }
        ensures made { IfOk result (IsBit self.old self.new 1) }
        ensures value { IfOk result (λ l. (v : ℕ → Bool) → Holds v self.new → bit_value v l ≡ differ (bit_value v a) (bit_value v b)) }
    {
        let (x, x_negated) = a.split();
        let (y, y_negated) = b.split();
        let bit = self.xor_unsigned(x, y)?;
        Ok(bit.negated_if(x_negated).negated_if(y_negated))
    }

    /// `xor` of bits without negation, for which alone it looks.
    fn xor_unsigned(&mut self, a: Bit, b: Bit) -> Result<Bit, AllocError>
        requires a_within { variable_of a < next self.old }
        requires b_within { variable_of b < next self.old }
        ensures made { IfOk result (IsBit self.old self.new 1) }
        ensures value { IfOk result (λ l. (v : ℕ → Bool) → Holds v self.new → bit_value v l ≡ differ (bit_value v a) (bit_value v b)) }
    {
        let one = self.constant(true);
        if a == b {
            return Ok(one.negation());
        }
        if a == one {
            return Ok(b.negation());
        }
        if b == one {
            return Ok(a.negation());
        }
        let (low, high) = ordered(a, b);
        let bit = self.gate(Gate::Xor(low, high))?;
        Ok(bit)
    }

    /// The second where the first is true, else the third.
    pub fn ite(&mut self, c: Bit, a: Bit, b: Bit) -> Result<Bit, AllocError>
        requires c_within { variable_of c < next self.old }
        requires a_within { variable_of a < next self.old }
        requires b_within { variable_of b < next self.old }
        ensures made { IfOk result (IsBit self.old self.new 1) }
        ensures value { IfOk result (λ l. (v : ℕ → Bool) → Holds v self.new → bit_value v l ≡ cond (bit_value v c) (bit_value v a) (bit_value v b)) }
    {
        if a == b || c == self.constant(true) {
            return Ok(a);
        }
        if c == self.constant(false) {
            return Ok(b);
        }
        let (condition, negated) = c.split();
        if negated {
            let bit = self.ite_unsigned(condition, b, a)?;
            return Ok(bit);
        }
        let bit = self.ite_unsigned(condition, a, b)?;
        Ok(bit)
    }

    /// `ite` on a condition without negation, for which alone it looks.
    fn ite_unsigned(&mut self, c: Bit, a: Bit, b: Bit) -> Result<Bit, AllocError>
        requires c_within { variable_of c < next self.old }
        requires a_within { variable_of a < next self.old }
        requires b_within { variable_of b < next self.old }
        ensures made { IfOk result (IsBit self.old self.new 1) }
        ensures value { IfOk result (λ l. (v : ℕ → Bool) → Holds v self.new → bit_value v l ≡ cond (bit_value v c) (bit_value v a) (bit_value v b)) }
    {
        let one = self.constant(true);
        let zero = self.constant(false);
        let other = c.negation();
        if a == one || a == c {
            let bit = self.or(c, b)?;
            return Ok(bit);
        }
        if a == zero || a == other {
            let bit = self.and(other, b)?;
            return Ok(bit);
        }
        if b == zero || b == c {
            let bit = self.and(c, a)?;
            return Ok(bit);
        }
        if b == one || b == other {
            let bit = self.or(other, a)?;
            return Ok(bit);
        }
        if a == b.negation() {
            let bit = self.xor(c, b)?;
            return Ok(bit);
        }
        let (x, negated) = a.split();
        let bit = self.gate(Gate::Ite(c, x, b.negated_if(negated)))?;
        Ok(bit.negated_if(negated))
    }

    /// One or all of the three.
    pub fn parity(&mut self, a: Bit, b: Bit, c: Bit) -> Result<Bit, AllocError>
        requires a_within { variable_of a < next self.old }
        requires b_within { variable_of b < next self.old }
        requires c_within { variable_of c < next self.old }
        ensures made { IfOk result (IsBit self.old self.new 1) }
        ensures value { IfOk result (λ l. (v : ℕ → Bool) → Holds v self.new → bit_value v l ≡ parity (bit_value v a) (bit_value v b) (bit_value v c)) }
    {
        let (x, x_negated) = a.split();
        let (y, y_negated) = b.split();
        let (z, z_negated) = c.split();
        let bit = self.parity_unsigned(x, y, z)?;
        Ok(
            bit.negated_if(x_negated)
                .negated_if(y_negated)
                .negated_if(z_negated),
        )
    }

    /// `parity` of bits without negation, for which alone it looks.
    fn parity_unsigned(&mut self, a: Bit, b: Bit, c: Bit) -> Result<Bit, AllocError>
        requires a_within { variable_of a < next self.old }
        requires b_within { variable_of b < next self.old }
        requires c_within { variable_of c < next self.old }
        ensures made { IfOk result (IsBit self.old self.new 1) }
        ensures value { IfOk result (λ l. (v : ℕ → Bool) → Holds v self.new → bit_value v l ≡ parity (bit_value v a) (bit_value v b) (bit_value v c)) }
    {
        let one = self.constant(true);
        if a == b {
            return Ok(c);
        }
        if a == c {
            return Ok(b);
        }
        if b == c {
            return Ok(a);
        }
        if a == one {
            let bit = self.xor(b, c)?;
            return Ok(bit.negation());
        }
        if b == one {
            let bit = self.xor(a, c)?;
            return Ok(bit.negation());
        }
        if c == one {
            let bit = self.xor(a, b)?;
            return Ok(bit.negation());
        }
        let (low, middle, high) = sorted(a, b, c);
        let bit = self.gate(Gate::Parity(low, middle, high))?;
        Ok(bit)
    }

    /// Two or all of the three.
    pub fn majority(&mut self, a: Bit, b: Bit, c: Bit) -> Result<Bit, AllocError>
        requires a_within { variable_of a < next self.old }
        requires b_within { variable_of b < next self.old }
        requires c_within { variable_of c < next self.old }
        ensures made { IfOk result (IsBit self.old self.new 1) }
        ensures value { IfOk result (λ l. (v : ℕ → Bool) → Holds v self.new → bit_value v l ≡ majority (bit_value v a) (bit_value v b) (bit_value v c)) }
    {
        if a == b || b == c.negation() {
            return Ok(a);
        }
        if b == c || a == c.negation() {
            return Ok(b);
        }
        if a == c || a == b.negation() {
            return Ok(c);
        }
        let (low, middle, high) = sorted(a, b, c);
        let bit = self.majority_apart(low, middle, high)?;
        Ok(bit)
    }

    /// `majority` of bits on three variables, in their order, for which alone it looks.
    fn majority_apart(&mut self, a: Bit, b: Bit, c: Bit) -> Result<Bit, AllocError>
        requires a_within { variable_of a < next self.old }
        requires b_within { variable_of b < next self.old }
        requires c_within { variable_of c < next self.old }
        ensures made { IfOk result (IsBit self.old self.new 1) }
        ensures value { IfOk result (λ l. (v : ℕ → Bool) → Holds v self.new → bit_value v l ≡ majority (bit_value v a) (bit_value v b) (bit_value v c)) }
    {
        let one = self.constant(true);
        let zero = self.constant(false);
        if a == zero {
            let bit = self.and(b, c)?;
            return Ok(bit);
        }
        if a == one {
            let bit = self.or(b, c)?;
            return Ok(bit);
        }
        if b == zero {
            let bit = self.and(a, c)?;
            return Ok(bit);
        }
        if b == one {
            let bit = self.or(a, c)?;
            return Ok(bit);
        }
        if c == zero {
            let bit = self.and(a, b)?;
            return Ok(bit);
        }
        if c == one {
            let bit = self.or(a, b)?;
            return Ok(bit);
        }
        let bit = self.majority_gate(a, b, c)?;
        Ok(bit)
    }

    /// `majority` of bits without constants among them; the gate's first bit has no negation, since the majority of negations is the negation.
    fn majority_gate(&mut self, a: Bit, b: Bit, c: Bit) -> Result<Bit, AllocError>
        requires a_within { variable_of a < next self.old }
        requires b_within { variable_of b < next self.old }
        requires c_within { variable_of c < next self.old }
        ensures made { IfOk result (IsBit self.old self.new 1) }
        ensures value { IfOk result (λ l. (v : ℕ → Bool) → Holds v self.new → bit_value v l ≡ majority (bit_value v a) (bit_value v b) (bit_value v c)) }
    {
        let (x, negated) = a.split();
        let bit = self.gate(Gate::Majority(x, b.negated_if(negated), c.negated_if(negated)))?;
        Ok(bit.negated_if(negated))
    }

    /// The first, where the others are equal.
    pub fn same(&mut self, s: Bit, a: Bit, b: Bit) -> Result<Bit, AllocError>
        requires s_within { variable_of s < next self.old }
        requires a_within { variable_of a < next self.old }
        requires b_within { variable_of b < next self.old }
        ensures made { IfOk result (IsBit self.old self.new 1) }
        ensures value { IfOk result (λ l. (v : ℕ → Bool) → Holds v self.new → bit_value v l ≡ same (bit_value v s) (bit_value v a) (bit_value v b)) }
    {
        let one = self.constant(true);
        let zero = self.constant(false);
        if s == zero || a == b.negation() {
            return Ok(zero);
        }
        if a == b {
            return Ok(s);
        }
        if s == one {
            let bit = self.xor(a, b)?;
            return Ok(bit.negation());
        }
        let other = s.negation();
        if a == one || a == s {
            let bit = self.and(s, b)?;
            return Ok(bit);
        }
        if a == zero || a == other {
            let bit = self.and(s, b.negation())?;
            return Ok(bit);
        }
        if b == one || b == s {
            let bit = self.and(s, a)?;
            return Ok(bit);
        }
        if b == zero || b == other {
            let bit = self.and(s, a.negation())?;
            return Ok(bit);
        }
        let bit = self.same_apart(s, a, b)?;
        Ok(bit)
    }

    /// `same` of bits on three variables, for which alone it looks.
    fn same_apart(&mut self, s: Bit, a: Bit, b: Bit) -> Result<Bit, AllocError>
        requires s_within { variable_of s < next self.old }
        requires a_within { variable_of a < next self.old }
        requires b_within { variable_of b < next self.old }
        ensures made { IfOk result (IsBit self.old self.new 1) }
        ensures value { IfOk result (λ l. (v : ℕ → Bool) → Holds v self.new → bit_value v l ≡ same (bit_value v s) (bit_value v a) (bit_value v b)) }
    {
        let (low, high) = ordered(a, b);
        let (x, negated) = low.split();
        let bit = self.gate(Gate::Same(s, x, high.negated_if(negated)))?;
        Ok(bit)
    }
}
