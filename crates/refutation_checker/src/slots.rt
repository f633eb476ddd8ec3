//! The values that a line gives to variables.
//!
//! Each value carries the number of the line that set it, and says nothing at another line. So no line has to take back what it set.
//! A variable has its slot at its place among the names.
ghost use Rattle.std.specs.Prelude.{◌≡◌, ℕ, ◌<◌, ◌^◌, true, false, length};
ghost use Rattle.clause_spec.specs.Clauses.{Literal, opposite};
ghost use Rattle.clause_spec.specs.UnitPropagation.{negations};
ghost use Rattle.clause_spec.specs.Refutation.{added, is_tautology};
ghost use Rattle.refutation_checker.specs.Entries.{IsRising};
ghost use Rattle.refutation_checker.specs.Slots.{true_in, place_of, AreUpTo, IsWithin};

use crate::assignment::Assignment;
use crate::names::place;
use cnf_form::Lit;

/// The last value of a variable, and the line that set it; lines count from 1.
#[derive(Clone, Copy)]
pub struct Slot {
    pub line: usize,
    pub positive: bool,
}

/// What a clause is under an assignment.
#[derive(Clone, Copy)]
pub enum Look {
    /// Every literal is false.
    Conflict,
    /// One literal has no value, and every other is false.
    Unit(Lit),
    Other,
}

/// Whether the literal is true at the line.
pub fn is_true(names: &[u64], slots: &[Slot], line: usize, lit: Lit) -> bool
    requires rising { IsRising names.now }
    requires within { place_of names.now lit.variable < length slots.now }
    ensures { result ≡ true_in line names.now slots.now lit }
{
    let slot = slots[place(names, lit.variable())];
    slot.line == line && slot.positive == lit.is_positive()
}

/// The values of a line.
#[derive(Clone, Copy)]
pub struct AtLine<'a> {
    pub names: &'a [u64],
    pub slots: &'a [Slot],
    pub line: usize,
}

impl<'a> Assignment for AtLine<'a> {
    ghost true_in = { λ it. true_in it.line it.names.now it.slots.now };

    ghost covers = { λ it v. IsRising it.names.now × (place_of it.names.now v < length it.slots.now) };

    fn is_true(&self, lit: Lit) -> bool {
        is_true(self.names, self.slots, self.line, lit)
    }
}

/// Makes a literal true at the line.
pub fn assign(names: &[u64], slots: &mut [Slot], line: usize, lit: Lit)
    requires rising { IsRising names.now }
    requires within { place_of names.now lit.variable < length slots.old }
    requires not_false { true_in line names.now slots.old (opposite lit) ≡ false }
    ensures values { (m : Literal) → true_in line names.now slots.new m ≡ added lit (true_in line names.now slots.old) m }
    ensures lines { AreUpTo line slots.old → AreUpTo line slots.new }
{
    slots[place(names, lit.variable())] = Slot {
        line,
        positive: lit.is_positive(),
    };
}

/// Forgets every value.
pub fn forget(slots: &mut [Slot])
    ensures { AreUpTo 0 slots.new }
{
    slots.fill(Slot {
        line: 0,
        positive: false,
    });
}

/// Makes every literal of a clause false at a line that has set nothing, and says whether that failed: whether a literal stands beside its opposite.
pub fn deny(names: &[u64], slots: &mut [Slot], line: usize, clause: &[Lit]) -> bool
    requires rising { IsRising names.now }
    requires within { IsWithin names.now (length slots.old) clause.now }
    requires empty { (m : Literal) → true_in line names.now slots.old m ≡ false }
    ensures tautology { result ≡ is_tautology clause.now }
    ensures values { result ≡ false → (m : Literal) → true_in line names.now slots.new m ≡ negations clause.now m }
    ensures lines { AreUpTo line slots.old → AreUpTo line slots.new }
{
    for lit in clause {
        if is_true(names, slots, line, *lit) {
            return true;
        }
        assign(names, slots, line, lit.opposite());
    }
    false
}
