//! Literals.
ghost use Rattle.std.specs.Prelude.{◌≡◌, ℕ, ◌≤◌, ◌^◌, not};
ghost use Rattle.clause_spec.specs.Clauses.{Literal, opposite, same};

use std::marker::Model;

/// A variable or its negation. Variables count from 1, and none is above 2^62, the greatest number of a log.
/// Contracts see it as the literal.
#[derive(Clone, Copy)]
pub struct Lit {
    variable: u64,
    positive: bool,
}

impl Model for Lit {
    ghost use Rattle.std.specs.Prelude.{◌≤◌, ◌^◌};
    ghost use Rattle.clause_spec.specs.Clauses.{Literal};

    ghost Value = { Literal };

    ghost view = { λ l. record { variable = l.variable; positive = l.positive } };

    ghost invariant = { λ l. (1 ≤ l.variable) × (l.variable ≤ 2 ^ 62) };

    ghost inverse = { λ l. record { variable = l.variable; positive = l.positive } };
}

/// Variable 1, which stands in the places of a clause that has fewer literals than places.
impl Default for Lit {
    fn default() -> Lit {
        Lit {
            variable: 1,
            positive: true,
        }
    }
}

impl Lit {
    /// The literal of a variable, which is true where the variable is `positive`.
    pub fn new(variable: u64, positive: bool) -> Lit
        requires from { 1 ≤ variable }
        requires to { variable ≤ 2 ^ 62 }
        ensures variable { result.variable ≡ variable }
        ensures sign { result.positive ≡ positive }
    {
        Lit { variable, positive }
    }

    /// The variable, from 1 to 2^62.
    pub fn variable(self) -> u64
        ensures value { result ≡ self.variable }
        ensures from { 1 ≤ result }
        ensures to { result ≤ 2 ^ 62 }
    {
        self.variable
    }

    /// Whether it is the variable itself, and not its negation.
    pub fn is_positive(self) -> bool
        ensures { result ≡ self.positive }
    {
        self.positive
    }

    /// Whether two literals are the same.
    pub fn is_same(self, other: Lit) -> bool
        ensures { result ≡ same self other }
    {
        self.variable == other.variable && self.positive == other.positive
    }

    /// The literal that is true where this one is false.
    pub fn opposite(self) -> Lit
        ensures { result ≡ opposite self }
    {
        Lit {
            variable: self.variable,
            positive: !self.positive,
        }
    }
}
