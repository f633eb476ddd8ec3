//! Assignments of truth values to literals, and what a clause is under one.
ghost use Rattle.std.specs.Prelude.{◌≡◌, ℕ, Bool, true};
ghost use Rattle.clause_spec.specs.Clauses.{Literal, has};
ghost use Rattle.clause_spec.specs.Refutation.{look_of};
ghost use Rattle.refutation_checker.specs.Slots.{seen_as};

use crate::slots::Look;
use cnf_form::Lit;

/// An assignment of truth values to literals. A literal that is not true is false or open.
pub trait Assignment {
    /// The literals that are true.
    ghost true_in: { Self → Literal → Bool };

    /// Which variables' literals may be asked for.
    ghost covers: { Self → ℕ → Type 0 };

    /// Whether a literal is true.
    fn is_true(&self, lit: Lit) -> bool
        requires { covers self.now lit.variable }
        ensures { result ≡ true_in self.now lit };
}

/// What a clause is under an assignment.
pub fn look_at<A: Assignment>(assignment: &A, clause: &[Lit]) -> Look
    requires { (l : Literal) → has clause.now l ≡ true → A.covers assignment.now l.variable }
    ensures { seen_as result ≡ look_of (A.true_in assignment.now) clause.now }
{
    let mut open = None;
    for lit in clause {
        if !assignment.is_true(lit.opposite()) {
            match open {
                None => open = Some(*lit),
                Some(first) => {
                    if !lit.is_same(first) {
                        return Look::Other;
                    }
                }
            }
        }
    }
    match open {
        None => Look::Conflict,
        Some(lit) => {
            if assignment.is_true(lit) {
                Look::Other
            } else {
                Look::Unit(lit)
            }
        }
    }
}
