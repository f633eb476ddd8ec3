//! The clauses that numbers are.
ghost use Rattle.std.specs.Prelude.{◌≡◌, ◌≤◌, ◌^◌, [], ◌∷◌, ◌++◌, true, false, OnOk};
ghost use Rattle.clause_spec.specs.CertificateGrammar.{is_counted, is_ended, clauses_in};

use crate::clause::Clause;
use crate::header::Header;
use crate::lit::Lit;
use crate::number::Number;
use std::alloc::{AllocError, Global};
use std::marker::Model;
use std::mem;

/// Numbers that were read, as the clauses that a 0 has ended, and the literals behind the last 0. Contracts see the list of the numbers.
#[derive(Drop)]
pub(crate) struct Gathered {
    ended: Vec<Clause>,
    unended: Clause,
}

impl Model for Gathered {
    ghost use Rattle.std.specs.Prelude.{◌≡◌, true, List};
    ghost use Rattle.clause_spec.specs.CertificateGrammar.{Integer};
    ghost use Rattle.cnf_form.specs.Gathers.{numbers_from, are_nonzero};

    ghost Value = { List Integer };

    ghost view = { λ g. numbers_from g.ended.items g.unended };

    ghost invariant = { λ g. are_nonzero g.ended.items g.unended ≡ true };
}

impl Gathered {
    /// No numbers.
    pub(crate) fn new(alloc: Global) -> Gathered
        ensures { result ≡ [] }
    {
        Gathered {
            ended: Vec::new(alloc),
            unended: Clause::new(alloc),
        }
    }

    /// Takes one more number, which is no larger than a variable of a literal may be.
    pub(crate) fn push(&mut self, alloc: Global, number: Number) -> Result<(), AllocError>
        requires small { number.size ≤ 2 ^ 62 }
        requires plain { number.size ≡ 0 → number.negative ≡ false }
        ensures { OnOk result (self.new ≡ self.old ++ number ∷ []) }
    {
        if number.is_zero() {
            let clause = mem::replace(&mut self.unended, Clause::new(alloc));
            self.ended.push(clause)?;
        } else {
            self.unended
                .push(Lit::new(number.size(), !number.is_negative()))?;
        }
        Ok(())
    }

    /// Whether the last clause is ended, and there are as many as a header says.
    pub(crate) fn is_counted(&self, header: Header) -> bool
        ensures { result ≡ is_counted header self.now }
    {
        self.unended.lits().is_empty() && self.ended.len() as u64 == header.clauses()
    }

    /// The clauses, the last of which is ended.
    pub(crate) fn into_clauses(self) -> Vec<Clause>
        requires { is_ended self ≡ true }
        ensures { result.items ≡ clauses_in self }
    {
        self.ended
    }
}
