//! Clauses.
ghost use Rattle.std.specs.Prelude.{◌≡◌, [], ◌∷◌, ◌++◌, IfOk, OnOk, OnErr, ◌==◌, length};

use crate::lit::Lit;
use smallvec::SmallVec;
use std::alloc::{AllocError, Global};
use std::marker::Model;

/// A disjunction of literals. Contracts see the list of them.
#[derive(Drop)]
pub struct Clause {
    lits: SmallVec<Lit, 4>,
}

impl Model for Clause {
    ghost use Rattle.std.specs.Prelude.{List};
    ghost use Rattle.clause_spec.specs.Clauses.{Literal};

    ghost Value = { List Literal };

    ghost view = { λ c. c.lits.items };
}

impl Clause {
    /// The clause with no literals.
    pub fn new(alloc: Global) -> Clause
        ensures { result ≡ [] }
    {
        Clause {
            lits: SmallVec::new(alloc),
        }
    }

    /// The clause with the given literals.
    pub fn from_slice(alloc: Global, lits: &[Lit]) -> Result<Clause, AllocError>
        ensures { IfOk result (λ c. c ≡ lits.now) }
    {
        Ok(Clause {
            lits: SmallVec::from_slice(alloc, lits)?,
        })
    }

    /// The literals in order.
    pub fn lits(&self) -> &[Lit]
        ensures { result.now ≡ self.now }
    {
        self.lits.as_slice()
    }

    /// Appends a literal. After an `Err` the clause is as it was.
    pub fn push(&mut self, lit: Lit) -> Result<(), AllocError>
        ensures ok { OnOk result (self.new ≡ self.old ++ lit ∷ []) }
        ensures err { OnErr result (self.new ≡ self.old) }
    {
        self.lits.push(lit)?;
        Ok(())
    }
}
