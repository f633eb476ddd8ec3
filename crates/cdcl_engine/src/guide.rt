//! Proposes what to learn next.
use crate::explorer::Explorer;
use crate::load::{load, load_trying};
use crate::names::Names;
use crate::trying::Trying;
use crate::{truths, values_of};
use cnf_form::{Cnf, Lit};
use std::alloc::{AllocError, Global};

/// What is proposed. It is to be checked.
#[derive(Drop)]
pub enum Proposal {
    /// Values of the variables, the first of which is that of variable 1.
    Values(Vec<bool>),
    /// A clause to learn; the last literal is that of the implication point.
    Clause(Vec<Lit>),
}

/// A search over the same clauses, which learns what it is told.
#[derive(Drop)]
pub struct Guide {
    variables: u64,
    names: Names,
    explorer: Explorer,
    trying: Trying,
    codes: Vec<u32>,
    kept: Vec<u32>,
}

impl Guide {
    pub fn new(alloc: Global, cnf: &Cnf) -> Result<Guide, AllocError> {
        let names = Names::new(alloc, &cnf.clauses)?;
        let explorer = load(alloc, &cnf.clauses, &names)?;
        let mut trying = Trying::new(alloc, names.len())?;
        load_trying(alloc, &mut trying, &cnf.clauses, &names)?;
        Ok(Guide {
            variables: cnf.variables,
            names,
            explorer,
            trying,
            codes: Vec::new(alloc),
            kept: Vec::new(alloc),
        })
    }

    /// Searches until there are values, or a clause to learn. Where numbers of 32 bits do not suffice, the clause has no literals.
    pub fn propose(&mut self, alloc: Global) -> Result<Proposal, AllocError> {
        if self.explorer.arena.is_full {
            return Ok(Proposal::Clause(Vec::new(alloc)));
        }
        let Some(conflict) = self.explorer.descend()? else {
            let holds = truths(alloc, &self.explorer.assignment)?;
            let values = values_of(alloc, self.variables, &holds, &self.names)?;
            return Ok(Proposal::Values(values));
        };
        let mut lits = Vec::new(alloc);
        if self.explorer.assignment.level() > 0 {
            self.explorer.resolve(conflict, &mut self.codes)?;
            self.trying.shorten(&mut self.codes, &mut self.kept)?;
            for code in &self.codes {
                lits.push(self.names.lit(*code))?;
            }
        }
        Ok(Proposal::Clause(lits))
    }

    /// Learns a clause.
    pub fn take(&mut self, lits: &[Lit]) -> Result<(), AllocError> {
        self.codes.clear();
        for lit in lits {
            self.codes.push(self.names.code(*lit))?;
        }
        self.trying.add(&self.codes)?;
        self.explorer.take(self.codes.as_mut_slice())
    }
}
