//! Clauses for the search.
use crate::arena::HEAD;
use crate::cells::{at, count_of, put};
use crate::explorer::Explorer;
use crate::names::Names;
use crate::trying::Trying;
use cnf_form::{Clause, Lit};
use std::alloc::{AllocError, Global};

/// The literals of a clause by their numbers, each once and rising.
fn codes_of(codes: &mut Vec<u32>, lits: &[Lit], names: &Names) -> Result<(), AllocError> {
    codes.clear();
    for lit in lits {
        codes.push(names.code(*lit))?;
    }
    codes.sort_unstable();
    codes.dedup();
    Ok(())
}

/// Whether a literal stands before its negation, among rising ones.
fn has_both(codes: &[u32]) -> bool {
    for k in 1..codes.len() {
        if codes[k - 1] ^ 1 == codes[k] {
            return true;
        }
    }
    false
}

/// How much the clauses take at first.
#[derive(Drop)]
pub struct Room {
    /// For each literal how many clauses watch it.
    pub watches: Vec<u32>,
    /// How many numbers all clauses have.
    pub cells: usize,
}

impl Room {
    fn new(alloc: Global, clauses: &[Clause], names: &Names) -> Result<Room, AllocError> {
        let mut room = Room {
            watches: vec![in alloc; 0; names.len().saturating_mul(2)]?,
            cells: 0,
        };
        let mut codes = Vec::new(alloc);
        for clause in clauses {
            codes_of(&mut codes, clause.lits(), names)?;
            if !has_both(&codes) {
                room.count(&codes);
            }
        }
        Ok(room)
    }

    fn count(&mut self, codes: &[u32]) {
        self.cells = self.cells.saturating_add(HEAD).saturating_add(codes.len());
        if let [first, second, ..] = codes {
            self.count_watch(*first);
            self.count_watch(*second);
        }
    }

    fn count_watch(&mut self, lit: u32) {
        let count = at(&self.watches, lit as usize).saturating_add(1);
        put(self.watches.as_mut_slice(), lit as usize, count);
    }
}

/// A search over clauses, whose ids count from 1. Those that are always true are left out.
pub fn load(alloc: Global, clauses: &[Clause], names: &Names) -> Result<Explorer, AllocError> {
    let room = Room::new(alloc, clauses, names)?;
    let mut explorer = Explorer::new(alloc, names.len(), &room)?;
    let mut codes = Vec::new(alloc);
    for (place, clause) in clauses.iter().enumerate() {
        codes_of(&mut codes, clause.lits(), names)?;
        if !has_both(&codes) {
            explorer.add(count_of(place).saturating_add(1), &codes)?;
        }
    }
    Ok(explorer)
}

/// The clauses for trials. Those that are always true are left out.
pub fn load_trying(
    alloc: Global,
    trying: &mut Trying,
    clauses: &[Clause],
    names: &Names,
) -> Result<(), AllocError> {
    let mut codes = Vec::new(alloc);
    for clause in clauses {
        codes_of(&mut codes, clause.lits(), names)?;
        if !has_both(&codes) {
            trying.add(&codes)?;
        }
    }
    Ok(())
}
