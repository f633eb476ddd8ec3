//! Values for the variables that preprocessing took out of the clauses.
use crate::cells::{at, count_of, negation};
use std::alloc::{AllocError, Global};

/// The clauses that were taken out, in order, each with a literal that may be made true without harm to those that stayed.
#[derive(Drop)]
pub struct Completion {
    /// The literals, that one first, and then their count.
    cells: Vec<u32>,
}

impl Completion {
    pub fn new(alloc: Global) -> Completion {
        Completion {
            cells: Vec::new(alloc),
        }
    }

    /// A clause was taken out, of which a literal may be made true.
    pub fn push(&mut self, lit: u32, lits: &[u32]) -> Result<(), AllocError> {
        let start = self.cells.len();
        self.cells.push(lit)?;
        for other in lits {
            if *other != lit {
                self.cells.push(*other)?;
            }
        }
        let count = count_of(self.cells.len().saturating_sub(start));
        self.cells.push(count)?;
        Ok(())
    }

    /// Makes the clauses true, the last first. `holds` tells for each literal whether it is true.
    pub fn complete(&self, holds: &mut [bool]) {
        let mut end = self.cells.len();
        for _ in 0..self.cells.len() {
            if end == 0 {
                break;
            }
            let last = end - 1;
            let start = last.saturating_sub(at(&self.cells, last) as usize);
            let first = at(&self.cells, start);
            if start < last && last <= self.cells.len() {
                let lits = &self.cells[start..last];
                if !is_some_true(lits, holds) {
                    set(holds, first, true);
                    set(holds, negation(first), false);
                }
            }
            end = start;
        }
    }
}

fn set(holds: &mut [bool], lit: u32, value: bool) {
    let place = lit as usize;
    if place < holds.len() {
        holds[place] = value;
    }
}

fn is_some_true(lits: &[u32], holds: &[bool]) -> bool {
    for lit in lits {
        let place = *lit as usize;
        if place < holds.len() && holds[place] {
            return true;
        }
    }
    false
}
