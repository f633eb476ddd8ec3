//! Over how many levels the literals of a clause are ("literal block distance": the fewer, the more the clause is worth).
use crate::arena::Arena;
use crate::assignment::Assignment;
use crate::cells::{at, put};
use std::alloc::{AllocError, Global};

/// A clause over at most so many levels is kept for good.
pub const FEW: u32 = 2;

/// Counts levels.
#[derive(Drop)]
pub struct Levels {
    /// For each level the last count at which it was met.
    met: Vec<u32>,
    count: u32,
}

impl Levels {
    pub fn new(alloc: Global, variables: usize) -> Result<Levels, AllocError> {
        Ok(Levels {
            met: vec![in alloc; 0; variables.saturating_add(1)]?,
            count: 0,
        })
    }

    /// Over how many levels the literals are. All are true or false.
    pub fn count(&mut self, lits: &[u32], assignment: &Assignment) -> u32 {
        self.count = self.count.wrapping_add(1);
        let mut levels: u32 = 0;
        for lit in lits {
            let level = assignment.level_of(*lit) as usize;
            if level > 0 && at(&self.met, level) != self.count {
                put(self.met.as_mut_slice(), level, self.count);
                levels = levels.saturating_add(1);
            }
        }
        levels
    }

    /// A learned clause was used: it may be over fewer levels now.
    pub fn renew(&mut self, arena: &mut Arena, assignment: &Assignment, clause: u32) {
        let before = arena.levels(clause);
        if before <= FEW {
            return;
        }
        let levels = self.count(arena.lits(clause), assignment).max(1);
        if levels < before {
            arena.set_levels(clause, levels);
        }
    }
}
