//! Which clauses are kept.
use crate::arena::NO_CLAUSE;
use crate::cells::{at, count_of, variable_of};
use crate::explorer::Explorer;
use crate::levels::FEW;
use std::alloc::{AllocError, Global};

/// So many conflicts pass before clauses that were learned are deleted for the first time.
const FIRST_PAUSE: u64 = 2000;

/// Each pause is longer than the one before by so many conflicts.
const MORE: u64 = 300;

/// The learned clauses that may be deleted, and when that is due.
#[derive(Drop)]
pub struct Reduction {
    /// The learned clauses of two literals and more.
    learned: Vec<u32>,
    conflicts: u64,
    next: u64,
    pause: u64,
    /// So many literals were true for good when the clauses were cleaned last.
    cleaned: usize,
}

impl Reduction {
    pub fn new(alloc: Global) -> Reduction {
        Reduction {
            learned: Vec::new(alloc),
            conflicts: 0,
            next: 0,
            pause: FIRST_PAUSE,
            cleaned: 0,
        }
    }

    /// Counts a conflict and the clause that was learned.
    pub fn note(&mut self, learned: Option<u32>) -> Result<(), AllocError> {
        self.conflicts = self.conflicts.saturating_add(1);
        if let Some(clause) = learned {
            self.learned.push(clause)?;
        }
        Ok(())
    }

    /// A clause over so many levels, or 0 for one that is always kept, was made of another one.
    pub fn add(&mut self, clause: u32, levels: u32) -> Result<(), AllocError> {
        if levels > 0 {
            self.learned.push(clause)?;
        }
        Ok(())
    }

    /// How many conflicts were counted.
    pub fn conflicts(&self) -> u64 {
        self.conflicts
    }

    /// Whether clauses are to be deleted.
    pub fn is_due(&self) -> bool {
        self.conflicts >= self.next
    }

    /// Deletes half of the clauses that may be deleted: those over the most levels, and among these the longest.
    fn delete_half(&mut self, alloc: Global, explorer: &mut Explorer) -> Result<(), AllocError> {
        let mut keys: Vec<u64> = Vec::new(alloc);
        for (place, clause) in self.learned.iter().enumerate() {
            let length = explorer.arena.len(*clause).min(65535);
            let levels = explorer.arena.levels(*clause).min(65535);
            if length > 2 && levels > FEW {
                let worth = levels as u64 * 65536 + length as u64;
                keys.push(worth * 4294967296 + count_of(place) as u64)?;
            }
        }
        keys.sort_unstable();
        let half = keys.len() / 2;
        for key in &keys[half..] {
            let place = (*key % 4294967296) as usize;
            explorer.arena.delete(at(&self.learned, place));
        }
        Ok(())
    }

    /// Forgets the names of deleted clauses.
    fn drop_deleted(&mut self, explorer: &Explorer) {
        let mut kept: usize = 0;
        for i in 0..self.learned.len() {
            let clause = at(&self.learned, i);
            if !explorer.arena.is_deleted(clause) && kept < self.learned.len() {
                self.learned[kept] = clause;
                kept = kept.saturating_add(1);
            }
        }
        self.learned.truncate(kept);
    }

    /// Deletes clauses. No decision stands, and all was propagated.
    pub fn reduce(&mut self, alloc: Global, explorer: &mut Explorer) -> Result<(), AllocError> {
        self.next = self.conflicts.saturating_add(self.pause);
        self.pause = self.pause.saturating_add(MORE);
        self.delete_half(alloc, explorer)?;
        self.clean(alloc, explorer)
    }

    /// Deletes the clauses that are true for good, cuts literals off that are false for good, and lays the others out in the order of the watches.
    pub fn clean(&mut self, alloc: Global, explorer: &mut Explorer) -> Result<(), AllocError> {
        explorer.assignment.drop_reasons();
        let is_dirty = explorer.assignment.fixed.len() > self.cleaned;
        if is_dirty {
            self.cleaned = explorer.assignment.fixed.len();
            explorer.clean_watched();
        }
        explorer.watches.drop_deleted(&explorer.arena);
        self.drop_deleted(explorer);
        let mut cells = Vec::with_capacity(alloc, explorer.arena.cells.len())?;
        explorer
            .watches
            .move_clauses(&mut explorer.arena, &mut cells)?;
        for i in 0..self.learned.len() {
            if i < self.learned.len() {
                self.learned[i] = explorer.arena.move_to(self.learned[i], &mut cells)?;
            }
        }
        explorer.arena.cells = cells;
        if is_dirty {
            explorer.retire_unused(alloc)?;
        }
        Ok(())
    }
}

/// What becomes of a clause whose literals may be true or false for good.
fn clean_clause(explorer: &mut Explorer, clause: u32) {
    if clause == NO_CLAUSE {
        return;
    }
    for place in (0..explorer.arena.len(clause)).rev() {
        let lit = at(explorer.arena.lits(clause), place);
        if explorer.assignment.is_true(lit) {
            explorer.arena.delete(clause);
            return;
        }
        let length = explorer.arena.len(clause);
        if explorer.assignment.is_false(lit) && place >= 2 && length > 0 {
            explorer.arena.swap(clause, place, length - 1);
            explorer.arena.cut_last(clause);
        }
    }
}

impl Explorer {
    /// Variables that stand in no clause need no decision.
    pub fn retire_unused(&mut self, alloc: Global) -> Result<(), AllocError> {
        let mut used = vec![in alloc; false; self.assignment.variables()]?;
        let clauses = self.arena.all(alloc)?;
        for clause in &clauses {
            for lit in self.arena.lits(*clause) {
                let variable = variable_of(*lit);
                if variable < used.len() {
                    used[variable] = true;
                }
            }
        }
        for variable in 0..used.len() {
            if variable < used.len() && !used[variable] {
                self.order.retire(count_of(variable));
            }
        }
        Ok(())
    }

    /// Cleans all clauses that are watched.
    fn clean_watched(&mut self) {
        for place in 0..self.watches.len() {
            for index in 0..self.watches.count(place) {
                let clause = self.watches.clause(place, index);
                clean_clause(self, clause);
            }
        }
    }
}
