//! When clauses are simplified before the search and between its parts.
use crate::search::Search;
use std::alloc::{AllocError, Global};

/// Sets of so many clauses are simplified before the search.
const LARGE: usize = 100_000;

/// Literals are tried at most so often.
const MOST_TURNS: u32 = 40;

/// They are tried again while there are fewer visits than this for each literal that became true.
const DEAREST: u64 = 20000;

/// The search has so many times the visits of what simplified the clauses before.
const SHARE: u64 = 8;

/// Smaller ones only after so many conflicts.
const LONG: u64 = 2000;

impl Search {
    /// Simplifies the clauses, if that is due. No decision stands, and all was propagated. Answers a conflict.
    pub fn preprocess(&mut self, alloc: Global) -> Result<Option<u32>, AllocError> {
        let is_large = self.record.given() as usize >= LARGE;
        if !is_large && self.reduction.conflicts() < LONG {
            return Ok(None);
        }
        let visits = self.explorer.watches.visits;
        if visits < self.due {
            return Ok(None);
        }
        let effort = (visits / 4).saturating_add(
            (self.explorer.arena.cells.len() as u64).saturating_mul(16),
        );
        let conflict = self.simplify(alloc, effort)?;
        let end = self.explorer.watches.visits;
        let spent = end.saturating_sub(visits);
        self.due = end.saturating_add(spent.saturating_mul(SHARE));
        Ok(conflict)
    }

    /// Tries literals and replaces equivalent ones by turns, while that makes literals true.
    fn probe_by_turns(&mut self, alloc: Global, effort: u64) -> Result<Option<u32>, AllocError> {
        let end = self.explorer.watches.visits.saturating_add(effort);
        for _ in 0..MOST_TURNS {
            let before = self.explorer.assignment.fixed.len();
            let start = self.explorer.watches.visits;
            let left = end.saturating_sub(start);
            let mut conflict = self.probe(alloc, left)?;
            if conflict.is_none() {
                conflict = self.replace_equivalent(alloc)?;
            }
            if conflict.is_some() {
                return Ok(conflict);
            }
            let gained = self.explorer.assignment.fixed.len().saturating_sub(before) as u64;
            let visits = self.explorer.watches.visits.saturating_sub(start);
            if visits >= gained.saturating_mul(DEAREST) {
                break;
            }
        }
        Ok(None)
    }

    fn simplify(&mut self, alloc: Global, effort: u64) -> Result<Option<u32>, AllocError> {
        let conflict = self.probe_by_turns(alloc, effort)?;
        if conflict.is_some() {
            return Ok(conflict);
        }
        let conflict = self.eliminate_all(alloc, effort)?;
        if conflict.is_some() {
            return Ok(conflict);
        }
        self.probe_by_turns(alloc, effort)
    }
}
