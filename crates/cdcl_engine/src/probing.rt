//! Failed literals: one whose decision leads to a conflict is false.
use crate::cells::count_of;
use crate::search::Search;
use std::alloc::{AllocError, Global};

impl Search {
    /// The open literals that imply others by clauses of two literals, and are implied by none.
    fn roots(&self, alloc: Global) -> Result<Vec<u32>, AllocError> {
        let watches = &self.explorer.watches;
        let mut has_pair = vec![in alloc; false; watches.len()]?;
        for place in 0..has_pair.len() {
            if place < has_pair.len() {
                has_pair[place] = watches.has_pair(&self.explorer.arena, place);
            }
        }
        let mut roots = Vec::new(alloc);
        for place in 0..has_pair.len() {
            let opposite = place ^ 1;
            if place < has_pair.len()
                && opposite < has_pair.len()
                && has_pair[opposite]
                && !has_pair[place]
            {
                roots.push(count_of(place))?;
            }
        }
        Ok(roots)
    }

    /// Decides a literal. Answers a conflict without a decision.
    pub fn try_literal(&mut self, alloc: Global, lit: u32) -> Result<Option<u32>, AllocError> {
        self.explorer.assignment.decide(lit)?;
        let Some(conflict) = self.explorer.propagate()? else {
            self.explorer.back_to(0)?;
            return Ok(None);
        };
        let _ = self.explorer.learn(alloc, &mut self.record, conflict)?;
        self.explorer.back_to(0)?;
        self.settle()
    }

    /// Decides each literal alone that implies others, while watches may be looked at. No decision stands. Answers a conflict.
    pub fn probe(&mut self, alloc: Global, effort: u64) -> Result<Option<u32>, AllocError> {
        let roots = self.roots(alloc)?;
        let end = self.explorer.watches.visits.saturating_add(effort);
        let signs = self.explorer.order.signs(alloc)?;
        for lit in &roots {
            if self.explorer.watches.visits > end {
                break;
            }
            if self.explorer.assignment.is_open(*lit) {
                let conflict = self.try_literal(alloc, *lit)?;
                if conflict.is_some() {
                    return Ok(conflict);
                }
            }
        }
        self.explorer.order.set_signs(signs);
        Ok(None)
    }
}
