//! A search with the log of what it learns.
use crate::completion::Completion;
use crate::explorer::Explorer;
use crate::record::Record;
use crate::reduction::Reduction;
use std::alloc::{AllocError, Global};

/// A search with the log of what it learns.
#[derive(Drop)]
pub struct Search {
    pub explorer: Explorer,
    pub record: Record,
    pub reduction: Reduction,
    pub completion: Completion,
    /// After how many visits of watches the clauses are simplified again.
    pub due: u64,
}

/// What a turn of the search ends in.
#[derive(Clone, Copy)]
pub enum Turn {
    /// Every variable has a value.
    Values,
    /// The record ends in the empty clause.
    Refutation,
    /// A conflict was learned from.
    Learned,
}

impl Search {
    /// Propagates where no decision stands, and notes what follows. Answers a conflict.
    pub fn settle(&mut self) -> Result<Option<u32>, AllocError> {
        let conflict = self.explorer.propagate()?;
        self.record
            .note_units(&self.explorer.arena, &self.explorer.assignment)?;
        Ok(conflict)
    }

    /// Cleans the clauses where no decision stands, and deletes some. Answers a conflict.
    fn maintain(&mut self, alloc: Global) -> Result<Option<u32>, AllocError> {
        self.explorer.back_to(0)?;
        let conflict = self.settle()?;
        if conflict.is_some() {
            return Ok(conflict);
        }
        self.reduction.reduce(alloc, &mut self.explorer)?;
        self.preprocess(alloc)
    }

    /// Learns from a conflict, or ends the log.
    fn meet(&mut self, alloc: Global, conflict: u32) -> Result<Turn, AllocError> {
        self.record
            .note_units(&self.explorer.arena, &self.explorer.assignment)?;
        if self.explorer.conflict_level(conflict) == 0 {
            self.record
                .finish(&self.explorer.arena, &self.explorer.assignment, conflict)?;
            return Ok(Turn::Refutation);
        }
        let learned = self.explorer.learn(alloc, &mut self.record, conflict)?;
        self.reduction.note(learned)?;
        self.explorer.restart()?;
        Ok(Turn::Learned)
    }

    /// Searches for the next conflict, and learns from it.
    pub fn take_turn(&mut self, alloc: Global) -> Result<Turn, AllocError> {
        if self.reduction.is_due() {
            if let Some(conflict) = self.maintain(alloc)? {
                return self.meet(alloc, conflict);
            }
        }
        match self.explorer.descend()? {
            Some(conflict) => self.meet(alloc, conflict),
            None => Ok(Turn::Values),
        }
    }

    /// Whether numbers of 32 bits no longer suffice.
    pub fn is_full(&self) -> bool {
        self.explorer.arena.is_full || self.record.is_full()
    }
}
