//! The watches once more, after clauses were changed.
use crate::cells::{at, count_of};
use crate::search::Search;
use std::alloc::{AllocError, Global};

impl Search {
    /// The clauses that are watched.
    pub fn clauses(&self, alloc: Global) -> Result<Vec<u32>, AllocError> {
        let mut clauses = Vec::new(alloc);
        let (watches, arena) = (&self.explorer.watches, &self.explorer.arena);
        for place in 0..watches.len() {
            for index in 0..watches.count(place) {
                let clause = watches.clause(place, index);
                if at(arena.lits(clause), 0) == count_of(place) {
                    clauses.push(clause)?;
                }
            }
        }
        Ok(clauses)
    }

    /// Cuts the literals off a clause that are false without a decision. It is deleted if one is true.
    fn cut(&mut self, clause: u32) {
        let explorer = &mut self.explorer;
        for place in (0..explorer.arena.len(clause)).rev() {
            let lit = at(explorer.arena.lits(clause), place);
            if explorer.assignment.is_true(lit) {
                explorer.arena.delete(clause);
                return;
            }
            let length = explorer.arena.len(clause);
            if explorer.assignment.is_false(lit) && length > 1 {
                explorer.arena.swap(clause, place, length - 1);
                explorer.arena.cut_last(clause);
            }
        }
    }

    /// Whether a clause has a variable that was taken out.
    fn has_retired(&self, clause: u32) -> bool {
        for lit in self.explorer.arena.lits(clause) {
            if self.explorer.order.is_retired(*lit / 2) {
                return true;
            }
        }
        false
    }

    /// Watches a clause, or makes its only literal true. A learned clause with a variable that was taken out is deleted.
    fn watch(&mut self, clause: u32) -> Result<(), AllocError> {
        self.cut(clause);
        if self.explorer.arena.levels(clause) > 0 && self.has_retired(clause) {
            self.explorer.arena.delete(clause);
        }
        match self.explorer.arena.lits(clause) {
            [] => Ok(()),
            [only] => {
                let lit = *only;
                if self.explorer.assignment.is_false(lit) {
                    self.explorer.failed = Some(clause);
                } else if !self.explorer.assignment.is_true(lit) {
                    self.explorer.assignment.assign(lit, clause)?;
                }
                Ok(())
            }
            [first, second, ..] => self.explorer.watches.attach(clause, *first, *second),
        }
    }

    /// Watches the clauses that are left, where no decision stands, and propagates. Answers a conflict.
    pub fn rebuild(&mut self, alloc: Global) -> Result<Option<u32>, AllocError> {
        self.record
            .note_units(&self.explorer.arena, &self.explorer.assignment)?;
        self.explorer.assignment.drop_reasons();
        self.explorer.watches.clear();
        let clauses = self.explorer.arena.all(alloc)?;
        for clause in &clauses {
            self.watch(*clause)?;
        }
        self.explorer.assignment.visited = 0;
        let conflict = self.settle()?;
        if conflict.is_none() {
            self.reduction.clean(alloc, &mut self.explorer)?;
        }
        Ok(conflict)
    }
}
