//! Looks for a least part of a clause that still follows by unit propagation.
use crate::arena::Arena;
use crate::assignment::{Assignment, NO_REASON};
use crate::cells::negation;
use crate::watching::WatchLists;
use std::alloc::{AllocError, Global};

/// The clauses once more, with a trail for trials. What follows from nothing stays on it, and each trial begins after that.
#[derive(Drop)]
pub struct Trying {
    arena: Arena,
    watches: WatchLists,
    assignment: Assignment,
}

impl Trying {
    /// No clauses, over so many variables.
    pub fn new(alloc: Global, variables: usize) -> Result<Trying, AllocError> {
        Ok(Trying {
            arena: Arena::new(alloc),
            watches: WatchLists::new(alloc, variables)?,
            assignment: Assignment::new(alloc, variables)?,
        })
    }

    /// Adds a clause without two literals of the same variable.
    pub fn add(&mut self, lits: &[u32]) -> Result<(), AllocError> {
        match lits {
            [] => (),
            [only] => {
                if !self.assignment.is_false(*only) && !self.assignment.is_true(*only) {
                    self.assignment.assign(*only, NO_REASON)?;
                }
            }
            [first, second, ..] => {
                let clause = self.arena.add(0, 0, lits)?;
                self.watches.attach(clause, *first, *second)?;
            }
        }
        Ok(())
    }

    /// Takes back all after so many literals.
    fn back_to(&mut self, length: usize) {
        for _ in length..self.assignment.trail.len() {
            if self.assignment.pop().is_none() {
                break;
            }
        }
        self.assignment.visited = self.assignment.visited.min(length);
    }

    fn propagate(&mut self) -> Result<bool, AllocError> {
        let conflict = self
            .watches
            .propagate(&mut self.arena, &mut self.assignment)?;
        Ok(conflict.is_some())
    }

    /// Makes all literals false, and says whether a conflict follows.
    fn assume(&mut self, lits: &[u32]) -> Result<bool, AllocError> {
        for lit in lits {
            if self.assignment.is_true(*lit) {
                return Ok(true);
            }
            if !self.assignment.is_false(*lit) {
                self.assignment.assign(negation(*lit), NO_REASON)?;
            }
        }
        self.propagate()
    }

    /// Appends a least part of literals, so that a conflict follows where they are false too. It follows where all are false.
    ///
    /// Where half of them suffice, the others are not needed. Else what is needed of the second half is found where the first is false, and then what is needed
    /// of the first where that is false.
    fn halve(&mut self, lits: &[u32], kept: &mut Vec<u32>) -> Result<(), AllocError> {
        if lits.len() < 2 {
            kept.extend_from_slice(lits)?;
            return Ok(());
        }
        let half = lits.len() / 2;
        let mark = self.assignment.trail.len();
        if self.assume(&lits[..half])? {
            self.back_to(mark);
            return self.halve(&lits[..half], kept);
        }
        let start = kept.len();
        self.halve(&lits[half..], kept)?;
        self.back_to(mark);
        if start <= kept.len() && !self.assume(&kept[start..])? {
            self.halve(&lits[..half], kept)?;
        }
        self.back_to(mark);
        Ok(())
    }

    /// Drops literals without which the clause still follows. The last one stays, and is the last.
    pub fn shorten(&mut self, lits: &mut Vec<u32>, kept: &mut Vec<u32>) -> Result<(), AllocError> {
        let Some(last) = lits.pop() else {
            return Ok(());
        };
        kept.clear();
        if self.propagate()? {
            lits.clear();
            return Ok(());
        }
        let mark = self.assignment.trail.len();
        if !self.assume(&[last])? {
            self.halve(lits, kept)?;
        }
        self.back_to(mark);
        lits.clear();
        lits.extend_from_slice(kept)?;
        lits.push(last)?;
        Ok(())
    }
}
