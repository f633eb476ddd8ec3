//! The clause of a conflict's first unique implication point.
use crate::arena::Arena;
use crate::assignment::{Assignment, NO_REASON};
use crate::cells::{at, negation, variable_of};
use crate::levels::Levels;
use crate::order::Order;
use std::alloc::{AllocError, Global};

/// What is gathered from the clauses of a conflict.
#[derive(Drop)]
pub struct Resolution {
    /// The literals of the clause; the last one is that of the implication point.
    pub lits: Vec<u32>,
    /// The variables whose reasons were resolved with.
    pub used: Vec<u32>,
    /// For each variable whether it was met.
    marks: Vec<bool>,
    /// The variables that were met.
    met: Vec<u32>,
    stack: Vec<u32>,
    /// Literals with their levels.
    keys: Vec<u64>,
    /// How many literals of the last level were met and not resolved.
    open: usize,
    /// Counts levels.
    pub levels: Levels,
}

impl Resolution {
    pub fn new(alloc: Global, variables: usize) -> Result<Resolution, AllocError> {
        Ok(Resolution {
            lits: Vec::new(alloc),
            used: Vec::new(alloc),
            marks: vec![in alloc; false; variables]?,
            met: Vec::new(alloc),
            stack: Vec::new(alloc),
            keys: Vec::new(alloc),
            open: 0,
            levels: Levels::new(alloc, variables)?,
        })
    }

    fn is_met(&self, variable: usize) -> bool {
        variable < self.marks.len() && self.marks[variable]
    }

    fn mark(&mut self, variable: usize, value: bool) {
        if variable < self.marks.len() {
            self.marks[variable] = value;
        }
    }

    /// Meets the literals of a clause. Those that are false without a decision are left out.
    fn meet(
        &mut self,
        lits: &[u32],
        assignment: &Assignment,
        order: &mut Order,
    ) -> Result<(), AllocError> {
        for lit in lits {
            let variable = variable_of(*lit);
            let level = assignment.origin(variable).level;
            if level == 0 || self.is_met(variable) {
                continue;
            }
            self.mark(variable, true);
            self.met.push(*lit / 2)?;
            order.raise(*lit / 2);
            if level >= assignment.level() {
                self.open = self.open.saturating_add(1);
            } else {
                self.lits.push(*lit)?;
            }
        }
        Ok(())
    }

    /// Goes back along the trail, and resolves with the reason of each literal of the last level that was met, up to the implication point.
    fn go_back(
        &mut self,
        arena: &mut Arena,
        assignment: &Assignment,
        order: &mut Order,
    ) -> Result<(), AllocError> {
        for lit in assignment.trail.iter().rev() {
            let variable = variable_of(*lit);
            if !self.is_met(variable) || assignment.level_of(*lit) < assignment.level() {
                continue;
            }
            if self.open <= 1 {
                self.lits.push(negation(*lit))?;
                break;
            }
            self.open -= 1;
            self.used.push(*lit / 2)?;
            let reason = assignment.origin(variable).reason;
            self.levels.renew(arena, assignment, reason);
            self.meet(arena.lits(reason), assignment, order)?;
        }
        Ok(())
    }

    /// Takes back what was met after the first `count`.
    fn forget(&mut self, count: usize) {
        for i in count..self.met.len() {
            let variable = at(&self.met, i) as usize;
            self.mark(variable, false);
        }
        self.met.truncate(count);
    }

    /// Meets the literals of a reason, and says whether none of them is new and a decision.
    fn follow(&mut self, lits: &[u32], assignment: &Assignment) -> Result<bool, AllocError> {
        for lit in lits {
            let variable = variable_of(*lit);
            let origin = assignment.origin(variable);
            if origin.level == 0 || self.is_met(variable) {
                continue;
            }
            if origin.reason == NO_REASON {
                return Ok(false);
            }
            self.mark(variable, true);
            self.met.push(*lit / 2)?;
            self.stack.push(*lit / 2)?;
        }
        Ok(true)
    }

    /// Whether a literal is false wherever the others of the clause are.
    fn is_needless(
        &mut self,
        arena: &Arena,
        assignment: &Assignment,
        variable: u32,
    ) -> Result<bool, AllocError> {
        let count = self.met.len();
        self.stack.clear();
        self.stack.push(variable)?;
        for _ in 0..=assignment.variables() {
            let Some(next) = self.stack.pop() else {
                break;
            };
            let reason = assignment.origin(next as usize).reason;
            if reason == NO_REASON || !self.follow(arena.lits(reason), assignment)? {
                self.forget(count);
                return Ok(false);
            }
        }
        self.used.push(variable)?;
        for i in count..self.met.len() {
            let more = at(&self.met, i);
            self.used.push(more)?;
        }
        Ok(true)
    }

    /// Drops the literals that are false wherever the others are. The last one stays.
    fn shorten(&mut self, arena: &Arena, assignment: &Assignment) -> Result<(), AllocError> {
        let mut kept: usize = 0;
        let count = self.lits.len();
        for i in 0..count {
            let lit = at(&self.lits, i);
            if i + 1 < count && self.is_needless(arena, assignment, lit / 2)? {
                continue;
            }
            if kept < self.lits.len() {
                self.lits[kept] = lit;
            }
            kept = kept.saturating_add(1);
        }
        self.lits.truncate(kept);
        Ok(())
    }

    /// Resolves back from a clause whose literals are all false, at least one of them by a decision.
    pub fn resolve(
        &mut self,
        arena: &mut Arena,
        assignment: &Assignment,
        order: &mut Order,
        conflict: u32,
    ) -> Result<(), AllocError> {
        self.lits.clear();
        self.used.clear();
        self.open = 0;
        self.levels.renew(arena, assignment, conflict);
        self.meet(arena.lits(conflict), assignment, order)?;
        self.go_back(arena, assignment, order)?;
        self.shorten(arena, assignment)?;
        self.forget(0);
        order.age();
        Ok(())
    }

    /// Orders the literals by their levels, the lowest first. The last one stays.
    pub fn sort(&mut self, assignment: &Assignment) -> Result<(), AllocError> {
        let Some(last) = self.lits.pop() else {
            return Ok(());
        };
        self.keys.clear();
        for lit in &self.lits {
            let level = assignment.origin(variable_of(*lit)).level;
            self.keys.push(level as u64 * 4294967296 + *lit as u64)?;
        }
        self.keys.sort_unstable();
        self.lits.clear();
        for key in &self.keys {
            self.lits.push((*key % 4294967296) as u32)?;
        }
        self.lits.push(last)?;
        Ok(())
    }
}
