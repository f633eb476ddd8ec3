//! Literals that imply each other by clauses of two literals: the strongly connected components of the implications, by Tarjan's algorithm.
use crate::arena::Arena;
use crate::assignment::Assignment;
use crate::cells::{at, count_of, put};
use crate::watching::WatchLists;
use std::alloc::{AllocError, Global};

/// No literal.
pub const NO_LITERAL: u32 = u32::MAX;

/// A literal on the path, and which of its implications is looked at next.
#[derive(Clone, Copy)]
struct Step {
    lit: u32,
    next: usize,
}

/// The components.
#[derive(Drop)]
pub struct Components {
    /// For each literal when it was met, counted from 1; 0 for one that was not.
    met: Vec<u32>,
    /// For each literal the least of these that it leads to.
    least: Vec<u32>,
    /// For each literal one of its component.
    of: Vec<u32>,
    /// The literals that were met, and whose component is not known.
    waiting: Vec<u32>,
    path: Vec<Step>,
    count: u32,
}

impl Components {
    /// The components of the literals that are open.
    pub fn new(
        alloc: Global,
        watches: &WatchLists,
        arena: &Arena,
        assignment: &Assignment,
    ) -> Result<Components, AllocError> {
        let size = watches.len();
        let mut components = Components {
            met: vec![in alloc; 0; size]?,
            least: vec![in alloc; 0; size]?,
            of: vec![in alloc; NO_LITERAL; size]?,
            waiting: Vec::new(alloc),
            path: Vec::new(alloc),
            count: 0,
        };
        for place in 0..size {
            let lit = count_of(place);
            if at(&components.met, place) == 0 && assignment.is_open(lit) {
                components.follow(watches, arena, assignment, lit)?;
            }
        }
        Ok(components)
    }

    /// A literal of the component of a literal, the same for all of it.
    pub fn of(&self, lit: u32) -> u32 {
        let place = lit as usize;
        if place < self.of.len() {
            self.of[place]
        } else {
            NO_LITERAL
        }
    }

    fn enter(&mut self, lit: u32) -> Result<(), AllocError> {
        self.count = self.count.saturating_add(1);
        put(self.met.as_mut_slice(), lit as usize, self.count);
        put(self.least.as_mut_slice(), lit as usize, self.count);
        self.waiting.push(lit)?;
        self.path.push(Step { lit, next: 0 })?;
        Ok(())
    }

    fn lower(&mut self, lit: u32, number: u32) {
        let least = at(&self.least, lit as usize).min(number);
        put(self.least.as_mut_slice(), lit as usize, least);
    }

    /// All that a literal leads to is known.
    fn leave(&mut self, lit: u32) {
        if at(&self.least, lit as usize) == at(&self.met, lit as usize) {
            for _ in 0..self.waiting.len() {
                let Some(other) = self.waiting.pop() else {
                    break;
                };
                put(self.of.as_mut_slice(), other as usize, lit);
                if other == lit {
                    break;
                }
            }
        }
        if let Some(step) = self.path.last() {
            let before = step.lit;
            let least = at(&self.least, lit as usize);
            self.lower(before, least);
        }
    }

    fn follow(
        &mut self,
        watches: &WatchLists,
        arena: &Arena,
        assignment: &Assignment,
        lit: u32,
    ) -> Result<(), AllocError> {
        self.enter(lit)?;
        for _ in 0..u64::MAX {
            let Some(step) = self.path.pop() else {
                break;
            };
            if step.next >= watches.count(step.lit as usize ^ 1) {
                self.leave(step.lit);
                continue;
            }
            self.path.push(Step {
                lit: step.lit,
                next: step.next.saturating_add(1),
            })?;
            let Some((target, _)) = watches.implied(arena, step.lit, step.next) else {
                continue;
            };
            if !assignment.is_open(target) {
                continue;
            }
            if at(&self.met, target as usize) == 0 {
                self.enter(target)?;
            } else if self.of(target) == NO_LITERAL {
                let met = at(&self.met, target as usize);
                self.lower(step.lit, met);
            }
        }
        Ok(())
    }
}
