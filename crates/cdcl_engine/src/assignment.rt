//! The literals that are true, in the order in which they became so.
use crate::arena::NO_CLAUSE;
use crate::cells::{at, count_of, negation, put, variable_of};
use std::alloc::{AllocError, Global};

/// The reason of a decision.
pub const NO_REASON: u32 = NO_CLAUSE;

/// No number of decisions.
const NEVER: u32 = u32::MAX;

/// How a variable came by its value.
#[derive(Clone, Copy)]
pub struct Origin {
    /// How many decisions the value follows from.
    pub level: u32,
    /// The clause whose other literals were false, or `NO_REASON` for a decision.
    pub reason: u32,
    /// The place on the trail.
    pub place: u32,
}

/// What stands for the origin of a variable that has none.
const NO_ORIGIN: Origin = Origin {
    level: 0,
    reason: NO_REASON,
    place: 0,
};

/// The literals that are true.
#[derive(Drop)]
pub struct Assignment {
    /// For each literal whether it is true.
    holds: Vec<bool>,
    origins: Vec<Origin>,
    pub trail: Vec<u32>,
    /// For each decision the length of the trail before it.
    pub limits: Vec<u32>,
    /// Of so many literals of the trail the watches were visited.
    pub visited: usize,
    /// The literals that are true without a decision.
    pub fixed: Vec<u32>,
    /// The least number of decisions after which a literal of a lower level was made true; `NEVER` if there is none on the trail.
    mixed_from: u32,
}

impl Assignment {
    /// No literal is true.
    pub fn new(alloc: Global, variables: usize) -> Result<Assignment, AllocError> {
        let size = variables.saturating_mul(2);
        Ok(Assignment {
            holds: vec![in alloc; false; size]?,
            origins: vec![in alloc; NO_ORIGIN; variables]?,
            trail: Vec::with_capacity(alloc, variables)?,
            limits: Vec::new(alloc),
            visited: 0,
            fixed: Vec::new(alloc),
            mixed_from: NEVER,
        })
    }

    /// How many variables there are.
    pub fn variables(&self) -> usize {
        self.origins.len()
    }

    #[inline(always)]
    pub fn is_true(&self, lit: u32) -> bool {
        let place = lit as usize;
        place < self.holds.len() && self.holds[place]
    }

    #[inline(always)]
    pub fn is_false(&self, lit: u32) -> bool {
        self.is_true(negation(lit))
    }

    /// Whether a literal is neither true nor false.
    pub fn is_open(&self, lit: u32) -> bool {
        !self.is_true(lit) && !self.is_false(lit)
    }

    #[inline]
    pub fn origin(&self, variable: usize) -> Origin {
        if variable < self.origins.len() {
            self.origins[variable]
        } else {
            NO_ORIGIN
        }
    }

    /// The level of a literal that is true or false.
    #[inline]
    pub fn level_of(&self, lit: u32) -> u32 {
        self.origin(variable_of(lit)).level
    }

    /// How many decisions stand.
    pub fn level(&self) -> u32 {
        count_of(self.limits.len())
    }

    /// Whether some literal of the trail has a lower level than one before it.
    pub fn is_mixed(&self) -> bool {
        self.mixed_from != NEVER
    }

    fn set(&mut self, lit: u32, value: bool) {
        let place = lit as usize;
        if place < self.holds.len() {
            self.holds[place] = value;
        }
    }

    fn set_origin(&mut self, lit: u32, origin: Origin) {
        let variable = variable_of(lit);
        if variable < self.origins.len() {
            self.origins[variable] = origin;
        }
    }

    /// Makes a literal true that is open, at a level.
    pub fn assign_at(&mut self, lit: u32, reason: u32, level: u32) -> Result<(), AllocError> {
        let place = count_of(self.trail.len());
        self.set(lit, true);
        self.set_origin(
            lit,
            Origin {
                level,
                reason,
                place,
            },
        );
        if level < self.level() {
            self.mixed_from = self.mixed_from.min(self.level());
        }
        if level == 0 {
            self.fixed.push(lit)?;
        }
        self.trail.push(lit)?;
        Ok(())
    }

    /// Makes a literal true that is open, at the last level.
    pub fn assign(&mut self, lit: u32, reason: u32) -> Result<(), AllocError> {
        let level = self.level();
        self.assign_at(lit, reason, level)
    }

    /// Makes a literal true by decision.
    pub fn decide(&mut self, lit: u32) -> Result<(), AllocError> {
        self.limits.push(count_of(self.trail.len()))?;
        self.assign(lit, NO_REASON)
    }

    /// The length of the trail before the decision after so many.
    pub fn length_at(&self, level: u32) -> usize {
        let place = level as usize;
        if place < self.limits.len() {
            at(&self.limits, place) as usize
        } else {
            self.trail.len()
        }
    }

    /// Takes the last literal back.
    pub fn pop(&mut self) -> Option<u32> {
        let lit = self.trail.pop()?;
        self.set(lit, false);
        if self.level_of(lit) == 0 {
            let _ = self.fixed.pop();
        }
        Some(lit)
    }

    /// Makes a literal open.
    pub fn clear(&mut self, lit: u32) {
        self.set(lit, false);
    }

    /// Puts a literal that stays true at a place of the trail.
    pub fn keep(&mut self, place: usize, lit: u32) {
        put(self.trail.as_mut_slice(), place, lit);
        let origin = self.origin(variable_of(lit));
        let place = count_of(place);
        self.set_origin(lit, Origin { place, ..origin });
    }

    /// Ends the trail after what was kept of it, where only so many decisions stand. `is_mixed` tells whether what was kept after them has a lower level.
    pub fn end_trail(&mut self, level: u32, kept: usize, is_mixed: bool) {
        self.visited = self.visited.min(self.length_at(level));
        self.trail.truncate(kept);
        self.limits.truncate(level as usize);
        if self.mixed_from > level {
            self.mixed_from = if is_mixed { level } else { NEVER };
        }
    }

    /// The literals that are true without a decision need no reason any more.
    pub fn drop_reasons(&mut self) {
        for place in 0..self.fixed.len() {
            let lit = at(&self.fixed, place);
            let origin = self.origin(variable_of(lit));
            self.set_origin(
                lit,
                Origin {
                    reason: NO_REASON,
                    ..origin
                },
            );
        }
    }
}
