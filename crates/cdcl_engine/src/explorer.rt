//! A search by conflicts.
use crate::arena::Arena;
use crate::assignment::Assignment;
use crate::cells::{at, negation};
use crate::load::Room;
use crate::order::Order;
use crate::record::Record;
use crate::resolution::Resolution;
use crate::restarts::Restarts;
use crate::watching::WatchLists;
use std::alloc::{AllocError, Global};
use std::mem::replace;

/// Where a conflict would take back more decisions than this, only one is taken back.
const FAR: u32 = 100;

/// Clauses with their watches, the literals that are true, and the order of decisions.
#[derive(Drop)]
pub struct Explorer {
    pub arena: Arena,
    pub watches: WatchLists,
    pub assignment: Assignment,
    pub order: Order,
    pub resolution: Resolution,
    restarts: Restarts,
    /// A clause that was false when it was added.
    pub failed: Option<u32>,
}

impl Explorer {
    /// No clauses, over so many variables, with room for those that come first.
    pub fn new(alloc: Global, variables: usize, room: &Room) -> Result<Explorer, AllocError> {
        Ok(Explorer {
            arena: Arena::with_room(alloc, room.cells)?,
            watches: WatchLists::with_room(alloc, &room.watches)?,
            assignment: Assignment::new(alloc, variables)?,
            order: Order::new(alloc, variables)?,
            resolution: Resolution::new(alloc, variables)?,
            restarts: Restarts::new(),
            failed: None,
        })
    }

    /// Adds a clause without two literals of the same variable, where no decision stands.
    pub fn add(&mut self, id: u32, lits: &[u32]) -> Result<u32, AllocError> {
        let clause = self.arena.add(id, 0, lits)?;
        match lits {
            [] => self.failed = Some(clause),
            [only] => {
                if self.assignment.is_false(*only) {
                    self.failed = Some(clause);
                } else if !self.assignment.is_true(*only) {
                    self.assignment.assign(*only, clause)?;
                }
            }
            [first, second, ..] => self.watches.attach(clause, *first, *second)?,
        }
        Ok(clause)
    }

    /// Lets the clauses and their watches go: only the record is used from now on.
    pub fn let_go(&mut self, alloc: Global) {
        self.arena = Arena::new(alloc);
        self.watches.clear();
    }

    /// Makes true what follows, until a clause is false, which is the answer, or nothing more follows.
    pub fn propagate(&mut self) -> Result<Option<u32>, AllocError> {
        if self.failed.is_some() {
            return Ok(self.failed);
        }
        self.watches
            .propagate(&mut self.arena, &mut self.assignment)
    }

    /// Takes decisions back until only so many stand. What follows from those stays.
    pub fn back_to(&mut self, level: u32) -> Result<(), AllocError> {
        if level >= self.assignment.level() {
            return Ok(());
        }
        let mut kept = self.assignment.length_at(level);
        let mut is_mixed = false;
        for place in kept..self.assignment.trail.len() {
            let lit = at(&self.assignment.trail, place);
            let here = self.assignment.level_of(lit);
            if here <= level {
                self.assignment.keep(kept, lit);
                kept = kept.saturating_add(1);
                is_mixed = is_mixed || here < level;
            } else {
                self.assignment.clear(lit);
                self.order.keep_sign(lit / 2, lit % 2 == 0);
                self.order.insert(lit / 2)?;
            }
        }
        self.assignment.end_trail(level, kept, is_mixed);
        Ok(())
    }

    /// The first open variable in the order.
    fn pick(&mut self) -> Option<u32> {
        for _ in 0..=self.assignment.variables() {
            let variable = self.order.pop()?;
            if self.assignment.is_open(variable.saturating_mul(2))
                && !self.order.is_retired(variable)
            {
                return Some(variable);
            }
        }
        None
    }

    /// Decides and propagates until a clause is false, which is the answer, or every variable has a value.
    pub fn descend(&mut self) -> Result<Option<u32>, AllocError> {
        for _ in 0..=self.assignment.variables() {
            let conflict = self.propagate()?;
            if conflict.is_some() {
                return Ok(conflict);
            }
            let Some(variable) = self.pick() else {
                break;
            };
            let even = variable.saturating_mul(2);
            let lit = if self.order.sign(variable) {
                even
            } else {
                negation(even)
            };
            self.assignment.decide(lit)?;
        }
        Ok(None)
    }

    /// The greatest level of the literals but the last, and the place of one that has it.
    fn greatest_level(&self, lits: &[u32]) -> (u32, usize) {
        let mut level = 0;
        let mut place = 0;
        for (i, lit) in lits.iter().enumerate() {
            let here = self.assignment.level_of(*lit);
            if i + 1 < lits.len() && here >= level {
                level = here;
                place = i;
            }
        }
        (level, place)
    }

    /// Orders the literals so that the last comes first and one of the greatest level second, and gives that level.
    fn arrange(&self, lits: &mut [u32]) -> u32 {
        let (level, place) = self.greatest_level(lits);
        let count = lits.len();
        if count < 2 {
            return level;
        }
        lits.swap(0, count - 1);
        let there = if place == 0 { count - 1 } else { place };
        if there < count {
            lits.swap(1, there);
        }
        level
    }

    /// Goes back to a level at which the first literal of a clause alone is not false, and makes it true.
    fn assert_first(&mut self, clause: u32, level: u32, lits: &[u32]) -> Result<(), AllocError> {
        let last = self.assignment.level();
        if last - level.min(last) > FAR {
            self.back_to(last - 1)?;
        } else {
            self.back_to(level)?;
        }
        if lits.len() > 1 {
            self.watches.attach(clause, lits[0], lits[1])?;
        }
        if !lits.is_empty() {
            self.assignment.assign_at(lits[0], clause, level)?;
        }
        Ok(())
    }

    /// The level down to which the next decisions would be the same again.
    fn reusable_level(&mut self) -> Result<u32, AllocError> {
        let Some(next) = self.pick() else {
            return Ok(0);
        };
        self.order.insert(next)?;
        let mut level: u32 = 0;
        for limit in &self.assignment.limits {
            let decided = at(&self.assignment.trail, *limit as usize) / 2;
            if !self.order.is_before(decided, next) {
                break;
            }
            level = level.saturating_add(1);
        }
        Ok(level)
    }

    /// Begins again, where that is due.
    pub fn restart(&mut self) -> Result<(), AllocError> {
        if self.restarts.is_due() {
            self.restarts.begin();
            let level = self.reusable_level()?;
            self.back_to(level)?;
        }
        Ok(())
    }

    /// Learns the clause of a conflict's implication point, at whose level the trail ends. Answers it if it is to be kept only while it is of use.
    fn learn_point(
        &mut self,
        alloc: Global,
        record: &mut Record,
        conflict: u32,
    ) -> Result<Option<u32>, AllocError> {
        self.resolution.resolve(&mut self.arena, &self.assignment, &mut self.order, conflict)?;
        let mut lits = replace(&mut self.resolution.lits, Vec::new(alloc));
        let level = self.arrange(lits.as_mut_slice());
        let levels = self.resolution.levels.count(&lits, &self.assignment);
        let clause = self.arena.add(record.next_id(), levels.max(1), &lits)?;
        let used = self.resolution.used.as_slice();
        record.note(&self.arena, &self.assignment, used, conflict, &lits)?;
        self.assert_first(clause, level, &lits)?;
        self.restarts.count(levels);
        let is_long = lits.len() > 1;
        self.resolution.lits = lits;
        Ok(if is_long { Some(clause) } else { None })
    }

    /// The place of a literal of the greatest level, from a place on.
    fn highest(&self, clause: u32, from: usize) -> usize {
        let lits = self.arena.lits(clause);
        let mut level = 0;
        let mut highest = from;
        for (place, lit) in lits.iter().enumerate() {
            let here = self.assignment.level_of(*lit);
            if place >= from && (place == from || here > level) {
                level = here;
                highest = place;
            }
        }
        highest
    }

    /// Watches the two literals of a clause that have the greatest levels.
    fn watch_highest(&mut self, clause: u32) -> Result<(), AllocError> {
        for (place, lit) in [
            (0, at(self.arena.lits(clause), 0)),
            (1, at(self.arena.lits(clause), 1)),
        ] {
            self.watches.detach(clause, lit);
            let there = self.highest(clause, place);
            self.arena.swap(clause, place, there);
        }
        let (first, second) = (
            at(self.arena.lits(clause), 0),
            at(self.arena.lits(clause), 1),
        );
        self.watches.attach(clause, first, second)
    }

    /// The level of the clause of a conflict.
    pub fn conflict_level(&self, conflict: u32) -> u32 {
        if !self.assignment.is_mixed() {
            return self.assignment.level();
        }
        let mut level = 0;
        for lit in self.arena.lits(conflict) {
            level = level.max(self.assignment.level_of(*lit));
        }
        level
    }

    /// Goes back to the level of a conflict. Where its clause has one literal of that level, this becomes true a level before, and nothing is to be learned.
    fn meet_conflict(&mut self, conflict: u32) -> Result<bool, AllocError> {
        let level = self.conflict_level(conflict);
        self.watch_highest(conflict)?;
        let (first, second) = (
            at(self.arena.lits(conflict), 0),
            at(self.arena.lits(conflict), 1),
        );
        let before = self.assignment.level_of(second);
        if before == level {
            self.back_to(level)?;
            return Ok(false);
        }
        self.back_to(level.saturating_sub(1))?;
        self.assignment.assign_at(first, conflict, before)?;
        Ok(true)
    }

    /// Learns from a conflict with a decision. Answers the clause that was learned if it is to be kept only while it is of use.
    pub fn learn(
        &mut self,
        alloc: Global,
        record: &mut Record,
        conflict: u32,
    ) -> Result<Option<u32>, AllocError> {
        if self.assignment.is_mixed() && self.meet_conflict(conflict)? {
            return Ok(None);
        }
        self.learn_point(alloc, record, conflict)
    }

    /// The clause of a conflict's implication point, its literals by their levels, the lowest first; that of the point is the last.
    pub fn resolve(&mut self, conflict: u32, lits: &mut Vec<u32>) -> Result<(), AllocError> {
        self.resolution.resolve(&mut self.arena, &self.assignment, &mut self.order, conflict)?;
        self.resolution.sort(&self.assignment)?;
        lits.clear();
        lits.extend_from_slice(&self.resolution.lits)
    }

    /// Whether all literals are false, the last one alone at a level above this one.
    fn is_asserting(&self, lits: &[u32], level: u32) -> bool {
        for (i, lit) in lits.iter().enumerate() {
            if !self.assignment.is_false(*lit) {
                return false;
            }
            if i + 1 == lits.len() && self.assignment.level_of(*lit) <= level {
                return false;
            }
        }
        true
    }

    /// Learns a clause that was made of a proposed one.
    pub fn take(&mut self, lits: &mut [u32]) -> Result<(), AllocError> {
        let (level, _) = self.greatest_level(lits);
        if lits.is_empty() || !self.is_asserting(lits, level) {
            self.back_to(0)?;
            self.assignment.visited = 0;
            self.add(0, lits)?;
            return Ok(());
        }
        let level = self.arrange(lits);
        let levels = self.resolution.levels.count(lits, &self.assignment);
        self.restarts.count(levels);
        let clause = self.arena.add(0, 0, lits)?;
        self.back_to(level)?;
        self.assert_first(clause, level, lits)?;
        self.restart()
    }
}
