//! Bounded variable elimination with subsumption: where the resolvents by a variable are no more than its clauses, they take the place of these.
use crate::cells::{at, count_of, negation};
use crate::occurrences::{Occurrences, Relation};
use crate::search::Search;
use std::alloc::{AllocError, Global};

/// A variable that stands in more clauses than this by either sign is not taken out.
const MOST_CLAUSES: usize = 40;

/// A resolvent is no longer than this.
const LONGEST: usize = 24;

/// Clauses of a literal that stands in more clauses are not compared.
const MOST_COMPARED: usize = 400;

/// How often variables are gone through.
const ROUNDS: u32 = 12;

/// Clauses by their literals, and what is to be looked at.
#[derive(Drop)]
struct Work {
    occurrences: Occurrences,
    /// Clauses that may subsume others.
    added: Vec<u32>,
    /// For each variable whether its clauses have changed.
    touched: Vec<bool>,
    lits: Vec<u32>,
    other: Vec<u32>,
    /// How many steps may be made.
    limit: u64,
}

impl Work {
    fn is_spent(&self) -> bool {
        self.occurrences.steps > self.limit
    }

    fn touch(&mut self, lit: u32) {
        let place = (lit / 2) as usize;
        if place < self.touched.len() {
            self.touched[place] = true;
        }
    }

    /// The variable of a clause that stands in the fewest clauses.
    fn rarest(&self, lits: &[u32]) -> (u32, usize) {
        let mut best = 0;
        let mut least = usize::MAX;
        for lit in lits {
            let count = self
                .occurrences
                .count(*lit)
                .saturating_add(self.occurrences.count(negation(*lit)));
            if count < least {
                least = count;
                best = *lit;
            }
        }
        (best, least)
    }
}

impl Search {
    fn work(&mut self, alloc: Global, limit: u64) -> Result<Work, AllocError> {
        let size = self.explorer.watches.len();
        let mut work = Work {
            occurrences: Occurrences::new(alloc, size)?,
            added: Vec::new(alloc),
            touched: vec![in alloc; true; size / 2]?,
            lits: Vec::new(alloc),
            other: Vec::new(alloc),
            limit,
        };
        let clauses = self.clauses(alloc)?;
        self.explorer.watches.clear();
        for clause in &clauses {
            if self.explorer.arena.levels(*clause) == 0 {
                work.occurrences
                    .add(*clause, self.explorer.arena.lits(*clause))?;
                work.added.push(*clause)?;
            }
        }
        Ok(work)
    }

    /// Adds the clause of `work.lits`, which follows from two others by resolution.
    fn add_resolvent(&mut self, work: &mut Work, one: u32, other: u32) -> Result<(), AllocError> {
        let id = self.record.next_id();
        self.record.begin_line(&work.lits)?;
        self.record.tell_fixed(self.explorer.arena.all_lits(one), &self.explorer.assignment)?;
        self.record.tell_fixed(
            self.explorer.arena.all_lits(other),
            &self.explorer.assignment,
        )?;
        self.record.tell(self.explorer.arena.id(one))?;
        self.record.tell(self.explorer.arena.id(other))?;
        let name = self.explorer.arena.add(id, 0, &work.lits)?;
        match work.lits.as_slice() {
            [] => self.explorer.failed = Some(name),
            [only] => {
                if self.explorer.assignment.is_false(*only) {
                    self.explorer.failed = Some(name);
                } else if !self.explorer.assignment.is_true(*only) {
                    self.explorer.assignment.assign(*only, name)?;
                    self.record
                        .note_units(&self.explorer.arena, &self.explorer.assignment)?;
                }
            }
            [..] => {
                work.occurrences.add(name, &work.lits)?;
                work.added.push(name)?;
            }
        }
        for place in 0..work.lits.len() {
            let lit = at(&work.lits, place);
            work.touch(lit);
        }
        Ok(())
    }

    /// Puts the resolvent of two clauses by a variable into `work.lits`, and says whether it is to be added.
    fn resolve_pair(
        &mut self,
        work: &mut Work,
        one: u32,
        other: u32,
        variable: u32,
    ) -> Result<bool, AllocError> {
        let (arena, assignment) = (&self.explorer.arena, &self.explorer.assignment);
        work.occurrences.mark(arena.lits(one));
        work.lits.clear();
        for lit in arena.lits(one) {
            if assignment.is_true(*lit) {
                return Ok(false);
            }
            if *lit / 2 != variable && !assignment.is_false(*lit) {
                work.lits.push(*lit)?;
            }
        }
        for lit in arena.lits(other) {
            if assignment.is_true(*lit) {
                return Ok(false);
            }
            if *lit / 2 == variable
                || assignment.is_false(*lit)
                || work.occurrences.is_marked(*lit)
            {
                continue;
            }
            if work.occurrences.is_marked(negation(*lit)) {
                return Ok(false);
            }
            work.lits.push(*lit)?;
        }
        Ok(true)
    }

    /// Whether the resolvents by a variable are few and short.
    fn are_few(&self, work: &mut Work, variable: u32) -> bool {
        let even = variable.saturating_mul(2);
        let arena = &self.explorer.arena;
        let (ones, others) = (
            work.occurrences.count(even),
            work.occurrences.count(even | 1),
        );
        if ones > MOST_CLAUSES && others > MOST_CLAUSES {
            return false;
        }
        let mut left = ones.saturating_add(others);
        for i in 0..ones {
            let one = work.occurrences.clause(even, i);
            work.occurrences.mark(arena.lits(one));
            for j in 0..others {
                let other = work.occurrences.clause(even | 1, j);
                let length = work
                    .occurrences
                    .resolvent_length(arena.len(one), arena.lits(other), variable);
                if let Some(length) = length {
                    if length > LONGEST || left == 0 {
                        return false;
                    }
                    left -= 1;
                }
            }
        }
        true
    }

    /// Takes the clauses of a literal out.
    fn take_out(&mut self, work: &mut Work, lit: u32, is_told: bool) -> Result<(), AllocError> {
        for i in 0..work.occurrences.count(lit) {
            let clause = work.occurrences.clause(lit, i);
            if is_told {
                self.completion.push(lit, self.explorer.arena.lits(clause))?;
            }
            for other in self.explorer.arena.lits(clause) {
                work.touch(*other);
            }
            self.explorer.arena.delete(clause);
        }
        Ok(())
    }

    /// Takes a variable out, if its resolvents are few.
    fn eliminate(&mut self, work: &mut Work, variable: u32) -> Result<(), AllocError> {
        let even = variable.saturating_mul(2);
        let odd = even | 1;
        work.occurrences.drop_deleted(&self.explorer.arena, even);
        work.occurrences.drop_deleted(&self.explorer.arena, odd);
        if !self.are_few(work, variable) {
            return Ok(());
        }
        let (ones, others) = (work.occurrences.count(even), work.occurrences.count(odd));
        for i in 0..ones {
            for j in 0..others {
                let (one, other) = (
                    work.occurrences.clause(even, i),
                    work.occurrences.clause(odd, j),
                );
                if self.resolve_pair(work, one, other, variable)? {
                    self.add_resolvent(work, one, other)?;
                }
            }
        }
        let (few, many) = if ones < others {
            (even, odd)
        } else {
            (odd, even)
        };
        self.take_out(work, few, true)?;
        self.take_out(work, many, false)?;
        self.completion.push(many, &[])?;
        self.explorer.order.retire(variable);
        Ok(())
    }

    /// Compares a clause with one that shares a variable with it.
    fn compare(&mut self, work: &mut Work, clause: u32, other: u32) -> Result<(), AllocError> {
        let arena = &mut self.explorer.arena;
        if other == clause || arena.len(other) < arena.len(clause) {
            return Ok(());
        }
        match work
            .occurrences
            .relation(arena.len(clause), arena.lits(other))
        {
            Relation::Other => Ok(()),
            Relation::Subsumed => {
                for place in 0..arena.len(other) {
                    work.touch(at(arena.lits(other), place));
                }
                arena.delete(other);
                Ok(())
            }
            // One that has a value for good is cut later; here it would make a hint of the log useless.
            Relation::Strengthened(flipped) if !self.explorer.assignment.is_open(flipped) => Ok(()),
            Relation::Strengthened(flipped) => {
                work.lits.clear();
                for lit in arena.lits(other) {
                    if *lit != flipped && !self.explorer.assignment.is_false(*lit) {
                        work.lits.push(*lit)?;
                    }
                }
                work.touch(flipped);
                self.add_resolvent(work, clause, other)?;
                self.explorer.arena.delete(other);
                Ok(())
            }
        }
    }

    /// Deletes what a clause subsumes, and cuts the literals off others that it makes needless.
    fn subsume(&mut self, work: &mut Work, clause: u32) -> Result<(), AllocError> {
        work.other.clear();
        work.other
            .extend_from_slice(self.explorer.arena.lits(clause))?;
        let (lit, count) = work.rarest(&work.other);
        if count > MOST_COMPARED {
            return Ok(());
        }
        work.occurrences.mark(&work.other);
        for side in [lit, negation(lit)] {
            for i in 0..work.occurrences.count(side) {
                let other = work.occurrences.clause(side, i);
                if !self.explorer.arena.is_deleted(other)
                    && !self.explorer.arena.is_deleted(clause)
                {
                    self.compare(work, clause, other)?;
                }
            }
        }
        Ok(())
    }

    /// Looks at all clauses that were added.
    fn subsume_added(&mut self, work: &mut Work) -> Result<(), AllocError> {
        for _ in 0..u64::MAX {
            let Some(clause) = work.added.pop() else {
                break;
            };
            if self.explorer.failed.is_some() || work.is_spent() {
                break;
            }
            if !self.explorer.arena.is_deleted(clause) {
                self.subsume(work, clause)?;
            }
        }
        work.added.clear();
        Ok(())
    }

    /// The variables whose clauses have changed, those in the fewest clauses first.
    fn candidates(&self, alloc: Global, work: &mut Work) -> Result<Vec<u64>, AllocError> {
        let mut keys: Vec<u64> = Vec::new(alloc);
        for place in 0..work.touched.len() {
            let even = count_of(place).saturating_mul(2);
            let is_open = self.explorer.assignment.is_open(even)
                && !self.explorer.order.is_retired(even / 2);
            if place < work.touched.len() && work.touched[place] && is_open {
                work.touched[place] = false;
                let count = work
                    .occurrences
                    .count(even)
                    .saturating_mul(work.occurrences.count(even | 1))
                    .min(1000000);
                keys.push(count as u64 * 4294967296 + place as u64 % 4294967296)?;
            }
        }
        keys.sort_unstable();
        Ok(keys)
    }

    /// Takes variables out and subsumes clauses by so many steps, where no decision stands and all was propagated. Answers a conflict.
    pub fn eliminate_all(&mut self, alloc: Global, limit: u64) -> Result<Option<u32>, AllocError> {
        let mut work = self.work(alloc, limit)?;
        self.subsume_added(&mut work)?;
        for _ in 0..ROUNDS {
            let candidates = self.candidates(alloc, &mut work)?;
            for key in &candidates {
                let variable = (*key % 4294967296) as u32;
                if self.explorer.failed.is_some() || work.is_spent() {
                    break;
                }
                if self.explorer.assignment.is_open(variable.saturating_mul(2)) {
                    self.eliminate(&mut work, variable)?;
                }
            }
            self.subsume_added(&mut work)?;
        }
        if self.explorer.failed.is_some() {
            return Ok(self.explorer.failed);
        }
        self.rebuild(alloc)
    }
}
