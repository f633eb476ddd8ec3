//! For each literal the clauses in which it stands.
use crate::arena::Arena;
use crate::cells::{at, negation, put};
use std::alloc::{AllocError, Global};

/// What a clause is to a marked one.
#[derive(Clone, Copy)]
pub enum Relation {
    /// It has all literals of the marked clause.
    Subsumed,
    /// It has all but one, whose negation is this literal of it.
    Strengthened(u32),
    Other,
}

/// For each literal the clauses in which it stands.
#[derive(Drop)]
pub struct Occurrences {
    lists: Vec<Vec<u32>>,
    /// For each literal the last turn in which it was marked.
    marks: Vec<u32>,
    turn: u32,
    /// How many literals were looked at.
    pub steps: u64,
}

impl Occurrences {
    /// No clauses, over so many literals.
    pub fn new(alloc: Global, size: usize) -> Result<Occurrences, AllocError> {
        let mut lists = Vec::with_capacity(alloc, size)?;
        for _ in 0..size {
            lists.push(Vec::new(alloc))?;
        }
        Ok(Occurrences {
            lists,
            marks: vec![in alloc; 0; size]?,
            turn: 0,
            steps: 0,
        })
    }

    /// Adds a clause.
    pub fn add(&mut self, clause: u32, lits: &[u32]) -> Result<(), AllocError> {
        for lit in lits {
            let place = *lit as usize;
            if place < self.lists.len() {
                self.lists[place].push(clause)?;
            }
        }
        Ok(())
    }

    /// In how many clauses a literal stands, deleted ones among them.
    pub fn count(&self, lit: u32) -> usize {
        let place = lit as usize;
        if place < self.lists.len() {
            self.lists[place].len()
        } else {
            0
        }
    }

    /// A clause in which a literal stands.
    pub fn clause(&self, lit: u32, index: usize) -> u32 {
        let place = lit as usize;
        if place < self.lists.len() {
            at(&self.lists[place], index)
        } else {
            0
        }
    }

    /// Forgets the deleted clauses of a literal.
    pub fn drop_deleted(&mut self, arena: &Arena, lit: u32) {
        let place = lit as usize;
        if place >= self.lists.len() {
            return;
        }
        let list = &mut self.lists[place];
        let mut kept: usize = 0;
        for i in 0..list.len() {
            let clause = at(list, i);
            if !arena.is_deleted(clause) {
                put(list.as_mut_slice(), kept, clause);
                kept = kept.saturating_add(1);
            }
        }
        list.truncate(kept);
    }

    /// Marks these literals alone.
    pub fn mark(&mut self, lits: &[u32]) {
        self.turn = self.turn.wrapping_add(1);
        for lit in lits {
            put(self.marks.as_mut_slice(), *lit as usize, self.turn);
        }
    }

    /// Whether a literal is marked.
    pub fn is_marked(&self, lit: u32) -> bool {
        at(&self.marks, lit as usize) == self.turn
    }

    fn spend(&mut self, steps: usize) {
        self.steps = self.steps.saturating_add(steps as u64).saturating_add(1);
    }

    /// The length of the resolvent of the marked clause with another one, by a variable; none if it is always true.
    pub fn resolvent_length(
        &mut self,
        marked: usize,
        lits: &[u32],
        variable: u32,
    ) -> Option<usize> {
        self.spend(lits.len());
        let mut length = marked.saturating_sub(1);
        for lit in lits {
            if *lit / 2 == variable || self.is_marked(*lit) {
                continue;
            }
            if self.is_marked(negation(*lit)) {
                return None;
            }
            length = length.saturating_add(1);
        }
        Some(length)
    }

    /// What a clause is to the marked one, which has so many literals.
    pub fn relation(&mut self, marked: usize, lits: &[u32]) -> Relation {
        self.spend(lits.len().min(4));
        let mut common: usize = 0;
        let mut flipped = None;
        for lit in lits {
            if self.is_marked(*lit) {
                common = common.saturating_add(1);
            } else if self.is_marked(negation(*lit)) {
                if flipped.is_some() {
                    return Relation::Other;
                }
                flipped = Some(*lit);
            }
        }
        match flipped {
            None => {
                if common == marked {
                    Relation::Subsumed
                } else {
                    Relation::Other
                }
            }
            Some(lit) => {
                if common.saturating_add(1) == marked {
                    Relation::Strengthened(lit)
                } else {
                    Relation::Other
                }
            }
        }
    }
}
