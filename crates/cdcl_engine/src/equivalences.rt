//! Equivalent literals: of those that imply each other by clauses of two literals one stands for all.
use crate::cells::{at, count_of, negation, put};
use crate::components::{Components, NO_LITERAL};
use crate::search::Search;
use std::alloc::{AllocError, Global};

/// For the literals of each component the one that stands for them.
#[derive(Drop)]
struct Ties {
    components: Components,
    /// For the literal that names a component the one that stands for it.
    chosen: Vec<u32>,
    /// For each literal the id of the clause by which it follows from that one, or 0.
    ids: Vec<u32>,
    /// A literal that is equivalent to its negation.
    absurd: Option<u32>,
}

impl Ties {
    /// The literal that stands for a literal.
    fn stand_in(&self, lit: u32) -> u32 {
        let name = self.components.of(lit) as usize;
        if name < self.chosen.len() && self.chosen[name] != NO_LITERAL {
            self.chosen[name]
        } else {
            lit
        }
    }

    /// Chooses the least variable of each component.
    fn choose(&mut self) {
        for place in 0..self.chosen.len() / 2 {
            let lit = count_of(place).saturating_mul(2);
            let (name, opposite) = (self.components.of(lit), self.components.of(negation(lit)));
            if name == NO_LITERAL {
                continue;
            }
            if name == opposite {
                self.absurd = Some(lit);
            }
            let there = name as usize;
            if there < self.chosen.len() && self.chosen[there] == NO_LITERAL {
                self.chosen[there] = lit;
                put(self.chosen.as_mut_slice(), opposite as usize, negation(lit));
            }
        }
    }
}

impl Search {
    fn ties(&self, alloc: Global) -> Result<Ties, AllocError> {
        let explorer = &self.explorer;
        let components = Components::new(
            alloc,
            &explorer.watches,
            &explorer.arena,
            &explorer.assignment,
        )?;
        let size = explorer.watches.len();
        let mut ties = Ties {
            components,
            chosen: vec![in alloc; NO_LITERAL; size]?,
            ids: vec![in alloc; 0; size]?,
            absurd: None,
        };
        ties.choose();
        Ok(ties)
    }

    /// Lines for the clauses by which literals follow from a chosen one, each by a clause of two literals from one before.
    fn note_followers(
        &mut self,
        ties: &mut Ties,
        chosen: u32,
        queue: &mut Vec<u32>,
    ) -> Result<(), AllocError> {
        queue.clear();
        queue.push(chosen)?;
        for turn in 0..self.explorer.watches.len() {
            if turn >= queue.len() {
                break;
            }
            let lit = queue[turn];
            for index in 0..self.explorer.watches.count(negation(lit) as usize) {
                let Some((target, clause)) = self
                    .explorer
                    .watches
                    .implied(&self.explorer.arena, lit, index)
                else {
                    continue;
                };
                let is_new = target != chosen && at(&ties.ids, target as usize) == 0;
                if is_new && ties.stand_in(target) == chosen {
                    let id = self.record.next_id();
                    self.record.begin_line(&[negation(chosen), target])?;
                    self.record.tell_fixed(
                        self.explorer.arena.all_lits(clause),
                        &self.explorer.assignment,
                    )?;
                    if lit != chosen {
                        self.record.tell(at(&ties.ids, lit as usize))?;
                    }
                    self.record.tell(self.explorer.arena.id(clause))?;
                    put(ties.ids.as_mut_slice(), target as usize, id);
                    queue.push(target)?;
                }
            }
        }
        Ok(())
    }

    /// Takes a variable out for which another literal stands.
    fn retire_tied(&mut self, lit: u32, chosen: u32) -> Result<(), AllocError> {
        self.explorer.order.retire(lit / 2);
        self.completion.push(lit, &[negation(chosen)])?;
        self.completion.push(negation(lit), &[chosen])
    }

    /// The literals of a clause that are open, by those that stand for them, and whether that makes another clause of it. One that is true makes none.
    fn stand_ins(&self, ties: &Ties, clause: u32, lits: &mut Vec<u32>) -> Result<bool, AllocError> {
        lits.clear();
        let mut is_tied = false;
        for lit in self.explorer.arena.lits(clause) {
            if self.explorer.assignment.is_true(*lit) {
                return Ok(false);
            }
            if !self.explorer.assignment.is_false(*lit) {
                is_tied = is_tied || ties.stand_in(*lit) != *lit;
                lits.push(ties.stand_in(*lit))?;
            }
        }
        Ok(is_tied)
    }

    /// The clause with the chosen literals in place of those for which they stand.
    fn replace_in(
        &mut self,
        ties: &Ties,
        clause: u32,
        lits: &mut Vec<u32>,
    ) -> Result<(), AllocError> {
        if !self.stand_ins(ties, clause, lits)? {
            return Ok(());
        }
        lits.sort_unstable();
        lits.dedup();
        if !has_both(lits) {
            let levels = self.explorer.arena.levels(clause);
            let id = self.record.next_id();
            self.record.begin_line(lits)?;
            self.record.tell_fixed(
                self.explorer.arena.all_lits(clause),
                &self.explorer.assignment,
            )?;
            for lit in self.explorer.arena.lits(clause) {
                if ties.stand_in(*lit) != *lit {
                    self.record.tell(at(&ties.ids, negation(*lit) as usize))?;
                }
            }
            self.record.tell(self.explorer.arena.id(clause))?;
            let name = self.explorer.arena.add(id, levels, lits)?;
            self.reduction.add(name, levels)?;
        }
        self.explorer.arena.delete(clause);
        Ok(())
    }

    /// Replaces equivalent literals, where no decision stands and all was propagated. Answers a conflict.
    pub fn replace_equivalent(&mut self, alloc: Global) -> Result<Option<u32>, AllocError> {
        let mut ties = self.ties(alloc)?;
        if let Some(lit) = ties.absurd {
            let conflict = self.try_literal(alloc, lit)?;
            return if conflict.is_some() {
                Ok(conflict)
            } else {
                self.try_literal(alloc, negation(lit))
            };
        }
        let mut buffer = Vec::new(alloc);
        let mut count: usize = 0;
        for place in 0..self.explorer.watches.len() {
            let lit = count_of(place);
            let chosen = ties.stand_in(lit);
            if chosen == lit {
                self.note_followers(&mut ties, lit, &mut buffer)?;
            } else if lit % 2 == 0 {
                self.retire_tied(lit, chosen)?;
                count = count.saturating_add(1);
            }
        }
        if count == 0 {
            return Ok(None);
        }
        let clauses = self.clauses(alloc)?;
        for clause in &clauses {
            self.replace_in(&ties, *clause, &mut buffer)?;
        }
        self.rebuild(alloc)
    }
}

/// Whether a literal stands before its negation, among rising ones.
fn has_both(lits: &[u32]) -> bool {
    for k in 1..lits.len() {
        if lits[k - 1] ^ 1 == lits[k] {
            return true;
        }
    }
    false
}
