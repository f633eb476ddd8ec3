//! What was learned, with its hints.
use crate::arena::Arena;
use crate::assignment::Assignment;
use crate::cells::{at, count_of, put, variable_of};
use std::alloc::{AllocError, Global};

/// A learned clause.
#[derive(Clone, Copy)]
struct Line {
    /// Where its literals begin; they end where those of the next line begin.
    lits: usize,
    /// Where its hints begin; they end where those of the next line begin.
    hints: usize,
}

/// The learned clauses in order, with the ids of those that they follow from, in the order in which these become units.
#[derive(Drop)]
pub struct Record {
    /// How many clauses were given. Their ids are 1 to that number, and those of the lines the ones after.
    given: u32,
    lines: Vec<Line>,
    lits: Vec<u32>,
    hints: Vec<u32>,
    /// For each variable that has a value without a decision the id of the clause that has only its literal.
    units: Vec<u32>,
    /// So many of the literals that are true without a decision have such a clause.
    noted: usize,
    /// For each variable the last line at whose hints it was met.
    met: Vec<u32>,
    /// Places of the trail with the reasons there.
    reasons: Vec<u64>,
}

impl Record {
    pub fn new(alloc: Global, given: u32, variables: usize) -> Result<Record, AllocError> {
        Ok(Record {
            given,
            lines: Vec::new(alloc),
            lits: Vec::new(alloc),
            hints: Vec::new(alloc),
            units: vec![in alloc; 0; variables]?,
            noted: 0,
            met: vec![in alloc; 0; variables]?,
            reasons: Vec::new(alloc),
        })
    }

    /// How many clauses were given.
    pub fn given(&self) -> u32 {
        self.given
    }

    /// How many lines there are.
    pub fn len(&self) -> usize {
        self.lines.len()
    }

    /// The id of the next line.
    pub fn next_id(&self) -> u32 {
        self.given
            .saturating_add(count_of(self.lines.len()))
            .saturating_add(1)
    }

    /// Whether hardly a number is left for an id.
    pub fn is_full(&self) -> bool {
        self.next_id() > u32::MAX / 2
    }

    /// The literals of a line.
    pub fn lits(&self, line: usize) -> &[u32] {
        let next = line.saturating_add(1);
        let end = if next < self.lines.len() {
            self.lines[next].lits
        } else {
            self.lits.len()
        };
        if line < self.lines.len() && self.lines[line].lits <= end && end <= self.lits.len() {
            &self.lits[self.lines[line].lits..end]
        } else {
            &[]
        }
    }

    /// The hints of a line.
    pub fn hints(&self, line: usize) -> &[u32] {
        let next = line.saturating_add(1);
        let end = if next < self.lines.len() {
            self.lines[next].hints
        } else {
            self.hints.len()
        };
        if line < self.lines.len() && self.lines[line].hints <= end && end <= self.hints.len() {
            &self.hints[self.lines[line].hints..end]
        } else {
            &[]
        }
    }

    /// The number of the line whose clause has the id, unless it was given.
    pub fn line_of(&self, id: u32) -> Option<usize> {
        if id > self.given {
            Some((id - self.given - 1) as usize)
        } else {
            None
        }
    }

    /// Begins the next line; the hints that are told next are its own.
    pub fn begin_line(&mut self, lits: &[u32]) -> Result<(), AllocError> {
        self.lines.push(Line {
            lits: self.lits.len(),
            hints: self.hints.len(),
        })?;
        self.lits.extend_from_slice(lits)
    }

    /// The literals of a clause that are false without a decision are told by the clauses that have only their negations.
    pub fn tell_fixed(&mut self, lits: &[u32], assignment: &Assignment) -> Result<(), AllocError> {
        let turn = count_of(self.lines.len());
        for lit in lits {
            let variable = variable_of(*lit);
            if assignment.origin(variable).level != 0
                || !assignment.is_false(*lit)
                || at(&self.met, variable) == turn
            {
                continue;
            }
            put(self.met.as_mut_slice(), variable, turn);
            let unit = at(&self.units, variable);
            if unit != 0 {
                self.hints.push(unit)?;
            }
        }
        Ok(())
    }

    /// A hint of the line.
    pub fn tell(&mut self, id: u32) -> Result<(), AllocError> {
        self.hints.push(id)?;
        Ok(())
    }

    /// A line for a literal that a longer clause made true without a decision.
    fn note_unit(
        &mut self,
        arena: &Arena,
        assignment: &Assignment,
        lit: u32,
    ) -> Result<(), AllocError> {
        let variable = variable_of(lit);
        let reason = assignment.origin(variable).reason;
        if arena.all_lits(reason).len() < 2 {
            put(self.units.as_mut_slice(), variable, arena.id(reason));
            return Ok(());
        }
        let id = self.next_id();
        self.begin_line(&[lit])?;
        self.tell_fixed(arena.all_lits(reason), assignment)?;
        self.hints.push(arena.id(reason))?;
        put(self.units.as_mut_slice(), variable, id);
        Ok(())
    }

    /// Lines for all literals that became true without a decision since the last call.
    pub fn note_units(&mut self, arena: &Arena, assignment: &Assignment) -> Result<(), AllocError> {
        for place in self.noted..assignment.fixed.len() {
            self.note_unit(arena, assignment, at(&assignment.fixed, place))?;
        }
        self.noted = assignment.fixed.len();
        Ok(())
    }

    /// Hints that lead to the conflict at a clause by the reasons of the variables that were used.
    fn tell_way(
        &mut self,
        arena: &Arena,
        assignment: &Assignment,
        used: &[u32],
        conflict: u32,
    ) -> Result<(), AllocError> {
        self.reasons.clear();
        self.tell_fixed(arena.all_lits(conflict), assignment)?;
        for variable in used {
            let origin = assignment.origin(*variable as usize);
            self.tell_fixed(arena.all_lits(origin.reason), assignment)?;
            self.reasons
                .push(origin.place as u64 * 4294967296 + origin.reason as u64)?;
        }
        self.reasons.sort_unstable();
        for reason in &self.reasons {
            self.hints.push(arena.id((*reason % 4294967296) as u32))?;
        }
        self.hints.push(arena.id(conflict))?;
        Ok(())
    }

    /// A line for a learned clause.
    pub fn note(
        &mut self,
        arena: &Arena,
        assignment: &Assignment,
        used: &[u32],
        conflict: u32,
        lits: &[u32],
    ) -> Result<(), AllocError> {
        self.begin_line(lits)?;
        self.tell_way(arena, assignment, used, conflict)
    }

    /// The last line, for a conflict without a decision.
    pub fn finish(
        &mut self,
        arena: &Arena,
        assignment: &Assignment,
        conflict: u32,
    ) -> Result<(), AllocError> {
        self.begin_line(&[])?;
        self.tell_fixed(arena.all_lits(conflict), assignment)?;
        self.hints.push(arena.id(conflict))?;
        Ok(())
    }
}
