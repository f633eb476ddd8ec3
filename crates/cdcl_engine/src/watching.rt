//! Unit propagation by two watched literals for each clause, the first two.
use crate::arena::{Arena, HEAD, NO_CLAUSE};
use crate::assignment::Assignment;
use crate::cells::{at, negation};
use std::alloc::{AllocError, Global};
use std::mem::replace;

/// A clause that is watched, and one of its literals: where that one is true, the clause need not be looked at.
#[derive(Clone, Copy)]
struct Watch {
    clause: u32,
    blocker: u32,
}

/// For each literal the clauses that watch it.
#[derive(Drop)]
pub struct WatchLists {
    alloc: Global,
    lists: Vec<Vec<Watch>>,
    /// How many watches were looked at.
    pub visits: u64,
}

/// What becomes of a watch whose literal has become false.
enum Fate {
    /// It stays, with this literal as its blocker.
    Stays(u32),
    /// It goes to this literal, which is not false.
    Moves(u32),
    /// It stays, and this literal becomes true.
    Forces(u32),
    /// All literals of the clause are false.
    Conflict,
}

/// Looks for a literal that is not false in place of the one that has become so.
#[inline(always)]
fn examine(lits: &mut [u32], assignment: &Assignment, lit: u32) -> Fate {
    if lits.len() < 2 {
        return Fate::Stays(lit);
    }
    if lits[0] == lit {
        lits[0] = lits[1];
        lits[1] = lit;
    }
    let first = lits[0];
    if assignment.is_true(first) {
        return Fate::Stays(first);
    }
    for k in 2..lits.len() {
        let other = lits[k];
        if !assignment.is_false(other) {
            lits[1] = other;
            lits[k] = lit;
            return Fate::Moves(other);
        }
    }
    if assignment.is_false(first) {
        Fate::Conflict
    } else {
        Fate::Forces(first)
    }
}

/// As `examine`, for a clause by its name.
#[inline(always)]
fn examine_clause(arena: &mut Arena, assignment: &Assignment, clause: u32, lit: u32) -> Fate {
    let start = clause as usize + HEAD;
    let end = start + at(&arena.cells, clause as usize) as usize;
    if end > arena.cells.len() {
        return Fate::Stays(lit);
    }
    let cells = arena.cells.as_mut_slice();
    examine(&mut cells[start..end], assignment, lit)
}

/// The greatest level of the literals of a clause after the first.
fn greatest_level(lits: &[u32], assignment: &Assignment) -> u32 {
    let mut level = 0;
    for (place, lit) in lits.iter().enumerate() {
        if place > 0 {
            level = level.max(assignment.level_of(*lit));
        }
    }
    level
}

/// The level at which the first literal of a clause follows from the others.
#[inline(always)]
fn implied_level(arena: &Arena, assignment: &Assignment, clause: u32) -> u32 {
    if assignment.is_mixed() {
        greatest_level(arena.lits(clause), assignment)
    } else {
        assignment.level()
    }
}

impl WatchLists {
    /// No watches, for so many variables.
    pub fn new(alloc: Global, variables: usize) -> Result<WatchLists, AllocError> {
        let size = variables.saturating_mul(2);
        let mut lists = Vec::with_capacity(alloc, size)?;
        for _ in 0..size {
            lists.push(Vec::new(alloc))?;
        }
        Ok(WatchLists {
            alloc,
            lists,
            visits: 0,
        })
    }

    /// No watches, with room for so many at each literal.
    pub fn with_room(alloc: Global, counts: &[u32]) -> Result<WatchLists, AllocError> {
        let mut lists = Vec::with_capacity(alloc, counts.len())?;
        for count in counts {
            lists.push(Vec::with_capacity(alloc, *count as usize)?)?;
        }
        Ok(WatchLists {
            alloc,
            lists,
            visits: 0,
        })
    }

    fn push(&mut self, lit: u32, watch: Watch) -> Result<(), AllocError> {
        let place = lit as usize;
        if place < self.lists.len() {
            self.lists[place].push(watch)?;
        }
        Ok(())
    }

    /// Watches two literals of a clause.
    pub fn attach(&mut self, clause: u32, first: u32, second: u32) -> Result<(), AllocError> {
        self.push(
            first,
            Watch {
                clause,
                blocker: second,
            },
        )?;
        self.push(
            second,
            Watch {
                clause,
                blocker: first,
            },
        )
    }

    /// Ends the watch of a literal on a clause.
    pub fn detach(&mut self, clause: u32, lit: u32) {
        let place = lit as usize;
        if place >= self.lists.len() {
            return;
        }
        for i in 0..self.lists[place].len() {
            if i < self.lists[place].len() && self.lists[place][i].clause == clause {
                let _ = self.lists[place].swap_remove(i);
                break;
            }
        }
    }

    /// How many lists there are.
    pub fn len(&self) -> usize {
        self.lists.len()
    }

    /// How many clauses watch a literal.
    pub fn count(&self, place: usize) -> usize {
        if place < self.lists.len() {
            self.lists[place].len()
        } else {
            0
        }
    }

    /// A clause that watches a literal.
    pub fn clause(&self, place: usize, index: usize) -> u32 {
        if place < self.lists.len() && index < self.lists[place].len() {
            self.lists[place][index].clause
        } else {
            NO_CLAUSE
        }
    }

    /// The literal that follows from another by the clause of two literals at a place of its list, and that clause.
    pub fn implied(&self, arena: &Arena, lit: u32, index: usize) -> Option<(u32, u32)> {
        let place = negation(lit) as usize;
        if place < self.lists.len() && index < self.lists[place].len() {
            let clause = self.lists[place][index].clause;
            if let [first, second] = arena.lits(clause) {
                let other = if *first == negation(lit) {
                    *second
                } else {
                    *first
                };
                return Some((other, clause));
            }
        }
        None
    }

    /// Whether a literal stands in a clause of two literals.
    pub fn has_pair(&self, arena: &Arena, place: usize) -> bool {
        if place < self.lists.len() {
            for watch in &self.lists[place] {
                if arena.len(watch.clause) == 2 {
                    return true;
                }
            }
        }
        false
    }

    /// Ends all watches.
    pub fn clear(&mut self) {
        for place in 0..self.lists.len() {
            if place < self.lists.len() {
                self.lists[place] = Vec::new(self.alloc);
            }
        }
    }

    /// Ends the watches on deleted clauses.
    pub fn drop_deleted(&mut self, arena: &Arena) {
        for list in &mut self.lists {
            let mut kept: usize = 0;
            for i in 0..list.len() {
                if i < list.len() && kept < list.len() && !arena.is_deleted(list[i].clause) {
                    list[kept] = list[i];
                    kept += 1;
                }
            }
            list.truncate(kept);
        }
    }

    /// Moves the clauses that are watched to other cells, in the order of the watches.
    pub fn move_clauses(
        &mut self,
        arena: &mut Arena,
        target: &mut Vec<u32>,
    ) -> Result<(), AllocError> {
        for list in &mut self.lists {
            for watch in list {
                watch.clause = arena.move_to(watch.clause, target)?;
            }
        }
        Ok(())
    }

    /// Goes through the watches of a literal that has become false, and gives the clause whose literals are all false, if it comes to one.
    fn sweep(
        &mut self,
        arena: &mut Arena,
        assignment: &mut Assignment,
        lit: u32,
        list: &mut Vec<Watch>,
    ) -> Result<Option<u32>, AllocError> {
        let mut kept: usize = 0;
        let mut conflict = None;
        for i in 0..list.len() {
            if i >= list.len() {
                break;
            }
            let mut watch = list[i];
            if conflict.is_none() && !assignment.is_true(watch.blocker) {
                match examine_clause(arena, assignment, watch.clause, lit) {
                    Fate::Stays(blocker) => watch.blocker = blocker,
                    Fate::Moves(other) => {
                        self.push(other, watch)?;
                        continue;
                    }
                    Fate::Forces(first) => {
                        watch.blocker = first;
                        let level = implied_level(arena, assignment, watch.clause);
                        assignment.assign_at(first, watch.clause, level)?;
                    }
                    Fate::Conflict => conflict = Some(watch.clause),
                }
            }
            if kept < list.len() {
                list[kept] = watch;
            }
            kept = kept.saturating_add(1);
        }
        list.truncate(kept);
        Ok(conflict)
    }

    /// Visits the watches of a literal that has become false.
    fn visit(
        &mut self,
        arena: &mut Arena,
        assignment: &mut Assignment,
        lit: u32,
    ) -> Result<Option<u32>, AllocError> {
        let place = lit as usize;
        if place >= self.lists.len() {
            return Ok(None);
        }
        let mut list = replace(&mut self.lists[place], Vec::new(self.alloc));
        self.visits = self.visits.saturating_add(list.len() as u64);
        let conflict = self.sweep(arena, assignment, lit, &mut list)?;
        if place < self.lists.len() {
            self.lists[place] = list;
        }
        Ok(conflict)
    }

    /// Makes true what follows, until a clause is false, which is the answer, or nothing more follows.
    pub fn propagate(
        &mut self,
        arena: &mut Arena,
        assignment: &mut Assignment,
    ) -> Result<Option<u32>, AllocError> {
        for _ in 0..=assignment.variables() {
            let place = assignment.visited;
            if place >= assignment.trail.len() {
                break;
            }
            let lit = negation(assignment.trail[place]);
            assignment.visited = place + 1;
            if let Some(clause) = self.visit(arena, assignment, lit)? {
                return Ok(Some(clause));
            }
        }
        Ok(None)
    }
}
