//! Clauses, one after the other in one list of numbers.
use crate::cells::{at, count_of, put};
use std::alloc::{AllocError, Global};

/// No clause has this name.
pub const NO_CLAUSE: u32 = u32::MAX;

/// How many numbers stand before the literals of a clause: its length, its id and its tag.
pub const HEAD: usize = 3;

/// The tag of a clause that was moved; its id is its new name.
const MOVED: u32 = u32::MAX;

/// The tag of a deleted clause; its id is how many literals it had.
const DELETED: u32 = u32::MAX - 1;

/// The greatest number of levels that is told apart, and of literals that are cut off a clause.
const GREATEST_PART: u32 = 65534;

/// A clause is named by the place of its length. The first two literals are those that are watched. A clause of length 0 is deleted.
///
/// The tag has two parts: below 2^16 the number of levels of a learned clause, which is 0 for one that is always kept; and above, how many literals that are
/// false for good stand after the others, where only the log needs them.
#[derive(Drop)]
pub struct Arena {
    pub cells: Vec<u32>,
    /// A clause found no room, and was left out.
    pub is_full: bool,
}

impl Arena {
    /// No clauses.
    pub fn new(alloc: Global) -> Arena {
        Arena {
            cells: Vec::new(alloc),
            is_full: false,
        }
    }

    /// No clauses, with room for so many numbers.
    pub fn with_room(alloc: Global, cells: usize) -> Result<Arena, AllocError> {
        Ok(Arena {
            cells: Vec::with_capacity(alloc, cells.min(NO_CLAUSE as usize))?,
            is_full: false,
        })
    }

    /// Adds a clause, and answers its name. Where no number is left for it, it is left out.
    pub fn add(&mut self, id: u32, levels: u32, lits: &[u32]) -> Result<u32, AllocError> {
        let clause = count_of(self.cells.len());
        if count_of(self.cells.len().saturating_add(lits.len())) > NO_CLAUSE - 8 {
            self.is_full = true;
            return Ok(NO_CLAUSE);
        }
        self.cells.push(count_of(lits.len()))?;
        self.cells.push(id)?;
        self.cells.push(levels.min(GREATEST_PART))?;
        self.cells.extend_from_slice(lits)?;
        Ok(clause)
    }

    /// The length of a clause.
    #[inline(always)]
    pub fn len(&self, clause: u32) -> usize {
        at(&self.cells, clause as usize) as usize
    }

    /// The id of a clause.
    pub fn id(&self, clause: u32) -> u32 {
        at(&self.cells, clause as usize + 1)
    }

    fn tag(&self, clause: u32) -> u32 {
        at(&self.cells, clause as usize + 2)
    }

    fn set_tag(&mut self, clause: u32, tag: u32) {
        put(self.cells.as_mut_slice(), clause as usize + 2, tag);
    }

    /// How many levels the literals of a learned clause had; 0 for a clause that is always kept.
    pub fn levels(&self, clause: u32) -> u32 {
        self.tag(clause) % 65536
    }

    /// Writes the number of levels of a learned clause.
    pub fn set_levels(&mut self, clause: u32, levels: u32) {
        let cut = self.tag(clause) / 65536;
        self.set_tag(clause, (cut << 16) | levels.min(GREATEST_PART));
    }

    fn part(&self, start: usize, length: usize) -> &[u32] {
        let end = start.saturating_add(length);
        if start <= end && end <= self.cells.len() {
            &self.cells[start..end]
        } else {
            &[]
        }
    }

    /// The literals of a clause.
    #[inline]
    pub fn lits(&self, clause: u32) -> &[u32] {
        self.part(clause as usize + HEAD, self.len(clause))
    }

    /// The literals of a clause, and those that were cut off it.
    pub fn all_lits(&self, clause: u32) -> &[u32] {
        if self.is_deleted(clause) {
            return &[];
        }
        self.part(clause as usize + HEAD, self.size(clause))
    }

    /// Exchanges two literals of a clause.
    pub fn swap(&mut self, clause: u32, one: usize, other: usize) {
        let start = clause as usize + HEAD;
        let (first, second) = (start.saturating_add(one), start.saturating_add(other));
        if first < self.cells.len() && second < self.cells.len() {
            self.cells.swap(first, second);
        }
    }

    /// Cuts the last literal off a clause, if there is room to tell so.
    pub fn cut_last(&mut self, clause: u32) {
        let tag = self.tag(clause);
        let length = self.len(clause);
        if length > 0 && tag / 65536 < GREATEST_PART {
            self.set_tag(clause, tag + 65536);
            put(
                self.cells.as_mut_slice(),
                clause as usize,
                count_of(length - 1),
            );
        }
    }

    /// Deletes a clause. Its place is left when the others are moved.
    pub fn delete(&mut self, clause: u32) {
        if self.tag(clause) != DELETED {
            let size = self.size(clause);
            let cells = self.cells.as_mut_slice();
            put(cells, clause as usize, 0);
            put(cells, clause as usize + 1, count_of(size));
            put(cells, clause as usize + 2, DELETED);
        }
    }

    /// How many literals stand at a clause, those that were cut off and those of a deleted clause among them.
    fn size(&self, clause: u32) -> usize {
        if self.tag(clause) == DELETED {
            return self.id(clause) as usize;
        }
        self.len(clause)
            .saturating_add((self.tag(clause) / 65536) as usize)
    }

    /// All clauses that are not deleted, in their order.
    pub fn all(&self, alloc: Global) -> Result<Vec<u32>, AllocError> {
        let mut clauses = Vec::new(alloc);
        let mut place: usize = 0;
        for _ in 0..self.cells.len() {
            if place >= self.cells.len() {
                break;
            }
            let clause = count_of(place);
            if self.tag(clause) != DELETED {
                clauses.push(clause)?;
            }
            place = place.saturating_add(HEAD).saturating_add(self.size(clause));
        }
        Ok(clauses)
    }

    /// Whether a clause is deleted.
    pub fn is_deleted(&self, clause: u32) -> bool {
        self.len(clause) == 0
    }

    /// Copies a clause to the end of other cells, unless that was done before, and answers its name there.
    pub fn move_to(&mut self, clause: u32, target: &mut Vec<u32>) -> Result<u32, AllocError> {
        if self.tag(clause) == MOVED {
            return Ok(self.id(clause));
        }
        let name = count_of(target.len());
        target.push(count_of(self.len(clause)))?;
        target.push(self.id(clause))?;
        target.push(self.tag(clause))?;
        target.extend_from_slice(self.all_lits(clause))?;
        self.set_tag(clause, MOVED);
        put(self.cells.as_mut_slice(), clause as usize + 1, name);
        Ok(name)
    }
}
