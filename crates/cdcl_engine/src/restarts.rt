//! When the search begins again: where the clauses that were learned last are over more levels than those learned before.

/// The fewest conflicts between two restarts.
const LEAST_PAUSE: u64 = 50;

/// One level, in the parts in which the moving mean is kept.
const PART: u64 = 1 << 32;

/// The means of the numbers of levels.
#[derive(Clone, Copy)]
pub struct Restarts {
    /// The moving mean over some 32 conflicts.
    recent: u64,
    /// The sum over all conflicts.
    sum: u64,
    conflicts: u64,
    /// How many conflicts there were at the last restart.
    last: u64,
}

impl Restarts {
    pub fn new() -> Restarts {
        Restarts {
            recent: 0,
            sum: 0,
            conflicts: 0,
            last: 0,
        }
    }

    /// Counts a conflict whose clause has literals of so many levels.
    pub fn count(&mut self, levels: u32) {
        let parts = (levels as u64).saturating_mul(PART);
        self.recent = (self.recent - self.recent / 32).saturating_add(parts / 32);
        self.sum = self.sum.saturating_add(levels as u64);
        self.conflicts = self.conflicts.saturating_add(1);
    }

    /// Whether the search is to begin again: the moving mean is a tenth above the whole one.
    pub fn is_due(&self) -> bool {
        if self.conflicts < self.last.saturating_add(LEAST_PAUSE) {
            return false;
        }
        let recent = (self.recent / 65536).saturating_mul(self.conflicts);
        let whole = self.sum.saturating_mul(65536);
        recent.saturating_mul(10) > whole.saturating_mul(11)
    }

    /// The search begins again.
    pub fn begin(&mut self) {
        self.last = self.conflicts;
    }
}
