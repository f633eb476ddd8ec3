//! Budgets: what each may be, and what it is where none is given.
ghost use Rattle.call_spec.specs.Calls as calls;

/// The whole numbers that a budget may be, and the one that it is where none is given.
#[derive(Clone, Copy)]
pub struct Range {
    /// The lowest.
    pub low: u64,
    /// The highest.
    pub high: u64,
    /// The one where none is given.
    pub standard: u64,
    /// The same, as a command line has it.
    pub written: &'static str,
}

/// The backward transfers of a run.
pub const UNROLL: Range = Range {
    low: 0,
    high: 4096,
    standard: 64,
    written: "64",
};

/// The points of an unrolled program.
pub const POINTS: Range = Range {
    low: 1,
    high: 16_777_216,
    standard: 65_536,
    written: "65536",
};

/// The price of an unrolled program.
pub const SIZE: Range = Range {
    low: 1,
    high: 1 << 62,
    standard: 1_073_741_824,
    written: "1073741824",
};

/// The conflicts of the search for each question.
pub const CONFLICTS: Range = Range {
    low: 1,
    high: 4_294_967_295,
    standard: 200_000,
    written: "200000",
};

/// How much work a call may do, each number in its range.
#[derive(Clone, Copy)]
pub struct Budget {
    /// Backward transfers of a run, in `UNROLL`.
    pub unroll: u64,
    /// Points of the unrolled program, in `POINTS`.
    pub points: u64,
    /// The price of the unrolled program, in `SIZE`.
    pub size: u64,
    /// Conflicts of the search for each question, in `CONFLICTS`.
    pub conflicts: u64,
    pub ghost in_range: { calls.IsBudget (record { unroll = unroll; points = points; size = size; conflicts = conflicts }) },
}

impl Budget {
    ghost use Rattle.std.specs.Prelude.{◌≡◌, ◌≤◌};
    ghost use Rattle.call_form.specs.Views.{budget_of};

    /// The budget where none is given.
    pub fn standard() -> Budget
        ensures { budget_of result ≡ calls.default_budget }
    {
        Budget {
            unroll: UNROLL.standard,
            points: POINTS.standard,
            size: SIZE.standard,
            conflicts: CONFLICTS.standard,
        }
    }

    /// The budget with so many backward transfers, no more than it has.
    pub fn with_unroll(self, unroll: u64) -> Budget
        requires { unroll ≤ self.unroll }
        ensures { budget_of result ≡ record (budget_of self) { unroll = unroll } }
    {
        Budget {
            unroll,
            points: self.points,
            size: self.size,
            conflicts: self.conflicts,
        }
    }

    /// The budget with so many points, at least one and no more than it has.
    pub fn with_points(self, points: u64) -> Budget
        requires some { 1 ≤ points }
        requires few { points ≤ self.points }
        ensures { budget_of result ≡ record (budget_of self) { points = points } }
    {
        Budget {
            unroll: self.unroll,
            points,
            size: self.size,
            conflicts: self.conflicts,
        }
    }
}
