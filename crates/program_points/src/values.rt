//! Points and stacks as values.
ghost use Rattle.std.specs.Prelude.{◌≡◌};

use crate::stacks::Stacks;
use std::alloc::AllocError;
use thiserror::Error;

/// A point of a program: how many backward transfers were made, its stack by number, and its address.
#[derive(Clone, Copy)]
pub struct Point {
    pub turns: u64,
    pub stack: usize,
    pub at: u32,
}

/// Where the runs of a frame of contracts are cut: at its heads. And the addresses of the contracts that its calls step over.
#[derive(Clone, Copy)]
pub struct Cuts<'a> {
    pub heads: &'a [u32],
    pub stepped: &'a [u32],
}

/// Where a segment begins that does not begin at the entry: at a head, with a stack by number.
#[derive(Clone, Copy)]
pub struct Root {
    pub stack: usize,
    pub at: u32,
}

/// A point of a frame of contracts: where its segment begins, none at the entry; how many backward transfers were made since; whether a contract step is made
/// there, in place of the row; its stack by number, and its address.
#[derive(Clone, Copy)]
pub struct FramePoint {
    pub root: Option<Root>,
    pub turns: u64,
    pub contract: bool,
    pub stack: usize,
    pub at: u32,
}

/// A stack that is not empty: its top, and the number of the stack below.
#[derive(Clone, Copy)]
pub struct Frame {
    pub top: u32,
    pub below: usize,
}

/// Where an edge of a point leads, if not to the exit: to an address, with a stack by number.
#[derive(Clone, Copy, PartialEq, Eq, Debug)]
pub struct End {
    pub stack: usize,
    pub at: u32,
}

/// The points of a program. Stack 0 is empty; stack i + 1 is frame i. Equal stacks have equal numbers.
#[derive(Drop)]
pub struct Points {
    pub stacks: Stacks,
    pub points: Vec<Point>,
}

/// The points of a frame of contracts. Stack 0 is empty; stack i + 1 is frame i. Equal stacks have equal numbers.
#[derive(Drop)]
pub struct FramePoints {
    pub stacks: Stacks,
    pub points: Vec<FramePoint>,
}

/// Why there is no list of points.
#[derive(Clone, Copy, PartialEq, Eq, Debug, Error)]
pub enum PointsFault {
    /// There are more points than may be listed.
    #[error("there are more points than may be listed: {count} were found")]
    TooMany { count: u64 },
    /// Memory ran out.
    #[error("out of memory")]
    Memory,
}

impl From<AllocError> for PointsFault {
    ghost use Rattle.program_points.specs.declared.values.PointsFault.{PointsFault};

    ghost from_gives = { λ _ e. e ≡ PointsFault.Memory };

    fn from(_: AllocError) -> PointsFault {
        PointsFault::Memory
    }
}
