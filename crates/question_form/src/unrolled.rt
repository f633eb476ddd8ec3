//! The unrolled program.
ghost use Rattle.std.specs.Prelude.{◌≡◌, slice_index_or};
ghost use Rattle.question_form.specs.Views.{no_code};

use bil_ast::Stmt;
use known_bytes::Known;
use notes_value::{Contract, Notes};
use program_points::Frame;
use start_value::Layout;

/// Where an edge leads.
#[derive(Clone, Copy)]
pub enum Aim {
    /// On to the point of a place.
    OnTo(u32),
    /// To a head, where the segment ends, and the head's part of the assert lines by address: from the first number up to the second, which is not in it.
    IntoHead { at: u32, asserts: (usize, usize) },
    /// Out of the function.
    Outward,
    /// Over the last backward transfer that is counted.
    OverLast,
}

/// An edge of a point.
#[derive(Clone, Copy)]
pub struct Edge {
    /// The point may go on to the address without a jump.
    pub falls: bool,
    /// The point may jump to the address.
    pub jumps: bool,
    /// The address; none stands for the value that the link register has at entry.
    pub to: Option<u32>,
    pub aim: Aim,
}

/// What stands at an address, once for all its points.
#[derive(Drop)]
pub struct Code {
    pub at: u32,
    /// How many bytes the row has, 2 or 4; 4 where there is no row.
    pub length: u8,
    /// The bytes from the address on are loaded and executable: two where they are those of a row of 2 bytes, and else four.
    pub fetchable: bool,
    /// What the row of the address does; none where there is no row.
    pub list: Option<Vec<Stmt>>,
    /// The row reads the choice.
    pub draws: bool,
    /// The price of a point here.
    pub row: u64,
    /// How many bytes a point here loads, as far as the price counts them.
    pub loads: u64,
    /// How many bytes a point here stores.
    pub stores: u64,
    /// The address's part of the assert lines by address: from the first number up to the second, which is not in it.
    pub asserts: (usize, usize),
}

/// What is done at a point.
#[derive(Clone, Copy)]
pub enum Deed {
    /// What the row of its address does.
    Row,
    /// The entry's segment ends, since the entry is a head: the assert lines of the address are judged, and nothing is done.
    Arrival,
    /// The call of a contract's function is stepped over, by the contract's number among those that are stepped over: what the contract needs is judged, and
    /// what it may change is taken from what is given.
    Contract(usize),
}

/// A point: the number of the root of its segment, how many backward transfers were made, its stack by number, and the place of its code. Its edges begin at a
/// place and end where the next point's begin.
#[derive(Clone, Copy)]
pub struct Point {
    pub root: u32,
    pub turns: u32,
    pub code: u32,
    pub stack: usize,
    pub deed: Deed,
    pub edges: usize,
}

/// Where a segment begins: the place of its first point, and the head with its stack, none at the entry.
#[derive(Clone, Copy)]
pub struct Root {
    pub place: u32,
    pub head: Option<program_points::Root>,
    /// The part of the assert lines by address whose invariants are assumed there: the head's, and of no line at the entry.
    pub asserts: (usize, usize),
}

/// An unrolled program, or an unrolled frame, which is cut at its heads and steps over the calls of some contracts: its points in an order in which every edge to
/// a point leads to a later one of the same root, the entry's first, with what is done at each and how it is left.
#[derive(Drop)]
pub struct Unrolled<'a> {
    /// The form of states.
    pub form: Layout,
    /// The byte order of the machine is big.
    pub big: bool,
    /// Some rows of the machine have 2 bytes.
    pub narrow: bool,
    /// The number of the link register.
    pub link: u8,
    /// The address of the function.
    pub entry: u32,
    pub notes: &'a Notes,
    /// The numbers of the lines that are invariants, rising.
    pub invariants: &'a [u32],
    /// There is a head: an invariant is at some address.
    pub heads: bool,
    /// The contracts that calls step over, in the order of their ranks.
    pub stepped: &'a [Contract],
    /// The contract whose frame it is, which is judged where it is left; none in the frame of the function. The notes are the frame's: of a contract's frame they
    /// require what the contract needs, and ensure nothing.
    pub own: Option<&'a Contract>,
    /// The address and the place of each assert line, by rising addresses, and of one address in their order.
    pub asserts: Vec<(u32, usize)>,
    /// The runs of kept addresses, rising, both ends included.
    pub kept: &'a [(u32, u32)],
    /// The known bytes.
    pub known: Vec<Known<'a>>,
    /// The addresses of kept words whose load by a row costs nothing.
    pub literals: Vec<u32>,
    /// Stack 0 is empty; stack i + 1 is frame i.
    pub frames: Vec<Frame>,
    /// The entry's root is the first.
    pub roots: Vec<Root>,
    pub codes: Vec<Code>,
    pub points: Vec<Point>,
    pub edges: Vec<Edge>,
}

impl<'a> Unrolled<'a> {
    /// Whether the row of a code reads the choice; there is nothing after the last code.
    pub fn draws(&self, code: u32) -> bool
        ensures { result ≡ (slice_index_or self.now.codes.items code no_code).draws }
    {
        let place = code as usize;
        if place < self.codes.len() {
            self.codes[place].draws
        } else {
            false
        }
    }
}
