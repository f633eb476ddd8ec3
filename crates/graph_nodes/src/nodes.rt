//! The addresses of a graph.
use machine_law::FlagUse;

/// How an address leads to a successor. The order of the letters is that in which successors of one address stand.
#[derive(Clone, Copy, PartialEq, Eq)]
pub enum Letter {
    /// The next address.
    Next,
    /// The target of a jump that is no call.
    Jump,
    /// The target of a call.
    Call,
    /// The address behind a call, to which it returns.
    Return,
}

/// An address that another leads to.
#[derive(Clone, Copy)]
pub struct Successor {
    pub letter: Letter,
    pub to: u32,
}

/// An address of a graph. Sets of flags are N 8, Z 4, C 2 and V 1.
#[derive(Drop)]
pub struct Node {
    pub at: u32,
    /// How many bytes the row has, 2 or 4; 4 where there is no row.
    pub length: u8,
    /// The bytes from the address on are loaded and executable: two where they are those of a row of 2 bytes, and else four.
    pub fetchable: bool,
    /// What is decoded there of the file's bytes, where it may be fetched and the table has a row for it.
    pub word: Option<u32>,
    /// The successors by rising addresses, and at one address in the order of their letters; none stands twice, and a row can stand at each.
    pub successors: Vec<Successor>,
    /// The row may return or exit.
    pub returns: bool,
    /// The row keeps the address after it in the link register where it calls.
    pub links: bool,
    /// The flags that the row reads, may assign and surely assigns; where there is no row, none, none and all.
    pub flags: FlagUse,
    /// The flags that assert lines of the address name outside `old`.
    pub asserted: u8,
    /// The flags whose assignment by the row stays.
    pub keeps: u8,
}

/// The flow graph of a program.
#[derive(Drop)]
pub struct Graph {
    /// Some rows of the machine have 2 bytes.
    pub narrow: bool,
    /// The addresses, rising.
    pub nodes: Vec<Node>,
    /// The flags that ensure lines name outside `old`.
    pub ensured: u8,
}
