//! A step of a run, as it is seen.

/// What a step is.
#[derive(Clone, Copy, PartialEq, Eq, Debug)]
pub enum StepKind {
    /// That of a row.
    Row,
    /// A step over a contract.
    Contract,
    /// An arrival at a head, which is judged and changes nothing.
    Arrival,
}

/// A register or a flag by its number (of flags N is 3, Z 2, C 1 and V 0), or a byte by its address, with the values that it has before a step and after it.
#[derive(Clone, Copy, PartialEq, Eq, Debug)]
pub struct Change {
    pub place: u32,
    pub old: u32,
    pub new: u32,
}

/// A step of a run.
#[derive(Drop)]
pub struct SeenStep {
    /// Its number, from 0 on.
    pub number: u64,
    pub kind: StepKind,
    /// The address at which it is made.
    pub at: u32,
    /// The address of the state that it leaves.
    pub to: u32,
    /// How many calls have not returned before it.
    pub depth: usize,
    /// How many have not after it.
    pub later: usize,
    /// The first address and the number of the bytes that its row stores.
    pub stored: Option<(u32, u8)>,
    /// The registers that it changes, by their numbers.
    pub regs: Vec<Change>,
    /// The flags that it changes, by their numbers.
    pub flags: Vec<Change>,
    /// The bytes that it changes: those that its row stores, or that its contract may write, in the order in which these are said.
    pub bytes: Vec<Change>,
}
