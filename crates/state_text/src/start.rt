//! Endings that reports name.
use start_value::Start;

/// How a run fails.
#[derive(Clone, Copy, PartialEq, Eq, Debug)]
pub enum Event {
    /// An assert line of the notes, by its number, is false.
    AssertFails { line: u64 },
    /// The program counter is outside the code.
    FetchFails,
    /// The word is no instruction of the machine.
    NoRow,
    /// A halfword at an odd address.
    HalfwordFails,
    /// A store to the code.
    CodeWritten,
    /// The instruction raises an exception.
    Trapped,
    /// A jump to an address that is no multiple of 4.
    AlignFails,
    /// A jump that the notes do not allow.
    JumpFails,
    /// An ensure line of the notes, by its number, is false.
    EnsureFails { line: u64 },
}

/// How a segment of a frame fails, whose runs are cut at heads and step over contracts.
#[derive(Clone, Copy)]
pub enum FrameEvent {
    /// As a run of the tables may; an assert line that is no invariant.
    OfStep(Event),
    /// An invariant line of the notes, by its number, is false.
    InvariantFails { line: u64 },
}

/// The ending that a report names, with the address and the number of its step.
#[derive(Clone, Copy)]
pub enum NamedEnding {
    /// An event.
    FailsBy { event: Event, at: u32, step: u64 },
    /// One backward transfer more than `k`.
    UnknownBy { k: u64, at: u32, step: u64 },
}

/// A head state from which a run begins, and its choices.
#[derive(Drop)]
pub struct HeadStart {
    /// The address of the head.
    pub at: u32,
    /// The head state: its bytes are those of addresses whose byte the file does not keep. The choices are counted from the head's first step.
    pub start: Start,
    /// The addresses to which the calls at hand return, the outermost first.
    pub stack: Vec<u32>,
}

/// What a contract step is given, which a run makes in place of the calls of a contract's function.
#[derive(Drop)]
pub struct CallState {
    /// The number of the step.
    pub step: u64,
    /// The address of the contract.
    pub at: u32,
    /// The registers that the contract may change, in the machine's order.
    pub regs: Vec<u32>,
    /// The flags, as N 8, Z 4, C 2 and V 1; those that the contract may not change play no part.
    pub flags: u8,
    /// Bytes by their addresses.
    pub bytes: Vec<(u32, u8)>,
}

/// A start with the ending that its report names.
#[derive(Drop)]
pub struct StateText {
    pub named: NamedEnding,
    pub start: Start,
}
