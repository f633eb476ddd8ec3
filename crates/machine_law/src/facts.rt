//! What is told of an instruction without a state.

/// The static successors of an instruction: whether it can go on to the next address, the target of its direct jump, whether it can jump to an address that the
/// state gives, and whether its jump is a call.
#[derive(Clone, Copy)]
pub struct Succ {
    pub next: bool,
    pub direct: Option<u32>,
    pub indirect: bool,
    pub call: bool,
}

/// The price of an instruction's point, and how many bytes it loads and stores.
#[derive(Clone, Copy)]
pub struct Cost {
    pub row: u64,
    pub loads: u64,
    pub stores: u64,
}

/// The flags that an instruction reads, those that it may assign, and those that it assigns whatever the state is, each as N 8, Z 4, C 2 and V 1.
#[derive(Clone, Copy)]
pub struct FlagUse {
    pub reads: u8,
    pub assigns: u8,
    pub surely: u8,
}
