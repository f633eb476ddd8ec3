//! What a list has come to.

use term_dag::Term;
use term_names::Names;

/// What a list has come to, in a run that may not come by.
#[derive(Drop)]
pub struct Run {
    pub names: Names,
    /// Whether it jumped, 1 bit.
    pub jumped: Term,
    /// Where to, 32 bits.
    pub target: Term,
    /// Whether the run comes by, and has raised no exception, 1 bit.
    pub live: Term,
}

/// The two words of 1 bit.
#[derive(Clone, Copy)]
pub struct Bits {
    pub zero: Term,
    pub one: Term,
}
