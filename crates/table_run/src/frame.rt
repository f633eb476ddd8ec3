//! A frame that steps over contracts.
use crate::spans::Span;
use machine_law::Machine;
use notes_index::Index;
use notes_value::Contract;
use program_value::Program;

/// The contract whose frame is run, with the bytes that it may write, by the state in which its function began.
#[derive(Clone, Copy)]
pub(crate) struct Own<'a> {
    pub(crate) contract: &'a Contract,
    pub(crate) spans: &'a [Span],
}

/// A frame: a program with an index of its notes, the contracts that its calls step over, and its own contract, if it is that of one.
#[derive_where(Clone, Copy)]
pub(crate) struct CallFrame<'a, M: Machine> {
    pub(crate) program: Program<'a, M>,
    pub(crate) index: &'a Index,
    pub(crate) stepped: &'a [Contract],
    pub(crate) own: Option<Own<'a>>,
}
