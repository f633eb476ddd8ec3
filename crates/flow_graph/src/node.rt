//! The node of an address.
ghost use Rattle.std.specs.Prelude.{◌≡◌, ◌&&◌, not, IfOk};
ghost use Rattle.notes_index.specs.Indexed.{AreIndexed};
ghost use Rattle.graph_nodes.specs.Graphs.{IsNode};
ghost use Rattle.program_value.specs.Programs.{program_of};

use crate::flags::asserted;
use crate::rows::{is_fetchable, row, word};
use crate::successors::successors;
use graph_nodes::Node;
use machine_law::{FlagUse, Machine, Succ, length};
use notes_index::Index;
use program_value::Program;
use std::alloc::{AllocError, Global};

/// The flags of an address without a row: a run does not go on behind it.
const NO_ROW: FlagUse = FlagUse {
    reads: 0,
    assigns: 0,
    surely: 15,
};

/// The row whose ways on these are may return or exit.
fn may_return(ways: Succ) -> bool
    ensures { result ≡ (ways.indirect && not ways.call) }
{
    ways.indirect && !ways.call
}

/// The node of an address, where each assignment of a flag stays. The error is want of memory.
pub(crate) fn node<M: Machine>(
    alloc: Global,
    p: &Program<M>,
    index: &Index,
    at: u32,
) -> Result<Node, AllocError>
    requires index { AreIndexed p.now.notes.now index.now }
    ensures at { IfOk result (λ n. n.at ≡ at) }
    ensures is { IfOk result (λ n. IsNode (program_of p.now) n) }
    ensures stay { IfOk result (λ n. n.keeps ≡ n.flags.assigns) }
{
    let word = word::<M>(p, at);
    let fetchable = is_fetchable::<M>(p, word, at);
    let asserted = asserted(&p.notes.asserts, &index.asserts, at);
    let insn = match row::<M>(p, at) {
        None => {
            return Ok(Node {
                at,
                length: 4,
                fetchable,
                word: None,
                successors: Vec::new(alloc),
                returns: false,
                links: false,
                flags: NO_ROW,
                asserted,
                keeps: 0,
            });
        }
        Some(insn) => insn,
    };
    let length = length::<M>(word);
    let ways = M::successors(&insn, at);
    let flags = M::flags(&insn);
    Ok(Node {
        at,
        length,
        fetchable,
        word: Some(word),
        successors: successors::<M>(alloc, p, index, &insn, at, length, ways)?,
        returns: may_return(ways),
        links: M::links(&insn),
        flags,
        asserted,
        keeps: flags.assigns,
    })
}
