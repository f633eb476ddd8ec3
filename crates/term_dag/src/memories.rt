//! Folds of loads.

ghost use Rattle.std.specs.Prelude.{◌≡◌};
ghost use Rattle.word_spec.specs.Memory.{endian};
ghost use Rattle.term_spec.specs.Terms.{LoadNode, HasWidth, IsBytes};
ghost use Rattle.term_dag.specs.Lists.{terms};
ghost use Rattle.term_dag.specs.Folds.{IsFold};

use crate::folds::{Folded, look};
use crate::typed::Nodes;
use crate::{Node, Term};

/// The bytes at an address of a memory: of a store of just these bytes, what was stored.
pub fn load(nodes: &Nodes, bytes: u8, big: bool, memory: Term, address: Term) -> Folded
    requires some { IsBytes bytes }
    requires memory { HasWidth (terms nodes.now) 0 memory.0 }
    requires address { HasWidth (terms nodes.now) 32 address.0 }
    ensures { IsFold (terms nodes.now) (LoadNode bytes (endian big) memory.0 address.0) result }
{
    if let Node::Store {
        bytes: stored,
        big: order,
        address: at,
        value,
        ..
    } = look(nodes, memory)
    {
        if stored == bytes && order == big && at.0 == address.0 {
            return Folded::Old(value);
        }
    }
    Folded::New(Node::Load {
        bytes,
        big,
        memory,
        address,
    })
}
