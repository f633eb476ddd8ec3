//! Lists of nodes that are typed.

ghost use Rattle.term_spec.specs.Terms.{AreTyped};
ghost use Rattle.term_dag.specs.Nodes.{nodes_of};
ghost use Rattle.term_dag.specs.OneTyping.{AreTyped-prop};

use crate::Node;

/// Nodes, each over those before it and of the right widths.
#[derive(Clone, Copy)]
pub struct Nodes<'a> {
    pub list: &'a [Node],
    ghost typed: { AreTyped (nodes_of list.now) } by { AreTyped-prop (nodes_of list.now) },
}
