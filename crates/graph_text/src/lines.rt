//! The line of a node, and the text of a graph.
ghost use Rattle.std.specs.Prelude.{◌≡◌, ◌++◌, OnOk, IfOk};
ghost use Rattle.std.specs.List.{flat_map};
ghost use Rattle.bilv_spec.specs.Run.{Program};
ghost use Rattle.word_spec.specs.Texts.{spaced};
ghost use Rattle.bilv_spec.specs.GraphText.{graph_line, IsGraphText};
ghost use Rattle.graph_nodes.specs.Graphs.{has_flag, IsGraph, LiveStay};
ghost use Rattle.graph_text.specs.NodeText.{known_words, words_of, node_line};

use crate::words::{push_if, push_kept, push_successors};
use graph_nodes::{Graph, Node};
use state_text::{push_text, push_word};
use std::alloc::{AllocError, Global};

/// Appends the words of a node that has a row.
fn push_row(out: &mut Vec<u8>, node: &Node) -> Result<(), AllocError>
    ensures { OnOk result (out.new.items ≡ out.old.items ++ spaced (known_words node.now)) }
{
    push_successors(out, &node.successors)?;
    push_if(out, node.returns, b"x")?;
    push_kept(out, node.keeps)?;
    Ok(())
}

/// Appends what stands behind the address of a node.
fn push_words(out: &mut Vec<u8>, node: &Node) -> Result<(), AllocError>
    ensures { OnOk result (out.new.items ≡ out.old.items ++ spaced (words_of node.now)) }
{
    if node.word.is_some() {
        return push_row(out, node);
    }
    if node.fetchable {
        push_text(out, b" norow")
    } else {
        push_text(out, b" fetch")
    }
}

/// Appends the line of a node.
fn push_line(out: &mut Vec<u8>, node: &Node) -> Result<(), AllocError>
    ensures { OnOk result (out.new.items ≡ out.old.items ++ node_line node.now) }
{
    push_word(out, node.at)?;
    push_words(out, node)?;
    push_text(out, b"\n")?;
    Ok(())
}

/// The text of a flow graph: a line for each address, in rising order.
///
/// Behind the address stand its successors, each with a letter: `n` the next address, `j` the target of a jump, `c` that of a call and `r` the address behind a
/// call. `x` says that the row may return or exit, and `keeps` comes before the flags whose assignment stays, of `N Z C V`. An address without a row says
/// `norow`, and one that may not be fetched `fetch`.
///
/// # Errors
///
/// Want of memory.
pub fn print_graph(alloc: Global, graph: &Graph) -> Result<Vec<u8>, AllocError>
    ensures nodes { IfOk result (λ v. v.items ≡ flat_map node_line graph.now.nodes.items) }
    ensures lines { (p : Program) → IsGraph p graph.now → IfOk result
        (λ v. v.items ≡ flat_map (λ n. graph_line p n.at (has_flag n.keeps)) graph.now.nodes.items) }
    ensures text { (p : Program) → IsGraph p graph.now → LiveStay p graph.now → IfOk result (λ v. IsGraphText p v.items) }
{
    let mut out = Vec::new(alloc);
    for node in &graph.nodes {
        push_line(&mut out, node)?;
    }
    Ok(out)
}
