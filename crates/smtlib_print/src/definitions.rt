//! The definitions of terms.
ghost use Rattle.std.specs.Prelude.{◌≡◌, ◌<◌, ◌++◌, ℕ, codes, length, string_bytes, OnOk};
ghost use Rattle.bilv_spec.specs.SmtLib.{Atom};
ghost use Rattle.term_spec.specs.Terms.{node_at, width_of};
ghost use Rattle.start_value.specs.Starts.{layout_of};
ghost use Rattle.term_dag.specs.Nodes.{node_of};
ghost use Rattle.smtlib_print.specs.Commands as commands;
ghost use Rattle.smtlib_print.specs.Commands.{node_definitions};
ghost use Rattle.smtlib_print.specs.Printable.{IsPrintable};
ghost use Rattle.smtlib_print.specs.Written.{commands_text, written};

use crate::terms::push_node;
use start_value::Layout;
use std::alloc::AllocError;
use term_dag::{Dag, Node, Term};

/// Appends the sort of a node by its width, which a memory does not have.
fn push_sort(out: &mut String, width: u8) -> Result<(), AllocError>
    ensures { OnOk result (string_bytes out.new ≡ string_bytes out.old ++ written (commands.sort_of width)) }
{
    if width == 0 {
        return out.push_str("(Array (_ BitVec 32) (_ BitVec 8))");
    }
    write!(out, "(_ BitVec {width})")
}

/// Appends the definition of a node by its place.
fn push_definition(
    out: &mut String,
    form: Layout,
    numbers: &[u32],
    place: usize,
    width: u8,
    node: Node,
) -> Result<(), AllocError>
    requires printable { IsPrintable (layout_of form) (length numbers.now) (node_of node) }
    requires width { width ≡ width_of (node_of node) }
    ensures { OnOk result (string_bytes out.new
        ≡ string_bytes out.old
        ++ (written (commands.definition place (commands.sort_of (width_of (node_of node))) (commands.node_term (layout_of form) numbers.now (node_of node)))
        ++ codes "\n")) }
{
    write!(out, "(define-fun t{place} () ")?;
    push_sort(out, width)?;
    out.push_str(" ")?;
    push_node(out, form, numbers, node)?;
    out.push_str(")\n")
}

/// Appends the definitions of nodes, each under the name of its place. The error is want of memory.
pub fn push_definitions(
    out: &mut String,
    form: Layout,
    numbers: &[u32],
    dag: &Dag,
    count: u32,
) -> Result<(), AllocError>
    requires count { count ≡ length dag.now }
    requires printable { (t : ℕ) → t < length dag.now → IsPrintable (layout_of form) (length numbers.now) (node_at dag.now t) }
    ensures { OnOk result (string_bytes out.new ≡ string_bytes out.old ++ commands_text (node_definitions (layout_of form) numbers.now 0 dag.now)) }
{
    for place in 0..count {
        let bits = dag.width(Term(place));
        let shown = dag.node(Term(place));
        push_definition(out, form, numbers, place as usize, bits, shown)?;
    }
    Ok(())
}

/// Appends the definition that a bit is 1.
pub fn push_root(out: &mut String, place: usize, root: Term) -> Result<(), AllocError>
    ensures { OnOk result (string_bytes out.new ≡ string_bytes out.old
        ++ (written (commands.definition place (Atom (codes "Bool")) (commands.is_one root.0)) ++ codes "\n")) }
{
    let root = root.0;
    write!(out, "(define-fun t{place} () Bool (= t{root} #b1))\n")
}
