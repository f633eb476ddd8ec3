//! The terms of nodes.
ghost use Rattle.std.specs.Prelude.{◌≡◌, ◌≤◌, ◌<◌, ◌+◌, ◌-◌, ◌*◌, ◌++◌, true, false, codes, length, slice_index, string_bytes, OnOk};
ghost use Rattle.machine_spec.specs.Bil.{SignedDivide};
ghost use Rattle.bilv_spec.specs.Scripts.{choice_name};
ghost use Rattle.bilv_spec.specs.SmtLib.{Atom};
ghost use Rattle.word_spec.specs.Memory.{endian, place};
ghost use Rattle.term_spec.specs.Terms.{IsBytes, IsWidth};
ghost use Rattle.start_value.specs.Starts.{layout_of};
ghost use Rattle.bil_ast.specs.Views.{binary_of};
ghost use Rattle.term_dag.specs.Nodes.{node_of};
ghost use Rattle.smtlib_print.specs.Commands as commands;
ghost use Rattle.smtlib_print.specs.Printable.{HasSymbols, IsCompound, IsPrintable};
ghost use Rattle.smtlib_print.specs.Written.{three, two, written};

use crate::words::{
    ones, push_address, push_byte, push_constant, push_flag_in, push_memory_in, push_register_in,
};
use bil_ast::BinaryOp;
use start_value::Layout;
use std::alloc::AllocError;
use term_dag::{Node, Term};

/// Appends the application of an operator to two terms.
fn push_applied(out: &mut String, operator: &str, left: Term, right: Term) -> Result<(), AllocError>
    ensures { OnOk result (string_bytes out.new ≡ string_bytes out.old ++ written (commands.apply operator.now left.0 right.0)) }
{
    let (left, right) = (left.0, right.0);
    write!(out, "({operator} t{left} t{right})")
}

/// Appends the bit that is 1 where a relation of two terms holds.
fn push_compared(
    out: &mut String,
    relation: &str,
    left: Term,
    right: Term,
) -> Result<(), AllocError>
    ensures { OnOk result (string_bytes out.new ≡ string_bytes out.old ++ written (commands.bit_of (commands.apply relation.now left.0 right.0))) }
{
    let (left, right) = (left.0, right.0);
    write!(out, "(ite ({relation} t{left} t{right}) #b1 #b0)")
}

/// Appends the term of signed division: by 0 it gives all ones.
fn push_signed_division(
    out: &mut String,
    width: u8,
    left: Term,
    right: Term,
) -> Result<(), AllocError>
    requires { IsWidth width }
    ensures { OnOk result (string_bytes out.new ≡ string_bytes out.old ++ written (commands.operation SignedDivide width left.0 right.0)) }
{
    let divisor = right.0;
    write!(out, "(ite (= t{divisor} ")?;
    push_constant(out, width, 0)?;
    out.push_str(") ")?;
    push_constant(out, width, ones(width))?;
    out.push_str(" ")?;
    push_applied(out, "bvsdiv", left, right)?;
    out.push_str(")")
}

/// Appends the bit that is 1 where two terms differ.
fn push_different(out: &mut String, left: Term, right: Term) -> Result<(), AllocError>
    ensures { OnOk result (string_bytes out.new ≡ string_bytes out.old
        ++ written (commands.bit_of (two (Atom (codes "not")) (commands.apply (codes "=") left.0 right.0)))) }
{
    let (left, right) = (left.0, right.0);
    write!(out, "(ite (not (= t{left} t{right})) #b1 #b0)")
}

/// Appends the term of an operator.
fn push_operation(
    out: &mut String,
    op: BinaryOp,
    width: u8,
    left: Term,
    right: Term,
) -> Result<(), AllocError>
    requires { IsWidth width }
    ensures { OnOk result (string_bytes out.new ≡ string_bytes out.old ++ written (commands.operation (binary_of op) width left.0 right.0)) }
{
    match op {
        BinaryOp::Plus => push_applied(out, "bvadd", left, right),
        BinaryOp::Minus => push_applied(out, "bvsub", left, right),
        BinaryOp::Times => push_applied(out, "bvmul", left, right),
        BinaryOp::Divide => push_applied(out, "bvudiv", left, right),
        BinaryOp::SignedDivide => push_signed_division(out, width, left, right),
        BinaryOp::Modulo => push_applied(out, "bvurem", left, right),
        BinaryOp::SignedModulo => push_applied(out, "bvsrem", left, right),
        BinaryOp::And => push_applied(out, "bvand", left, right),
        BinaryOp::Or => push_applied(out, "bvor", left, right),
        BinaryOp::Xor => push_applied(out, "bvxor", left, right),
        BinaryOp::ShiftLeft => push_applied(out, "bvshl", left, right),
        BinaryOp::ShiftRight => push_applied(out, "bvlshr", left, right),
        BinaryOp::ShiftSigned => push_applied(out, "bvashr", left, right),
        BinaryOp::Equal => push_compared(out, "=", left, right),
        BinaryOp::NotEqual => push_different(out, left, right),
        BinaryOp::Less => push_compared(out, "bvult", left, right),
        BinaryOp::LessEqual => push_compared(out, "bvule", left, right),
        BinaryOp::SignedLess => push_compared(out, "bvslt", left, right),
        BinaryOp::SignedLessEqual => push_compared(out, "bvsle", left, right),
    }
}

/// Appends one of two terms, by a term of one bit.
fn push_choice(
    out: &mut String,
    condition: Term,
    when_true: Term,
    when_false: Term,
) -> Result<(), AllocError>
    ensures { OnOk result (string_bytes out.new ≡ string_bytes out.old ++ written (commands.choose condition.0 when_true.0 when_false.0)) }
{
    let (condition, when_true, when_false) = (condition.0, when_true.0, when_false.0);
    write!(out, "(ite (= t{condition} #b1) t{when_true} t{when_false})")
}

/// Appends bits of a term.
fn push_extract(out: &mut String, hi: u8, lo: u8, term: Term) -> Result<(), AllocError>
    ensures { OnOk result (string_bytes out.new ≡ string_bytes out.old ++ written (commands.extract hi lo term.0)) }
{
    let term = term.0;
    write!(out, "((_ extract {hi} {lo}) t{term})")
}

/// Appends a term with its sign above it.
fn push_signed(out: &mut String, more: u8, term: Term) -> Result<(), AllocError>
    ensures { OnOk result (string_bytes out.new ≡ string_bytes out.old ++ written (commands.extend true more term.0)) }
{
    let term = term.0;
    write!(out, "((_ sign_extend {more}) t{term})")
}

/// Appends a term with zeros above it.
fn push_unsigned(out: &mut String, more: u8, term: Term) -> Result<(), AllocError>
    ensures { OnOk result (string_bytes out.new ≡ string_bytes out.old ++ written (commands.extend false more term.0)) }
{
    let term = term.0;
    write!(out, "((_ zero_extend {more}) t{term})")
}

/// Appends a term with more bits above it.
fn push_extend(out: &mut String, signed: bool, more: u8, term: Term) -> Result<(), AllocError>
    ensures { OnOk result (string_bytes out.new ≡ string_bytes out.old ++ written (commands.extend signed more term.0)) }
{
    if signed {
        return push_signed(out, more, term);
    }
    push_unsigned(out, more, term)
}

/// Appends the address at a distance behind a term, which is not 0.
fn push_further(out: &mut String, address: Term, distance: u32) -> Result<(), AllocError>
    ensures { OnOk result (string_bytes out.new ≡ string_bytes out.old
        ++ written (three (Atom (codes "bvadd")) (commands.term address.0) (commands.address distance))) }
{
    let address = address.0;
    write!(out, "(bvadd t{address} ")?;
    push_address(out, distance)?;
    out.push_str(")")
}

/// Appends the address at a distance behind a term.
fn push_behind(out: &mut String, address: Term, distance: u32) -> Result<(), AllocError>
    ensures { OnOk result (string_bytes out.new ≡ string_bytes out.old ++ written (commands.behind address.0 distance)) }
{
    let address = address.0;
    if distance == 0 {
        return write!(out, "t{address}");
    }
    push_further(out, Term(address), distance)
}

/// Appends the byte of a memory at a distance behind an address.
fn push_selected(
    out: &mut String,
    memory: Term,
    address: Term,
    distance: u8,
) -> Result<(), AllocError>
    ensures { OnOk result (string_bytes out.new ≡ string_bytes out.old ++ written (commands.selected memory.0 address.0 distance)) }
{
    let memory = memory.0;
    write!(out, "(select t{memory} ")?;
    push_behind(out, address, distance as u32)?;
    out.push_str(")")
}

/// Appends a load of so many bytes more than one.
fn push_load(
    out: &mut String,
    big: bool,
    memory: Term,
    address: Term,
    more: u8,
) -> Result<(), AllocError>
    ensures { OnOk result (string_bytes out.new ≡ string_bytes out.old ++ written (commands.loading (endian big) memory.0 address.0 more)) }
{
    if more == 0 {
        return push_selected(out, memory, address, 0);
    }
    out.push_str("(concat ")?;
    if big {
        push_load(out, big, memory, address, more - 1)?;
        out.push_str(" ")?;
        push_selected(out, memory, address, more)?;
        return out.push_str(")");
    }
    push_selected(out, memory, address, more)?;
    out.push_str(" ")?;
    push_load(out, big, memory, address, more - 1)?;
    out.push_str(")")
}

/// Which byte of a word stands at a distance, counted from the lowest.
fn byte_place(big: bool, bytes: u8, distance: u8) -> u8
    requires { distance < bytes }
    ensures value { result ≡ place (endian big) bytes distance }
    ensures below { result < bytes }
{
    if big {
        return bytes - 1 - distance;
    }
    distance
}

/// Appends a memory with the first bytes of a term stored.
fn push_store(
    out: &mut String,
    big: bool,
    bytes: u8,
    memory: Term,
    address: Term,
    value: Term,
    count: u8,
) -> Result<(), AllocError>
    requires bytes { IsBytes bytes }
    requires count { count ≤ bytes }
    ensures { OnOk result (string_bytes out.new ≡ string_bytes out.old ++ written (commands.storing (endian big) bytes memory.0 address.0 value.0 count)) }
{
    if count == 0 {
        let memory = memory.0;
        return write!(out, "t{memory}");
    }
    out.push_str("(store ")?;
    push_store(out, big, bytes, memory, address, value, count - 1)?;
    out.push_str(" ")?;
    push_behind(out, address, (count - 1) as u32)?;
    out.push_str(" ")?;
    let lowest = 8 * byte_place(big, bytes, count - 1);
    push_extract(out, lowest + 7, lowest, value)?;
    out.push_str(")")
}

/// Appends the byte of a part's memory at a distance behind an address.
fn push_taken(
    out: &mut String,
    numbers: &[u32],
    part: u32,
    address: Term,
    distance: u32,
) -> Result<(), AllocError>
    requires { HasSymbols (length numbers.now) part }
    ensures { OnOk result (string_bytes out.new
        ≡ string_bytes out.old ++ written (commands.taken (commands.memory_in numbers.now part) address.0 distance)) }
{
    out.push_str("(select ")?;
    push_memory_in(out, numbers, part)?;
    out.push_str(" ")?;
    push_behind(out, address, distance)?;
    out.push_str(")")
}

/// Appends a memory with the first bytes that the memory of a part has from an address on.
fn push_take(
    out: &mut String,
    numbers: &[u32],
    part: u32,
    memory: Term,
    address: Term,
    count: u32,
) -> Result<(), AllocError>
    requires { HasSymbols (length numbers.now) part }
    ensures { OnOk result (string_bytes out.new
        ≡ string_bytes out.old ++ written (commands.taking (commands.memory_in numbers.now part) memory.0 address.0 count)) }
{
    if count == 0 {
        let memory = memory.0;
        return write!(out, "t{memory}");
    }
    out.push_str("(store ")?;
    push_take(out, numbers, part, memory, address, count - 1)?;
    out.push_str(" ")?;
    push_behind(out, address, count - 1)?;
    out.push_str(" ")?;
    push_taken(out, numbers, part, address, count - 1)?;
    out.push_str(")")
}

/// Appends the symbol of a choice.
fn push_symbol(out: &mut String, numbers: &[u32], place: u32) -> Result<(), AllocError>
    requires { place < length numbers.now }
    ensures { OnOk result (string_bytes out.new ≡ string_bytes out.old ++ choice_name (slice_index numbers.now place)) }
{
    let number = numbers[place as usize];
    write!(out, "c{number}")
}

/// Appends the complement of a term.
fn push_complement(out: &mut String, term: Term) -> Result<(), AllocError>
    ensures { OnOk result (string_bytes out.new ≡ string_bytes out.old ++ written (two (Atom (codes "bvnot")) (commands.term term.0))) }
{
    let term = term.0;
    write!(out, "(bvnot t{term})")
}

/// Appends the term of a node that picks one of two terms, loads, stores or takes.
fn push_compound(
    out: &mut String,
    form: Layout,
    numbers: &[u32],
    node: Node,
) -> Result<(), AllocError>
    requires printable { IsPrintable (layout_of form) (length numbers.now) (node_of node) }
    requires compound { IsCompound (node_of node) }
    ensures { OnOk result (string_bytes out.new ≡ string_bytes out.old ++ written (commands.node_term (layout_of form) numbers.now (node_of node))) }
{
    match node {
        Node::Select {
            condition,
            when_true,
            when_false,
            ..
        } => push_choice(out, condition, when_true, when_false),
        Node::Load {
            bytes,
            big,
            memory,
            address,
        } => push_load(out, big, memory, address, bytes - 1),
        Node::Store {
            bytes,
            big,
            memory,
            address,
            value,
        } => push_store(out, big, bytes, memory, address, value, bytes),
        Node::Join {
            condition,
            when_true,
            when_false,
        } => push_choice(out, condition, when_true, when_false),
        Node::Take {
            bytes,
            memory,
            address,
            part,
        } => push_take(out, numbers, part, memory, address, bytes),
        _ => unreachable!(),
    }
}

/// Appends the term of a node.
pub fn push_node(
    out: &mut String,
    form: Layout,
    numbers: &[u32],
    node: Node,
) -> Result<(), AllocError>
    requires { IsPrintable (layout_of form) (length numbers.now) (node_of node) }
    ensures { OnOk result (string_bytes out.new ≡ string_bytes out.old ++ written (commands.node_term (layout_of form) numbers.now (node_of node))) }
{
    match node {
        Node::Register { part, number } => push_register_in(out, form, numbers, part, number),
        Node::Flag { part, number } => push_flag_in(out, form, numbers, part, number),
        Node::Choice(place) => push_symbol(out, numbers, place),
        Node::Base { .. } => push_byte(out, 0),
        Node::Memory(part) => push_memory_in(out, numbers, part),
        Node::Constant { width, value } => push_constant(out, width, value),
        Node::Binary {
            op,
            width,
            left,
            right,
        } => push_operation(out, op, width, left, right),
        Node::Not { term, .. } => push_complement(out, term),
        Node::Select { .. } => push_compound(out, form, numbers, node),
        Node::Extract { hi, lo, term } => push_extract(out, hi, lo, term),
        Node::Concat { upper, lower, .. } => push_applied(out, "concat", upper, lower),
        Node::Extend {
            signed,
            from,
            to,
            term,
        } => push_extend(out, signed, to - from, term),
        Node::Load { .. } => push_compound(out, form, numbers, node),
        Node::Store { .. } => push_compound(out, form, numbers, node),
        Node::Join { .. } => push_compound(out, form, numbers, node),
        Node::Take { .. } => push_compound(out, form, numbers, node),
    }
}
