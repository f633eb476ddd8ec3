//! What stands at an address.
ghost use Rattle.std.specs.Prelude.{◌≡◌, ◌++◌, ℕ, List, Bool, IfOk, OnOk, None, Some, false, Contains, length};
ghost use Rattle.std.specs.List.Sorted.{IsNonDecreasingBy};
ghost use Rattle.bilv_spec.specs.Files.{order_of, program_of};
ghost use Rattle.machine_spec.specs.Machine.{Machine};
ghost use Rattle.bilv_spec.specs.Notes.{Notes};
ghost use Rattle.bilv_spec.specs.Points as points;
ghost use Rattle.bilv_spec.specs.Points.{loads_at};
ghost use Rattle.bilv_spec.specs.Run.{some_of};
ghost use Rattle.bil_ast.specs.Views.{statements};
ghost use Rattle.byte_mem.specs.Views.{endian_of};
ghost use Rattle.frame_spec.specs.Frames.{Contract as NotedContract};
ghost use Rattle.flag_live.specs.Contracted.{IsKeptWith, LiveStayWith};
ghost use Rattle.graph_nodes.specs.Graphs.{IsGraph, IsNode, addresses_of};
ghost use Rattle.graph_nodes.specs.Places.{AreRising};
ghost use Rattle.unroller.specs.Asking.{program_asking};
ghost use Rattle.unroller.specs.Places.{AreCodes, IsRowCode};
ghost use Rattle.unroller.specs.Rows as rows;
ghost use Rattle.unroller.specs.Rows.{AreLiterals, IsListAt};

use bil_ast::Stmt;
use bil_trim::{Literal, with_flags, with_literal};
use byte_mem::Endian;
use elf32_reader::Image;
use file_words::{all_kept, file_word};
use graph_nodes::{Graph, Node, node_at};
use machine_law::Machine;
use notes_index::group;
use program_value::Program;
use question_form::Code;
use std::alloc::{AllocError, Global};

/// What stands at an address without a row.
fn bare(node: &Node, asserts: (usize, usize)) -> Code
    ensures { result ≡ record {
      at = node.now.at;
      length = node.now.length;
      fetchable = node.now.fetchable;
      list = None;
      draws = false;
      row = 64;
      loads = 0;
      stores = 0;
      asserts = asserts;
    } }
{
    Code {
        at: node.at,
        length: node.length,
        fetchable: node.fetchable,
        list: None,
        draws: false,
        row: 64,
        loads: 0,
        stores: 0,
        asserts,
    }
}

/// The address of the literal that an instruction loads where it stands at an address, if its four bytes are kept.
fn kept_literal<M: Machine>(image: &Image, insn: &M::Insn, at: u32) -> Option<u32>
    ensures { (n : Notes) (e : ℕ) (o : ℕ → Bool) → result ≡ rows.kept_literal (program_asking M.machine image.now n e o) ((M.Machine.row insn.now).literal at) }
{
    match M::literal(insn, at) {
        None => None,
        Some(place) => if all_kept(image, place) {
            Some(place)
        } else {
            None
        },
    }
}

/// The byte order of a file's machine.
fn order(image: &Image) -> Endian
    ensures { endian_of result ≡ order_of image.now }
{
    if image.is_big_machine() {
        return Endian::Big;
    }
    Endian::Little
}

/// The word of the four bytes that a file has from an address on.
fn word_at(image: &Image, at: u32) -> Literal
    ensures order { endian_of result.order ≡ order_of image.now }
    ensures at { result.at ≡ at }
    ensures value { (m : Machine) (n : Notes) (e : ℕ) → order_of image.now ≡ m.endian → result.value ≡ points.file_number (program_of m image.now n e) at }
{
    Literal {
        order: order(image),
        at,
        value: file_word(image, at),
    }
}

/// What an instruction does where it stands at an address, and how many bytes it loads, as far as the price counts them.
#[derive(Drop)]
struct RowList {
    list: Vec<Stmt>,
    loads: u64,
}

/// What the instruction of a node does. The assignments of flags that the node does not keep are left out, and the constant of a kept literal stands in place
/// of its load, which costs nothing then. The error is want of memory.
fn listed<M: Machine>(
    alloc: Global,
    program: &Program<M>,
    insn: &M::Insn,
    node: &Node,
) -> Result<RowList, AllocError>
    ensures list { (n : Notes) (e : ℕ) (o : ℕ → Bool) (noted : List NotedContract) → IsKeptWith (program_asking M.machine program.now.image.now n e o) noted node.now →
        IfOk result (λ l. IsListAt (program_asking M.machine program.now.image.now n e o) M.bank noted (M.Machine.row insn.now) node.now.at (statements l.list.items)) }
    ensures loads { (n : Notes) (e : ℕ) (o : ℕ → Bool) → IfOk result (λ l.
        l.loads ≡ loads_at (program_asking M.machine program.now.image.now n e o) node.now.at (Some (M.Machine.row insn.now))) }
{
    let lifted = M::lift(alloc, insn, node.at)?;
    let trimmed = with_flags(lifted, alloc, node.keeps)?;
    match kept_literal::<M>(program.image, insn, node.at) {
        None => Ok(RowList {
            list: trimmed,
            loads: M::cost(insn).loads,
        }),
        Some(place) => {
            let list = with_literal(&trimmed, alloc, word_at(program.image, place))?;
            Ok(RowList { list, loads: 0 })
        }
    }
}

/// What stands at the address of a node, with a part of the assert lines by address. Of the row's assignments of flags those stay that the node keeps. The
/// error is want of memory.
pub fn code_at<M: Machine>(
    alloc: Global,
    program: &Program<M>,
    node: &Node,
    asserts: (usize, usize),
) -> Result<Code, AllocError>
    ensures at { IfOk result (λ c. c.at ≡ node.now.at) }
    ensures asserts { IfOk result (λ c. c.asserts ≡ asserts) }
    ensures row { (n : Notes) (e : ℕ) (o : ℕ → Bool) (noted : List NotedContract) → IsNode (program_asking M.machine program.now.image.now n e o) node.now →
        IsKeptWith (program_asking M.machine program.now.image.now n e o) noted node.now →
        IfOk result (λ c. IsRowCode (program_asking M.machine program.now.image.now n e o) M.bank noted c) }
{
    let word = match node.word {
        None => return Ok(bare(node, asserts)),
        Some(word) => word,
    };
    let insn = match M::decode(word) {
        None => return Ok(bare(node, asserts)),
        Some(insn) => insn,
    };
    let listed = listed::<M>(alloc, program, &insn, node)?;
    let cost = M::cost(&insn);
    Ok(Code {
        at: node.at,
        length: node.length,
        fetchable: node.fetchable,
        list: Some(listed.list),
        draws: M::draws(&insn),
        row: cost.row,
        loads: listed.loads,
        stores: cost.stores,
        asserts,
    })
}

/// What stands at addresses of a graph that keeps the assignments of flags that are live, and those of a set, each with its part of the assert lines by address. The error is want
/// of memory.
pub fn codes_at<M: Machine>(
    alloc: Global,
    program: &Program<M>,
    graph: &Graph,
    addresses: &[u32],
    asserts: &[(u32, usize)],
) -> Result<Vec<Code>, AllocError>
    requires nodes { AreRising graph.now.nodes.items }
    requires among { (a : ℕ) → Contains addresses.now a → Contains (addresses_of graph.now) a }
    requires sorted { IsNonDecreasingBy (λ x. x.0) asserts.now }
    ensures { (n : Notes) (e : ℕ) (o : ℕ → Bool) (noted : List NotedContract) → IsGraph (program_asking M.machine program.now.image.now n e o) graph.now →
        LiveStayWith (program_asking M.machine program.now.image.now n e o) noted graph.now →
        IfOk result (λ v. AreCodes (program_asking M.machine program.now.image.now n e o) M.bank noted addresses.now asserts.now (length addresses.now) v.items) }
{
    let mut codes: Vec<Code> = Vec::with_capacity(alloc, addresses.len())?;
    for at in addresses {
        let node = match node_at(graph, *at) {
            None => unreachable!(),
            Some(node) => node,
        };
        let code = code_at::<M>(alloc, program, node, group(asserts, *at))?;
        codes.push(code)?;
    }
    Ok(codes)
}

/// The address of the literal that the row of a node loads, if its four bytes are kept.
fn node_literal<M: Machine>(image: &Image, node: &Node) -> Option<u32>
    ensures { (n : Notes) (e : ℕ) (o : ℕ → Bool) → IsNode (program_asking M.machine image.now n e o) node.now →
        result ≡ rows.literal_at (program_asking M.machine image.now n e o) node.now.at }
{
    match node.word {
        None => None,
        Some(word) => match M::decode(word) {
            None => None,
            Some(insn) => kept_literal::<M>(image, &insn, node.at),
        },
    }
}

/// Adds an address, if there is one. The error is want of memory.
fn add_address(found: &mut Vec<u32>, address: Option<u32>) -> Result<(), AllocError>
    ensures { OnOk result (found.new.items ≡ found.old.items ++ some_of address) }
{
    if let Some(at) = address {
        found.push(at)?;
    }
    Ok(())
}

/// The addresses of the kept literals that the rows at addresses of a graph load. The error is want of memory.
pub fn literals_at<M: Machine>(
    alloc: Global,
    image: &Image,
    graph: &Graph,
    addresses: &[u32],
) -> Result<Vec<u32>, AllocError>
    requires nodes { AreRising graph.now.nodes.items }
    requires among { (a : ℕ) → Contains addresses.now a → Contains (addresses_of graph.now) a }
    ensures { (n : Notes) (e : ℕ) (o : ℕ → Bool) → IsGraph (program_asking M.machine image.now n e o) graph.now →
        IfOk result (λ v. AreLiterals (program_asking M.machine image.now n e o) addresses.now (length addresses.now) v.items) }
{
    let mut found: Vec<u32> = Vec::new(alloc);
    for at in addresses {
        let node = match node_at(graph, *at) {
            None => unreachable!(),
            Some(node) => node,
        };
        add_address(&mut found, node_literal::<M>(image, node))?;
    }
    Ok(found)
}
