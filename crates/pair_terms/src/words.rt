//! The words of links, as terms over a state.

ghost use Rattle.std.specs.Prelude.{◌≡◌, ◌≤◌, ◌<◌, ◌+◌, ◌*◌, ◌^◌, IfOk, true, [], ◌∷◌, map, length, replicate};
ghost use Rattle.std.specs.List.{flat_map};
ghost use Rattle.word_spec.specs.RowFiles.{from_to};
ghost use Rattle.term_spec.specs.Terms.{HasMemory, IsWidth, term_value};
ghost use Rattle.term_spec.specs.Passive.{AreNames};
ghost use Rattle.start_value.specs.declared.layout.Layout.{Layout};
ghost use Rattle.term_names.specs.Views.{form_of, names_of};
ghost use Rattle.note_terms.specs.Steps.{IsStep};
ghost use Rattle.links_lang.specs.Views.{links_of, named_of};
ghost use Rattle.mem_cells.specs.Words.{places_of};
ghost use Rattle.pair_spec.specs.PairTerms.{bits_of};
ghost use Rattle.pair_terms.specs.Words.{AreBlankTerms, AreLinksOfSide, AreOfForm, AreWordTerms, IsNamedIn, IsPartIn, IsRange, link_words, link_widths, links_loads, named_on, part_loads, part_nodes, part_of, part_widths, part_words};

use links_lang::{Link, Named};
use std::alloc::{AllocError, Global};
use term_dag::{Dag, Node, Term};
use term_names::Names;

/// What a link says of a state: nothing, a register or a flag, or the bytes from one address up to another, which is in it.
#[derive(Clone, Copy)]
pub enum Part {
    Nothing,
    Word(Named),
    Bytes(u32, u32),
}

/// What a line names on one of the two sides.
fn named_on(second: bool, one: Named, other: Named) -> Named
    ensures { result ≡ named_on second one other }
{
    if second { other } else { one }
}

/// What a link says of the state of a side, at the exit or at entry.
fn part_of(link: Link, second: bool, at_exit: bool) -> Part
    ensures { result ≡ part_of at_exit second link }
{
    match link {
        Link::Entry {
            first: one,
            second: other,
            ..
        } if !at_exit => Part::Word(named_on(second, one, other)),
        Link::Exit {
            first: one,
            second: other,
            ..
        } if at_exit => Part::Word(named_on(second, one, other)),
        Link::Share { low, high, .. } if !at_exit => Part::Bytes(low, high),
        Link::Same { low, high, .. } if at_exit => Part::Bytes(low, high),
        _ => Part::Nothing,
    }
}

/// The term of a register or a flag.
fn named_term(dag: &mut Dag, names: &Names, named: Named) -> Result<Term, AllocError>
    requires names { AreNames (form_of names.now) dag.old (names_of names.now) }
    requires named { IsNamedIn names.now named }
    ensures { IfOk result (λ t. AreWordTerms dag.old dag.new (form_of names.now) (names_of names.now) (part_widths (Part.Word named)) (part_words (Part.Word named))
        (t.0 ∷ []) 0 1) }
{
    let _typed = dag.nodes();
    match named {
        Named::Zero => {
            let term = dag.keep(Node::Constant {
                width: 32,
                value: 0,
            })?;
            Ok(term)
        }
        Named::Register(register) => Ok(names.registers[(register - names.first) as usize]),
        Named::Flag(flag) => Ok(names.flags[flag as usize]),
    }
}

/// The term of a byte of a memory.
fn byte(dag: &mut Dag, memory: Term, address: u32) -> Result<Term, AllocError>
    requires memory { HasMemory dag.old memory.0 }
    ensures { IfOk result (λ t. IsStep dag.old dag.new 0 1 3 (λ w. w ≡ 8) (λ x. (term_value x dag.old memory.0).bytes address) t.0) }
{
    let address = dag.keep(Node::Constant {
        width: 32,
        value: address as u64,
    })?;
    let term = dag.mk(Node::Load {
        bytes: 1,
        big: false,
        memory,
        address,
    })?;
    Ok(term)
}

/// The terms of the bytes of a memory from an address on.
fn bytes(
    alloc: Global,
    dag: &mut Dag,
    names: &Names,
    low: u32,
    count: u32,
) -> Result<Vec<Term>, AllocError>
    requires names { AreNames (form_of names.now) dag.old (names_of names.now) }
    requires few { count ≤ 256 }
    requires within { low + count ≤ 2 ^ 32 }
    ensures { IfOk result (λ ts. AreWordTerms dag.old dag.new (form_of names.now) (names_of names.now) (map (λ a. 8) (from_to low count))
        (map (λ a s. s.mem a) (from_to low count)) (places_of ts.items) count (3 * count)) }
{
    let _typed = dag.nodes();
    let mut terms = Vec::with_capacity(alloc, count as usize)?;
    for i in 0..count {
        let term = byte(dag, names.memory, low + i)?;
        terms.push(term)?;
    }
    Ok(terms)
}

/// The terms of a part.
fn part_terms(
    alloc: Global,
    dag: &mut Dag,
    names: &Names,
    part: Part,
) -> Result<Vec<Term>, AllocError>
    requires names { AreNames (form_of names.now) dag.old (names_of names.now) }
    requires part { IsPartIn names.now part }
    ensures { IfOk result (λ ts. AreWordTerms dag.old dag.new (form_of names.now) (names_of names.now) (part_widths part) (part_words part) (places_of ts.items)
        (part_loads part) (part_nodes part)) }
{
    let _typed = dag.nodes();
    match part {
        Part::Nothing => Ok(Vec::new(alloc)),
        Part::Word(named) => {
            let term = named_term(dag, names, named)?;
            let terms = vec![in alloc; term]?;
            Ok(terms)
        }
        Part::Bytes(low, high) => {
            let terms = bytes(alloc, dag, names, low, high - low + 1)?;
            Ok(terms)
        }
    }
}

/// The terms of the words of links, of the state of a side at the exit or at entry, in the order of the links. The error is out of memory.
pub fn link_terms(
    alloc: Global,
    dag: &mut Dag,
    names: &Names,
    links: &[Link],
    second: bool,
    at_exit: bool,
) -> Result<Vec<Term>, AllocError>
    requires names { AreNames (form_of names.now) dag.old (names_of names.now) }
    requires links { (form : Layout) × AreOfForm form names.now × AreLinksOfSide second form links.now }
    ensures { IfOk result (λ ts. AreWordTerms dag.old dag.new (form_of names.now) (names_of names.now) (flat_map (link_widths at_exit) (links_of links.now))
        (flat_map (link_words at_exit second) (links_of links.now)) (places_of ts.items) (links_loads at_exit (links_of links.now))
        (length links.now + 3 * links_loads at_exit (links_of links.now))) }
{
    let _typed = dag.nodes();
    let mut terms = Vec::new(alloc);
    for i in 0..links.len() {
        let part = part_of(links[i], second, at_exit);
        let more = part_terms(alloc, dag, names, part)?;
        terms.extend_from_slice(&more)?;
    }
    Ok(terms)
}

/// Constants of one width.
fn blanks(alloc: Global, dag: &mut Dag, width: u8, count: usize) -> Result<Vec<Term>, AllocError>
    requires width { IsWidth width }
    ensures { IfOk result (λ ts. AreBlankTerms dag.old dag.new (replicate count width) 1 (places_of ts.items)) }
{
    let term = dag.keep(Node::Constant { width, value: 0 })?;
    let terms = vec![in alloc; term; count]?;
    Ok(terms)
}

/// The width of a register or a flag.
fn width_of(named: Named) -> u8
    ensures bits { result ≡ bits_of (named_of named) }
    ensures width { IsWidth result }
{
    match named {
        Named::Flag(_) => 1,
        Named::Zero | Named::Register(_) => 32,
    }
}

/// Constants of the widths of the words of a part.
fn blank_part(alloc: Global, dag: &mut Dag, part: Part) -> Result<Vec<Term>, AllocError>
    requires range { IsRange part }
    ensures { IfOk result (λ ts. AreBlankTerms dag.old dag.new (part_widths part) 1 (places_of ts.items)) }
{
    let _typed = dag.nodes();
    match part {
        Part::Nothing => Ok(Vec::new(alloc)),
        Part::Word(named) => {
            let terms = blanks(alloc, dag, width_of(named), 1)?;
            Ok(terms)
        }
        Part::Bytes(low, high) => {
            let terms = blanks(alloc, dag, 8, (high - low + 1) as usize)?;
            Ok(terms)
        }
    }
}

/// Constants of the widths of the words of links at the exit. The error is out of memory.
pub fn blank_terms(
    alloc: Global,
    dag: &mut Dag,
    links: &[Link],
    second: bool,
) -> Result<Vec<Term>, AllocError>
    requires links { (form : Layout) × AreLinksOfSide second form links.now }
    ensures { IfOk result (λ ts. AreBlankTerms dag.old dag.new (flat_map (link_widths true) (links_of links.now)) (length links.now) (places_of ts.items)) }
{
    let _typed = dag.nodes();
    let mut terms = Vec::new(alloc);
    for i in 0..links.len() {
        let part = part_of(links[i], second, true);
        let more = blank_part(alloc, dag, part)?;
        terms.extend_from_slice(&more)?;
    }
    Ok(terms)
}
