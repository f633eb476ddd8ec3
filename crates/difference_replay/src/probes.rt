//! What links compare, place by place, so that a state is looked at by itself and only words of two states meet.
ghost use Rattle.std.specs.Prelude.{◌≡◌, ◌++◌, ◌∷◌, [], All, length, IfOk, OnOk};
ghost use Rattle.word_spec.specs.Memory.{Little};
ghost use Rattle.bilv_spec.specs.Notes.{value};
ghost use Rattle.notes_value.specs.Reads.{IsReadable};
ghost use Rattle.links_lang.specs.Views.{named_of};
ghost use Rattle.difference_replay.specs.Probes.{probes_of, byte_probes, all_probes, value_at, values_on, first_unlike, place_on, IsReadablePlace, AreReadableOn};

use byte_mem::{Endian, View};
use links_lang::{Link, Named};
use std::alloc::{AllocError, Global};

/// One of two functions.
#[derive(Clone, Copy)]
pub(crate) enum Half {
    First,
    Second,
}

/// An end of two runs at which links compare their states.
#[derive(Clone, Copy)]
pub(crate) enum RunEnd {
    Entry,
    Exit,
}

/// A place of a state.
#[derive(Clone, Copy)]
pub(crate) enum Place {
    /// A register or a flag.
    Named(Named),
    /// The byte at an address.
    Byte(u32),
}

/// Places of two states that have to have the same value.
#[derive(Clone, Copy)]
pub(crate) struct Probe {
    /// The line of the link.
    pub(crate) line: u32,
    pub(crate) first: Place,
    pub(crate) second: Place,
}

/// Appends the probes of the bytes from one address up to another, which is in it. What an `Err` leaves is open.
fn push_bytes(out: &mut Vec<Probe>, line: u32, low: u32, high: u32) -> Result<(), AllocError>
    ensures { OnOk result (out.new.items ≡ out.old.items ++ byte_probes line low high) }
{
    for at in low as u64..high as u64 + 1 {
        let place = Place::Byte(at as u32);
        out.push(Probe {
            line,
            first: place,
            second: place,
        })?;
    }
    Ok(())
}

/// Appends the probe of two registers or flags. What an `Err` leaves is open.
fn push_named(
    out: &mut Vec<Probe>,
    line: u32,
    first: Named,
    second: Named,
) -> Result<(), AllocError>
    ensures { OnOk result (out.new.items ≡ out.old.items ++ record { line = line; first = Place.Named first; second = Place.Named second } ∷ []) }
{
    out.push(Probe {
        line,
        first: Place::Named(first),
        second: Place::Named(second),
    })?;
    Ok(())
}

/// Appends the probes of a link at the entries. What an `Err` leaves is open.
fn push_entry(out: &mut Vec<Probe>, link: Link) -> Result<(), AllocError>
    ensures { OnOk result (out.new.items ≡ out.old.items ++ probes_of RunEnd.Entry link) }
{
    match link {
        Link::Entry {
            line,
            first,
            second,
        } => push_named(out, line, first, second),
        Link::Share { line, low, high } => push_bytes(out, line, low, high),
        _ => Ok(()),
    }
}

/// Appends the probes of a link at the exits. What an `Err` leaves is open.
fn push_exit(out: &mut Vec<Probe>, link: Link) -> Result<(), AllocError>
    ensures { OnOk result (out.new.items ≡ out.old.items ++ probes_of RunEnd.Exit link) }
{
    match link {
        Link::Exit {
            line,
            first,
            second,
        } => push_named(out, line, first, second),
        Link::Same { line, low, high } => push_bytes(out, line, low, high),
        _ => Ok(()),
    }
}

/// Appends the probes of a link at an end of the runs. What an `Err` leaves is open.
fn push_probes(out: &mut Vec<Probe>, at: RunEnd, link: Link) -> Result<(), AllocError>
    ensures { OnOk result (out.new.items ≡ out.old.items ++ probes_of at link) }
{
    match at {
        RunEnd::Entry => push_entry(out, link),
        RunEnd::Exit => push_exit(out, link),
    }
}

/// The probes of links at an end of the runs, in the order of the links. The error is out of memory.
pub(crate) fn probes(alloc: Global, at: RunEnd, links: &[Link]) -> Result<Vec<Probe>, AllocError>
    ensures { IfOk result (λ v. v.items ≡ all_probes at links.now) }
{
    let mut out = Vec::new(alloc);
    for link in links {
        push_probes(&mut out, at, *link)?;
    }
    Ok(out)
}

/// The value of a register or a flag of a state.
fn named_value<V: View>(state: &V, named: Named) -> u32
    requires { IsReadable V.has_register (named_of named) }
    ensures { result ≡ value Little (named_of named) (V.view state.now) (V.view state.now) }
{
    match named {
        Named::Zero => 0,
        Named::Register(r) => state.reg(r),
        Named::Flag(f) => u32::from(state.flag(f)),
    }
}

/// The value of a place of a state.
fn value_at<V: View>(state: &V, place: Place) -> u32
    requires { IsReadablePlace V.has_register place }
    ensures { result ≡ value_at (V.view state.now) place }
{
    match place {
        Place::Named(named) => named_value(state, named),
        Place::Byte(at) => state.load(at, 1, Endian::Little).bits as u32,
    }
}

/// The place of a probe on a side.
fn place_on(half: Half, probe: &Probe) -> Place
    ensures { result ≡ place_on half probe.now }
{
    match half {
        Half::First => probe.first,
        Half::Second => probe.second,
    }
}

/// The values of a state at the places of a side. The error is out of memory.
pub(crate) fn values_on<V: View>(
    alloc: Global,
    state: &V,
    half: Half,
    probes: &[Probe],
) -> Result<Vec<u32>, AllocError>
    requires { AreReadableOn V.has_register half probes.now }
    ensures { IfOk result (λ v. v.items ≡ values_on half (V.view state.now) probes.now) }
{
    let mut out = Vec::new(alloc);
    for probe in probes {
        out.push(value_at(state, place_on(half, probe)))?;
    }
    Ok(out)
}

/// The line of the first probe whose values differ.
pub(crate) fn first_unlike(probes: &[Probe], first: &[u32], second: &[u32]) -> Option<u32>
    requires first { length first.now ≡ length probes.now }
    requires second { length second.now ≡ length probes.now }
    ensures { result ≡ first_unlike probes.now first.now second.now }
{
    for i in 0..probes.len() {
        if first[i] != second[i] {
            return Some(probes[i].line);
        }
    }
    None
}
