//! A run whose memory is filled with a model's bytes as it is read.
ghost use Rattle.std.specs.Prelude.{◌≡◌, ◌++◌, ℕ, List, IfOk, OnOk, map, true};
ghost use Rattle.word_spec.specs.Memory as memory;
ghost use Rattle.machine_spec.specs.StateText.{AreRising};
ghost use Rattle.bilv_spec.specs.Points.{is_known_at};
ghost use Rattle.bilv_spec.specs.Verdict.{fixed};
ghost use Rattle.notes_value.specs.NoteViews.{fixed_of};
ghost use Rattle.notes_index.specs.Indexed.{AreIndexed};
ghost use Rattle.program_value.specs.Programs.{program_of};
ghost use Rattle.table_run.specs.Traces.{AreMet, IsFuller, IsReadSet, IsStage, is_met, reached_row, row_stores, stage_reads};

use crate::model_bytes::{ModelBytes, byte_of};
use crate::reads::{Stage, add_bytes, places_read, reached};
use machine_law::Machine;
use notes_index::Index;
use notes_value::FixedRange;
use program_value::Program;
use std::alloc::{AllocError, Global};
use std::collections::BTreeSet;

/// A run of a model, whose memory has the bytes that the file gives, and of the others those that were filled; all further bytes are 0 in it.
#[derive(Drop)]
pub(crate) struct Filled<S> {
    /// The state at entry.
    pub(crate) entry: S,
    /// The state now.
    pub(crate) state: S,
    /// The addresses that were filled, in both states: those that are read or stored.
    pub(crate) met: BTreeSet<u32>,
    /// The addresses that were read, but for those whose byte the file gives.
    pub(crate) read: BTreeSet<u32>,
}

/// One of the ranges has an address.
fn is_fixed(ranges: &[FixedRange], a: u32) -> bool
    ensures { result ≡ fixed (map fixed_of ranges.now) a }
{
    for range in ranges {
        if range.low <= a && a <= range.high {
            return true;
        }
    }
    false
}

/// The file gives the byte at an address: it is kept, or it is loaded and fixed.
fn is_known<M: Machine>(p: &Program<M>, a: u32) -> bool
    ensures { result ≡ is_known_at (program_of p.now) a }
{
    if p.image.kept(a) {
        return true;
    }
    if p.image.byte(a).is_none() {
        return false;
    }
    is_fixed(&p.notes.fixed, a)
}

/// The byte at an address is the model's.
fn has_met<M: Machine>(p: &Program<M>, met: &BTreeSet<u32>, a: u32) -> bool
    ensures { result ≡ is_met (program_of p.now) met.now a }
{
    if met.contains(&a) {
        return true;
    }
    is_known(p, a)
}

/// Fills the byte at an address that is not met, at entry and now. The error is want of memory.
fn meet<M: Machine>(
    p: &Program<M>,
    model: &ModelBytes,
    t: &mut Filled<M::State>,
    a: u32,
) -> Result<(), AllocError>
    requires { AreRising model.now.bytes.now }
    ensures fuller { OnOk result (IsFuller (program_of p.now) model.now.fill model.now.bytes.now t.old.met t.new.met
        (M.State.view t.old.entry) (M.State.view t.new.entry) (M.State.view t.old.state) (M.State.view t.new.state)) }
    ensures met { OnOk result (is_met (program_of p.now) t.new.met a ≡ true) }
    ensures read { OnOk result (t.new.read ≡ t.old.read) }
{
    if has_met(p, &t.met, a) {
        return Ok(());
    }
    let byte = byte_of(model, a);
    M::reserve(&mut t.entry, 1)?;
    M::reserve(&mut t.state, 1)?;
    t.met.insert(a)?;
    M::put(&mut t.entry, a, byte);
    M::put(&mut t.state, a, byte);
    Ok(())
}

/// Fills the bytes at some addresses that are not met. The error is want of memory.
fn meet_all<M: Machine>(
    p: &Program<M>,
    model: &ModelBytes,
    t: &mut Filled<M::State>,
    places: &[u32],
) -> Result<(), AllocError>
    requires { AreRising model.now.bytes.now }
    ensures fuller { OnOk result (IsFuller (program_of p.now) model.now.fill model.now.bytes.now t.old.met t.new.met
        (M.State.view t.old.entry) (M.State.view t.new.entry) (M.State.view t.old.state) (M.State.view t.new.state)) }
    ensures met { OnOk result (AreMet (program_of p.now) t.new.met places.now) }
    ensures read { OnOk result (t.new.read ≡ t.old.read) }
{
    for a in places {
        meet::<M>(p, model, t, *a)?;
    }
    Ok(())
}

/// Fills the bytes that are read at a stage, and tells their addresses. Which they are may hang on bytes that are read, so this goes on until all of them were
/// met before. The error is want of memory.
fn settle<M: Machine>(
    alloc: Global,
    p: &Program<M>,
    model: &ModelBytes,
    t: &mut Filled<M::State>,
    stage: Stage,
) -> Result<Vec<u32>, AllocError>
    requires index { IsStage p.now.notes.now stage }
    requires rising { AreRising model.now.bytes.now }
    ensures fuller { IfOk result (λ v. IsFuller (program_of p.now) model.now.fill model.now.bytes.now t.old.met t.new.met
        (M.State.view t.old.entry) (M.State.view t.new.entry) (M.State.view t.old.state) (M.State.view t.new.state)) }
    ensures places { IfOk result (λ v. v.items ≡ stage_reads (program_of p.now) stage.entry (M.State.view t.new.entry) (M.State.view t.new.state)) }
    ensures met { IfOk result (λ v. AreMet (program_of p.now) t.new.met v.items) }
    ensures read { IfOk result (λ v. t.new.read ≡ t.old.read) }
{
    'settling: loop {
        let places = places_read::<M>(alloc, p, stage, &t.entry, &t.state)?;
        let before = t.met.len();
        meet_all::<M>(p, model, t, &places)?;
        if t.met.len() == before {
            return Ok(places);
        }
    }
}

/// Notes that addresses are read, but for those whose byte the file gives. The error is want of memory.
fn note_read<M: Machine>(
    p: &Program<M>,
    read: &mut BTreeSet<u32>,
    places: &[u32],
) -> Result<(), AllocError>
    ensures { (before : List ℕ) → OnOk result (IsReadSet (program_of p.now) before read.old →
        IsReadSet (program_of p.now) (before ++ places.now) read.new) }
{
    for a in places {
        if is_known(p, *a) {
            continue;
        }
        read.insert(*a)?;
    }
    Ok(())
}

/// Fills the bytes that are read at a stage, and notes that they are read. The error is want of memory.
pub(crate) fn read_stage<M: Machine>(
    alloc: Global,
    p: &Program<M>,
    model: &ModelBytes,
    t: &mut Filled<M::State>,
    stage: Stage,
) -> Result<(), AllocError>
    requires index { IsStage p.now.notes.now stage }
    requires rising { AreRising model.now.bytes.now }
    ensures fuller { OnOk result (IsFuller (program_of p.now) model.now.fill model.now.bytes.now t.old.met t.new.met
        (M.State.view t.old.entry) (M.State.view t.new.entry) (M.State.view t.old.state) (M.State.view t.new.state)) }
    ensures met { OnOk result (AreMet (program_of p.now) t.new.met
        (stage_reads (program_of p.now) stage.entry (M.State.view t.new.entry) (M.State.view t.new.state))) }
    ensures read { (before : List ℕ) → OnOk result (IsReadSet (program_of p.now) before t.old.read →
        IsReadSet (program_of p.now)
        (before ++ stage_reads (program_of p.now) stage.entry (M.State.view t.new.entry) (M.State.view t.new.state)) t.new.read) }
{
    let places = settle::<M>(alloc, p, model, t, stage)?;
    note_read(p, &mut t.read, &places)?;
    Ok(())
}

/// Fills the bytes that the next step's row stores, before it does. The error is want of memory.
pub(crate) fn meet_stored<M: Machine>(
    alloc: Global,
    p: &Program<M>,
    index: &Index,
    model: &ModelBytes,
    t: &mut Filled<M::State>,
) -> Result<(), AllocError>
    requires index { AreIndexed p.now.notes.now index.now }
    requires rising { AreRising model.now.bytes.now }
    ensures fuller { OnOk result (IsFuller (program_of p.now) model.now.fill model.now.bytes.now t.old.met t.new.met
        (M.State.view t.old.entry) (M.State.view t.new.entry) (M.State.view t.old.state) (M.State.view t.new.state)) }
    ensures met { OnOk result (AreMet (program_of p.now) t.new.met
        (row_stores (reached_row (program_of p.now) (M.State.view t.old.entry) (M.State.view t.old.state)) (M.State.view t.old.state))) }
    ensures read { OnOk result (t.new.read ≡ t.old.read) }
{
    let insn = match reached::<M>(p, index, &t.entry, &t.state) {
        None => return Ok(()),
        Some(insn) => insn,
    };
    let mut places = Vec::new(alloc);
    add_bytes(&mut places, M::stored(&insn, &t.state))?;
    meet_all::<M>(p, model, t, &places)?;
    Ok(())
}
