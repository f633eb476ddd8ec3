//! A run from the state of a model, and the bytes that it reads.
ghost use Rattle.std.specs.Prelude.{◌≡◌, ℕ, ◌≤◌, ◌+◌, ◌++◌, true, List, [], IfOk, reverse};
ghost use Rattle.word_spec.specs.Memory.{byte_in};
ghost use Rattle.word_spec.specs.State.{State};
ghost use Rattle.machine_spec.specs.Machine.{Row};
ghost use Rattle.machine_spec.specs.StateText.{AreRising};
ghost use Rattle.bilv_spec.specs.PointLaws.{HasLawfulRows};
ghost use Rattle.bilv_spec.specs.Points.{file_row};
ghost use Rattle.bilv_spec.specs.Questions.{Reading, by_file, read_run};
ghost use Rattle.bilv_spec.specs.Run as meaning;
ghost use Rattle.model_spec.specs.Models.{all_reads};
ghost use Rattle.model_spec.specs.Reads.{step_reads};
ghost use Rattle.machine_law.specs.Facts.{IsFit};
ghost use Rattle.start_value.specs.Starts.{written_of};
ghost use Rattle.notes_index.specs.Indexed.{AreIndexed};
ghost use Rattle.program_value.specs.Programs.{program_of};
ghost use Rattle.table_run.specs.Traces.{AreListed, ComesTo, IsModelState, IsOver, IsReadSet, IsRunAt, IsTracedEnd, TakesChoices, bytes_over, last_of};

use crate::choices::choice_at;
use crate::ending::{Ending, StepEnd};
use crate::filling::{Filled, meet_stored, read_stage};
use crate::memory::memory_at;
use crate::model_bytes::{ModelBytes, byte_of};
use crate::reads::Stage;
use crate::runs::{Limits, next_turns};
use crate::steps::{exit, walk};
use byte_mem::View;
use machine_law::Machine;
use notes_index::{Index, index_of};
use program_value::Program;
use start_value::Start;
use std::alloc::{AllocError, Global};
use std::collections::BTreeSet;

/// What a run from a model's state comes to, and the bytes of the model's memory that the require lines and the run read, but for those that the file gives and
/// for those that are 0, by rising addresses.
#[derive(Drop)]
pub struct Traced {
    pub ending: Ending,
    pub bytes: Vec<(u32, u8)>,
}

/// The run of a model before anything is read. The error is want of memory.
fn begin<M: Machine>(
    alloc: Global,
    p: &Program<M>,
    start: &Start,
) -> Result<Filled<M::State>, AllocError>
    requires { IsFit M.form (written_of start.now) }
    ensures read { IfOk result (λ t. IsReadSet (program_of p.now) [] t.read) }
    ensures begun { (fill : ℕ) (bytes : List (ℕ × ℕ)) (s : State) → IsModelState (program_of p.now) M.form (written_of start.now) fill bytes s →
        IfOk result (λ t. IsRunAt (program_of p.now) s t.met (M.State.view t.entry) (M.State.view t.state) []
        (record { state = s; stack = [] })) }
{
    let memory = memory_at(alloc, p, &[])?;
    let state = M::make(start, p.entry, memory);
    let entry = M::copy(alloc, &state)?;
    Ok(Filled {
        entry,
        state,
        met: BTreeSet::new(alloc),
        read: BTreeSet::new(alloc),
    })
}

/// The bytes that were read and are not 0, by rising addresses. The error is want of memory.
fn listed(
    alloc: Global,
    model: &ModelBytes,
    read: &BTreeSet<u32>,
) -> Result<Vec<(u32, u8)>, AllocError>
    requires { AreRising model.now.bytes.now }
    ensures bytes { IfOk result (λ v. v.items ≡ bytes_over model.now.fill model.now.bytes.now read.now.keys) }
    ensures rising { IfOk result (λ v. AreRising v.items) }
{
    let mut bytes = Vec::new(alloc);
    for a in read {
        let byte = byte_of(model, *a);
        if byte == 0 {
            continue;
        }
        bytes.push((*a, byte))?;
    }
    Ok(bytes)
}

/// One step under a choice. What it reads is filled before it is read. The error is want of memory.
fn traced_step<M: Machine>(
    alloc: Global,
    p: &Program<M>,
    index: &Index,
    model: &ModelBytes,
    t: &mut Filled<M::State>,
    stack: &mut Vec<u32>,
    choice: u8,
) -> Result<StepEnd, AllocError>
    requires index { AreIndexed p.now.notes.now index.now }
    requires lawful { HasLawfulRows (program_of p.now) }
    requires rising { AreRising model.now.bytes.now }
    ensures { (begun : State) (c : meaning.Place) (drawn : ℕ) (before : List ℕ) →
        IsOver (program_of p.now) model.now.fill model.now.bytes.now begun.mem →
        IsRunAt (program_of p.now) begun t.old.met (M.State.view t.old.entry) (M.State.view t.old.state) (reverse stack.old.items) c →
        ((row : Row) → file_row (program_of p.now) c.state.pc ≡ Some row → row.draws ≡ true → drawn ≡ choice) →
        IsReadSet (program_of p.now) before t.old.read →
        IfOk result (λ end. IsTracedEnd (program_of p.now) begun t.new.met (M.State.view t.new.entry) (M.State.view t.new.state)
        (reverse stack.new.items) end (meaning.step (by_file (program_of p.now)) begun c drawn)
        × IsReadSet (program_of p.now) (before ++ step_reads (by_file (program_of p.now)) begun c drawn) t.new.read) }
{
    read_stage::<M>(alloc, p, model, t, Stage::Step(index))?;
    meet_stored::<M>(alloc, p, index, model, t)?;
    match walk::<M>(p, index, &t.entry, &mut t.state, stack, choice)? {
        StepEnd::Stops(event) => Ok(StepEnd::Stops(event)),
        StepEnd::Arrives => Ok(StepEnd::Arrives),
        StepEnd::Exits => {
            read_stage::<M>(alloc, p, model, t, Stage::Exit)?;
            Ok(exit::<M>(p, &t.entry, &t.state))
        }
    }
}

/// What the run comes to within its limits. The error is want of memory.
fn follow_model<M: Machine>(
    alloc: Global,
    p: &Program<M>,
    index: &Index,
    model: &ModelBytes,
    t: &mut Filled<M::State>,
    choices: &[(u64, u8)],
    limits: Limits,
) -> Result<Ending, AllocError>
    requires index { AreIndexed p.now.notes.now index.now }
    requires lawful { HasLawfulRows (program_of p.now) }
    requires rising { AreRising model.now.bytes.now }
    requires choices { AreRising choices.now }
    requires some { 1 ≤ limits.steps }
    ensures { (r : Reading) → IsOver (program_of p.now) model.now.fill model.now.bytes.now r.state.mem →
        TakesChoices (program_of p.now) limits.turns r (byte_in choices.now) →
        IsRunAt (program_of p.now) r.state t.old.met (M.State.view t.old.entry) (M.State.view t.old.state) []
        (record { state = r.state; stack = [] }) →
        IsReadSet (program_of p.now) (all_reads (program_of p.now) limits.turns r 0) t.old.read →
        IfOk result (λ e. ComesTo (read_run (program_of p.now) limits.turns r) limits.steps e
        × IsReadSet (program_of p.now) (all_reads (program_of p.now) limits.turns r (last_of e + 1)) t.new.read) }
{
    let mut stack = Vec::new(alloc);
    let mut turns = 0u64;
    let mut n = 0u64;
    loop {
        let at = t.state.pc();
        let choice = choice_at(choices, n);
        match traced_step::<M>(alloc, p, index, model, t, &mut stack, choice)? {
            StepEnd::Stops(event) => return Ok(Ending::Failed { event, at, step: n }),
            StepEnd::Exits => return Ok(Ending::Exit { at, step: n }),
            StepEnd::Arrives => {}
        }
        turns = match next_turns(at, t.state.pc(), turns, limits.turns) {
            None => return Ok(Ending::Turned { at, step: n }),
            Some(more) => more,
        };
        if n + 1 == limits.steps {
            return Ok(Ending::Left { at, step: n });
        }
        n += 1;
    }
}

/// The bytes of a model's memory that the require lines read, but for those that the file gives and for those that are 0, by rising addresses. The model has
/// the registers and flags of a start, whose bytes and choices play no part; the bytes that the file gives; and else the listed byte of an address, or the
/// fill. It is an entry state of the program's function. The listed addresses rise. It takes memory for two states and for the addresses that are read.
///
/// # Errors
///
/// Want of memory.
pub fn required_bytes<M: Machine>(
    alloc: Global,
    program: &Program<M>,
    start: &Start,
    fill: u8,
    bytes: &[(u32, u8)],
) -> Result<Vec<(u32, u8)>, AllocError>
    requires fit { IsFit M.form (written_of start.now) }
    requires rising { AreRising bytes.now }
    ensures bytes { (k : ℕ) (r : Reading) →
        IsModelState (program_of program.now) M.form (written_of start.now) fill bytes.now r.state →
        IfOk result (λ v. AreListed (program_of program.now) r.state.mem
        (all_reads (program_of program.now) k r 0) v.items) }
    ensures rising { IfOk result (λ v. AreRising v.items) }
{
    let model = ModelBytes { fill, bytes };
    let mut t = begin::<M>(alloc, program, start)?;
    read_stage::<M>(alloc, program, &model, &mut t, Stage::Entry)?;
    let bytes = listed(alloc, &model, &t.read)?;
    Ok(bytes)
}

/// What the run from a model's state comes to within `limit` steps and within `k` backward transfers, and the bytes that it reads. The model is given as in
/// [`required_bytes`]; the start's choices, by rising steps, are those that the run draws. Beside the memory of a run it takes some for the addresses that are
/// read or stored; its time is for each step what its row costs, and a search for each of these addresses.
///
/// # Errors
///
/// Want of memory.
pub fn trace<M: Machine>(
    alloc: Global,
    program: &Program<M>,
    start: &Start,
    fill: u8,
    bytes: &[(u32, u8)],
    k: u64,
    limit: u64,
) -> Result<Traced, AllocError>
    requires some { 1 ≤ limit }
    requires fit { IsFit M.form (written_of start.now) }
    requires choices { AreRising (written_of start.now).choices }
    requires rising { AreRising bytes.now }
    requires lawful { HasLawfulRows (program_of program.now) }
    ensures ending { (r : Reading) →
        IsModelState (program_of program.now) M.form (written_of start.now) fill bytes.now r.state →
        TakesChoices (program_of program.now) k r (byte_in (written_of start.now).choices) →
        IfOk result (λ t. ComesTo (read_run (program_of program.now) k r) limit t.ending) }
    ensures bytes { (r : Reading) →
        IsModelState (program_of program.now) M.form (written_of start.now) fill bytes.now r.state →
        TakesChoices (program_of program.now) k r (byte_in (written_of start.now).choices) →
        IfOk result (λ t. AreListed (program_of program.now) r.state.mem
        (all_reads (program_of program.now) k r (last_of t.ending + 1)) t.bytes.items) }
    ensures rising { IfOk result (λ t. AreRising t.bytes.items) }
{
    let index = index_of(alloc, program.notes)?;
    let model = ModelBytes { fill, bytes };
    let mut t = begin::<M>(alloc, program, start)?;
    read_stage::<M>(alloc, program, &model, &mut t, Stage::Entry)?;
    let limits = Limits {
        turns: k,
        steps: limit,
    };
    let ending = follow_model::<M>(
        alloc,
        program,
        &index,
        &model,
        &mut t,
        &start.choices,
        limits,
    )?;
    let bytes = listed(alloc, &model, &t.read)?;
    Ok(Traced { ending, bytes })
}
