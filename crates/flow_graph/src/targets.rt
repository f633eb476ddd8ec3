//! The targets that an indirect jump may have whatever the stack is.
ghost use Rattle.std.specs.Prelude.{◌≡◌, ◌++◌, map, Some, IfOk, OnOk, if◌then◌else◌, []};
ghost use Rattle.word_spec.specs.Words.{sub};
ghost use Rattle.machine_spec.specs.Machine.{pair_of};
ghost use Rattle.bilv_spec.specs.Points as points;
ghost use Rattle.bilv_spec.specs.Run as run;
ghost use Rattle.notes_value.specs.NoteViews.{targets_of};
ghost use Rattle.notes_index.specs.Indexed.{targets_places, IsIndex};
ghost use Rattle.program_value.specs.Programs.{program_of};
ghost use Rattle.flow_graph.specs.Programs.{IsSameSet};

use crate::rows::{row, word};
use file_words::all_kept;
use machine_law::Machine;
use notes_index::{Index, group};
use notes_value::Targets;
use program_value::Program;
use std::alloc::{AllocError, Global};

/// The targets that the notes list for an address. The error is want of memory.
fn listed(
    alloc: Global,
    targets: &[Targets],
    index: &[(u32, usize)],
    at: u32,
) -> Result<Vec<u32>, AllocError>
    requires { IsIndex (targets_places targets.now) index.now }
    ensures { IfOk result (λ v. IsSameSet v.items (run.targets_at (map targets_of targets.now) at)) }
{
    let (low, high) = group(index, at);
    let mut found = Vec::new(alloc);
    for i in low..high {
        found.extend_from_slice(&targets[index[i].1].to)?;
    }
    Ok(found)
}

/// The target of the pair of an instruction at an address with the one before it.
fn pair_target<M: Machine>(p: &Program<M>, insn: &M::Insn, at: u32) -> Option<u32>
    ensures { pair_of (run.row_at (program_of p.now) (points.file_word (program_of p.now)) (sub 32 at 4)) (Some (M.Machine.row insn.now)) at
        ≡ result }
{
    match row::<M>(p, at.wrapping_sub(4)) {
        None => None,
        Some(before) => M::pair(&before, insn, at),
    }
}

/// The word of the literal of an instruction at an address, where its bytes are kept.
fn literal_word<M: Machine>(p: &Program<M>, insn: &M::Insn, at: u32) -> Option<u32>
    ensures { run.literal_target (program_of p.now) (points.file_word (program_of p.now)) ((M.Machine.row insn.now).literal at)
        ≡ run.some_of result }
{
    match M::literal(insn, at) {
        None => None,
        Some(a) => {
            if !all_kept(p.image, a) {
                return None;
            }
            Some(word::<M>(p, a))
        }
    }
}

/// Adds the target that there is, if there is one. The error is want of memory.
fn push_some(found: &mut Vec<u32>, target: Option<u32>) -> Result<(), AllocError>
    ensures { OnOk result (found.new.items ≡ found.old.items ++ run.some_of target) }
{
    match target {
        None => Ok(()),
        Some(to) => {
            found.push(to)?;
            Ok(())
        }
    }
}

/// The targets of an indirect jump of an instruction at an address: those of the notes, of its pair, of its literal. The error is want of memory.
fn named<M: Machine>(
    alloc: Global,
    p: &Program<M>,
    index: &Index,
    insn: &M::Insn,
    at: u32,
) -> Result<Vec<u32>, AllocError>
    requires index { IsIndex (targets_places p.now.notes.now.targets.items) index.now.targets.items }
    ensures { IfOk result (λ v. IsSameSet v.items (run.named (program_of p.now) (points.file_word (program_of p.now))
        (M.Machine.row insn.now) at)) }
{
    let mut found = listed(alloc, &p.notes.targets, &index.targets, at)?;
    push_some(&mut found, pair_target::<M>(p, insn, at))?;
    push_some(&mut found, literal_word::<M>(p, insn, at))?;
    Ok(found)
}

/// The targets of an instruction at an address that an address which the state gives may be, where it may jump to one. The error is want of memory.
pub(crate) fn indirect_targets<M: Machine>(
    alloc: Global,
    p: &Program<M>,
    index: &Index,
    insn: &M::Insn,
    at: u32,
    indirect: bool,
) -> Result<Vec<u32>, AllocError>
    requires index { IsIndex (targets_places p.now.notes.now.targets.items) index.now.targets.items }
    ensures { IfOk result (λ v. IsSameSet v.items (if indirect
        then run.named (program_of p.now) (points.file_word (program_of p.now)) (M.Machine.row insn.now) at else [])) }
{
    if !indirect {
        return Ok(Vec::new(alloc));
    }
    let found = named::<M>(alloc, p, index, insn, at)?;
    Ok(found)
}
