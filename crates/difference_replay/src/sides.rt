//! What a start of one of two functions comes to, on a machine: the values of its states at places, and the end of its run.
ghost use Rattle.std.specs.Prelude.{◌≡◌, ◌≤◌, IfOk};
ghost use Rattle.machine_spec.specs.StateText.{last_step};
ghost use Rattle.start_value.specs.Starts.{layout_of};
ghost use Rattle.table_run.specs.Endings.{found_of};
ghost use Rattle.pair_sides.specs.Sides.{machine_in, program_of_side};
ghost use Rattle.pair_spec.specs.Differs.{found_in};
ghost use Rattle.difference_replay.specs.Probes.{AreReadableOn};
ghost use Rattle.difference_replay.specs.Sides.{start_of_side, IsBegun, IsEntered, IsLeft};

use crate::probes::{Half, Probe, values_on};
use machine_law::Machine;
use pair_sides::Sided;
use start_value::Start;
use std::alloc::{AllocError, Global};
use table_run::{Ending, EntryFault, exit_state, lines_ok, run, start_state};

/// What a state at a function's entry is.
#[derive(Drop)]
pub(crate) enum Entered {
    /// An entry state, with its values at places.
    Values(Vec<u32>),
    /// None, by its first fault: of the link register, or of a require line.
    Faulty(EntryFault),
}

/// What the state of a start is at the entry of a function of a machine. The error is out of memory.
pub(crate) fn enter_by<M: Machine>(
    alloc: Global,
    side: &Sided,
    start: &Start,
    half: Half,
    probes: &[Probe],
) -> Result<Entered, AllocError>
    requires machine { machine_in side.now.layout ≡ M.machine }
    requires form { layout_of side.now.layout ≡ M.form }
    requires begun { IsBegun side.now start.now }
    requires probes { AreReadableOn (machine_in side.now.layout).has_register half probes.now }
    ensures { IfOk result (IsEntered half (program_of_side side.now) (start_of_side side.now start.now).state probes.now) }
{
    let program = side.program::<M>();
    let state = start_state::<M>(alloc, &program, start)?;
    if let Err(fault) = lines_ok::<M>(&program, &state) {
        return Ok(Entered::Faulty(fault));
    }
    let values = values_on(alloc, &state, half, probes)?;
    Ok(Entered::Values(values))
}

/// The values at places of the state in which the run of a start exits by the step of a number, if it does, on a machine. The error is out of memory.
pub(crate) fn leave_by<M: Machine>(
    alloc: Global,
    side: &Sided,
    start: &Start,
    number: u64,
    half: Half,
    probes: &[Probe],
) -> Result<Option<Vec<u32>>, AllocError>
    requires machine { machine_in side.now.layout ≡ M.machine }
    requires form { layout_of side.now.layout ≡ M.form }
    requires begun { IsBegun side.now start.now }
    requires number { number ≤ last_step }
    requires probes { AreReadableOn (machine_in side.now.layout).has_register half probes.now }
    ensures { IfOk result (IsLeft half (program_of_side side.now) (start_of_side side.now start.now) number probes.now) }
{
    let program = side.program::<M>();
    let Some(state) = exit_state::<M>(alloc, &program, start, number)? else {
        return Ok(None);
    };
    let values = values_on(alloc, &state, half, probes)?;
    Ok(Some(values))
}

/// What the run of a start comes to in the steps up to that of a number, on a machine. The error is out of memory.
pub(crate) fn end_by<M: Machine>(
    alloc: Global,
    side: &Sided,
    start: &Start,
    number: u64,
) -> Result<Ending, AllocError>
    requires machine { machine_in side.now.layout ≡ M.machine }
    requires form { layout_of side.now.layout ≡ M.form }
    requires begun { IsBegun side.now start.now }
    requires number { number ≤ last_step }
    ensures { IfOk result (λ e. found_of e ≡ found_in (program_of_side side.now) (start_of_side side.now start.now) number) }
{
    let program = side.program::<M>();
    let limit = number + 1;
    let ending = run::<M>(alloc, &program, start, None, limit)?;
    Ok(ending)
}
