//! What a start of one of two functions comes to, whatever its machine is.
ghost use Rattle.std.specs.Prelude.{◌≡◌, ◌≤◌, IfOk};
ghost use Rattle.machine_spec.specs.StateText.{last_step};
ghost use Rattle.table_run.specs.Endings.{found_of};
ghost use Rattle.pair_sides.specs.Sides.{machine_in, program_of_side};
ghost use Rattle.pair_spec.specs.Differs.{found_in};
ghost use Rattle.difference_replay.specs.Probes.{AreReadableOn};
ghost use Rattle.difference_replay.specs.Sides.{start_of_side, IsBegun, IsEntered, IsLeft};

use crate::probes::{Half, Probe};
use crate::sides::{Entered, end_by, enter_by, leave_by};
use arm_lift::Arm;
use pair_sides::Sided;
use rv_lift::Rv32;
use start_value::{Layout, Profile, Start};
use std::alloc::{AllocError, Global};
use table_run::Ending;

/// Calls a function that is generic over machines with the machine of a form of states.
macro_rules! on_machine {
    ($layout:expr, $call:ident($($argument:expr),*)) => {
        match $layout {
            Layout::Rv32 { compressed: false } => $call::<Rv32<0>>($($argument),*),
            Layout::Rv32 { compressed: true } => $call::<Rv32<1>>($($argument),*),
            Layout::Arm { big: false, profile: Profile::V4 } => $call::<Arm<0, 0>>($($argument),*),
            Layout::Arm { big: false, profile: Profile::V4T } => $call::<Arm<0, 1>>($($argument),*),
            Layout::Arm { big: false, profile: Profile::V5 } => $call::<Arm<0, 2>>($($argument),*),
            Layout::Arm { big: true, profile: Profile::V4 } => $call::<Arm<1, 0>>($($argument),*),
            Layout::Arm { big: true, profile: Profile::V4T } => $call::<Arm<1, 1>>($($argument),*),
            Layout::Arm { big: true, profile: Profile::V5 } => $call::<Arm<1, 2>>($($argument),*),
        }
    };
}

/// What the state of a start is at the entry of its function. The error is out of memory.
pub(crate) fn enter(
    alloc: Global,
    side: &Sided,
    start: &Start,
    half: Half,
    probes: &[Probe],
) -> Result<Entered, AllocError>
    requires begun { IsBegun side.now start.now }
    requires probes { AreReadableOn (machine_in side.now.layout).has_register half probes.now }
    ensures { IfOk result (IsEntered half (program_of_side side.now) (start_of_side side.now start.now).state probes.now) }
{
    on_machine!(side.layout, enter_by(alloc, side, start, half, probes))
}

/// The values at places of the state in which the run of a start exits by the step of a number, if it does. The error is out of memory.
pub(crate) fn leave(
    alloc: Global,
    side: &Sided,
    start: &Start,
    number: u64,
    half: Half,
    probes: &[Probe],
) -> Result<Option<Vec<u32>>, AllocError>
    requires begun { IsBegun side.now start.now }
    requires number { number ≤ last_step }
    requires probes { AreReadableOn (machine_in side.now.layout).has_register half probes.now }
    ensures { IfOk result (IsLeft half (program_of_side side.now) (start_of_side side.now start.now) number probes.now) }
{
    on_machine!(
        side.layout,
        leave_by(alloc, side, start, number, half, probes)
    )
}

/// What the run of a start comes to in the steps up to that of a number. The error is out of memory.
pub(crate) fn end_of(
    alloc: Global,
    side: &Sided,
    start: &Start,
    number: u64,
) -> Result<Ending, AllocError>
    requires begun { IsBegun side.now start.now }
    requires number { number ≤ last_step }
    ensures { IfOk result (λ e. found_of e ≡ found_in (program_of_side side.now) (start_of_side side.now start.now) number) }
{
    on_machine!(side.layout, end_by(alloc, side, start, number))
}
