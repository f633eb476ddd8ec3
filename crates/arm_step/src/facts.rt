//! What is told of an instruction without a state.
ghost use Rattle.std.specs.Prelude.{◌≡◌, ◌&&◌, not, true, false, None, ℕ, if◌then◌else◌};
ghost use Rattle.machine_spec.specs.Arm as rows;
ghost use Rattle.machine_law.specs.Facts.{cost_of, successors_of, IsFlagUse};
ghost use Rattle.arm_decode.specs.Parts.{condition_number};

use crate::used_flags::{FlagSet, flags_by};
use arm_decode::Condition;
use machine_law::{Cost, FlagUse, Succ};

/// What is told of an instruction without a state: its row's fields for the address at which it stands.
#[derive(Clone, Copy)]
pub(crate) struct Facts {
    pub(crate) successors: Succ,
    pub(crate) literal: Option<u32>,
    pub(crate) cost: Cost,
    pub(crate) flags: FlagUse,
    pub(crate) draws: bool,
    /// Whether it keeps the address after it in r14 where it calls: BL alone does.
    pub(crate) links: bool,
}

impl Facts {
    /// What most instructions have.
    pub(crate) fn plain(condition: Condition) -> Facts
        ensures successors { successors_of result.successors ≡ record { next = true; direct = None; indirect = false; call = false } }
        ensures literal { result.literal ≡ None }
        ensures cost { cost_of result.cost ≡ rows.plain_cost }
        ensures flags { (w : ℕ) → condition_number condition ≡ rows.condition_code w → IsFlagUse result.flags (rows.flag_use w rows.none rows.none rows.none) }
        ensures draws { result.draws ≡ false }
        ensures links { result.links ≡ false }
    {
        Facts {
            successors: may_jump(false, false),
            literal: None,
            cost: access_cost(4096, true, 0, 0),
            flags: flags_by(condition, false, FlagSet::NONE, FlagSet::NONE),
            draws: false,
            links: false,
        }
    }
}

/// Successors of what writes r15 or does not, where its condition holds.
pub(crate) fn may_jump(writes: bool, is_always: bool) -> Succ
    ensures { successors_of result ≡ record { next = not (writes && is_always); direct = None; indirect = writes; call = false } }
{
    Succ {
        next: !(writes && is_always),
        direct: None,
        indirect: writes,
        call: false,
    }
}

/// The price of a load or a store of some bytes.
pub(crate) fn access_cost(row: u64, is_load: bool, loaded: u64, stored: u64) -> Cost
    ensures { cost_of result ≡ record { row = row; loads = (if is_load then loaded else 0); stores = (if is_load then 0 else stored) } }
{
    Cost {
        row,
        loads: if is_load { loaded } else { 0 },
        stores: if is_load { 0 } else { stored },
    }
}

/// The bytes of an access to a byte or a word.
pub(crate) fn bytes_of(is_byte: bool) -> u64
    ensures { result ≡ (if is_byte then 1 else 4) }
{
    if is_byte { 1 } else { 4 }
}
