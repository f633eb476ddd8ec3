//! What is told of an instruction without a state.
ghost use Rattle.std.specs.Prelude.{◌≡◌, Some, None, true, false};
ghost use Rattle.machine_spec.specs.Machine as table;
ghost use Rattle.machine_law.specs.Facts.{cost_of, successors_of};
ghost use Rattle.rv_decode.specs.Insns.{row_of};

use machine_law::{Cost, Succ};
use rv_decode::{Insn, Plain};
use rv_step::{is_link, loaded_bytes, stored_bytes};

/// Successors with a direct jump, which may not be made where `next`.
fn direct(next: bool, to: u32, call: bool) -> Succ
    ensures { successors_of result ≡ record { next = next; direct = Some to; indirect = false; call = call } }
{
    Succ {
        next,
        direct: Some(to),
        indirect: false,
        call,
    }
}

/// Successors without a direct jump.
fn no_direct(next: bool, indirect: bool, call: bool) -> Succ
    ensures { successors_of result ≡ record { next = next; direct = None; indirect = indirect; call = call } }
{
    Succ {
        next,
        direct: None,
        indirect,
        call,
    }
}

/// The static successors of an instruction that stands at an address.
pub(crate) fn successors(insn: &Insn, at: u32) -> Succ
    ensures { successors_of result ≡ (row_of insn.now).successors at }
{
    match insn.plain {
        Plain::Jal { rd, offset } => direct(false, at.wrapping_add(offset), is_link(rd)),
        Plain::Jalr { rd, .. } => no_direct(false, true, is_link(rd)),
        Plain::Branch { offset, .. } => direct(true, at.wrapping_add(offset), false),
        Plain::Ecall | Plain::Ebreak => no_direct(false, false, false),
        _ => no_direct(true, false, false),
    }
}

/// The target of JALR at an address behind AUIPC, where it jumps through the register that AUIPC sets.
pub(crate) fn pair(before: &Insn, insn: &Insn, at: u32) -> Option<u32>
    ensures { result ≡ table.pair_of (Some (row_of before.now)) (Some (row_of insn.now)) at }
{
    match (before.plain, insn.plain) {
        (Plain::Auipc { rd, imm }, Plain::Jalr { rs1, offset, .. }) => {
            if rd.number() == rs1.number() {
                let sum = at.wrapping_sub(4).wrapping_add(imm).wrapping_add(offset);
                Some(sum - sum % 2)
            } else {
                None
            }
        }
        _ => None,
    }
}

/// A cost without stores.
fn loading(row: u64, loads: u64) -> Cost
    ensures { cost_of result ≡ record { row = row; loads = loads; stores = 0 } }
{
    Cost {
        row,
        loads,
        stores: 0,
    }
}

/// The price of an instruction's point, and its byte loads and stores.
pub(crate) fn cost(insn: &Insn) -> Cost
    ensures { cost_of result ≡ (row_of insn.now).cost }
{
    match insn.plain {
        Plain::Load { op, .. } => loading(1024, loaded_bytes(op) as u64),
        Plain::Store { op, .. } => Cost {
            row: 1024,
            loads: 0,
            stores: stored_bytes(op) as u64,
        },
        Plain::Immediate { op, .. } => loading(op.line().price, 0),
        Plain::Shift { op, .. } => loading(op.line().price, 0),
        Plain::Computation { op, .. } => loading(op.line().price, 0),
        _ => loading(1024, 0),
    }
}

/// Whether an instruction keeps the address after it in x1 where it calls.
pub(crate) fn links(insn: &Insn) -> bool
    ensures { result ≡ (row_of insn.now).links }
{
    match insn.plain {
        Plain::Jal { rd, .. } | Plain::Jalr { rd, .. } => rd.number() == 1,
        _ => false,
    }
}
