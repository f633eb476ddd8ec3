//! What contracts may change, as the blocks of their steps give it.
ghost use Rattle.std.specs.Prelude.{◌≡◌, ℕ, ◌++◌, ◌∷◌, [], IfOk, OnOk, filter, map};
ghost use Rattle.std.specs.Option.{option_map};
ghost use Rattle.frame_spec.specs.Frames.{contract_at};
ghost use Rattle.notes_value.specs.FrameViews as sets;
ghost use Rattle.notes_value.specs.FrameViews.{contract_of};
ghost use Rattle.call_text.specs.Texts.{changes_at, changes_of};
ghost use Rattle.call_replay.specs.Readings.{changes_in, said_of, told_change};

use call_text::ContractChanges;
use notes_value::Contract;
use std::alloc::{AllocError, Global};

/// The numbers of registers.
const REGISTERS: [u8; 32] = [
    0, 1, 2, 3, 4, 5, 6, 7, 8, 9, 10, 11, 12, 13, 14, 15, 16, 17, 18, 19, 20, 21, 22, 23, 24, 25,
    26, 27, 28, 29, 30, 31,
];

/// The numbers of flags, as N 3, Z 2, C 1 and V 0.
const FLAGS: [u8; 4] = [3, 2, 1, 0];

/// The number is in a set that has a bit for each.
fn is_in(set: u32, n: u8) -> bool
    ensures { result ≡ sets.is_in set n }
{
    if n >= 32 {
        return false;
    }
    (set >> n) % 2 == 1
}

/// Those of some numbers that are in a set. The error is want of memory.
fn members(alloc: Global, set: u32, numbers: &[u8]) -> Result<Vec<u8>, AllocError>
    ensures { IfOk result (λ v. v.items ≡ filter (sets.is_in set) numbers.now) }
{
    let mut out = Vec::new(alloc);
    for number in numbers {
        if !is_in(set, *number) {
            continue;
        }
        out.push(*number)?;
    }
    Ok(out)
}

/// What a contract may change. The error is want of memory.
fn change_of(alloc: Global, contract: &Contract) -> Result<ContractChanges, AllocError>
    ensures { IfOk result (λ c. told_change c ≡ said_of contract.now) }
{
    let registers = members(alloc, contract.registers, &REGISTERS)?;
    let flags = members(alloc, contract.flags as u32, &FLAGS)?;
    Ok(ContractChanges {
        at: contract.at,
        registers,
        flags,
    })
}

/// Appends what a contract may change.
fn add_change(changes: &mut Vec<ContractChanges>, change: ContractChanges) -> Result<(), AllocError>
    ensures { OnOk result (map told_change changes.new.items ≡ map told_change changes.old.items ++ told_change change ∷ []) }
{
    changes.push(change)?;
    Ok(())
}

/// What each of some contracts may change. The error is want of memory.
fn all_changes(alloc: Global, contracts: &[Contract]) -> Result<Vec<ContractChanges>, AllocError>
    ensures { IfOk result (λ v. map told_change v.items ≡ map said_of contracts.now) }
{
    let mut changes = Vec::new(alloc);
    for contract in contracts {
        let change = change_of(alloc, contract)?;
        add_change(&mut changes, change)?;
    }
    Ok(changes)
}

/// What contracts may change, by their addresses.
///
/// # Errors
///
/// Want of memory.
pub fn changes_of(alloc: Global, contracts: &[Contract]) -> Result<Vec<ContractChanges>, AllocError>
    ensures { (a : ℕ) → IfOk result (λ v. changes_at v.items a ≡ option_map changes_in (contract_at (map contract_of contracts.now) a)) }
{
    let changes = all_changes(alloc, contracts)?;
    Ok(changes)
}
