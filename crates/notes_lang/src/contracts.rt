//! Contracts as far as their lines were read.
ghost use Rattle.std.specs.Prelude.{◌≡◌, ◌<◌, ◌+◌, ◌||◌, ◌++◌, ◌∷◌, ◌==◌, [], ℕ, false, List, length, map, get_or, OnOk, IfNone, IfSome};
ghost use Rattle.std.specs.List.{list_any};
ghost use Rattle.notes_spec.specs.NotesGrammar as grammar;
ghost use Rattle.notes_spec.specs.FrameNotes.{is_flag, is_register, places_of};
ghost use Rattle.notes_value.specs.FrameViews.{is_in};
ghost use Rattle.notes_lang.specs.Contracting.{AreContracts, IsContract};
ghost use Rattle.notes_lang.specs.Saying.{contract_says};
ghost use Rattle.notes_lang.specs.Scoping.{changed_of};

use crate::notes::{Contract, NoteLine, Writes};
use crate::sayings::ContractLine;
use crate::scopes::Changed;
use std::alloc::{AllocError, Global};

/// A set of registers with one more, if that is what changes.
fn with_register(set: u32, change: Changed) -> u32
    ensures { (r : ℕ) → r < 32 → is_in result r ≡ (is_in set r || is_register r (changed_of change)) }
{
    match change {
        Changed::Register(register) => if register < 32 {
            set | (1 << register)
        } else {
            set
        },
        Changed::Flag(_) => set,
    }
}

/// A set of flags with one more, if that is what changes.
fn with_flag(set: u8, change: Changed) -> u8
    ensures { (f : ℕ) → f < 4 → is_in result f ≡ (is_in set f || is_flag f (changed_of change)) }
{
    match change {
        Changed::Flag(flag) => if flag < 4 { set | (1 << flag) } else { set },
        Changed::Register(_) => set,
    }
}

/// A set of registers with those among the changes.
fn registers_with(set: u32, changes: &[Changed]) -> u32
    ensures { (r : ℕ) → r < 32 → is_in result r ≡ (is_in set r || list_any (is_register r) (map changed_of changes.now)) }
{
    let mut all = set;
    for change in changes {
        all = with_register(all, *change);
    }
    all
}

/// A set of flags with those among the changes.
fn flags_with(set: u8, changes: &[Changed]) -> u8
    ensures { (f : ℕ) → f < 4 → is_in result f ≡ (is_in set f || list_any (is_flag f) (map changed_of changes.now)) }
{
    let mut all = set;
    for change in changes {
        all = with_flag(all, *change);
    }
    all
}

/// Adds to a contract what one more line says of it, by its number. The error is want of memory.
fn add(contract: &mut Contract, line: u32, told: ContractLine) -> Result<(), AllocError>
    ensures same { contract.new.at ≡ contract.old.at }
    ensures added { OnOk result ((earlier : List grammar.Says) → line ≡ length earlier + 1 → IsContract earlier contract.old →
        IsContract (earlier ++ contract_says contract.old.at told ∷ []) contract.new) }
{
    match told {
        ContractLine::Needs(says) => contract.needs.push(NoteLine { line, says })?,
        ContractLine::Gives(says) => contract.gives.push(NoteLine { line, says })?,
        ContractLine::Modifies(changes) => {
            contract.registers = registers_with(contract.registers, &changes);
            contract.flags = flags_with(contract.flags, &changes);
        }
        ContractLine::Writes(says, count) => contract.writes.push(Writes { line, says, count })?,
    }
    Ok(())
}

/// The place of the contract of an address.
fn place_of(contracts: &[Contract], at: u32) -> Option<usize>
    ensures found { IfSome result (λ i. (i < length contracts.now) × ((c : _) → (get_or contracts.now i c).at ≡ at)) }
    ensures none { IfNone result (list_any (λ c. c.at == at) contracts.now ≡ false) }
{
    let mut place = 0usize;
    while place < contracts.len() {
        if contracts[place].at == at {
            return Some(place);
        }
        place += 1;
    }
    None
}

/// A contract of an address of which no line says anything so far.
fn empty(alloc: Global, at: u32) -> Contract
    ensures same { result.at ≡ at }
    ensures none { (earlier : List grammar.Says) → list_any (λ a. a == at) (places_of earlier) ≡ false → IsContract earlier result }
{
    Contract {
        at,
        needs: Vec::new(alloc),
        gives: Vec::new(alloc),
        writes: Vec::new(alloc),
        registers: 0,
        flags: 0,
    }
}

/// Adds to contracts what one more line says of that of an address, by its number. The error is want of memory.
pub(crate) fn join(
    alloc: Global,
    contracts: &mut Vec<Contract>,
    line: u32,
    at: u32,
    told: ContractLine,
) -> Result<(), AllocError>
    ensures { OnOk result ((earlier : List grammar.Says) → line ≡ length earlier + 1 → AreContracts earlier contracts.old.items →
        AreContracts (earlier ++ contract_says at told ∷ []) contracts.new.items) }
{
    match place_of(contracts, at) {
        Some(place) => add(&mut contracts[place], line, told)?,
        None => {
            let mut contract = empty(alloc, at);
            add(&mut contract, line, told)?;
            contracts.push(contract)?;
        }
    }
    Ok(())
}
