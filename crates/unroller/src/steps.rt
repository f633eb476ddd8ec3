//! What stands where contract steps are made.
ghost use Rattle.std.specs.Prelude.{◌≡◌, ◌<◌, ◌^◌, ◌++◌, ℕ, IfOk, OnOk, Contains, map, sum_by};
ghost use Rattle.frame_spec.specs.Frames as frames;
ghost use Rattle.notes_value.specs.FrameViews.{contract_of, writes_of};
ghost use Rattle.notes_value.specs.declared.notes.Contract.{Contract as ListedContract};
ghost use Rattle.unroller.specs.Keys.{place_in};
ghost use Rattle.unroller.specs.Places.{step_code};
ghost use Rattle.unroller.specs.Steps.{WritesFew, step_codes};

use notes_value::{Contract, Writes};
use question_form::Code;
use std::alloc::{AllocError, Global};

/// The addresses of contracts, in their order. The error is want of memory.
pub fn contract_addresses(alloc: Global, contracts: &[Contract]) -> Result<Vec<u32>, AllocError>
    ensures { IfOk result (λ v. v.items ≡ map (λ x. x.at) contracts.now) }
{
    let mut found: Vec<u32> = Vec::with_capacity(alloc, contracts.len())?;
    for contract in contracts {
        found.push(contract.at)?;
    }
    Ok(found)
}

/// The place of a contract's address among those of the contracts that are stepped over, in the order of their ranks.
pub fn contract_place(stepped: &[u32], at: u32) -> usize
    ensures { result ≡ place_in stepped.now at }
{
    for place in 0..stepped.len() {
        if stepped[place] == at {
            return place;
        }
    }
    stepped.len()
}

/// How many bytes are written.
fn bytes(writes: &[Writes]) -> u64
    requires { sum_by (λ w. w.count) (map writes_of writes.now) < 2 ^ 64 }
    ensures { result ≡ sum_by (λ w. w.count) (map writes_of writes.now) }
{
    let mut total: u64 = 0;
    for line in writes {
        total += line.count as u64;
    }
    total
}

/// What stands where the step of a contract is made.
fn code_of(contract: &Contract) -> Code
    requires { WritesFew contract.now }
    ensures { result ≡ step_code (contract_of contract.now) }
{
    Code {
        at: contract.at,
        length: 4,
        fetchable: false,
        list: None,
        draws: false,
        row: 1024,
        loads: 0,
        stores: bytes(&contract.writes),
        asserts: (0, 0),
    }
}

/// Adds what stands where contract steps are made, by the contracts that are stepped over and their addresses. The error is want of memory.
pub fn add_codes(
    codes: &mut Vec<Code>,
    contracts: &[Contract],
    stepped: &[u32],
    steps: &[u32],
) -> Result<(), AllocError>
    requires stepped { stepped.now ≡ map (λ x. x.at) contracts.now }
    requires among { (a : ℕ) → Contains steps.now a → Contains stepped.now a }
    requires few { (x : ListedContract) → Contains contracts.now x → WritesFew x }
    ensures { OnOk result (codes.new.items ≡ codes.old.items ++ step_codes contracts.now stepped.now steps.now) }
{
    for at in steps {
        let place = contract_place(stepped, *at);
        prove!(place < contracts.len());
        codes.push(code_of(&contracts[place]))?;
    }
    Ok(())
}
