//! What a contract may change.
ghost use Rattle.std.specs.Prelude.{◌≡◌, ◌<◌, ℕ, Bool, IfSome, IsTrue, get_or, length, map};
ghost use Rattle.std.specs.Bool.{MatchBool};
ghost use Rattle.std.specs.Option.{option_map};
ghost use Rattle.frame_spec.specs.Frames as frames;
ghost use Rattle.notes_value.specs.FrameViews as sets;
ghost use Rattle.notes_value.specs.FrameViews.{contract_of};
ghost use Rattle.table_run.specs.CalledFrames.{flag_differs, flags_differ, register_differs, registers_differ};

use byte_mem::View;
use machine_law::Machine;
use notes_value::Contract;

/// The contract of an address.
pub(crate) fn contract_at(contracts: &[Contract], at: u32) -> Option<&Contract>
    ensures first { option_map (λ x. contract_of x.now) result ≡ frames.contract_at (map contract_of contracts.now) at }
    ensures listed { IfSome result (λ x. (i : ℕ) × (i < length contracts.now) × (x.now ≡ get_or contracts.now i x.now)) }
{
    for contract in contracts {
        if contract.at == at {
            return Some(contract);
        }
    }
    None
}

/// The number is in a set that has a bit for each.
pub(crate) fn is_in(set: u32, n: u8) -> bool
    requires { n < 32 }
    ensures { result ≡ sets.is_in set n }
{
    (set >> n) % 2 == 1
}

/// The machine has the register.
pub(crate) fn has_register<M: Machine>(r: u8) -> bool
    ensures test { result ≡ M.machine.has_register r }
    ensures readable { MatchBool result (IsTrue (M.State.has_register r)) (Unit {0}) }
{
    let (first, count) = M::layout().registers();
    if r < first {
        return false;
    }
    r - first < count
}

/// The machine has the register, and the contract may not change it.
pub(crate) fn keeps_register<M: Machine>(contract: &Contract, r: u8) -> bool
    requires { r < 32 }
    ensures keeps { (f : frames.Frame) → f.program.machine ≡ M.machine → result ≡ frames.keeps_register f (contract_of contract.now) r }
    ensures readable { MatchBool result (IsTrue (M.State.has_register r)) (Unit {0}) }
{
    if !has_register::<M>(r) {
        return false;
    }
    !is_in(contract.registers, r)
}

/// The machine has the flag, and the contract may not change it.
pub(crate) fn keeps_flag<M: Machine>(contract: &Contract, n: u8) -> bool
    requires { n < 4 }
    ensures keeps { (f : frames.Frame) → f.program.machine ≡ M.machine → result ≡ frames.keeps_flag f (contract_of contract.now) n }
    ensures low { MatchBool result (n < length M.form.flags) (Unit {0}) }
{
    if n >= M::layout().flag_count() {
        return false;
    }
    !is_in(u32::from(contract.flags), n)
}

/// The register differs, and the contract may not change it.
fn register_differs<M: Machine>(
    contract: &Contract,
    entry: &M::State,
    state: &M::State,
    r: u8,
) -> bool
    requires { r < 32 }
    ensures { (f : frames.Frame) → f.program.machine ≡ M.machine →
        result ≡ register_differs f (contract_of contract.now) (M.State.view entry.now) (M.State.view state.now) r }
{
    if !keeps_register::<M>(contract, r) {
        return false;
    }
    state.reg(r) != entry.reg(r)
}

/// A register differs that the contract may not change.
fn registers_differ<M: Machine>(contract: &Contract, entry: &M::State, state: &M::State) -> bool
    ensures { (f : frames.Frame) → f.program.machine ≡ M.machine →
        result ≡ registers_differ f (contract_of contract.now) (M.State.view entry.now) (M.State.view state.now) 0 32 }
{
    for r in 0..32u8 {
        if register_differs::<M>(contract, entry, state, r) {
            return true;
        }
    }
    false
}

/// The flag differs, and the contract may not change it.
fn flag_differs<M: Machine>(contract: &Contract, entry: &M::State, state: &M::State, n: u8) -> bool
    requires { n < 4 }
    ensures { (f : frames.Frame) → f.program.machine ≡ M.machine →
        result ≡ flag_differs f (contract_of contract.now) (M.State.view entry.now) (M.State.view state.now) n }
{
    if !keeps_flag::<M>(contract, n) {
        return false;
    }
    state.flag(n) != entry.flag(n)
}

/// A flag differs that the contract may not change.
fn flags_differ<M: Machine>(contract: &Contract, entry: &M::State, state: &M::State) -> bool
    ensures { (f : frames.Frame) → f.program.machine ≡ M.machine →
        result ≡ flags_differ f (contract_of contract.now) (M.State.view entry.now) (M.State.view state.now) 0 4 }
{
    for n in 0..4u8 {
        if flag_differs::<M>(contract, entry, state, n) {
            return true;
        }
    }
    false
}

/// A register or a flag differs that the contract may not change.
pub(crate) fn has_changed<M: Machine>(
    contract: &Contract,
    entry: &M::State,
    state: &M::State,
) -> bool
    ensures { (f : frames.Frame) → f.program.machine ≡ M.machine →
        result ≡ frames.has_changed f (contract_of contract.now) (M.State.view entry.now) (M.State.view state.now) }
{
    if registers_differ::<M>(contract, entry, state) {
        return true;
    }
    flags_differ::<M>(contract, entry, state)
}
