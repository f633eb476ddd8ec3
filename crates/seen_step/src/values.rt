//! What a state holds: its registers, its flags, and some of its bytes.
ghost use Rattle.std.specs.Prelude.{◌≡◌, ◌<◌, IfOk, length, map};
ghost use Rattle.word_spec.specs.RowFiles.{from_to};
ghost use Rattle.seen_step.specs.Views.{IsValues};

use byte_mem::{Endian, View};
use machine_law::Machine;
use std::alloc::{AllocError, Global};

/// The registers and the flags of the machine's form, in the order of their numbers, and the bytes at some places.
#[derive(Drop)]
pub(crate) struct Values {
    pub(crate) regs: Vec<u32>,
    pub(crate) flags: Vec<u32>,
    pub(crate) bytes: Vec<u32>,
}

/// So many numbers from one on.
pub(crate) fn numbers(alloc: Global, first: u8, count: u8) -> Result<Vec<u32>, AllocError>
    ensures { IfOk result (λ v. v.items ≡ from_to first count) }
{
    let mut out = Vec::new(alloc);
    for i in 0..count {
        out.push(first as u32 + i as u32)?;
    }
    Ok(out)
}

/// The registers.
fn registers<M: Machine>(alloc: Global, state: &M::State) -> Result<Vec<u32>, AllocError>
    ensures { IfOk result (λ v. v.items ≡ map (M.State.view state.now).regs (from_to M.form.first (length M.form.registers))) }
{
    let (first, count) = M::layout().registers();
    let mut out = Vec::new(alloc);
    for i in 0..count {
        out.push(state.reg(first + i))?;
    }
    Ok(out)
}

/// A flag as a number.
fn flag<V: View>(state: &V, n: u8) -> u32
    requires { n < 4 }
    ensures { result ≡ (V.view state.now).flags n }
{
    state.flag(n) as u32
}

/// The flags.
fn flags<M: Machine>(alloc: Global, state: &M::State) -> Result<Vec<u32>, AllocError>
    ensures { IfOk result (λ v. v.items ≡ map (M.State.view state.now).flags (from_to 0 (length M.form.flags))) }
{
    let count = M::layout().flag_count();
    let mut out = Vec::new(alloc);
    for n in 0..count {
        out.push(flag(state, n))?;
    }
    Ok(out)
}

/// The byte at an address.
fn byte<V: View>(state: &V, a: u32) -> u32
    ensures { result ≡ (V.view state.now).mem a }
{
    state.load(a, 1, Endian::Little).bits as u32
}

/// The bytes at some places.
fn bytes<V: View>(alloc: Global, state: &V, places: &[u32]) -> Result<Vec<u32>, AllocError>
    ensures { IfOk result (λ v. v.items ≡ map (V.view state.now).mem places.now) }
{
    let mut out = Vec::new(alloc);
    for a in places {
        out.push(byte(state, *a))?;
    }
    Ok(out)
}

/// What a state holds, with its bytes at some places.
pub(crate) fn read<M: Machine>(
    alloc: Global,
    state: &M::State,
    places: &[u32],
) -> Result<Values, AllocError>
    ensures { IfOk result (λ v. IsValues M.form places.now (M.State.view state.now) v) }
{
    Ok(Values {
        regs: registers::<M>(alloc, state)?,
        flags: flags::<M>(alloc, state)?,
        bytes: bytes(alloc, state, places)?,
    })
}
