//! A step before it is made, and as it is seen once it is made.
ghost use Rattle.std.specs.Prelude.{◌≡◌, ℕ, IfOk, List, length, map, option_map};
ghost use Rattle.word_spec.specs.RowFiles.{from_to};
ghost use Rattle.word_spec.specs.State.{State};
ghost use Rattle.trace_spec.specs.Seen as trace;
ghost use Rattle.seen_step.specs.Views.{IsGlance, IsLooked, change_of, changed, kind_of, seen_of};

use crate::changes::changes;
use crate::step::{Change, SeenStep, StepKind};
use crate::values::{Values, numbers, read};
use byte_mem::View;
use machine_law::Machine;
use std::alloc::{AllocError, Global};

/// A step before it is made: its number and kind, its address, how many calls have not returned, the bytes that its row stores, the places that it may change,
/// and what the state holds.
#[derive(Drop)]
pub struct Glance {
    number: u64,
    kind: StepKind,
    at: u32,
    depth: usize,
    stored: Option<(u32, u8)>,
    places: Vec<u32>,
    values: Values,
}

/// A step of a number and a kind before it is made, where so many calls have not returned: `stored` are the first address and the number of the bytes that its
/// row stores, `places` the bytes that it may change. The error is want of memory.
pub fn look<M: Machine>(
    alloc: Global,
    number: u64,
    kind: StepKind,
    state: &M::State,
    depth: usize,
    stored: Option<(u32, u8)>,
    places: Vec<u32>,
) -> Result<Glance, AllocError>
    ensures looked { IfOk result (λ g. IsLooked M.form g) }
    ensures glance { IfOk result (λ g. IsGlance M.form number (kind_of kind) (M.State.view state.now) depth stored places.items g) }
{
    let values = read::<M>(alloc, state, &places)?;
    Ok(Glance {
        number,
        kind,
        at: state.pc(),
        depth,
        stored,
        places,
        values,
    })
}

/// The registers that have another value.
fn register_changes<M: Machine>(
    alloc: Global,
    old: &Values,
    new: &Values,
) -> Result<Vec<Change>, AllocError>
    requires before { length old.now.regs.items ≡ length M.form.registers }
    requires after { length new.now.regs.items ≡ length M.form.registers }
    ensures { IfOk result (λ v. map change_of v.items
        ≡ changed (from_to M.form.first (length M.form.registers)) old.now.regs.items new.now.regs.items) }
{
    let (first, count) = M::layout().registers();
    let places = numbers(alloc, first, count)?;
    let found = changes(alloc, &places, &old.regs, &new.regs)?;
    Ok(found)
}

/// The flags that have another value.
fn flag_changes<M: Machine>(
    alloc: Global,
    old: &Values,
    new: &Values,
) -> Result<Vec<Change>, AllocError>
    requires before { length old.now.flags.items ≡ length M.form.flags }
    requires after { length new.now.flags.items ≡ length M.form.flags }
    ensures { IfOk result (λ v. map change_of v.items ≡ changed (from_to 0 (length M.form.flags)) old.now.flags.items new.now.flags.items) }
{
    let places = numbers(alloc, 0, M::layout().flag_count())?;
    let found = changes(alloc, &places, &old.flags, &new.flags)?;
    Ok(found)
}

/// A step that is made, by a look before it and the state that it leaves, in which so many calls have not returned. The error is want of memory.
pub fn seen<M: Machine>(
    alloc: Global,
    glance: &Glance,
    state: &M::State,
    later: usize,
) -> Result<SeenStep, AllocError>
    requires looked { IsLooked M.form glance.now }
    ensures { (number : ℕ) (kind : trace.StepKind) (old : State) (depth : ℕ) (stored : _) (places : List ℕ) →
        IsGlance M.form number kind old depth stored places glance.now → IfOk result (λ step. seen_of step
        ≡ trace.seen_between M.form kind number stored places old depth (M.State.view state.now) later) }
{
    let new = read::<M>(alloc, state, &glance.places)?;
    let regs = register_changes::<M>(alloc, &glance.values, &new)?;
    let flags = flag_changes::<M>(alloc, &glance.values, &new)?;
    let bytes = changes(alloc, &glance.places, &glance.values.bytes, &new.bytes)?;
    Ok(SeenStep {
        number: glance.number,
        kind: glance.kind,
        at: glance.at,
        to: state.pc(),
        depth: glance.depth,
        later,
        stored: glance.stored,
        regs,
        flags,
        bytes,
    })
}
