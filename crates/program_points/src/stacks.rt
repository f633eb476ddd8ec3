//! Stacks by number, each once.
ghost use Rattle.std.specs.Prelude.{◌≡◌, ◌≤◌, IfOk, length, []};
ghost use Rattle.program_points.specs.Tables.{IsTable, IsPushed};

use crate::values::Frame;
use std::alloc::{AllocError, Global};
use std::collections::BTreeMap;

/// The stacks that were found, and the number of each by its top and the number of the stack below.
#[derive(Drop)]
pub struct Stacks {
    pub frames: Vec<Frame>,
    pub numbers: BTreeMap<(u32, usize), usize>,
}

/// The empty stack alone.
pub fn no_frames(alloc: Global) -> Stacks
    ensures table { IsTable result.frames.items result.numbers }
    ensures empty { result.frames.items ≡ [] }
{
    Stacks {
        frames: Vec::new(alloc),
        numbers: BTreeMap::new(alloc),
    }
}

/// The number of the stack with an address on the stack of a number. The error is want of memory.
pub fn pushed(stacks: &mut Stacks, top: u32, below: usize) -> Result<usize, AllocError>
    requires table { IsTable stacks.old.frames.items stacks.old.numbers }
    requires below { below ≤ length stacks.old.frames.items }
    ensures table { IfOk result (λ n. IsTable stacks.new.frames.items stacks.new.numbers) }
    ensures pushed { IfOk result (λ n. IsPushed stacks.old.frames.items stacks.new.frames.items top below n) }
{
    if let Some(number) = stacks.numbers.get(&(top, below)) {
        return Ok(*number);
    }
    stacks.frames.push(Frame { top, below })?;
    let number = stacks.frames.len();
    stacks.numbers.insert((top, below), number)?;
    Ok(number)
}
