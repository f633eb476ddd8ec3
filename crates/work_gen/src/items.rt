//! Items: the numbers of a sequence, and the row that each stands for.

ghost use Rattle.std.specs.Prelude.{◌≡◌, ◌+◌, ◌<◌, ◌≤◌, ◌^◌, ◌++◌, IfOk, length};
ghost use Rattle.command_spec.specs.Work as made;
ghost use Rattle.command_spec.specs.Work.{item_kind, item_number, item_word, item_words, next_item, result_of};

use std::alloc::{AllocError, Global};

/// `ret`.
const RETURN: u32 = 0x8067;

/// The number behind another in the sequence.
fn next_item(item: u32) -> u32
    requires { item < 2 ^ 31 }
    ensures next { result ≡ next_item item }
    ensures small { result < 2 ^ 31 }
{
    ((1_103_515_245 * item as u64 + 12_345) % 0x8000_0000) as u32
}

/// What an item does.
fn item_kind(item: u32) -> u32
    ensures { result ≡ item_kind item }
{
    item / 65536 % 4
}

/// The number that an item adds, or takes the exclusive or with.
fn item_number(item: u32) -> u32
    ensures number { result ≡ item_number item }
    ensures small { result < 2048 }
{
    item / 262_144 % 2048
}

/// The word of an item: `addi a0,a0,n`, `xori a0,a0,n`, `slli a0,a0,1` or `add a0,a0,a1`.
fn item_word(item: u32) -> u32
    ensures { result ≡ item_word item }
{
    match item_kind(item) {
        0 => item_number(item) * 0x10_0000 + 0x5_0513,
        1 => item_number(item) * 0x10_0000 + 0x5_4513,
        2 => 0x15_1513,
        _ => 0xb5_0533,
    }
}

/// What an item makes of the word in `a0`, beside that in `a1`.
fn result_of(item: u32, a0: u32, a1: u32) -> u32
    ensures { result ≡ result_of item a0 a1 }
{
    match item_kind(item) {
        0 => a0.wrapping_add(item_number(item)),
        1 => a0 ^ item_number(item),
        2 => a0.wrapping_add(a0),
        _ => a0.wrapping_add(a1),
    }
}

/// The words of a function, and what it leaves in `a0`.
#[derive(Drop)]
pub struct Computation {
    pub words: Vec<u32>,
    pub result: u32,
}

/// The words of so many items behind the seed, and of the return; and what they leave in `a0` where it is the seed and `a1` is the number of items. The error
/// is want of memory.
pub fn computed(alloc: Global, seed: u32, count: u32) -> Result<Computation, AllocError>
    requires seed { seed < 2 ^ 31 }
    ensures words { IfOk result (λ w. w.words.items ≡ item_words seed count) }
    ensures computes { IfOk result (λ w. w.result ≡ made.result seed count) }
    ensures few { IfOk result (λ w. length w.words.items ≡ count + 1) }
{
    let mut words = Vec::new(alloc);
    let mut item = seed;
    let mut a0 = seed;
    let mut left = count;
    while left > 0 {
        item = next_item(item);
        words.push(item_word(item))?;
        a0 = result_of(item, a0, count);
        left -= 1;
    }
    words.push(RETURN)?;
    Ok(Computation { words, result: a0 })
}
