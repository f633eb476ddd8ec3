//! Bytes that are stored, whether one of them is kept; and bytes at an address in a state, what is decoded of them, and whether that may be fetched.
ghost use Rattle.std.specs.Prelude.{◌≡◌};
ghost use Rattle.std.specs.Bool.{MatchBool};
ghost use Rattle.std.specs.List.{list_any};
ghost use Rattle.word_spec.specs.Memory as memory;
ghost use Rattle.machine_spec.specs.Machine as table;
ghost use Rattle.machine_spec.specs.Machine.{addresses, IsAtPlace};
ghost use Rattle.bilv_spec.specs.Elf.{loaded, is_kept};
ghost use Rattle.program_value.specs.Programs.{program_of};

use byte_mem::{Endian, View};
use elf32_reader::Image;
use machine_law::{Machine, is_narrow, taken};
use notes_value::order;
use program_value::Program;

/// One of the bytes that are stored is kept: `stored` is the first address and the number of bytes.
pub(crate) fn writes_kept(image: &Image, stored: Option<(u32, u8)>) -> bool
    ensures { result ≡ list_any (λ x. is_kept (loaded image.now x)) (addresses stored) }
{
    match stored {
        None => false,
        Some((first, count)) => any_kept(image, first, u32::from(count)),
    }
}

/// One of so many bytes from an address on is kept. Addresses wrap.
pub(crate) fn any_kept(image: &Image, first: u32, count: u32) -> bool
    ensures { result ≡ list_any (λ x. is_kept (loaded image.now x)) (memory.span first count) }
{
    let mut at = first;
    for _ in 0..count {
        if image.kept(at) {
            return true;
        }
        at = at.wrapping_add(1);
    }
    false
}

/// The number of the four bytes in a state's memory from an address on.
fn word<V: View>(state: &V, a: u32, big: bool) -> u32
    ensures { result ≡ memory.load (memory.endian big) 4 (V.view state.now).mem a }
{
    state.load(a, 4, order(big)).bits as u32
}

/// What is decoded at an address in a state.
pub(crate) fn decoded_at<M: Machine>(p: &Program<M>, state: &M::State, a: u32) -> u32
    ensures { result ≡ (program_of p.now).word (M.State.view state.now) a }
{
    taken::<M>(word(state, a, p.big))
}

/// A row can stand at the address.
pub(crate) fn is_place<M: Machine>(a: u32) -> bool
    ensures test { result ≡ table.is_place M.machine.narrow a }
    ensures place { MatchBool result (IsAtPlace M.machine.narrow a) (¬ IsAtPlace M.machine.narrow a) }
{
    if is_narrow::<M>() {
        a % 2 == 0
    } else {
        a % 4 == 0
    }
}

/// The byte in a state's memory at an address.
pub(crate) fn byte<V: View>(state: &V, a: u32) -> u8
    ensures { result ≡ (V.view state.now).mem a }
{
    state.load(a, 1, Endian::Little).bits as u8
}
