//! What the contract steps of points may change.
ghost use Rattle.std.specs.Prelude.{◌≡◌, ℕ, ◌<◌, true, false, length, map, nat_eq, nat_lt, slice_index_or};
ghost use Rattle.std.specs.List.{list_any};
ghost use Rattle.frame_spec.specs.FrameWalk.{Gift};
ghost use Rattle.frame_terms.specs.PassiveFrames.{IsGiftAt};
ghost use Rattle.notes_value.specs.FrameViews.{contract_of};
ghost use Rattle.question_form.specs.FrameViews.{frame_unrolled_of, is_contract, no_contract};
ghost use Rattle.frame_start.specs.Changes.{AreChanges, changed_flags, changed_registers};

use notes_value::Contract;
use question_form::{Deed, Unrolled};

/// The registers and the flags that a contract may change, as sets.
#[derive(Clone, Copy)]
pub struct Changed {
    pub registers: u32,
    pub flags: u8,
}

/// Whether a contract may change a register.
pub fn changes_register(changed: Changed, number: u8) -> bool
    ensures { result ≡ list_any (nat_eq number) (changed_registers changed) }
{
    if number < 32 {
        return (changed.registers >> number) % 2 == 1;
    }
    false
}

/// Whether a contract may change a flag.
pub fn changes_flag(changed: Changed, number: u8) -> bool
    ensures { result ≡ list_any (nat_eq number) (changed_flags changed) }
{
    if number < 4 {
        return (changed.flags >> number) % 2 == 1;
    }
    false
}

/// What the contract of a number may change; nothing where there is none.
fn changed_by(stepped: &[Contract], number: usize) -> Changed
    ensures registers { (slice_index_or (map contract_of stepped.now) number no_contract).registers ≡ changed_registers result }
    ensures flags { (slice_index_or (map contract_of stepped.now) number no_contract).flags ≡ changed_flags result }
{
    if number < stepped.len() {
        Changed {
            registers: stepped[number].registers,
            flags: stepped[number].flags,
        }
    } else {
        Changed {
            registers: 0,
            flags: 0,
        }
    }
}

/// Whether a contract step is made at a point.
pub fn is_contract_step(deed: Deed) -> bool
    ensures { result ≡ is_contract deed }
{
    match deed {
        Deed::Row => false,
        Deed::Arrival => false,
        Deed::Contract(_) => true,
    }
}

/// What the contract step of a point may change; none where no contract step is made.
pub fn changes_at(unrolled: &Unrolled, place: usize) -> Option<Changed>
    requires { place < length unrolled.now.points.items }
    ensures { AreChanges (frame_unrolled_of unrolled.now) place result }
{
    match unrolled.points[place].deed {
        Deed::Row => None,
        Deed::Arrival => None,
        Deed::Contract(number) => Some(changed_by(unrolled.stepped, number)),
    }
}

/// Whether some contract step is made.
pub fn steps_over(unrolled: &Unrolled) -> bool
    ensures { result ≡ false → (i : ℕ) (g : Gift) → ¬ IsGiftAt (frame_unrolled_of unrolled.now) i g }
{
    for i in 0..unrolled.points.len() {
        if is_contract_step(unrolled.points[i].deed) {
            return true;
        }
    }
    false
}
