//! Addresses at which rows stand.
ghost use Rattle.std.specs.Prelude.{◌≡◌};
ghost use Rattle.machine_spec.specs.Machine as table;

/// Whether a row can stand at an address: a multiple of 2 where some rows of the machine have 2 bytes, and else of 4.
pub fn is_place(narrow: bool, at: u32) -> bool
    ensures { result ≡ table.is_place narrow at }
{
    if narrow { at % 2 == 0 } else { at % 4 == 0 }
}
