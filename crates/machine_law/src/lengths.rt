//! How many bytes rows have, and at which addresses they stand.
ghost use Rattle.std.specs.Prelude.{◌≡◌, Some};
ghost use Rattle.machine_spec.specs.Machine as table;

use crate::Machine;

/// The lower half of a word: the first halfword of a row, of a machine with rows of 2 bytes.
fn first_half(word: u32) -> u16
    ensures { result ≡ table.first_half word }
{
    (word % 0x1_0000) as u16
}

/// Whether a machine has rows of 2 bytes.
pub fn is_narrow<M: Machine>() -> bool
    ensures { result ≡ M.machine.narrow }
{
    M::width(0) == 2
}

/// The least number whose multiples are the addresses at which rows stand: 2 for a machine with rows of 2 bytes, and else 4.
pub fn unit<M: Machine>() -> u32
    ensures { result ≡ table.unit M.machine.narrow }
{
    if is_narrow::<M>() { 2 } else { 4 }
}

/// How many bytes the row of a word has, 2 or 4; where it has none, as many as its first halfword says.
pub fn length<M: Machine>(word: u32) -> u8
    ensures is { result ≡ table.width M.machine.narrow (table.first_half word) }
    ensures of_row { (row : table.Row) → M.machine.row word ≡ Some row → result ≡ row.length }
{
    M::width(first_half(word))
}

/// What is decoded of the four bytes at an address, given as a word: the word, or its first halfword alone where that is a row of 2 bytes.
pub fn taken<M: Machine>(word: u32) -> u32
    ensures { result ≡ table.taken M.machine.narrow word }
{
    let first = first_half(word);
    if M::width(first) == 2 {
        u32::from(first)
    } else {
        word
    }
}
