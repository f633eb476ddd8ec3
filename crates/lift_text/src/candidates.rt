//! Where the words of a file stand.

ghost use Rattle.std.specs.Prelude.{ℕ, ◌≡◌, ◌≤◌, ◌<◌, ◌+◌, ◌%◌, ◌^◌, false, length, slice_index, MatchBool, MatchOption};
ghost use Rattle.word_spec.specs.Memory as memory;
ghost use Rattle.machine_spec.specs.Machine.{IsAtPlace};
ghost use Rattle.bilv_spec.specs.LiftText.{is_given, is_word_at};
ghost use Rattle.elf32_reader.specs.Portions.{IsFirstPart};
ghost use Rattle.lift_text.specs.Found.{bytes_of, row_number, IsGivenByte, IsNextPlace, IsWordFound, IsCandidate};

use elf32_reader::{Image, Part};
use file_words::word_of;
use machine_law::{Machine, is_narrow};

/// The first number that is no address.
pub(crate) const END: u64 = 1 << 32;

/// The bytes of a row, in the file's order.
#[derive(Clone, Copy)]
pub(crate) enum RowBytes {
    Two([u8; 2]),
    Four([u8; 4]),
}

/// What stands at an address at which a row can stand.
pub(crate) enum Candidate {
    /// A word, by the bytes of its row.
    Word(RowBytes),
    /// No word, nor any before this address, at which a row can stand.
    Next(u64),
}

/// The number of two bytes, of which the first is the lowest.
fn half_of(bytes: [u8; 2]) -> u16
    ensures { result ≡ memory.number memory.Little 2 (λ i. slice_index bytes i) }
{
    u16::from_le_bytes(bytes)
}

impl RowBytes {
    /// The bytes.
    pub(crate) fn bytes(&self) -> &[u8]
        ensures { result.now ≡ bytes_of self.now }
    {
        match self {
            RowBytes::Two(bytes) => bytes.as_slice(),
            RowBytes::Four(bytes) => bytes.as_slice(),
        }
    }

    /// Their number, which is what is decoded: that of two bytes has the lowest first, and that of four is in a byte order.
    pub(crate) fn number(self, big: bool) -> u32
        ensures { result ≡ row_number (memory.endian big) self }
    {
        match self {
            RowBytes::Two(bytes) => u32::from(half_of(bytes)),
            RowBytes::Four(bytes) => word_of(bytes, big),
        }
    }
}

/// The first number from one on that is a multiple of the unit of addresses.
#[tactic(auto, using(crate::proofs::Places::even_place, crate::proofs::Places::fourth_place))]
pub(crate) fn place_from(narrow: bool, from: u64) -> u64
    requires { from ≤ 2 ^ 32 }
    ensures { IsNextPlace narrow from result }
{
    if narrow {
        (from + 1) / 2 * 2
    } else {
        (from + 3) / 4 * 4
    }
}

/// Whether a part is executable and the file gives its first byte; if not, the file gives none of its bytes.
fn begins_given(part: &Part) -> bool
    ensures { MatchBool result ((part.now.flags % 2 ≡ 1) × (0 < length part.now.bytes.now)) (part.now.flags % 2 ≡ 1 → length part.now.bytes.now ≡ 0) }
{
    part.flags % 2 == 1 && part.bytes.len() > 0
}

/// The byte at an address, where it is executable and the file gives it.
fn given_byte(image: &Image, a: u32) -> Option<u8>
    ensures { MatchOption result (is_given image.now a ≡ false) (IsGivenByte image.now a) }
{
    let Some(part) = image.part_from(a) else {
        return None;
    };
    if part.first != a {
        return None;
    }
    if !begins_given(&part) {
        return None;
    }
    let byte = part.bytes[0];
    Some(byte)
}

/// The byte that many bytes after an address, where it is executable and the file gives it.
fn given_after(image: &Image, at: u32, i: u32) -> Option<u8>
    requires { i < 4 }
    ensures { MatchOption result (is_given image.now (at + i) ≡ false) (IsGivenByte image.now (at + i)) }
{
    image.ends();
    if at > u32::MAX - i {
        return None;
    }
    given_byte(image, at + i)
}

/// The bytes of the row at an address, where each is executable and the file gives it.
fn row_at<M: Machine>(image: &Image, at: u32) -> Option<RowBytes>
    requires { IsAtPlace M.machine.narrow at }
    ensures { MatchOption result (is_word_at M.machine image.now at ≡ false) (IsWordFound M.machine image.now at) }
{
    let Some(first) = given_after(image, at, 0) else {
        return None;
    };
    let Some(second) = given_after(image, at, 1) else {
        return None;
    };
    if M::width(half_of([first, second])) == 2 {
        return Some(RowBytes::Two([first, second]));
    }
    let Some(third) = given_after(image, at, 2) else {
        return None;
    };
    let Some(fourth) = given_after(image, at, 3) else {
        return None;
    };
    Some(RowBytes::Four([first, second, third, fourth]))
}

/// The byte of a part that many bytes after its first.
fn part_byte(image: &Image, part: &Part, i: u32) -> u8
    requires part { IsFirstPart image.now part.now.first part.now }
    requires executable { part.now.flags % 2 ≡ 1 }
    requires within { i < length part.now.bytes.now }
    requires inside { part.now.first + i ≤ part.now.last }
    ensures { IsGivenByte image.now (part.now.first + i) result }
{
    part.bytes[i as usize]
}

/// The bytes of the row at the first address of a part. Bytes that the part does not have are looked for in the image, since a row may go on in another segment.
fn row_in_part<M: Machine>(image: &Image, part: &Part) -> Option<RowBytes>
    requires aligned { IsAtPlace M.machine.narrow part.now.first }
    requires part { IsFirstPart image.now part.now.first part.now }
    requires executable { part.now.flags % 2 ≡ 1 }
    ensures { MatchOption result (is_word_at M.machine image.now part.now.first ≡ false) (IsWordFound M.machine image.now part.now.first) }
{
    if part.bytes.len() < 4 {
        return row_at::<M>(image, part.first);
    }
    if part.last - part.first < 3 {
        return row_at::<M>(image, part.first);
    }
    let first = part_byte(image, part, 0);
    let second = part_byte(image, part, 1);
    if M::width(half_of([first, second])) == 2 {
        return Some(RowBytes::Two([first, second]));
    }
    let third = part_byte(image, part, 2);
    let fourth = part_byte(image, part, 3);
    Some(RowBytes::Four([first, second, third, fourth]))
}

/// What stands at an address at which a row can stand. A part of which the file gives no executable byte is passed over as a whole, however many addresses it has.
pub(crate) fn look_at<M: Machine>(image: &Image, at: u32) -> Candidate
    requires { IsAtPlace M.machine.narrow at }
    ensures { IsCandidate M.machine image.now at result }
{
    let narrow = is_narrow::<M>();
    let Some(part) = image.part_from(at) else {
        return Candidate::Next(END);
    };
    if !begins_given(&part) {
        return Candidate::Next(place_from(narrow, part.last as u64 + 1));
    }
    if part.first != at {
        return Candidate::Next(place_from(narrow, part.first as u64));
    }
    match row_in_part::<M>(image, &part) {
        Some(row) => Candidate::Word(row),
        None => Candidate::Next(place_from(narrow, at as u64 + 1)),
    }
}
