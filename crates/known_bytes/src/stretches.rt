//! The addresses whose byte the file gives: those that are kept, and those of fixed ranges.
ghost use Rattle.std.specs.Prelude.{◌≡◌, ℕ, ◌≤◌, ◌<◌, ◌⊎◌, ◌+◌, ◌-◌, ◌^◌, not, false, MatchOption, map, true, length, slice_index};
ghost use Rattle.bilv_spec.specs.Verdict.{fixed};
ghost use Rattle.machine_spec.specs.Machine.{Machine};
ghost use Rattle.bilv_spec.specs.Files.{program_of};
ghost use Rattle.bilv_spec.specs.Points.{is_known_at};
ghost use Rattle.notes_value.specs.NoteViews.{fixed_of, notes_of};
ghost use Rattle.known_bytes.specs.Known.{is_known, IsFirstKnown};

use elf32_reader::{Image, Part};
use notes_value::{FixedRange, Notes};

/// What is told of an address and those behind it.
#[derive(Clone, Copy)]
pub struct Stretch {
    /// Whether the file gives their bytes.
    pub known: bool,
    /// The last of them, at or above the address.
    pub last: u32,
}

/// What ranges say of an address and those behind it, as far as they were read: whether one holds it, the last address up to which that range goes, and the
/// last one up to which no range begins.
#[derive(Clone, Copy)]
struct Reach {
    inside: bool,
    high: u32,
    free: u32,
}

/// One more range, for the address `a`.
fn with_range(s: Reach, range: FixedRange, a: u32) -> Reach
    requires high { a ≤ s.high }
    requires free { a ≤ s.free }
    ensures high { a ≤ result.high }
    ensures free { a ≤ result.free }
    ensures less { result.free ≤ s.free }
    ensures outside { a < range.low → result.free < range.low }
    ensures kept { s.inside ≡ true → result.inside ≡ true }
    ensures passed { range.low ≤ a → a ≤ range.high → result.inside ≡ true }
    ensures inside { result.inside ≡ true → ((range.low ≤ a) × (result.high ≤ range.high)) ⊎ ((s.inside ≡ true) × (result.high ≡ s.high)) }
{
    if range.low > a {
        if range.low <= s.free {
            return Reach {
                free: range.low - 1,
                ..s
            };
        }
        return s;
    }
    if range.high < a {
        return s;
    }
    if s.inside && range.high <= s.high {
        return s;
    }
    Reach {
        inside: true,
        high: range.high,
        free: s.free,
    }
}

/// Whether an address lies in a fixed range, and a last address up to which all from it on do as it does.
fn fixed_stretch(ranges: &[FixedRange], a: u32) -> (bool, u32)
    ensures last { a ≤ result.1 }
    ensures same { (x : ℕ) → a ≤ x → x ≤ result.1 → fixed (map fixed_of ranges.now) x ≡ result.0 }
{
    let mut s = Reach {
        inside: false,
        high: a,
        free: u32::MAX,
    };
    for range in ranges {
        s = with_range(s, *range, a);
    }
    if s.inside {
        (true, s.high)
    } else {
        (false, s.free)
    }
}

/// The first addresses from one on that stand together and are kept, or loaded and within one of the ranges, with their bytes.
pub fn first_given<'a>(image: &Image<'a>, ranges: &[FixedRange], a: u32) -> Option<Part<'a>>
    ensures { MatchOption result ((x : ℕ) → a ≤ x → x < 2 ^ 32 →
        is_known image.now (map fixed_of ranges.now) x ≡ false) (IsFirstKnown image.now (map fixed_of ranges.now) a) }
{
    let mut at = a;
    loop {
        let part = match image.part_from(at) {
            None => return None,
            Some(part) => part,
        };
        if part.kept {
            return Some(part);
        }
        let (inside, end) = fixed_stretch(ranges, part.first);
        let last = u32::min(end, part.last);
        if inside {
            return Some(Part { last, ..part });
        }
        if last == u32::MAX {
            return None;
        }
        at = last + 1;
    }
}

/// The first known addresses from one on that stand together, with their bytes.
pub fn first_known<'a>(image: &Image<'a>, notes: &Notes, a: u32) -> Option<Part<'a>>
    ensures { MatchOption result ((x : ℕ) → a ≤ x → x < 2 ^ 32 →
        is_known image.now (map fixed_of notes.now.fixed.items) x ≡ false) (IsFirstKnown image.now (map fixed_of notes.now.fixed.items) a) }
{
    first_given(image, &notes.fixed, a)
}

/// Whether the byte at an address is one that the file gives (kept, or loaded and fixed), and a last address up to which the bytes behind it are as it is, as
/// far as one segment and one range tell. One search, and a look at each range.
fn stretch_from(image: &Image, notes: &Notes, at: u32) -> Stretch
    ensures last { at ≤ result.last }
    ensures same { (m : Machine) (entry x : ℕ) → at ≤ x → x ≤ result.last → is_known_at (program_of m image.now (notes_of notes.now) entry) x ≡ result.known }
{
    let Some(part) = image.part_from(at) else {
        return Stretch {
            known: false,
            last: u32::MAX,
        };
    };
    if part.first > at {
        return Stretch {
            known: false,
            last: part.first - 1,
        };
    }
    if part.kept {
        return Stretch {
            known: true,
            last: part.last,
        };
    }
    let (known, end) = fixed_stretch(&notes.fixed, at);
    Stretch {
        known,
        last: u32::min(end, part.last),
    }
}

/// Whether the byte at an address is one that the file gives (kept, or loaded and fixed), and the last address up to which the bytes behind it are as it is.
/// One search, and a look at each range, for each segment and each range among these addresses.
pub fn known_stretch(image: &Image, notes: &Notes, at: u32) -> Stretch
    ensures last { at ≤ result.last }
    ensures same { (m : Machine) (entry x : ℕ) → at ≤ x → x ≤ result.last → is_known_at (program_of m image.now (notes_of notes.now) entry) x ≡ result.known }
    ensures end { (m : Machine) (entry : ℕ) → result.last + 1 < 2 ^ 32 →
        is_known_at (program_of m image.now (notes_of notes.now) entry) (result.last + 1) ≡ not result.known }
{
    let mut seen = stretch_from(image, notes, at);
    loop {
        if seen.last == u32::MAX {
            return seen;
        }
        let next = stretch_from(image, notes, seen.last + 1);
        if next.known != seen.known {
            return seen;
        }
        seen = next;
    }
}

/// The byte that a part has at one of its addresses.
pub fn byte_in(part: &Part, a: u32) -> u8
    requires { part.now.first ≤ a }
    ensures { result ≡ slice_index part.now.bytes.now (a - part.now.first) }
{
    let place = (a - part.first) as usize;
    if place < part.bytes.len() {
        return part.bytes[place];
    }
    0
}
