//! The heads of a frame, and its roots.
ghost use Rattle.std.specs.Prelude.{◌≡◌, ◌↔◌, ◌≤◌, ◌<◌, ℕ, IfOk, Contains, length, slice_index};
ghost use Rattle.std.specs.List.Sorted.{IsNonDecreasingBy, IsStrictlyIncreasing};
ghost use Rattle.notes_value.specs.NoteViews.{assert_of, notes_of};
ghost use Rattle.unroller.specs.Heads as specs;
ghost use Rattle.unroller.specs.Heads.{head_places};
ghost use Rattle.unroller.specs.Keys as numbers;
ghost use Rattle.unroller.specs.Roots as roots;
ghost use Rattle.unroller.specs.Roots.{AreRoots, IsGroupOf, IsRootAt};

use crate::keys::{addresses_in_order, head_of, key_of, place_in};
use notes_index::group;
use notes_value::{Assert, Notes};
use program_points::Root as Head;
use question_form::Root;
use std::alloc::{AllocError, Global};

/// Whether an assert line is an invariant.
fn is_line(invariants: &[u32], line: &Assert) -> bool
    ensures { result ≡ specs.is_line invariants.now (assert_of line.now) }
{
    let number = line.line;
    invariants.iter().any(|x| number == *x)
}

/// The addresses of the invariants, each once and rising. The error is want of memory.
pub fn heads(alloc: Global, notes: &Notes, invariants: &[u32]) -> Result<Vec<u32>, AllocError>
    ensures { IfOk result (λ v. (x : ℕ) → Contains (head_places invariants.now (notes_of notes.now).asserts) x ↔ Contains v.items x) }
{
    let mut found: Vec<u32> = Vec::new(alloc);
    for line in &notes.asserts {
        if is_line(invariants, line) {
            found.push(line.at)?;
        }
    }
    let ordered = addresses_in_order(found)?;
    Ok(ordered)
}

/// The number of the first point of the root of a number.
fn first_key(entry: u32, number: u32, head: Option<Head>) -> u128
    requires { number ≤ 16777216 }
    ensures { result ≡ roots.first_key entry number head }
{
    match head {
        None => key_of(number, 0, entry, 0, false),
        Some(head) => key_of(number, 0, head.at, head.stack, false),
    }
}

/// The part of the assert lines by address that is a head's, and none for the entry.
fn group_of(asserts: &[(u32, usize)], head: Option<Head>) -> (usize, usize)
    requires { IsNonDecreasingBy (λ x. x.0) asserts.now }
    ensures { IsGroupOf asserts.now head result }
{
    match head {
        None => (0, 0),
        Some(head) => group(asserts, head.at),
    }
}

/// The root of a number, at the place of its first point.
fn root_at(
    segments: &[u128],
    keys: &[u128],
    asserts: &[(u32, usize)],
    entry: u32,
    number: usize,
) -> Root
    requires within { number < length segments.now }
    requires short { length segments.now ≤ 16777216 }
    requires rise { IsStrictlyIncreasing keys.now }
    requires few { length keys.now ≤ 16777216 }
    requires sorted { IsNonDecreasingBy (λ x. x.0) asserts.now }
    requires first { Contains keys.now (roots.first_key entry number (numbers.head_of (slice_index segments.now number))) }
    ensures { IsRootAt segments.now keys.now asserts.now entry number result }
{
    let head = head_of(segments[number]);
    let place = place_in(keys, first_key(entry, number as u32, head));
    Root {
        place: place as u32,
        head,
        asserts: group_of(asserts, head),
    }
}

/// The roots, by the numbers of where segments begin. The error is want of memory.
pub fn roots_of(
    alloc: Global,
    segments: &[u128],
    keys: &[u128],
    asserts: &[(u32, usize)],
    entry: u32,
) -> Result<Vec<Root>, AllocError>
    requires short { length segments.now ≤ 16777216 }
    requires rise { IsStrictlyIncreasing keys.now }
    requires few { length keys.now ≤ 16777216 }
    requires sorted { IsNonDecreasingBy (λ x. x.0) asserts.now }
    requires first { (n : ℕ) → n < length segments.now → Contains keys.now (roots.first_key entry n (numbers.head_of (slice_index segments.now n))) }
    ensures { IfOk result (λ v. AreRoots segments.now keys.now asserts.now entry (length segments.now) v.items) }
{
    let mut found: Vec<Root> = Vec::with_capacity(alloc, segments.len())?;
    for number in 0..segments.len() {
        found.push(root_at(segments, keys, asserts, entry, number))?;
    }
    Ok(found)
}
