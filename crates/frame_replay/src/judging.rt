//! What a file, its notes and return addresses say of the lines of a text.
ghost use Rattle.std.specs.Prelude.{◌≡◌, ℕ, ◌==◌, ◌+◌, ◌<◌, ◌^◌, MatchOption, map, option_map};
ghost use Rattle.std.specs.List.{list_any};
ghost use Rattle.std.specs.List.Sorted.{IsStrictlyIncreasing};
ghost use Rattle.bilv_spec.specs.Run.{Program};
ghost use Rattle.machine_spec.specs.Machine.{Machine};
ghost use Rattle.machine_spec.specs.StateText.{StateByteFault};
ghost use Rattle.frame_spec.specs.Frames.{invariants_of};
ghost use Rattle.frame_texts_spec.specs.FrameTexts.{FramedTold, FramedRefused, OfPart, bad_return};
ghost use Rattle.frame_text.specs.Readings.{known_but, framed_but};
ghost use Rattle.start_value.specs.Starts.{layout_of};
ghost use Rattle.notes_value.specs.NoteViews.{assert_of};
ghost use Rattle.table_run.specs.FrameEnds.{frame_of};
ghost use Rattle.frame_replay.specs.Readings.{is_among, is_kept_in, checks_by, judged_lines, head_but, refusal_of};

use crate::reading::Refusal;
use elf32_reader::Image;
use frame_text::FrameFault;
use notes_value::{Assert, Notes};
use report_replay::known_line;
use start_value::Layout;
use state_text::StateFault;

/// What is judged of the lines of a head part.
#[derive(Clone, Copy)]
pub(crate) struct HeadLines<'a> {
    /// The address of the head.
    pub(crate) at: u32,
    /// The return addresses, on lines that follow the head's.
    pub(crate) stack: &'a [u32],
    /// The bytes of the head state.
    pub(crate) bytes: &'a [(u32, u8)],
}

/// The number is one of these, which rise: by binary search.
fn is_one(number: u32, rising: &[u32]) -> bool
    requires { IsStrictlyIncreasing rising.now }
    ensures { result ≡ is_among rising.now number }
{
    let i = rising.partition_point(|x| *x < number);
    if i == rising.len() {
        return false;
    }
    number == rising[i]
}

/// The address is a head: an invariant stands there, whose line is one of those numbers.
fn is_head(asserts: &[Assert], invariants: &[u32], at: u32) -> bool
    requires { IsStrictlyIncreasing invariants.now }
    ensures { (p : Program) → result ≡ list_any (λ x. x.at == at) (invariants_of (frame_of p invariants.now) (map assert_of asserts.now)) }
{
    for line in asserts {
        if line.at != at {
            continue;
        }
        if is_one(line.line, invariants) {
            return true;
        }
    }
    false
}

/// The number of the first line of a byte that is kept, for bytes on lines that follow each other from a number on.
pub fn kept_line(image: &Image, bytes: &[(u32, u8)], first: u64) -> Option<u64>
    requires { first < 2 ^ 63 }
    ensures { (told : FramedTold) → MatchOption result (known_but (is_kept_in image.now) first bytes.now told ≡ told)
        (λ n. known_but (is_kept_in image.now) first bytes.now told ≡ FramedRefused n (OfPart StateByteFault)) }
{
    for i in 0..bytes.len() {
        if image.kept(bytes[i].0) {
            return Some(first + i as u64);
        }
    }
    None
}

/// The number of the first line of an address to which no call returns, for a stack on lines that follow each other from a number on.
fn bad_line(returns: &[u32], stack: &[u32], first: u64) -> Option<u64>
    requires room { first < 2 ^ 63 }
    requires rising { IsStrictlyIncreasing returns.now }
    ensures { result ≡ bad_return (is_among returns.now) first stack.now }
{
    for i in 0..stack.len() {
        if !is_one(stack[i], returns) {
            return Some(first + i as u64);
        }
    }
    None
}

/// The first line of a head part that is refused where the head's line has the number `mark`: it names no head, or an address to which no call returns, or
/// gives a byte that is kept.
fn refused_head(
    image: &Image,
    notes: &Notes,
    invariants: &[u32],
    returns: &[u32],
    layout: Layout,
    mark: u64,
    head: HeadLines,
) -> Option<Refusal>
    requires room { mark < 2 ^ 62 }
    requires invariants { IsStrictlyIncreasing invariants.now }
    requires returns { IsStrictlyIncreasing returns.now }
    ensures { (m : Machine) (entry : ℕ) (told : FramedTold) →
        let c = checks_by m image.now notes.now invariants.now returns.now entry in
        MatchOption result (head_but (layout_of layout) c mark (judged_lines head.entry) told ≡ told)
        (λ r. head_but (layout_of layout) c mark (judged_lines head.entry) told ≡ refusal_of r) }
{
    if !is_head(&notes.asserts, invariants, head.at) {
        return Some(Refusal {
            line: mark,
            kind: FrameFault::Head,
        });
    }
    if let Some(line) = bad_line(returns, head.stack, mark + 1) {
        return Some(Refusal {
            line,
            kind: FrameFault::Head,
        });
    }
    let first = mark + head.stack.len() as u64 + layout.head_lines() - 1;
    match kept_line(image, head.bytes, first) {
        None => None,
        Some(line) => Some(Refusal {
            line,
            kind: FrameFault::OfPart(StateFault::Byte),
        }),
    }
}

/// The first line that is refused of those of the bytes at entry and of a head part.
pub(crate) fn refused_line(
    image: &Image,
    notes: &Notes,
    invariants: &[u32],
    returns: &[u32],
    layout: Layout,
    bytes: &[(u32, u8)],
    head: Option<HeadLines>,
) -> Option<Refusal>
    requires invariants { IsStrictlyIncreasing invariants.now }
    requires returns { IsStrictlyIncreasing returns.now }
    ensures { (m : Machine) (entry : ℕ) (told : FramedTold) →
        let c = checks_by m image.now notes.now invariants.now returns.now entry in
        MatchOption result (framed_but (layout_of layout) c bytes.now (option_map judged_lines head.entry) told ≡ told)
        (λ r. framed_but (layout_of layout) c bytes.now (option_map judged_lines head.entry) told ≡ refusal_of r) }
{
    let first = layout.head_lines() + 1;
    if let Some(line) = known_line(image, notes, bytes, first) {
        return Some(Refusal {
            line,
            kind: FrameFault::OfPart(StateFault::Byte),
        });
    }
    match head {
        None => None,
        Some(part) => {
            let mark = first + bytes.len() as u64;
            refused_head(image, notes, invariants, returns, layout, mark, part)
        }
    }
}
