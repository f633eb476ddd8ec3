//! Reads texts of what reports over frames show.
ghost use Rattle.std.specs.Prelude.{◌≡◌, ℕ, ◌+◌, ◌++◌, ◌≤◌, ◌<◌, ◌^◌, List, Option, false, if◌then◌else◌, Some, IfErr, IfOk, IfSome, length};
ghost use Rattle.word_spec.specs.State.{Written};
ghost use Rattle.word_spec.specs.Texts.{line, split_lines};
ghost use Rattle.machine_spec.specs.Endings.{named_line};
ghost use Rattle.machine_spec.specs.StateText as starts;
ghost use Rattle.machine_spec.specs.StateText.{MachineLine, StateRefused, lines_of_head, state_of};
ghost use Rattle.frame_texts_spec.specs.FrameTexts as texts;
ghost use Rattle.frame_texts_spec.specs.FrameTexts.{Checks, FramedIs, FramedRefused, HeadFault, OfPart, bad_return, framed_of, no_checks, part_of, plain_told, some_ending, stack_of, told_behind, told_head, told_mark};
ghost use Rattle.start_value.specs.Starts.{layout_of, written_of};
ghost use Rattle.state_text.specs.Starts.{line_text};
ghost use Rattle.state_text.specs.Readings.{IsRefusedBy, fault_of};
ghost use Rattle.frame_text.specs.Texts.{framed_ending_of, framed_text_of};
ghost use Rattle.frame_text.specs.Parts.{mark_said};
ghost use Rattle.frame_text.specs.Readings.{IsFramedRefused, IsRefusedAs, IsToldAs, begun_but, head_part_told, known_but, line_of_fault, line_of_mark, lines_of_begin, registers_told, stack_but};

use crate::ending::framed_ending;
use crate::fault::{FrameFault, FramedFault, Seen, SeenHead};
use crate::parts::{Mark, copy_part, read_stack};
use crate::text::{FramedEnding, FramedText};
use line_tokens::first_line;
use start_value::{Layout, Start};
use state_text::{
    HeadStart, NamedEnding, ParseFault, StateFault, parse_state, push_ending, push_machine,
    push_text,
};
use std::alloc::{AllocError, Global};

/// The lines of a head part, to be judged as a text of their own.
struct HeadLines {
    /// The return addresses.
    stack: Vec<u32>,
    /// The text of the lines behind the return addresses, with an ending and a machine in front.
    part: Vec<u8>,
    /// How many lines the head part has behind the return addresses, where a line that begins a head part ends them: the text has the end in its place.
    closed: Option<u64>,
}

/// The line of an ending, with which a part can be read as a text of its own.
fn opening(alloc: Global) -> Result<Vec<u8>, AllocError>
    ensures { IfOk result (λ v. v.items ≡ line (named_line some_ending)) }
{
    let mut out = Vec::new(alloc);
    let named = NamedEnding::UnknownBy {
        k: 0,
        at: 0,
        step: 0,
    };
    push_ending(alloc, &mut out, named)?;
    push_text(&mut out, b"\n")?;
    Ok(out)
}

/// The lines of an ending and of the machine, with which the registers of a head part can be read as a text of their own.
fn head_opening(alloc: Global, layout: Layout) -> Result<Vec<u8>, AllocError>
    ensures { IfOk result (λ v. v.items ≡ line (named_line some_ending) ++ line (line_text (layout_of layout) MachineLine)) }
{
    let mut out = opening(alloc)?;
    push_machine(&mut out, layout)?;
    Ok(out)
}

/// A fault before anything was read that a reader with a file judges.
fn unread(alloc: Global, fault: StateFault) -> FramedFault
    ensures { (layout : starts.Layout) (c : Checks) → IsRefusedAs layout c (FramedRefused 1 (OfPart (fault_of fault))) result }
{
    FramedFault::Refused {
        line: 1,
        kind: FrameFault::OfPart(fault),
        seen: Seen {
            bytes: Vec::new(alloc),
            head: None,
        },
    }
}

/// The fault of an entry part.
fn entry_fault(fault: ParseFault) -> FramedFault
    ensures plain { (layout : starts.Layout) (c : Checks) (n : texts.FramedEnding) (told : starts.Told) → IsRefusedBy c.known layout told fault →
        IsRefusedAs layout c (plain_told n told) result }
    ensures mark { (layout : starts.Layout) (c : Checks) (n : texts.FramedEnding) (line : ℕ) (m : texts.Mark) (rest : List (List ℕ)) (told : starts.Told) →
        IsRefusedBy c.known layout told fault → IsRefusedAs layout c (told_mark layout c n line m rest told) result }
{
    match fault {
        ParseFault::Refused { line, kind, bytes } => FramedFault::Refused {
            line,
            kind: FrameFault::OfPart(kind),
            seen: Seen { bytes, head: None },
        },
        ParseFault::Memory => FramedFault::Memory,
    }
}

/// The fault of a head part, before whose registers so many lines stand.
fn head_fault(
    before: u64,
    bytes: Vec<(u32, u8)>,
    at: u32,
    stack: Vec<u32>,
    fault: ParseFault,
) -> FramedFault
    requires some { 2 ≤ before }
    requires room { before + line_of_fault fault < 2 ^ 64 }
    ensures { (layout : starts.Layout) (c : Checks) (n : texts.FramedEnding) (w : Written) (closed : Option ℕ) (told : starts.Told) →
        before ≡ lines_of_begin layout bytes.items stack.items → IsRefusedBy c.kept layout told fault →
        IsRefusedAs layout c (begun_but layout c bytes.items at stack.items (registers_told n w at stack.items before closed told)) result }
{
    match fault {
        ParseFault::Refused {
            line,
            kind,
            bytes: others,
        } => FramedFault::Refused {
            line: before + line - 2,
            kind: FrameFault::OfPart(kind),
            seen: Seen {
                bytes,
                head: Some(SeenHead {
                    at,
                    stack,
                    bytes: others,
                }),
            },
        },
        ParseFault::Memory => FramedFault::Memory,
    }
}

/// The lines of a head part behind the line of its head's address.
fn head_lines(alloc: Global, layout: Layout, text: &[u8]) -> Result<HeadLines, AllocError>
    ensures told { (c : Checks) (n : texts.FramedEnding) (w : Written) (at place : ℕ) → IfOk result (λ h.
        told_head (layout_of layout) c n w at place (stack_of (layout_of layout) (split_lines text.now))
        ≡ stack_but (bad_return c.returns (place + 1) h.stack.items)
        (registers_told n w at h.stack.items (place + length h.stack.items) h.closed (state_of (layout_of layout) c.kept h.part.items))) }
    ensures room { IfOk result (λ h. length h.stack.items + length (split_lines h.part.items) ≤ length text.now + 3) }
    ensures closed { IfOk result (λ h. IfSome h.closed (λ count. length h.stack.items + count ≤ length text.now)) }
{
    let mut stack = Vec::new(alloc);
    let rest = read_stack(alloc, layout, &mut stack, text)?;
    let mut part = head_opening(alloc, layout)?;
    let first = copy_part(alloc, layout, &mut part, rest)?;
    match first.behind {
        None => Ok(HeadLines {
            stack,
            part,
            closed: None,
        }),
        Some(_) => {
            push_text(&mut part, b"end\n")?;
            Ok(HeadLines {
                stack,
                part,
                closed: Some(first.count),
            })
        }
    }
}

/// A fault at a line that begins a head part, behind an entry part with these bytes.
fn misplaced(line: u64, bytes: Vec<(u32, u8)>) -> FramedFault
    ensures { (layout : starts.Layout) (c : Checks) →
        IsRefusedAs layout c (known_but c.known (lines_of_head layout + 1) bytes.items (FramedRefused line HeadFault)) result }
{
    FramedFault::Refused {
        line,
        kind: FrameFault::Head,
        seen: Seen { bytes, head: None },
    }
}

/// The text whose head part begins behind this entry part, by the line of a head's address.
fn read_head(
    alloc: Global,
    layout: Layout,
    named: FramedEnding,
    start: Start,
    at: u32,
    text: &[u8],
) -> Result<FramedText, FramedFault>
    requires { line_of_mark (layout_of layout) start.bytes.items + length text.now + 4 < 2 ^ 64 }
    ensures told { (c : Checks) → IfOk result (IsToldAs (layout_of layout) c
        (head_part_told (layout_of layout) c (framed_ending_of named) (written_of start) at (split_lines text.now))) }
    ensures refused { (c : Checks) → IfErr result (IsRefusedAs (layout_of layout) c
        (head_part_told (layout_of layout) c (framed_ending_of named) (written_of start) at (split_lines text.now))) }
{
    let HeadLines {
        stack,
        part,
        closed,
    } = head_lines(alloc, layout, text)?;
    let before = layout.head_lines() + 1 + start.bytes.len() as u64 + stack.len() as u64;
    match parse_state(alloc, &part, layout) {
        Err(fault) => Err(head_fault(before, start.bytes, at, stack, fault)),
        Ok(head) => match closed {
            None => Ok(FramedText {
                named,
                start,
                head: Some(HeadStart {
                    at,
                    start: head.start,
                    stack,
                }),
            }),
            Some(count) => Err(FramedFault::Refused {
                line: before + count + 1,
                kind: FrameFault::Head,
                seen: Seen {
                    bytes: start.bytes,
                    head: Some(SeenHead {
                        at,
                        stack,
                        bytes: head.start.bytes,
                    }),
                },
            }),
        },
    }
}

/// The text of an entry part whose last line ends it in the place of a line that begins a head part.
fn read_marked(
    alloc: Global,
    layout: Layout,
    named: FramedEnding,
    part: &[u8],
    line: u64,
    mark: Mark,
    rest: &[u8],
) -> Result<FramedText, FramedFault>
    requires line { line ≡ length (split_lines part.now) }
    requires room { line + length rest.now + 4 < 2 ^ 64 }
    ensures told { (c : Checks) → IfOk result (IsToldAs (layout_of layout) c
        (told_mark (layout_of layout) c (framed_ending_of named) line (mark_said mark) (split_lines rest.now) (state_of (layout_of layout) c.known part.now))) }
    ensures refused { (c : Checks) → IfErr result (IsRefusedAs (layout_of layout) c
        (told_mark (layout_of layout) c (framed_ending_of named) line (mark_said mark) (split_lines rest.now) (state_of (layout_of layout) c.known part.now))) }
{
    let start = match parse_state(alloc, part, layout) {
        Err(fault) => return Err(entry_fault(fault)),
        Ok(text) => text.start,
    };
    let Mark::Head(at) = mark else {
        return Err(misplaced(line, start.bytes));
    };
    if !start.choices.is_empty() {
        return Err(misplaced(line, start.bytes));
    }
    read_head(alloc, layout, named, start, at, rest)
}

/// The text of an entry part behind which no head part begins.
fn read_plain(
    alloc: Global,
    layout: Layout,
    named: FramedEnding,
    part: &[u8],
) -> Result<FramedText, FramedFault>
    ensures told { (c : Checks) → IfOk result (IsToldAs (layout_of layout) c
        (plain_told (framed_ending_of named) (state_of (layout_of layout) c.known part.now))) }
    ensures refused { (c : Checks) → IfErr result (IsRefusedAs (layout_of layout) c
        (plain_told (framed_ending_of named) (state_of (layout_of layout) c.known part.now))) }
{
    match parse_state(alloc, part, layout) {
        Err(fault) => Err(entry_fault(fault)),
        Ok(text) => Ok(FramedText {
            named,
            start: text.start,
            head: None,
        }),
    }
}

/// What lines say after a first line that names this ending, as [`parse_framed`] reads them.
///
/// # Errors
///
/// As those of [`parse_framed`], where the first of these lines has the number 2.
pub fn read_parts(
    alloc: Global,
    layout: Layout,
    named: FramedEnding,
    text: &[u8],
) -> Result<FramedText, FramedFault>
    requires { length text.now + 6 < 2 ^ 64 }
    ensures told { (c : Checks) → IfOk result (IsToldAs (layout_of layout) c
        (told_behind (layout_of layout) c (Some (framed_ending_of named)) (part_of (layout_of layout) (split_lines text.now)))) }
    ensures refused { (c : Checks) → IfErr result (IsRefusedAs (layout_of layout) c
        (told_behind (layout_of layout) c (Some (framed_ending_of named)) (part_of (layout_of layout) (split_lines text.now)))) }
{
    let mut part = opening(alloc)?;
    let first = copy_part(alloc, layout, &mut part, text)?;
    match first.behind {
        None => read_plain(alloc, layout, named, &part),
        Some((mark, rest)) => {
            push_text(&mut part, b"end\n")?;
            read_marked(alloc, layout, named, &part, first.count + 2, mark, rest)
        }
    }
}

/// What a text says in the layout of its machine: what [`crate::print_framed`] prints is read back, and of what is printed the last line feed alone may
/// lack. Memory is taken in proportion to the text.
///
/// Where some bytes are known, as those that a file keeps, a byte's line about one of them is refused too, and where heads and return addresses are known,
/// the line of any other address: a fault, or a text that is read, has what the lines say of them.
///
/// # Errors
///
/// `Refused` with the first refused line, its least fault and what was read before it, or `Memory` where memory ran out.
pub fn parse_framed(alloc: Global, text: &[u8], layout: Layout) -> Result<FramedText, FramedFault>
    ensures told { IfOk result (λ t. framed_of (layout_of layout) no_checks text.now ≡ FramedIs (framed_text_of t)) }
    ensures refused { IfErr result (IsFramedRefused (framed_of (layout_of layout) no_checks text.now)) }
    ensures told_by { (c : Checks) → IfOk result (IsToldAs (layout_of layout) c (framed_of (layout_of layout) c text.now)) }
    ensures refused_by { (c : Checks) → IfErr result (IsRefusedAs (layout_of layout) c (framed_of (layout_of layout) c text.now)) }
{
    if text.is_empty() {
        return Err(unread(alloc, StateFault::Register));
    }
    let (first, rest) = first_line(text);
    let Some(named) = framed_ending(alloc, layout, first)? else {
        return Err(unread(alloc, StateFault::Line));
    };
    read_parts(alloc, layout, named, rest)
}
