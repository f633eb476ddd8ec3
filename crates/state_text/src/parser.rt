//! Reads state texts.
ghost use Rattle.std.specs.Prelude.{◌≡◌, ℕ, ◌+◌, ◌<◌, ◌^◌, List, [], ◌∷◌, Bool, false, Option, Some, None, IfOk, IfErr, IfSome, IfNone, length, map};
ghost use Rattle.machine_spec.specs.StateText as texts;
ghost use Rattle.machine_spec.specs.StateText.{NamedLine, StateIs, StateRefused, StateLineFault, line_of, lines_of_head, told_of, state_of};
ghost use Rattle.word_spec.specs.Texts.{split_lines};
ghost use Rattle.start_value.specs.Starts.{layout_of};
ghost use Rattle.state_text.specs.Starts.{named_of, text_of};
ghost use Rattle.state_text.specs.Lines.{line_said};
ghost use Rattle.state_text.specs.Readings.{fault_of, told_but, IsRefused, HasBytes, IsRefusedBy, IsBehind, refusal_of, written_by};

use crate::draft::Draft;
use crate::progress::Progress;
use crate::start::{NamedEnding, StateText};
use crate::state_fault::{ParseFault, StateFault};
use crate::state_line::{StateLine, state_line};
use line_tokens::first_line;
use start_value::Layout;
use std::alloc::{AllocError, Global};

/// The ending that a first line says; any other line is a line fault there.
///
/// # Errors
///
/// Where memory runs out.
pub fn first_named(
    alloc: Global,
    layout: Layout,
    text: &[u8],
) -> Result<Option<NamedEnding>, AllocError>
    ensures named { IfOk result (λ o. IfSome o (λ n. line_of (layout_of layout) text.now ≡ Some (NamedLine (named_of n)))) }
    ensures other { (known : ℕ → Bool) (ls : List (Option texts.StateLine)) →
        IfOk result (λ o. IfNone o (told_of (layout_of layout) known (line_of (layout_of layout) text.now ∷ ls) ≡ StateRefused 1 StateLineFault)) }
{
    let Some(line) = state_line(alloc, layout, text)? else {
        return Ok(None);
    };
    let StateLine::Named(named) = line else {
        return Ok(None);
    };
    Ok(Some(named))
}

/// A line that may follow, or why it may not.
fn judged_line(
    alloc: Global,
    layout: Layout,
    progress: Progress,
    text: &[u8],
) -> Result<Result<StateLine, StateFault>, AllocError>
    ensures said { (before : List texts.StateLine) → IsBehind before progress →
        IfOk result (λ r. IfOk r (λ line. line_of (layout_of layout) text.now ≡ Some (line_said line))) }
    ensures accepted { (before : List texts.StateLine) → IsBehind before progress →
        IfOk result (λ r. IfOk r (λ line. refusal_of (layout_of layout) before (Some (line_said line)) ≡ None)) }
    ensures refused { (before : List texts.StateLine) → IsBehind before progress →
        IfOk result (λ r. IfErr r (λ kind. refusal_of (layout_of layout) before (line_of (layout_of layout) text.now) ≡ Some (fault_of kind))) }
{
    let Some(line) = state_line(alloc, layout, text)? else {
        return Ok(Err(StateFault::Line));
    };
    if let Some(kind) = progress.refusal(layout, line) {
        return Ok(Err(kind));
    }
    Ok(Ok(line))
}

/// What is kept of the lines behind the line of the ending.
fn read_lines(
    alloc: Global,
    layout: Layout,
    named: NamedEnding,
    text: &[u8],
) -> Result<Draft, ParseFault>
    requires { length text.now + 2 < 2 ^ 64 }
    ensures told { (known : ℕ → Bool) → IfOk result (λ d.
        told_of (layout_of layout) known (Some (NamedLine (named_of named)) ∷ map (line_of (layout_of layout)) (split_lines text.now))
        ≡ told_but known (lines_of_head (layout_of layout) + 1) d.bytes.items
        (StateIs (record { named = named_of named; start = written_by (layout_of layout) d }))) }
    ensures refused { (known : ℕ → Bool) → IfErr result (IsRefusedBy known (layout_of layout)
        (told_of (layout_of layout) known (Some (NamedLine (named_of named)) ∷ map (line_of (layout_of layout)) (split_lines text.now)))) }
    ensures bytes { IfErr result (HasBytes (Some (NamedLine (named_of named)) ∷ map (line_of (layout_of layout)) (split_lines text.now))) }
{
    let mut progress = Progress::behind_ending();
    let mut draft = Draft::new(alloc);
    let mut rest = text;
    while !rest.is_empty() {
        let (line, others) = first_line(rest);
        match judged_line(alloc, layout, progress, line)? {
            Err(kind) => return Err(draft.refused(progress.next_line(), kind)),
            Ok(line) => {
                draft.add(line)?;
                progress = progress.after(line);
                rest = others;
            }
        }
    }
    match progress.end_refusal(layout) {
        Some(kind) => Err(draft.refused(progress.next_line(), kind)),
        None => Ok(draft),
    }
}

/// The state that a text says in the layout of its machine: what [`crate::print_state`] prints is read back, and of what is printed the last
/// line feed alone may lack. Memory is taken for what is kept, and for at most eight words of a line.
///
/// Where some bytes are known, as those that a file keeps, a byte's line about one of them is refused too. The bytes of an answer, and those
/// of a fault, tell its number: they stand on lines that follow each other, of which the first has the number [`Layout::head_lines`] + 1.
///
/// # Errors
///
/// `Refused` with the first refused line, its least fault and the bytes before it, or `Memory` where memory ran out.
pub fn parse_state(alloc: Global, text: &[u8], layout: Layout) -> Result<StateText, ParseFault>
    ensures told { IfOk result (λ t. state_of (layout_of layout) (λ a. false) text.now ≡ StateIs (text_of t)) }
    ensures refused { IfErr result (IsRefused (layout_of layout) text.now) }
    ensures bytes { IfErr result (HasBytes (map (line_of (layout_of layout)) (split_lines text.now))) }
    ensures told_known { (known : ℕ → Bool) → IfOk result (λ t.
        state_of (layout_of layout) known text.now ≡ told_but known (lines_of_head (layout_of layout) + 1) t.start.bytes.items (StateIs (text_of t))) }
    ensures refused_known { (known : ℕ → Bool) →
        IfErr result (IsRefusedBy known (layout_of layout) (state_of (layout_of layout) known text.now)) }
{
    if text.is_empty() {
        return Err(Draft::new(alloc).refused(1, StateFault::Register));
    }
    let (first, rest) = first_line(text);
    let Some(named) = first_named(alloc, layout, first)? else {
        return Err(Draft::new(alloc).refused(1, StateFault::Line));
    };
    match read_lines(alloc, layout, named, rest) {
        Err(fault) => Err(fault),
        Ok(draft) => Ok(draft.into_text(layout, named)),
    }
}
