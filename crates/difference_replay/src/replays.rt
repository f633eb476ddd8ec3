//! The judgement of a named difference.
ghost use Rattle.std.specs.Prelude.{◌≡◌, ◌+◌, ◌∷◌, ◌≤◌, ◌<◌, ◌^◌, map, length, IfOk};
ghost use Rattle.word_spec.specs.Texts.{split_lines};
ghost use Rattle.machine_spec.specs.StateText.{last_step, line_of, told_of};
ghost use Rattle.call_spec.specs.Calls.{plain_answer};
ghost use Rattle.bilv_spec.specs.Points.{is_known_at};
ghost use Rattle.pair_spec.specs.Differs.{some_ending, second_told, blocks_told, side_end, found_text, exit_at, by_exits, by_starts, by_told, differ_answer};
ghost use Rattle.start_value.specs.Starts.{written_of};
ghost use Rattle.links_lang.specs.Views.{links_of, AreLinksOf};
ghost use Rattle.pair_sides.specs.Sides.{side_of, IsSided, program_of_side};
ghost use Rattle.difference_replay.specs.Named.{named_of, AreSteps};
ghost use Rattle.difference_replay.specs.Sides.{start_of_side, IsBegun};
ghost use Rattle.difference_replay.specs.Pairs.{first_of, second_of, links_in, IsPair};
ghost use Rattle.difference_replay.specs.Texts.{word_of};

use crate::blocks::{first_block, last_block};
use crate::machines::{end_of, enter, leave};
use crate::named::{NamedDifference, difference_in};
use crate::probes::{Half, RunEnd, first_unlike, probes};
use crate::sides::Entered;
use crate::texts::{compared, faulted, found_end, unlinked};
use line_tokens::first_line;
use links_lang::Link;
use pair_sides::Sided;
use report_replay::{REPORT_LIMIT, Reading, Replay, read_text, refused, too_large};
use start_value::Start;
use state_text::StateFault;
use std::alloc::{AllocError, Global};

/// Two functions with their links.
#[derive(Clone, Copy)]
pub(crate) struct Pair<'s, 'a> {
    first: &'s Sided<'a>,
    second: &'s Sided<'a>,
    links: &'s [Link],
}

/// The answer where the run of a side does not exit by the named step. The error is out of memory.
fn ended(
    alloc: Global,
    side: &Sided,
    start: &Start,
    number: u64,
    named: NamedDifference,
    half: Half,
) -> Result<Replay, AllocError>
    requires begun { IsBegun side.now start.now }
    requires number { number ≤ last_step }
    ensures { IfOk result (λ r. plain_answer r.status r.text.items ≡ plain_answer 9 (found_text (named_of named)
        (side_end (word_of half) (program_of_side side.now) (start_of_side side.now start.now) number))) }
{
    let ending = end_of(alloc, side, start, number)?;
    let replay = found_end(alloc, named, half, number, ending)?;
    Ok(replay)
}

/// The answer by the runs of two starts. The error is out of memory.
fn replay_runs(
    alloc: Global,
    pair: &Pair,
    named: NamedDifference,
    x: &Start,
    y: &Start,
) -> Result<Replay, AllocError>
    requires pair { IsPair pair.now }
    requires steps { AreSteps named }
    requires first { IsBegun pair.now.first.now x.now }
    requires second { IsBegun pair.now.second.now y.now }
    ensures { let a = first_of pair.now in let b = second_of pair.now in
        let s = start_of_side pair.now.first.now x.now in let t = start_of_side pair.now.second.now y.now in
        IfOk result (λ r. plain_answer r.status r.text.items
        ≡ by_exits a.program b.program (links_in pair.now) (named_of named) s t (exit_at a.program s named.first) (exit_at b.program t named.second)) }
{
    let places = probes(alloc, RunEnd::Exit, pair.links)?;
    let Some(first) = leave(alloc, pair.first, x, named.first, Half::First, &places)? else {
        return ended(alloc, pair.first, x, named.first, named, Half::First);
    };
    let Some(second) = leave(alloc, pair.second, y, named.second, Half::Second, &places)? else {
        return ended(alloc, pair.second, y, named.second, named, Half::Second);
    };
    compared(alloc, named, first_unlike(&places, &first, &second))
}

/// The answer by two starts. The error is out of memory.
fn replay_starts(
    alloc: Global,
    pair: &Pair,
    named: NamedDifference,
    x: &Start,
    y: &Start,
) -> Result<Replay, AllocError>
    requires pair { IsPair pair.now }
    requires steps { AreSteps named }
    requires first { IsBegun pair.now.first.now x.now }
    requires second { IsBegun pair.now.second.now y.now }
    ensures { IfOk result (λ r. plain_answer r.status r.text.items ≡ by_starts (first_of pair.now) (second_of pair.now) (links_in pair.now) (named_of named)
        (start_of_side pair.now.first.now x.now) (start_of_side pair.now.second.now y.now)) }
{
    let places = probes(alloc, RunEnd::Entry, pair.links)?;
    let first = match enter(alloc, pair.first, x, Half::First, &places)? {
        Entered::Values(values) => values,
        Entered::Faulty(fault) => return faulted(alloc, Half::First, fault),
    };
    let second = match enter(alloc, pair.second, y, Half::Second, &places)? {
        Entered::Values(values) => values,
        Entered::Faulty(fault) => return faulted(alloc, Half::Second, fault),
    };
    match first_unlike(&places, &first, &second) {
        Some(line) => unlinked(alloc, line),
        None => replay_runs(alloc, pair, named, x, y),
    }
}

/// The answer by the first start and the second block, which stands after so many lines of the first. The error is out of memory.
fn replay_last(
    alloc: Global,
    pair: &Pair,
    named: NamedDifference,
    x: &Start,
    lines: u64,
    text: &[u8],
) -> Result<Replay, AllocError>
    requires pair { IsPair pair.now }
    requires steps { AreSteps named }
    requires first { IsBegun pair.now.first.now x.now }
    requires few { lines + length text.now < 2 ^ 32 }
    ensures { let b = second_of pair.now in
        IfOk result (λ r. plain_answer r.status r.text.items ≡ by_told (first_of pair.now) b (links_in pair.now) (named_of named)
        (second_told (1 + lines) (written_of x.now)
        (told_of b.layout (is_known_at b.program) (some_ending ∷ map (line_of b.layout) (split_lines text.now))))) }
{
    let block = last_block(alloc, text)?;
    let side = pair.second;
    match read_text(alloc, side.image, side.notes, side.layout, &block)? {
        Reading::Refused { line, kind } => refused(alloc, lines + line, kind),
        Reading::State(state) => replay_starts(alloc, pair, named, x, &state.start),
    }
}

/// The answer by the two blocks. The error is out of memory.
fn replay_blocks(
    alloc: Global,
    pair: &Pair,
    named: NamedDifference,
    text: &[u8],
) -> Result<Replay, AllocError>
    requires pair { IsPair pair.now }
    requires steps { AreSteps named }
    requires few { length text.now < 2 ^ 30 }
    ensures { IfOk result (λ r. plain_answer r.status r.text.items ≡ by_told (first_of pair.now) (second_of pair.now) (links_in pair.now) (named_of named)
        (blocks_told (first_of pair.now) (second_of pair.now) (split_lines text.now))) }
{
    let block = first_block(alloc, text)?;
    let side = pair.first;
    match read_text(alloc, side.image, side.notes, side.layout, &block.text)? {
        Reading::Refused { line, kind } => refused(alloc, line, kind),
        Reading::State(state) => {
            replay_last(alloc, pair, named, &state.start, block.lines, block.rest)
        }
    }
}

/// Runs two functions again from the states of a report: `text` is a line `differs N steps I J` and two blocks of states, of the first function and of the
/// second. The answer is the first of its causes: the text is longer than [`REPORT_LIMIT`] bytes; a line of it is refused, among others a byte's that its file
/// gives; one of the states, the first before the second, is no entry state, by its link register or by a require line; they do not agree on a link; a run,
/// the first before the second, does not exit by the step that is named; and else whether the exit states differ first on the line that is named.
///
/// # Errors
///
/// Out of memory.
pub fn replay_two(
    alloc: Global,
    first: &Sided,
    second: &Sided,
    links: &[Link],
    text: &[u8],
) -> Result<Replay, AllocError>
    requires first { IsSided first.now }
    requires second { IsSided second.now }
    requires links { AreLinksOf first.now.layout second.now.layout links.now }
    ensures { IfOk result (λ r. plain_answer r.status r.text.items
        ≡ differ_answer (side_of first.now) (side_of second.now) (links_of links.now) text.now) }
{
    if text.len() > REPORT_LIMIT {
        return too_large(alloc);
    }
    if text.is_empty() {
        return refused(alloc, 1, StateFault::Register);
    }
    let (line, blocks) = first_line(text);
    let Some(named) = difference_in(alloc, line)? else {
        return refused(alloc, 1, StateFault::Line);
    };
    let pair = Pair {
        first,
        second,
        links,
    };
    replay_blocks(alloc, &pair, named, blocks)
}
