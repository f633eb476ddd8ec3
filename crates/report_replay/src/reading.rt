//! What the text of a report says, where the file gives some bytes.
ghost use Rattle.std.specs.Prelude.{◌≡◌, ℕ, ◌+◌, ◌≤◌, ◌<◌, ◌^◌, IfOk, MatchOption, length};
ghost use Rattle.bilv_spec.specs.Files.{program_of};
ghost use Rattle.machine_spec.specs.Machine.{Machine};
ghost use Rattle.bilv_spec.specs.Points.{is_known_at};
ghost use Rattle.machine_spec.specs.StateText.{Told, StateRefused, StateByteFault, state_of};
ghost use Rattle.start_value.specs.Starts.{layout_of};
ghost use Rattle.state_text.specs.Readings.{told_but};
ghost use Rattle.notes_value.specs.NoteViews.{notes_of};
ghost use Rattle.report_replay.specs.Readings.{told_of, AreAlike};

use elf32_reader::Image;
use known_bytes::{Stretch, known_stretch};
use notes_value::Notes;
use start_value::Layout;
use state_text::{ParseFault, StateFault, StateText, parse_state};
use std::alloc::{AllocError, Global};

/// What a text says: a state, or nothing, refused at a line.
#[derive(Drop)]
pub enum Reading {
    /// The state.
    State(StateText),
    /// The first refused line, counted from 1, with its least fault.
    Refused { line: u64, kind: StateFault },
}

/// Addresses from a first one on that are alike: the file gives the byte of each, or of none.
#[derive(Clone, Copy)]
struct Alike {
    first: u32,
    stretch: Stretch,
}

/// The alike addresses among which one is: those that were seen last where it is one of them, and else those from it on. So rising addresses are asked for once
/// in each stretch.
fn alike_at(image: &Image, notes: &Notes, seen: Alike, at: u32) -> Alike
    requires { AreAlike image.now notes.now seen }
    ensures alike { AreAlike image.now notes.now result }
    ensures low { result.first ≤ at }
    ensures high { at ≤ result.stretch.last }
{
    if seen.first <= at && at <= seen.stretch.last {
        return seen;
    }
    Alike {
        first: at,
        stretch: known_stretch(image, notes, at),
    }
}

/// The number of the first line of a byte that the file gives, for bytes on lines that follow each other from a number on.
pub fn known_line(image: &Image, notes: &Notes, bytes: &[(u32, u8)], first: u64) -> Option<u64>
    requires { first < 2 ^ 32 }
    ensures { (m : Machine) (entry : ℕ) (told : Told) →
        let known = is_known_at (program_of m image.now (notes_of notes.now) entry) in
        MatchOption result (told_but known first bytes.now told ≡ told) (λ n. told_but known first bytes.now told ≡ StateRefused n StateByteFault) }
{
    let mut seen = Alike {
        first: 0,
        stretch: known_stretch(image, notes, 0),
    };
    for i in 0..bytes.len() {
        seen = alike_at(image, notes, seen, bytes[i].0);
        if seen.stretch.known {
            return Some(first + i as u64);
        }
    }
    None
}

/// A reading of a text with these bytes, but for one that the file gives, whose line is refused.
fn unless_known(image: &Image, notes: &Notes, bytes: &[(u32, u8)], first: u64) -> Option<Reading>
    requires { first < 2 ^ 32 }
    ensures { (m : Machine) (entry : ℕ) (told : Told) →
        let known = is_known_at (program_of m image.now (notes_of notes.now) entry) in
        MatchOption result (told_but known first bytes.now told ≡ told) (λ r. told_but known first bytes.now told ≡ told_of r) }
{
    match known_line(image, notes, bytes, first) {
        None => None,
        Some(line) => Some(Reading::Refused {
            line,
            kind: StateFault::Byte,
        }),
    }
}

/// What a text says in the layout of its machine, where the file and the notes of a program give some bytes, of which no line may speak.
///
/// # Errors
///
/// Want of memory.
pub fn read_text(
    alloc: Global,
    image: &Image,
    notes: &Notes,
    layout: Layout,
    text: &[u8],
) -> Result<Reading, AllocError>
    ensures { (m : Machine) (entry : ℕ) → IfOk result (λ r.
        state_of (layout_of layout) (is_known_at (program_of m image.now (notes_of notes.now) entry)) text.now ≡ told_of r) }
{
    let first = layout.head_lines() + 1;
    match parse_state(alloc, text, layout) {
        Ok(state) => match unless_known(image, notes, &state.start.bytes, first) {
            None => Ok(Reading::State(state)),
            Some(refused) => Ok(refused),
        },
        Err(ParseFault::Refused { line, kind, bytes }) => {
            match unless_known(image, notes, &bytes, first) {
                None => Ok(Reading::Refused { line, kind }),
                Some(refused) => Ok(refused),
            }
        }
        Err(ParseFault::Memory) => Err(AllocError),
    }
}
