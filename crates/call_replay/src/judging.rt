//! What a file and its notes say of the lines of a text.
ghost use Rattle.std.specs.Prelude.{◌≡◌, ℕ, ◌<◌, ◌^◌, MatchOption, Option, false, is_some};
ghost use Rattle.bilv_spec.specs.Files.{program_of};
ghost use Rattle.machine_spec.specs.Machine.{Machine};
ghost use Rattle.machine_spec.specs.StateText.{StateByteFault};
ghost use Rattle.frame_texts_spec.specs.CallTexts.{CallTold};
ghost use Rattle.frame_texts_spec.specs.FrameTexts.{Checks, FramedTold, FramedRefused, OfPart};
ghost use Rattle.frame_text.specs.Readings.{JudgedHead, known_but};
ghost use Rattle.start_value.specs.Starts.{layout_of};
ghost use Rattle.notes_value.specs.NoteViews.{notes_of};
ghost use Rattle.call_text.specs.Readings.{called_but};
ghost use Rattle.call_replay.specs.Readings.{known_in, refusal_of};

use call_text::CallFault;
use elf32_reader::Image;
use frame_replay::kept_line;
use frame_text::FrameFault;
use notes_value::Notes;
use report_replay::known_line;
use start_value::Layout;
use state_text::StateFault;

/// A line that is refused, counted from 1, with its least fault.
#[derive(Clone, Copy)]
pub(crate) struct Refusal {
    pub(crate) line: u64,
    pub(crate) kind: CallFault,
}

/// The number of the first line of a byte that is known where the run of a frame begins, of its own contract or else of the function, for bytes on lines that
/// follow each other from a number on.
fn byte_line(
    image: &Image,
    notes: &Notes,
    own: bool,
    bytes: &[(u32, u8)],
    first: u64,
) -> Option<u64>
    requires { first < 2 ^ 32 }
    ensures { (m : Machine) (entry : ℕ) (told : FramedTold) →
        let known = known_in (program_of m image.now (notes_of notes.now) entry) own in
        MatchOption result (known_but known first bytes.now told ≡ told) (λ n. known_but known first bytes.now told ≡ FramedRefused n (OfPart StateByteFault)) }
{
    if own {
        return kept_line(image, bytes, first);
    }
    known_line(image, notes, bytes, first)
}

/// The first line that is refused of those of the bytes at entry and of a head part, where no address is a head.
pub(crate) fn refused_line(
    image: &Image,
    notes: &Notes,
    own: bool,
    layout: Layout,
    bytes: &[(u32, u8)],
    has_head: bool,
) -> Option<Refusal>
    ensures { (m : Machine) (entry : ℕ) (c : Checks) (h : Option JudgedHead) (told : CallTold) →
        ((a : ℕ) → c.known a ≡ known_in (program_of m image.now (notes_of notes.now) entry) own a) → ((a : ℕ) → c.heads a ≡ false) → is_some h ≡ has_head →
        MatchOption result (called_but (layout_of layout) c bytes.now h told ≡ told)
        (λ r. called_but (layout_of layout) c bytes.now h told ≡ refusal_of r) }
{
    let first = layout.head_lines() + 1;
    if let Some(line) = byte_line(image, notes, own, bytes, first) {
        return Some(Refusal {
            line,
            kind: CallFault::OfFramed(FrameFault::OfPart(StateFault::Byte)),
        });
    }
    if has_head {
        let line = first + bytes.len() as u64;
        return Some(Refusal {
            line,
            kind: CallFault::OfFramed(FrameFault::Head),
        });
    }
    None
}
