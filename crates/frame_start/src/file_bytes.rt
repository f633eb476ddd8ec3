//! The bytes of the file that a part has.
ghost use Rattle.std.specs.Prelude.{◌≡◌, None, if◌then◌else◌, map};
ghost use Rattle.walk_spec.specs.Unrolled.{byte_of_runs, is_in};
ghost use Rattle.frame_terms.specs.FrameStarts.{part_byte};
ghost use Rattle.known_bytes.specs.Runs.{run_of};
ghost use Rattle.question_form.specs.Views.{kept_of};
ghost use Rattle.question_form.specs.FrameViews.{frame_unrolled_of};

use bit_blast::known_byte;
use mem_cells::is_kept;
use question_form::Unrolled;

/// The byte that is known at an address, if it is kept.
fn kept_byte(unrolled: &Unrolled, at: u32) -> Option<u8>
    ensures { result ≡ (if is_in (map kept_of unrolled.now.kept.now) at then byte_of_runs (map run_of unrolled.now.known.items) at else None) }
{
    if is_kept(unrolled.kept, at) {
        return known_byte(&unrolled.known, at);
    }
    None
}

/// The byte of the file that a part has at an address.
pub fn file_byte(unrolled: &Unrolled, part: u32, at: u32) -> Option<u8>
    ensures { result ≡ part_byte (frame_unrolled_of unrolled.now) part at }
{
    match part {
        0 => known_byte(&unrolled.known, at),
        1 => kept_byte(unrolled, at),
        _ => None,
    }
}
