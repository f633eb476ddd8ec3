//! Frames by their names.
ghost use Rattle.std.specs.Prelude.{◌≡◌, ◌≤◌, length, map};
ghost use Rattle.bilv_spec.specs.Run.{Program};
ghost use Rattle.frame_texts_spec.specs.CallReplays.{rank_at, rank_named};
ghost use Rattle.notes_value.specs.FrameViews.{contract_of};
ghost use Rattle.call_text.specs.Texts.{frame_name_of};
ghost use Rattle.call_replay.specs.Readings.{whole_with};

use call_text::FrameName;
use notes_value::Contract;

/// The rank of the contract of an address; where none is there, one more than the last.
pub fn rank_at(contracts: &[Contract], at: u32) -> usize
    ensures rank { result ≡ rank_at (map contract_of contracts.now) at }
    ensures within { result ≤ length contracts.now }
{
    let mut rank = 0usize;
    while rank < contracts.len() {
        if contracts[rank].at == at {
            return rank;
        }
        rank += 1;
    }
    rank
}

/// The rank of a frame.
pub(crate) fn rank_of(contracts: &[Contract], frame: FrameName) -> usize
    ensures rank { (p : Program) → result ≡ rank_named (whole_with p contracts.now) (frame_name_of frame) }
    ensures within { result ≤ length contracts.now }
{
    match frame {
        FrameName::Entry => contracts.len(),
        FrameName::Contract { at } => rank_at(contracts, at),
    }
}
