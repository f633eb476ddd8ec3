//! The frame that is asked about.
ghost use Rattle.std.specs.Prelude.{◌≡◌, ◌≤◌, ◌<◌, ◌^◌, Contains, IfOk, IfSome, length, map};
ghost use Rattle.std.specs.Option.{option_map};
ghost use Rattle.answer_spec.specs.FrameAnswers as answers;
ghost use Rattle.frame_spec.specs.Frames as frames;
ghost use Rattle.frame_spec.specs.FrameVerdict.{Whole};
ghost use Rattle.notes_value.specs.FrameViews.{contract_of};
ghost use Rattle.bilv_top.specs.Frames.{frame_named};

use crate::frame_tasks::FrameTask;
use call_replay::rank_at;
use framed_notes::number_word;
use notes_value::Contract;
use std::alloc::{AllocError, Global};

/// Contracts are at addresses of 32 bits.
fn places_are_words(contracts: &[Contract])
    ensures { (x : frames.Contract) → Contains (map contract_of contracts.now) x → x.at < 2 ^ 32 }
{
    for contract in contracts {
        let at = contract.at;
        prove!(at <= u32::MAX);
    }
}

/// The rank of the contract whose address a word is, if it is that of one. The error is want of memory.
fn rank_of_word(
    alloc: Global,
    contracts: &[Contract],
    word: &[u8],
) -> Result<Option<usize>, AllocError>
    ensures rank { IfOk result (λ o. o ≡ answers.contract_rank (map contract_of contracts.now) (answers.number_word word.now)) }
    ensures within { IfOk result (λ o. IfSome o (λ rank. rank ≤ length contracts.now)) }
{
    places_are_words(contracts);
    let Some(address) = number_word(alloc, word)? else {
        return Ok(None);
    };
    let rank = rank_at(contracts, address);
    if rank < contracts.len() {
        return Ok(Some(rank));
    }
    Ok(None)
}

/// The rank of the frame that a word names: that of the entry, which is last, where there is no word. The error is want of memory.
fn rank_named(
    alloc: Global,
    contracts: &[Contract],
    frame: Option<&str>,
) -> Result<Option<usize>, AllocError>
    ensures rank { (w : Whole) → w.contracts ≡ map contract_of contracts.now →
        IfOk result (λ o. o ≡ answers.asked_rank w (option_map (λ x. x.now) frame.entry)) }
    ensures within { IfOk result (λ o. IfSome o (λ rank. rank ≤ length contracts.now)) }
{
    match frame {
        None => Ok(Some(contracts.len())),
        Some(word) => rank_of_word(alloc, contracts, word.as_bytes()),
    }
}

/// The rank of the frame that a task is about; none where its word names no frame. The error is want of memory.
pub fn rank_asked(
    alloc: Global,
    contracts: &[Contract],
    task: FrameTask,
) -> Result<Option<usize>, AllocError>
    ensures rank { (w : Whole) → w.contracts ≡ map contract_of contracts.now → IfOk result (λ o. o ≡ answers.asked_rank w (frame_named task.entry)) }
    ensures within { IfOk result (λ o. IfSome o (λ rank. rank ≤ length contracts.now)) }
{
    match task {
        FrameTask::Script(_, _, frame) => rank_named(alloc, contracts, frame),
        FrameTask::Certificate(_, _, frame) => rank_named(alloc, contracts, frame),
        FrameTask::Report(_) => Ok(Some(contracts.len())),
        FrameTask::Graph => Ok(Some(contracts.len())),
        FrameTask::Replay(_) => Ok(Some(contracts.len())),
    }
}
