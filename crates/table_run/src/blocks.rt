//! Blocks: what contract steps are given, by their steps.
ghost use Rattle.std.specs.Prelude.{◌≡◌, ◌<◌, ◌==◌, ◌&&◌, ℕ, AllPairs, IfSome, get_or, length, map, nat_eq};
ghost use Rattle.std.specs.List.{list_any, list_all};
ghost use Rattle.std.specs.Option.{option_map};
ghost use Rattle.frame_texts_spec.specs.CallReplays as replays;
ghost use Rattle.frame_texts_spec.specs.CallReplays.{WrongAt, block_after};
ghost use Rattle.state_text.specs.Starts.{written_call_of};
ghost use Rattle.table_run.specs.Spans.{bytes_of};

use crate::spans::{Span, covers};
use state_text::CallState;

/// The block of a step.
pub(crate) fn block_at(calls: &[CallState], step: u64) -> Option<&CallState>
    requires { AllPairs (λ x y. x.step < y.step) calls.now }
    ensures first { option_map (λ c. written_call_of c.now) result ≡ replays.block_at (map written_call_of calls.now) step }
    ensures listed { IfSome result (λ c. (i : ℕ) × (i < length calls.now) × (c.now ≡ get_or calls.now i c.now)) }
{
    let i = calls.partition_point(|c| c.step < step);
    if i == calls.len() {
        return None;
    }
    if calls[i].step != step {
        return None;
    }
    Some(&calls[i])
}

/// The step of the first block after a step.
pub(crate) fn step_after(calls: &[CallState], last: u64) -> Option<u64>
    ensures { option_map WrongAt result ≡ block_after (map written_call_of calls.now) last }
{
    for call in calls {
        if call.step > last {
            return Some(call.step);
        }
    }
    None
}

/// The block is of the contract at an address, and has no byte but those that the contract may write.
pub(crate) fn is_of(call: &CallState, at: u32, spans: &[Span]) -> bool
    ensures { result ≡ ((call.now.at == at) && list_all (λ b. list_any (nat_eq b.0) (bytes_of spans.now)) call.now.bytes.items) }
{
    if call.at != at {
        return false;
    }
    all_covered(&call.bytes, spans)
}

/// Each of some bytes with their addresses is one of a list of spans.
fn all_covered(bytes: &[(u32, u8)], spans: &[Span]) -> bool
    ensures { result ≡ list_all (λ b. list_any (nat_eq b.0) (bytes_of spans.now)) bytes.now }
{
    for (at, _) in bytes {
        if !covers(spans, *at) {
            return false;
        }
    }
    true
}
