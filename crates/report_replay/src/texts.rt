//! The texts of answers.
ghost use Rattle.std.specs.Prelude.{◌≡◌, ℕ, ◌++◌, List, Some, true, false, IfOk, OnOk, codes};
ghost use Rattle.bilv_spec.specs.Run.{Program};
ghost use Rattle.machine_spec.specs.Endings.{Start};
ghost use Rattle.machine_spec.specs.StateText.{Layout, StateRefused};
ghost use Rattle.bilv_spec.specs.Reports as reports;
ghost use Rattle.machine_spec.specs.Endings as endings;
ghost use Rattle.bilv_spec.specs.Reports.{found_words};
ghost use Rattle.word_spec.specs.Texts.{line, joined};
ghost use Rattle.call_spec.specs.Calls.{plain_answer};
ghost use Rattle.bilv_spec.specs.Replays.{sized_answer, told_answer, start_answer, require_answer, state_fault_words};
ghost use Rattle.state_text.specs.Readings.{fault_of};
ghost use Rattle.table_run.specs.Endings.{found_of};

use exit_status::TEXT_REFUSED;
use state_text::{NamedEnding, StateFault, push_ending, push_number, push_step};
use std::alloc::{AllocError, Global};
use table_run::Ending;

/// The greatest length of a report's text, in bytes.
pub const REPORT_LIMIT: usize = 268_435_456;

/// What is answered to a report.
#[derive(Drop)]
pub struct Replay {
    /// The exit status: `DONE` where the run ends as is named, else [`TEXT_REFUSED`].
    pub status: u8,
    /// The text that is printed, with its line feed.
    pub text: Vec<u8>,
}

/// The refusal with a text.
fn refusal(alloc: Global, text: &[u8]) -> Result<Replay, AllocError>
    ensures { IfOk result (λ r. plain_answer r.status r.text.items ≡ plain_answer 9 text.now) }
{
    let mut out = Vec::new(alloc);
    out.extend_from_slice(text)?;
    Ok(Replay {
        status: TEXT_REFUSED,
        text: out,
    })
}

/// The answer to a text that is too long.
///
/// # Errors
///
/// Want of memory.
pub fn too_large(alloc: Global) -> Result<Replay, AllocError>
    ensures { (p : Program) (layout : Layout) (text : List ℕ) → IfOk result (λ r. plain_answer r.status r.text.items ≡ sized_answer true p layout text) }
{
    refusal(alloc, b"state: TooLarge\n")
}

/// The answer where no row can stand at the address in the link register.
///
/// # Errors
///
/// Want of memory.
pub fn unaligned(alloc: Global) -> Result<Replay, AllocError>
    ensures { (p : Program) (named : endings.NamedEnding) (start : Start) →
        IfOk result (λ r. plain_answer r.status r.text.items ≡ start_answer false p named start) }
{
    refusal(alloc, b"state: link\n")
}

/// A fault behind the number of its line, with the line feed.
fn fault_text(kind: StateFault) -> &'static [u8]
    ensures { result.now ≡ line (codes " " ++ state_fault_words (fault_of kind)) }
{
    match kind {
        StateFault::Line => b" S1 Line\n",
        StateFault::Register => b" S2 Register\n",
        StateFault::Byte => b" S3 Byte\n",
        StateFault::Choice => b" S4 Choice\n",
        StateFault::End => b" S5 End\n",
    }
}

/// The answer to a text that is refused at a line, counted from 1.
///
/// # Errors
///
/// Want of memory.
pub fn refused(alloc: Global, line: u64, kind: StateFault) -> Result<Replay, AllocError>
    ensures { (p : Program) (layout : Layout) → IfOk result (λ r. plain_answer r.status r.text.items
        ≡ told_answer p layout (StateRefused line (fault_of kind))) }
{
    let mut out = Vec::new(alloc);
    out.extend_from_slice(b"state: line ")?;
    push_number(alloc, &mut out, line)?;
    out.extend_from_slice(fault_text(kind))?;
    Ok(Replay {
        status: TEXT_REFUSED,
        text: out,
    })
}

/// The answer where a require line is the first that is false.
///
/// # Errors
///
/// Want of memory.
pub fn false_require(alloc: Global, line: u32) -> Result<Replay, AllocError>
    ensures { (named : endings.NamedEnding) (found : reports.Found) →
        IfOk result (λ r. plain_answer r.status r.text.items ≡ require_answer (Some line) named found) }
{
    let mut out = Vec::new(alloc);
    out.extend_from_slice(b"state: require ")?;
    push_number(alloc, &mut out, line as u64)?;
    out.push(b'\n')?;
    Ok(Replay {
        status: TEXT_REFUSED,
        text: out,
    })
}

/// Appends what a run came to that was allowed `k` backward transfers. What an `Err` leaves is open.
///
/// # Errors
///
/// Want of memory.
pub fn push_found(
    alloc: Global,
    out: &mut Vec<u8>,
    k: u64,
    ending: Ending,
) -> Result<(), AllocError>
    ensures { OnOk result (out.new.items ≡ out.old.items ++ joined (found_words k (found_of ending))) }
{
    match ending {
        Ending::Exit { at, step } => {
            out.extend_from_slice(b"exit ")?;
            push_step(alloc, out, at, step)?;
            Ok(())
        }
        Ending::Failed { event, at, step } => {
            push_ending(alloc, out, NamedEnding::FailsBy { event, at, step })
        }
        Ending::Turned { at, step } => {
            push_ending(alloc, out, NamedEnding::UnknownBy { k, at, step })
        }
        Ending::Left { at, step } => {
            out.extend_from_slice(b"running ")?;
            push_step(alloc, out, at, step)?;
            Ok(())
        }
    }
}
