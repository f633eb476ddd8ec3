//! The texts of answers.
ghost use Rattle.std.specs.Prelude.{◌≡◌, ◌++◌, ◌∷◌, ◌≤◌, [], None, IfOk, OnOk, codes};
ghost use Rattle.word_spec.specs.State.{State};
ghost use Rattle.word_spec.specs.Texts.{line, joined, spaced, number_text};
ghost use Rattle.machine_spec.specs.StateText.{last_step};
ghost use Rattle.call_spec.specs.Calls.{Answer, plain_answer};
ghost use Rattle.bilv_spec.specs.Run.{Program};
ghost use Rattle.bilv_spec.specs.Reports.{found_words, turns_within};
ghost use Rattle.bilv_spec.specs.EntryFaults.{IsEntryStateFault};
ghost use Rattle.pair_spec.specs.Equals.{differs_words};
ghost use Rattle.pair_spec.specs.Differs.{found_text, by_state, by_line};
ghost use Rattle.table_run.specs.Endings.{fault_of, found_of, IsLinesFault};
ghost use Rattle.difference_replay.specs.Named.{named_of};
ghost use Rattle.difference_replay.specs.Texts.{word_of};

use crate::named::NamedDifference;
use crate::probes::Half;
use exit_status::{DONE, TEXT_REFUSED};
use report_replay::{Replay, push_found};
use state_text::push_number;
use std::alloc::{AllocError, Global};
use table_run::{Ending, EntryFault};

/// The word of one of two functions.
fn word(half: Half) -> &'static [u8]
    ensures { result.now ≡ word_of half }
{
    match half {
        Half::First => b"first",
        Half::Second => b"second",
    }
}

/// The answer where no row can stand at the address in the link register of an entry state. The error is out of memory.
fn unaligned(alloc: Global, half: Half) -> Result<Replay, AllocError>
    ensures { IfOk result (λ r. plain_answer r.status r.text.items ≡ plain_answer 9 (line (codes "state: " ++ word_of half ++ codes " link"))) }
{
    let mut out = Vec::new(alloc);
    out.extend_from_slice(b"state: ")?;
    out.extend_from_slice(word(half))?;
    out.extend_from_slice(b" link\n")?;
    Ok(Replay {
        status: TEXT_REFUSED,
        text: out,
    })
}

/// The answer where a require line is the first of an entry state that is false. The error is out of memory.
fn false_require(alloc: Global, half: Half, at: u32) -> Result<Replay, AllocError>
    ensures { IfOk result (λ r. plain_answer r.status r.text.items
        ≡ plain_answer 9 (line (codes "state: " ++ word_of half ++ codes " require" ++ spaced (number_text at ∷ [])))) }
{
    let mut out = Vec::new(alloc);
    out.extend_from_slice(b"state: ")?;
    out.extend_from_slice(word(half))?;
    out.extend_from_slice(b" require ")?;
    push_number(alloc, &mut out, at as u64)?;
    out.push(b'\n')?;
    Ok(Replay {
        status: TEXT_REFUSED,
        text: out,
    })
}

/// The answer to a state that is no entry state. The error is out of memory.
pub(crate) fn faulted(alloc: Global, half: Half, fault: EntryFault) -> Result<Replay, AllocError>
    requires { IsLinesFault fault }
    ensures { (p : Program) (s : State) (next : Answer) → IsEntryStateFault p s (fault_of fault) →
        IfOk result (λ r. plain_answer r.status r.text.items ≡ by_state (word_of half) p s next) }
{
    match fault {
        EntryFault::Link => unaligned(alloc, half),
        EntryFault::Require { line } => false_require(alloc, half, line),
        EntryFault::Byte { .. } => unreachable!(),
    }
}

/// The answer where two entry states do not agree on a link, whose line is the first such. The error is out of memory.
pub(crate) fn unlinked(alloc: Global, at: u32) -> Result<Replay, AllocError>
    ensures { IfOk result (λ r. plain_answer r.status r.text.items ≡ plain_answer 9 (line (codes "state: links" ++ spaced (number_text at ∷ [])))) }
{
    let mut out = Vec::new(alloc);
    out.extend_from_slice(b"state: links ")?;
    push_number(alloc, &mut out, at as u64)?;
    out.push(b'\n')?;
    Ok(Replay {
        status: TEXT_REFUSED,
        text: out,
    })
}

/// Appends the words of a difference on a line, by the steps of the exits. What an `Err` leaves is open.
fn push_difference(
    alloc: Global,
    out: &mut Vec<u8>,
    difference: NamedDifference,
) -> Result<(), AllocError>
    ensures { OnOk result (out.new.items ≡ out.old.items ++ joined (differs_words difference.line difference.first difference.second)) }
{
    out.extend_from_slice(b"differs ")?;
    push_number(alloc, out, difference.line)?;
    out.extend_from_slice(b" steps ")?;
    push_number(alloc, out, difference.first)?;
    out.push(b' ')?;
    push_number(alloc, out, difference.second)?;
    Ok(())
}

/// The answer where the exits differ as is named. The error is out of memory.
fn replayed(alloc: Global, named: NamedDifference) -> Result<Replay, AllocError>
    ensures { IfOk result (λ r. plain_answer r.status r.text.items
        ≡ plain_answer 0 (line (codes "replayed " ++ joined (differs_words named.line named.first named.second)))) }
{
    let mut out = Vec::new(alloc);
    out.extend_from_slice(b"replayed ")?;
    push_difference(alloc, &mut out, named)?;
    out.push(b'\n')?;
    Ok(Replay {
        status: DONE,
        text: out,
    })
}

/// The text up to what is found in place of what is named. The error is out of memory.
fn named_text(alloc: Global, named: NamedDifference) -> Result<Vec<u8>, AllocError>
    ensures { IfOk result (λ v. v.items
        ≡ codes "replay: named " ++ joined (differs_words named.line named.first named.second) ++ codes ", found ") }
{
    let mut out = Vec::new(alloc);
    out.extend_from_slice(b"replay: named ")?;
    push_difference(alloc, &mut out, named)?;
    out.extend_from_slice(b", found ")?;
    Ok(out)
}

/// The answer where the exits agree. The error is out of memory.
fn found_equal(alloc: Global, named: NamedDifference) -> Result<Replay, AllocError>
    ensures { IfOk result (λ r. plain_answer r.status r.text.items ≡ plain_answer 9 (found_text (named_of named) (codes "equal"))) }
{
    let mut out = named_text(alloc, named)?;
    out.extend_from_slice(b"equal\n")?;
    Ok(Replay {
        status: TEXT_REFUSED,
        text: out,
    })
}

/// The answer where the exits differ first on another line. The error is out of memory.
fn found_other(alloc: Global, named: NamedDifference, at: u32) -> Result<Replay, AllocError>
    ensures { IfOk result (λ r. plain_answer r.status r.text.items
        ≡ plain_answer 9 (found_text (named_of named) (joined (differs_words at named.first named.second)))) }
{
    let found = NamedDifference {
        line: at as u64,
        first: named.first,
        second: named.second,
    };
    let mut out = named_text(alloc, named)?;
    push_difference(alloc, &mut out, found)?;
    out.push(b'\n')?;
    Ok(Replay {
        status: TEXT_REFUSED,
        text: out,
    })
}

/// The answer by the line on which the exits first differ, if they do. The error is out of memory.
pub(crate) fn compared(
    alloc: Global,
    named: NamedDifference,
    found: Option<u32>,
) -> Result<Replay, AllocError>
    ensures { IfOk result (λ r. plain_answer r.status r.text.items ≡ by_line (named_of named) found) }
{
    let Some(at) = found else {
        return found_equal(alloc, named);
    };
    if at as u64 == named.line {
        return replayed(alloc, named);
    }
    found_other(alloc, named, at)
}

/// The answer where the run of a side does not exit by the named step, by what it came to within that. The error is out of memory.
pub(crate) fn found_end(
    alloc: Global,
    named: NamedDifference,
    half: Half,
    number: u64,
    ending: Ending,
) -> Result<Replay, AllocError>
    requires { number ≤ last_step }
    ensures { IfOk result (λ r. plain_answer r.status r.text.items ≡ plain_answer 9 (found_text (named_of named)
        (word_of half ++ codes " " ++ joined (found_words (turns_within number None) (found_of ending))))) }
{
    let mut out = named_text(alloc, named)?;
    out.extend_from_slice(word(half))?;
    out.push(b' ')?;
    push_found(alloc, &mut out, number + 1, ending)?;
    out.push(b'\n')?;
    Ok(Replay {
        status: TEXT_REFUSED,
        text: out,
    })
}
