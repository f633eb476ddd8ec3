//! The answer that replays a difference.
ghost use Rattle.std.specs.Prelude.{◌≡◌, ◌≤◌, ℕ, List, [], ◌∷◌, IfOk};
ghost use Rattle.call_spec.specs.Calls.{AfterRead, Surroundings};
ghost use Rattle.pair_spec.specs.Differs.{differ_answer};
ghost use Rattle.links_lang.specs.Views.{AreLinksOf, links_of};
ghost use Rattle.pair_sides.specs.Sides.{IsSided, side_of};
ghost use Rattle.bilv_top.specs.Answers.{answer_of};
ghost use Rattle.bilv_top.specs.Pairs.{IsMetSince};
ghost use Rattle.io_edges.specs.Begun.{AreBegun};

use crate::answer::{Answer, Evidence, Step};
use crate::reading::read_or_answer;
use difference_replay::replay_two;
use exit_status::TEXT_REFUSED;
use io_edges::Shelf;
use links_lang::Link;
use pair_sides::Sided;
use report_replay::REPORT_LIMIT;
use std::alloc::{AllocError, Global};

/// Replays the text of a difference. The error is out of memory.
fn differ_text(
    alloc: Global,
    first: &Sided,
    second: &Sided,
    links: &[Link],
    text: &[u8],
) -> Result<Answer, AllocError>
    requires first { IsSided first.now }
    requires second { IsSided second.now }
    requires links { AreLinksOf first.now.layout second.now.layout links.now }
    ensures { IfOk result (λ a. answer_of a ≡ differ_answer (side_of first.now) (side_of second.now) (links_of links.now) text.now) }
{
    let replayed = replay_two(alloc, first, second, links, text)?;
    Ok(Answer {
        status: replayed.status,
        text: replayed.text,
        evidence: Evidence::None,
    })
}

/// The answer to the report of a name over two functions and links between them. The error is out of memory.
pub fn differ<H: Shelf>(
    alloc: Global,
    shelf: &mut H,
    first: &Sided,
    second: &Sided,
    links: &[Link],
    name: &str,
) -> Result<Answer, AllocError>
    requires first { IsSided first.now }
    requires second { IsSided second.now }
    requires links { AreLinksOf first.now.layout second.now.layout links.now }
    ensures keeps { (n : List ℕ) → H.holds shelf.new n ≡ H.holds shelf.old n }
    ensures never_falls { (n : List ℕ) → H.faults shelf.old n ≤ H.faults shelf.new n }
    ensures begun { AreBegun (H.begun shelf.old) (H.begun shelf.new) (name.now ∷ []) }
    ensures read { IfOk result (λ a. (s : Surroundings) → IsMetSince s (H.holds shelf.old) (H.faults shelf.old) (H.faults shelf.new) →
        AfterRead s name.now (λ text b. b ≡ differ_answer (side_of first.now) (side_of second.now) (links_of links.now) text) (answer_of a)) }
{
    let large = b"state: TooLarge\n";
    let text = match read_or_answer(alloc, shelf, name, REPORT_LIMIT as u64, TEXT_REFUSED, large)? {
        Step::Go(text) => text,
        Step::Answered(answer) => return Ok(answer),
    };
    let answer = differ_text(alloc, first, second, links, &text)?;
    Ok(answer)
}
