//! Questions about two functions, decided in rounds.
ghost use Rattle.std.specs.Prelude.{◌≤◌, ◌<◌, ◌+◌, IfOk, length};
ghost use Rattle.links_lang.specs.Views.{AreLinksOf, links_of};
ghost use Rattle.pair_form.specs.Views.{pair_question_of};
ghost use Rattle.question_form.specs.Questions.{program_of_question};
ghost use Rattle.pair_terms.specs.Sides.{program_of_exit};
ghost use Rattle.verdict.specs.Rounds.{AreAdded};
ghost use Rattle.pair_verdict.specs.PairRounds.{AreAskableSides, AreAsked, AreFurtherOfBoth, AreNew, AreReady, PairAnswers, first_placed, second_placed};

use crate::rounds::{Asked, PairRound, Sides, pair_round};
use crate::verdicts::PairAnswered;
use links_lang::Link;
use pair_form::PairKind;
use pair_terms::{ExitTerms, side};
use question_form::{Passive, Question};
use start_value::Layout;
use std::alloc::{AllocError, Global};
use verdict::asked_next;

/// The terms at the exits of both sides, and the passive programs of their unrolled programs.
#[derive(Drop)]
pub struct Exits<'a> {
    pub first: ExitTerms<'a>,
    pub second: ExitTerms<'a>,
    pub first_passive: Passive<'a>,
    pub second_passive: Passive<'a>,
}

/// The addresses whose bytes are asked of a side next: those that were asked, and, where some are broken, the known ones in their blocks. The error is out of
/// memory.
fn asked_more(
    alloc: Global,
    question: &Question,
    added: Vec<u32>,
    broken: &[u32],
) -> Result<Vec<u32>, AllocError>
    requires added { AreAdded (program_of_question question.now) added.items }
    requires broken { AreNew (program_of_question question.now) added.items broken.now }
    ensures are { IfOk result (λ v. AreAdded (program_of_question question.now) v.items) }
    ensures keeps { IfOk result (λ v. length added.items ≤ length v.items) }
    ensures more { IfOk result (λ v. 0 < length broken.now → length added.items < length v.items) }
{
    if broken.is_empty() {
        return Ok(added);
    }
    let more = asked_next(alloc, question, &added, broken)?;
    Ok(more)
}

/// The bytes that are asked of both sides next. The error is out of memory.
fn asked_of_both(
    alloc: Global,
    sides: &Sides,
    asked: Asked,
    broken: &Asked,
) -> Result<Asked, AllocError>
    requires asked { AreAsked (first_placed sides.now) (second_placed sides.now) asked }
    requires broken { AreFurtherOfBoth (first_placed sides.now) (second_placed sides.now) asked broken.now }
    ensures are { IfOk result (AreAsked (first_placed sides.now) (second_placed sides.now)) }
    ensures more { IfOk result (λ a. length asked.first.items + length asked.second.items < length a.first.items + length a.second.items) }
{
    let Asked {
        first: ones,
        second: twos,
    } = asked;
    let one = asked_more(alloc, &sides.first.question, ones, &broken.first)?;
    let two = asked_more(alloc, &sides.second.question, twos, &broken.second)?;
    Ok(Asked {
        first: one,
        second: two,
    })
}

/// What a question about two functions comes to by both sides, within so many conflicts of the search. The bytes of both files are asked on demand: at first
/// those of literals alone, and where values are found that have not some known bytes, those too, with the known ones beside them. The error is out of memory.
fn decide_sides(
    alloc: Global,
    sides: &Sides,
    links: &[Link],
    kind: PairKind,
    conflicts: u64,
) -> Result<PairAnswered, AllocError>
    requires some { 1 ≤ conflicts }
    requires links { (form : Layout) × (other : Layout) × AreLinksOf form other links.now }
    requires sides { AreAskableSides (links_of links.now) (pair_question_of kind) sides.now }
    ensures { IfOk result (PairAnswers (links_of links.now) (first_placed sides.now) (second_placed sides.now) (pair_question_of kind) conflicts) }
{
    let mut asked = Asked {
        first: Vec::new(alloc),
        second: Vec::new(alloc),
    };
    loop {
        match pair_round(alloc, sides, links, kind, &asked, conflicts)? {
            PairRound::Answered(answered) => return Ok(answered),
            PairRound::Broken(broken) => asked = asked_of_both(alloc, sides, asked, &broken)?,
        }
    }
}

/// What a question about two functions comes to by the terms at their exits, within so many conflicts of the search. The error is out of memory.
pub fn decide_pair(
    alloc: Global,
    exits: &Exits,
    links: &[Link],
    kind: PairKind,
    conflicts: u64,
) -> Result<PairAnswered, AllocError>
    requires some { 1 ≤ conflicts }
    requires links { (form : Layout) × (other : Layout) × AreLinksOf form other links.now }
    requires exits { AreReady links.now exits.now }
    ensures { IfOk result (PairAnswers (links_of links.now) (program_of_exit exits.now.first) (program_of_exit exits.now.second)
        (pair_question_of kind) conflicts) }
{
    let one = side(alloc, &exits.first, links, false, kind)?;
    let two = side(alloc, &exits.second, links, true, kind)?;
    let sides = Sides {
        first: &one,
        second: &two,
        first_passive: &exits.first_passive,
        second_passive: &exits.second_passive,
    };
    let answered = decide_sides(alloc, &sides, links, kind, conflicts)?;
    Ok(answered)
}
