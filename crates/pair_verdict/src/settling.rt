//! What the two questions about two functions come to where both hold.
ghost use Rattle.std.specs.Prelude.{◌≡◌, IfOk};
ghost use Rattle.bilv_spec.specs.Verdict as verdicts;
ghost use Rattle.bilv_spec.specs.Verdict.{IsRight};
ghost use Rattle.call_spec.specs.Calls.{PairOfStates, DifferenceOfExits};
ghost use Rattle.links_lang.specs.Views.{links_of};
ghost use Rattle.pair_spec.specs.Equals.{AreWithin};
ghost use Rattle.start_value.specs.Starts.{layout_of};
ghost use Rattle.verdict.specs.Verdicts.{budget_of};
ghost use Rattle.pair_verdict.specs.PairRounds.{IsPairAnswered};
ghost use Rattle.pair_verdict.specs.Settled.{AreExits, ArePlaced, IsSettled};
ghost use Rattle.pair_verdict.specs.Sides.{IsPair, first_program, second_program};

use crate::deciding::{Exits, decide_pair};
use crate::exits::{exit_of, first_apart};
use crate::pairs::{Both, Pair};
use crate::sides::unroll_asked;
use crate::verdicts::PairAnswered;
use cnf_form::Proof;
use pair_form::PairKind;
use pair_terms::{exit_terms, with_exit_place};
use passify::passive;
use start_value::Start;
use std::alloc::{AllocError, Global};

/// What the two questions about two functions come to where both hold.
#[derive(Drop)]
pub enum Settled {
    /// No two entry states are linked.
    NoPair(Proof),
    /// The runs from two linked starts exit in states that differ first on a line, by steps that are counted from 0.
    Differs {
        line: u32,
        first_step: u64,
        second_step: u64,
        first: Start,
        second: Start,
    },
    /// The two starts are linked, and no linked runs exit in states that differ.
    Alike {
        first: Start,
        second: Start,
        difference: Proof,
    },
    /// The conflicts did not suffice for a question.
    Conflicts {
        question: PairKind,
        proof: Proof,
    },
}

/// Both functions unrolled, with the flags that links compare asked for at the exits, which are places. The error is out of memory.
fn place_both<'a>(alloc: Global, pair: &Pair<'a>) -> Result<Both<'a>, AllocError>
    requires pair { IsPair pair.now }
    requires within { AreWithin (first_program pair.now) (second_program pair.now) (links_of pair.now.links.now) (budget_of pair.now.budget.now) }
    ensures { IfOk result (ArePlaced pair.now) }
{
    let one = unroll_asked(alloc, pair.first, pair.links, false, pair.budget)?;
    let first = with_exit_place(alloc, one)?;
    let two = unroll_asked(alloc, pair.second, pair.links, true, pair.budget)?;
    let second = with_exit_place(alloc, two)?;
    Ok(Both { first, second })
}

/// The difference of two linked starts whose runs exit in states that differ. The error is out of memory.
fn differing(alloc: Global, pair: &Pair, first: Start, second: Start) -> Result<Settled, AllocError>
    requires pair { IsPair pair.now }
    requires within { AreWithin (first_program pair.now) (second_program pair.now) (links_of pair.now.links.now) (budget_of pair.now.budget.now) }
    requires first_holds { IsRight (first_program pair.now) pair.now.budget.now.unroll verdicts.Holds }
    requires second_holds { IsRight (second_program pair.now) pair.now.budget.now.unroll verdicts.Holds }
    requires answered { IsPairAnswered (first_program pair.now) (second_program pair.now) pair.now.budget.now.unroll
        (layout_of pair.now.first.now.layout) (layout_of pair.now.second.now.layout) (links_of pair.now.links.now) DifferenceOfExits
        pair.now.budget.now.conflicts (PairAnswered.Sat first second) }
    ensures { IfOk result (IsSettled pair.now) }
{
    let one = exit_of(alloc, pair.first, pair.links, false, pair.budget, &first)?;
    let two = exit_of(alloc, pair.second, pair.links, true, pair.budget, &second)?;
    match first_apart(&one.words, &two.words) {
        Some(line) => Ok(Settled::Differs {
            line,
            first_step: one.step,
            second_step: two.step,
            first,
            second,
        }),
        None => unreachable!(),
    }
}

/// What the question of the difference comes to after linked starts were found. The error is out of memory.
fn settle_difference(
    alloc: Global,
    pair: &Pair,
    exits: &Exits,
    starts: (Start, Start),
) -> Result<Settled, AllocError>
    requires pair { IsPair pair.now }
    requires within { AreWithin (first_program pair.now) (second_program pair.now) (links_of pair.now.links.now) (budget_of pair.now.budget.now) }
    requires first_holds { IsRight (first_program pair.now) pair.now.budget.now.unroll verdicts.Holds }
    requires second_holds { IsRight (second_program pair.now) pair.now.budget.now.unroll verdicts.Holds }
    requires exits { AreExits pair.now exits.now }
    requires linked { IsPairAnswered (first_program pair.now) (second_program pair.now) pair.now.budget.now.unroll
        (layout_of pair.now.first.now.layout) (layout_of pair.now.second.now.layout) (links_of pair.now.links.now) PairOfStates
        pair.now.budget.now.conflicts (PairAnswered.Sat starts.0 starts.1) }
    ensures { IfOk result (IsSettled pair.now) }
{
    let conflicts = pair.budget.conflicts;
    match decide_pair(alloc, exits, pair.links, PairKind::Difference, conflicts)? {
        PairAnswered::Sat { first, second } => {
            let settled = differing(alloc, pair, first, second)?;
            Ok(settled)
        }
        PairAnswered::Refuted(difference) => {
            let (first, second) = starts;
            Ok(Settled::Alike {
                first,
                second,
                difference,
            })
        }
        PairAnswered::Spent(proof) => Ok(Settled::Conflicts {
            question: PairKind::Difference,
            proof,
        }),
    }
}

/// What the two questions come to by the terms at the exits. The error is out of memory.
fn settle_terms(alloc: Global, pair: &Pair, exits: &Exits) -> Result<Settled, AllocError>
    requires pair { IsPair pair.now }
    requires within { AreWithin (first_program pair.now) (second_program pair.now) (links_of pair.now.links.now) (budget_of pair.now.budget.now) }
    requires first_holds { IsRight (first_program pair.now) pair.now.budget.now.unroll verdicts.Holds }
    requires second_holds { IsRight (second_program pair.now) pair.now.budget.now.unroll verdicts.Holds }
    requires exits { AreExits pair.now exits.now }
    ensures { IfOk result (IsSettled pair.now) }
{
    let conflicts = pair.budget.conflicts;
    match decide_pair(alloc, exits, pair.links, PairKind::Pair, conflicts)? {
        PairAnswered::Sat { first, second } => {
            let settled = settle_difference(alloc, pair, exits, (first, second))?;
            Ok(settled)
        }
        PairAnswered::Refuted(proof) => Ok(Settled::NoPair(proof)),
        PairAnswered::Spent(proof) => Ok(Settled::Conflicts {
            question: PairKind::Pair,
            proof,
        }),
    }
}

/// The terms at the exits of both. The error is out of memory.
fn exits_of<'a>(alloc: Global, pair: &Pair, placed: &'a Both<'a>) -> Result<Exits<'a>, AllocError>
    requires pair { IsPair pair.now }
    requires placed { ArePlaced pair.now placed.now }
    ensures { IfOk result (AreExits pair.now) }
{
    let first = exit_terms(alloc, &placed.first, pair.links, false)?;
    let second = exit_terms(alloc, &placed.second, pair.links, true)?;
    let first_passive = passive(alloc, &placed.first)?;
    let second_passive = passive(alloc, &placed.second)?;
    Ok(Exits {
        first,
        second,
        first_passive,
        second_passive,
    })
}

/// What the two questions come to by the unrolled programs whose exits are places. The error is out of memory.
fn settle_placed(alloc: Global, pair: &Pair, placed: &Both) -> Result<Settled, AllocError>
    requires pair { IsPair pair.now }
    requires within { AreWithin (first_program pair.now) (second_program pair.now) (links_of pair.now.links.now) (budget_of pair.now.budget.now) }
    requires first_holds { IsRight (first_program pair.now) pair.now.budget.now.unroll verdicts.Holds }
    requires second_holds { IsRight (second_program pair.now) pair.now.budget.now.unroll verdicts.Holds }
    requires placed { ArePlaced pair.now placed.now }
    ensures { IfOk result (IsSettled pair.now) }
{
    let exits = exits_of(alloc, pair, placed)?;
    let settled = settle_terms(alloc, pair, &exits)?;
    Ok(settled)
}

/// What the two questions about two functions come to where both hold and are within the budgets. The error is out of memory.
pub fn settle(alloc: Global, pair: &Pair) -> Result<Settled, AllocError>
    requires pair { IsPair pair.now }
    requires within { AreWithin (first_program pair.now) (second_program pair.now) (links_of pair.now.links.now) (budget_of pair.now.budget.now) }
    requires first_holds { IsRight (first_program pair.now) pair.now.budget.now.unroll verdicts.Holds }
    requires second_holds { IsRight (second_program pair.now) pair.now.budget.now.unroll verdicts.Holds }
    ensures { IfOk result (IsSettled pair.now) }
{
    let placed = place_both(alloc, pair)?;
    let settled = settle_placed(alloc, pair, &placed)?;
    Ok(settled)
}
