//! The answer that compares two functions.
ghost use Rattle.std.specs.Prelude.{◌≡◌, ◌++◌, IfOk};
ghost use Rattle.bilv_spec.specs.Answers.{report_text, status_of};
ghost use Rattle.bilv_spec.specs.Run.{Program};
ghost use Rattle.call_spec.specs.Calls as answers;
ghost use Rattle.machine_spec.specs.StateText.{block_text};
ghost use Rattle.pair_spec.specs.Equals.{IsPairReported, differs_words, pair_status, pair_text};
ghost use Rattle.word_spec.specs.Texts.{joined, line};
ghost use Rattle.command_line.specs.Commands.{budget_of};
ghost use Rattle.links_lang.specs.Views.{AreLinksOf, links_of};
ghost use Rattle.pair_sides.specs.Sides.{IsSided, side_of};
ghost use Rattle.pair_verdict.specs.Verdicts.{evidence_of, report_of};
ghost use Rattle.start_value.specs.Starts.{layout_of, written_of};
ghost use Rattle.verdict.specs.Verdicts as sides;
ghost use Rattle.bilv_top.specs.Answers.{answer_of};
ghost use Rattle.bilv_top.specs.Pairs.{side_in, with_word};

use crate::answer::{Answer, Evidence};
use crate::pair::{Which, of_side};
use crate::reports::{beyond, exceeded, judged, report};
use cnf_form::print::print_number;
use command_line::Budget;
use exit_status::FAILS;
use links_lang::Link;
use pair_sides::Sided;
use pair_verdict::{PairVerdict, equal as verdict_on};
use start_value::{Layout, Start};
use state_text::push_block;
use std::alloc::{AllocError, Global};
use verdict::Verdict;

/// The line of a difference: the number of the line of links on which exits differ first, and the steps by which the runs exit. The error is out of memory.
fn differs_line(
    alloc: Global,
    number: u32,
    first_step: u64,
    second_step: u64,
) -> Result<Vec<u8>, AllocError>
    ensures { IfOk result (λ v. v.items ≡ line (joined (differs_words number first_step second_step))) }
{
    let mut text = b"differs ".to_vec(alloc)?;
    print_number(&mut text, number as u64)?;
    text.extend_from_slice(b" steps ")?;
    print_number(&mut text, first_step)?;
    text.extend_from_slice(b" ")?;
    print_number(&mut text, second_step)?;
    text.extend_from_slice(b"\n")?;
    Ok(text)
}

/// The report of a difference, which shows both starts, each in the form of its machine. The error is out of memory.
fn differing(
    alloc: Global,
    text: Vec<u8>,
    first_form: Layout,
    second_form: Layout,
    first: Start,
    second: Start,
) -> Result<Answer, AllocError>
    ensures { IfOk result (λ a. answer_of a ≡ record {
      status = 1;
      text = text.items ++ (block_text (layout_of first_form) (written_of first) ++ block_text (layout_of second_form) (written_of second));
      evidence = answers.Two (written_of first) (written_of second);
    }) }
{
    let mut text = text;
    push_block(alloc, &mut text, &first, first_form)?;
    push_block(alloc, &mut text, &second, second_form)?;
    Ok(Answer {
        status: FAILS,
        text,
        evidence: Evidence::Two { first, second },
    })
}

/// The report of the verdict on one side. The error is out of memory.
fn side_report(
    alloc: Global,
    which: Which,
    form: Layout,
    budget: Budget,
    verdict: Verdict,
) -> Result<Answer, AllocError>
    ensures { IfOk result (λ a. answer_of a ≡ record {
      status = status_of (sides.report_of verdict);
      text = with_word which (report_text (layout_of form) (budget_of budget) (sides.report_of verdict) (sides.evidence_of verdict));
      evidence = sides.evidence_of verdict;
    }) }
{
    let reported = report(alloc, form, budget, verdict)?;
    let answer = of_side(alloc, which, reported)?;
    Ok(answer)
}

/// The report of a verdict within budgets, on functions of machines of these forms. The error is out of memory.
fn pair_report(
    alloc: Global,
    first: Layout,
    second: Layout,
    budget: Budget,
    verdict: PairVerdict,
) -> Result<Answer, AllocError>
    ensures { IfOk result (λ a. (p q : Program) → answer_of a ≡ record {
      status = pair_status (report_of verdict);
      text = pair_text (side_in first p) (side_in second q) (budget_of budget) (report_of verdict) (evidence_of verdict);
      evidence = evidence_of verdict;
    }) }
{
    match verdict {
        PairVerdict::First(verdict) => side_report(alloc, Which::First, first, budget, verdict),
        PairVerdict::Second(verdict) => side_report(alloc, Which::Second, second, budget, verdict),
        PairVerdict::NoPair(proof) => judged(alloc, b"no pair\n", Evidence::EntryRefuted(proof)),
        PairVerdict::Differs {
            line,
            first_step,
            second_step,
            first: x,
            second: y,
        } => {
            let text = differs_line(alloc, line, first_step, second_step)?;
            differing(alloc, text, first, second, x, y)
        }
        PairVerdict::Equal {
            first,
            second,
            first_start,
            second_start,
            difference,
        } => {
            let shown = Evidence::Both {
                first,
                second,
                first_start,
                second_start,
                difference,
            };
            judged(alloc, b"equal\n", shown)
        }
        PairVerdict::Exceeded(past) => beyond(alloc, budget, past),
        PairVerdict::Conflicts { question, proof } => {
            let spent = Evidence::SpentOnPair { question, proof };
            exceeded(alloc, b"conflicts", budget.conflicts, spent)
        }
    }
}

/// The report on two functions and links between them. The error is out of memory.
pub fn equal(
    alloc: Global,
    first: &Sided,
    second: &Sided,
    links: &[Link],
    budget: Budget,
) -> Result<Answer, AllocError>
    requires first { IsSided first.now }
    requires second { IsSided second.now }
    requires links { AreLinksOf first.now.layout second.now.layout links.now }
    ensures { IfOk result (λ a. IsPairReported (side_of first.now) (side_of second.now) (links_of links.now) (budget_of budget) (answer_of a)) }
{
    let verdict = verdict_on(alloc, first, second, links, &budget)?;
    let answer = pair_report(alloc, first.layout, second.layout, budget, verdict)?;
    Ok(answer)
}
