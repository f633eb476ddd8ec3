//! The answer that judges what an outside solver says of a question.
ghost use Rattle.std.specs.Prelude.{◌≡◌, ◌≤◌, ◌++◌, ◌∷◌, [], ℕ, List, codes, length, IfOk};
ghost use Rattle.word_spec.specs.Texts.{line, number_text, spaced};
ghost use Rattle.clause_spec.specs.Checks.{text_limit};
ghost use Rattle.machine_spec.specs.StateText as texts;
ghost use Rattle.machine_spec.specs.StateText.{block_text, printed};
ghost use Rattle.call_spec.specs.Calls as answers;
ghost use Rattle.call_spec.specs.Calls.{AfterRead, plain_answer, program_question, Question as AskedQuestion};
ghost use Rattle.bilv_spec.specs.Run as tables;
ghost use Rattle.model_spec.specs.Models.{AfterBudgets, IsAskedModelAnswer, IsFalseModelAnswer, IsModelAnswer, ending_text};
ghost use Rattle.io_edges.specs.Met.{seen};
ghost use Rattle.model_verdict.specs.Judgements.{IsJudged};
ghost use Rattle.model_verdict.specs.Runs.{ending_of};
ghost use Rattle.call_form.specs.Views.{frame_question};
ghost use Rattle.question_form.specs.Views.{kind_of, unrolled_of};
ghost use Rattle.start_value.specs.Starts.{layout_of, written_of};
ghost use Rattle.state_text.specs.Starts.{named_of};
ghost use Rattle.verdict.specs.Grounds.{IsGround};
ghost use Rattle.verdict.specs.Measures.{IsUnrolledOf};
ghost use Rattle.verdict.specs.Rounds.{IsAskable};
ghost use Rattle.verdict.specs.Verdicts.{budget_of};
ghost use Rattle.program_value.specs.Programs.{program_of};
ghost use Rattle.bilv_top.specs.Answers.{answer_of};
ghost use Rattle.io_edges.specs.Begun.{AreBegun};

use crate::answer::{Answer, Evidence, Step};
use crate::reading::{TEXT_LIMIT, answer, read_or_answer};
use crate::reports::beyond;
use crate::texts::{model_fault_text, refused_line};
use exit_status::{DONE, TEXT_REFUSED};
use io_edges::Shelf;
use machine_law::Machine;
use model_verdict::{End, Judged, judge};
use program_points::PointsFault;
use program_value::Program;
use question_form::{Asked, Kind, Passive, Unrolled};
use start_value::{Layout, Start};
use state_text::{NamedEnding, StateText, print_state, push_block};
use std::alloc::{AllocError, Global};
use verdict::{Budget, Exceeded, Measured, measure, unroll_within};

/// The answer that shows a start behind the line that accepts it. The error is want of memory.
fn show_start(alloc: Global, form: Layout, start: Start) -> Result<Answer, AllocError>
    ensures { IfOk result (λ a. answer_of a ≡ record {
      status = 0;
      text = line (codes "accepted") ++ block_text (layout_of form) (written_of start);
      evidence = answers.RunOf (written_of start);
    }) }
{
    let mut text = b"accepted\n".to_vec(alloc)?;
    push_block(alloc, &mut text, &start, form)?;
    Ok(Answer {
        status: DONE,
        text,
        evidence: Evidence::RunOf(start),
    })
}

/// The answer that shows a start and the end of its run, behind the line that accepts it. The error is want of memory.
fn show_run(
    alloc: Global,
    form: Layout,
    named: NamedEnding,
    start: Start,
) -> Result<Answer, AllocError>
    ensures { IfOk result (λ a. answer_of a ≡ record {
      status = 0;
      text = line (codes "accepted") ++ printed (layout_of form) (record { named = named_of named; start = written_of start });
      evidence = answers.RunOf (written_of start);
    }) }
{
    let state = StateText { named, start };
    let mut text = b"accepted\n".to_vec(alloc)?;
    text.extend_from_slice(&print_state(alloc, &state, form)?)?;
    Ok(Answer {
        status: DONE,
        text,
        evidence: Evidence::RunOf(state.start),
    })
}

/// The answer that accepts values, and shows their start with the end of its run. The error is want of memory.
fn accepted(
    alloc: Global,
    form: Layout,
    budget: &Budget,
    end: End,
    start: Start,
) -> Result<Answer, AllocError>
    ensures { IfOk result (λ a. answer_of a ≡ record {
      status = 0;
      text = line (codes "accepted") ++ ending_text (layout_of form) (budget_of budget.now) (ending_of end) (written_of start);
      evidence = answers.RunOf (written_of start);
    }) }
{
    match end {
        End::AtEntry => show_start(alloc, form, start),
        End::Failed { event, at, step } => {
            show_run(alloc, form, NamedEnding::FailsBy { event, at, step }, start)
        }
        End::Turned { at, step } => {
            let k = budget.unroll;
            show_run(alloc, form, NamedEnding::UnknownBy { k, at, step }, start)
        }
    }
}

/// The answer that names the line at which values are refused. The error is want of memory.
fn refused(alloc: Global, number: u64, words: &[u8]) -> Result<Answer, AllocError>
    ensures { IfOk result (λ a. answer_of a ≡ plain_answer 9 (line (codes "model: line" ++ spaced (number_text number ∷ words.now ∷ [])))) }
{
    let text = refused_line(alloc, b"model: line", number, words)?;
    Ok(Answer {
        status: TEXT_REFUSED,
        text,
        evidence: Evidence::None,
    })
}

/// The answer that a question is not true of values. The error is want of memory.
fn untrue(alloc: Global) -> Result<Answer, AllocError>
    ensures { IfOk result (λ a. answer_of a ≡ plain_answer 9 (line (codes "model: false"))) }
{
    answer(alloc, TEXT_REFUSED, b"model: false\n")
}

/// The answer to what the text of values is judged to be. The error is want of memory.
fn say(alloc: Global, form: Layout, budget: &Budget, judged: Judged) -> Result<Answer, AllocError>
    ensures { IfOk result (λ a. (p : tables.Program) (question : AskedQuestion) (text : List ℕ) → length text ≤ text_limit →
        IsJudged p (layout_of form) budget.now.unroll question text judged →
        IsModelAnswer p (layout_of form) (budget_of budget.now) question text (answer_of a)) }
{
    match judged {
        Judged::Refused { line, kind } => refused(alloc, line, model_fault_text(kind)),
        Judged::Untrue => untrue(alloc),
        Judged::Accepted { end, start } => accepted(alloc, form, budget, end, start),
    }
}

/// The answer to what the text of values is judged to be by some question of a program, where another one is asked that is true of no reading. The error is want
/// of memory.
fn say_false(alloc: Global, judged: &Judged) -> Result<Answer, AllocError>
    ensures { IfOk result (λ a. (p : tables.Program) (layout : texts.Layout) (b : answers.Budget) (kind : AskedQuestion) (text : List ℕ) → length text ≤ text_limit →
        IsJudged p layout b.unroll kind text judged.now → IsFalseModelAnswer p layout b text (answer_of a)) }
{
    match judged {
        Judged::Refused { line, kind } => refused(alloc, *line, model_fault_text(*kind)),
        Judged::Untrue => untrue(alloc),
        Judged::Accepted { .. } => untrue(alloc),
    }
}

/// Judges the text of values for a question of a program of a machine. The error is want of memory, or of numbers for points.
fn judge_values<M: Machine>(
    alloc: Global,
    program: &Program<M>,
    budget: &Budget,
    passive: &Passive,
    kind: Kind,
    text: &[u8],
) -> Result<Judged, AllocError>
    requires ground { IsGround (program_of program.now) budget.now.unroll M.form
        (unrolled_of passive.now.unrolled.now) }
    requires points { length (unrolled_of passive.now.unrolled.now).points ≤ budget.now.points }
    requires askable { IsAskable passive.now }
    requires form { layout_of passive.now.unrolled.now.form ≡ M.form }
    requires text { length text.now ≤ text_limit }
    ensures { IfOk result (IsJudged (program_of program.now) M.form budget.now.unroll (kind_of kind)
        text.now) }
{
    let judged = judge::<M>(alloc, program, budget, passive, kind, text)?;
    Ok(judged)
}

/// The answer to the text of values for a question about a program of a machine. A program has no head states, so that the question about them is true of none,
/// and the text is judged for its faults alone. The error is want of memory, or of numbers for points.
fn judge_text<M: Machine>(
    alloc: Global,
    program: &Program<M>,
    budget: &Budget,
    passive: &Passive,
    question: Asked,
    text: &[u8],
) -> Result<Answer, AllocError>
    requires ground { IsGround (program_of program.now) budget.now.unroll M.form
        (unrolled_of passive.now.unrolled.now) }
    requires points { length (unrolled_of passive.now.unrolled.now).points ≤ budget.now.points }
    requires askable { IsAskable passive.now }
    requires form { layout_of passive.now.unrolled.now.form ≡ M.form }
    requires text { length text.now ≤ text_limit }
    ensures { IfOk result (λ a. IsAskedModelAnswer (program_of program.now) M.form (budget_of budget.now)
        (program_question (frame_question question)) text.now (answer_of a)) }
{
    let asked = question.program();
    match asked {
        Some(kind) => {
            let judged = judge_values::<M>(alloc, program, budget, passive, kind, text)?;
            let answer = say(alloc, M::layout(), budget, judged)?;
            Ok(answer)
        }
        None => {
            let kind = Kind::Entry;
            let judged = judge_values::<M>(alloc, program, budget, passive, kind, text)?;
            let answer = say_false(alloc, &judged)?;
            Ok(answer)
        }
    }
}

/// The answer to the values of a name for a question about a passive program. The error is want of memory, or of numbers for points.
fn judge_passive<M: Machine, H: Shelf>(
    alloc: Global,
    shelf: &mut H,
    program: &Program<M>,
    budget: &Budget,
    passive: &Passive,
    question: Asked,
    name: &str,
) -> Result<Answer, AllocError>
    requires ground { IsGround (program_of program.now) budget.now.unroll M.form
        (unrolled_of passive.now.unrolled.now) }
    requires points { length (unrolled_of passive.now.unrolled.now).points ≤ budget.now.points }
    requires askable { IsAskable passive.now }
    requires form { layout_of passive.now.unrolled.now.form ≡ M.form }
    ensures keeps { (n : List ℕ) → H.holds shelf.new n ≡ H.holds shelf.old n }
    ensures never_falls { (n : List ℕ) → H.faults shelf.old n ≤ H.faults shelf.new n }
    ensures begun { AreBegun (H.begun shelf.old) (H.begun shelf.new) (name.now ∷ []) }
    ensures read { IfOk result (λ a. AfterRead (seen (H.holds shelf.old) (H.faults shelf.old) (H.faults shelf.new)) name.now
        (IsAskedModelAnswer (program_of program.now) M.form (budget_of budget.now)
        (program_question (frame_question question)))
        (answer_of a)) }
{
    let large = b"model: TooLarge\n";
    let text = match read_or_answer(alloc, shelf, name, TEXT_LIMIT, TEXT_REFUSED, large)? {
        Step::Go(text) => text,
        Step::Answered(answer) => return Ok(answer),
    };
    let answer = judge_text::<M>(alloc, program, budget, passive, question, &text)?;
    Ok(answer)
}

/// The answer to the values of a name for a question about an unrolled program, behind its price. The error is want of memory, or of numbers for points.
#[tactic(auto, using(io_edges::proofs::Beginning::begun_none))]
fn judge_unrolled<M: Machine, H: Shelf>(
    alloc: Global,
    shelf: &mut H,
    program: &Program<M>,
    budget: &Budget,
    unrolled: &Unrolled,
    question: Asked,
    name: &str,
) -> Result<Answer, AllocError>
    requires unrolled { IsUnrolledOf (program_of program.now) M.form (budget_of budget.now) unrolled.now }
    requires form { layout_of unrolled.now.form ≡ M.form }
    ensures keeps { (n : List ℕ) → H.holds shelf.new n ≡ H.holds shelf.old n }
    ensures never_falls { (n : List ℕ) → H.faults shelf.old n ≤ H.faults shelf.new n }
    ensures begun { AreBegun (H.begun shelf.old) (H.begun shelf.new) (name.now ∷ []) }
    ensures priced { IfOk result (λ a. AfterBudgets (program_of program.now) (budget_of budget.now)
        (AfterRead (seen (H.holds shelf.old) (H.faults shelf.old) (H.faults shelf.new)) name.now
        (IsAskedModelAnswer (program_of program.now) M.form (budget_of budget.now)
        (program_question (frame_question question))))
        (answer_of a)) }
{
    match measure(alloc, budget, unrolled)? {
        Measured::Above(price) => beyond(alloc, *budget, Exceeded::Size { price }),
        Measured::Within(passive) => judge_passive::<M, H>(
            alloc, shelf, program, budget, &passive, question, name,
        ),
    }
}

/// The answer to the values of a name, an outside solver's, for a question about a program of a machine. The name is read where
/// the program is within the budgets. The error is want of memory, which a price of 2^128 - 1 or more counts as too, and want of numbers for terms and points.
#[tactic(auto, using(io_edges::proofs::Beginning::begun_none))]
pub fn model_by<M: Machine, H: Shelf>(
    alloc: Global,
    shelf: &mut H,
    program: &Program<M>,
    budget: Budget,
    question: Asked,
    name: &str,
) -> Result<Answer, AllocError>
    ensures keeps { (n : List ℕ) → H.holds shelf.new n ≡ H.holds shelf.old n }
    ensures never_falls { (n : List ℕ) → H.faults shelf.old n ≤ H.faults shelf.new n }
    ensures begun { AreBegun (H.begun shelf.old) (H.begun shelf.new) (name.now ∷ []) }
    ensures judged { IfOk result (λ a. AfterBudgets (program_of program.now) (budget_of budget)
        (AfterRead (seen (H.holds shelf.old) (H.faults shelf.old) (H.faults shelf.new)) name.now
        (IsAskedModelAnswer (program_of program.now) M.form (budget_of budget)
        (program_question (frame_question question))))
        (answer_of a)) }
{
    match unroll_within::<M>(alloc, program, &budget) {
        Ok(unrolled) => judge_unrolled::<M, H>(
            alloc, shelf, program, &budget, &unrolled, question, name,
        ),
        Err(PointsFault::TooMany { count }) => beyond(alloc, budget, Exceeded::Points { count }),
        Err(PointsFault::Memory) => Err(AllocError),
    }
}
