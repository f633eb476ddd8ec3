//! The verdict by the questions within a smaller bound on backward transfers than the budget's. Where no run makes more than that, they settle the verdict.
ghost use Rattle.std.specs.Prelude.{◌≡◌, ◌≤◌, IfOk, IfSome};
ghost use Rattle.call_spec.specs.Calls.{FailQuestion, TurnQuestion};
ghost use Rattle.bilv_spec.specs.Evidence.{Refutes};
ghost use Rattle.bilv_spec.specs.Answers.{IsWithin};
ghost use Rattle.bilv_spec.specs.Verdict.{IsStart, RunTurns};
ghost use Rattle.machine_spec.specs.Endings as endings;
ghost use Rattle.cnf_form.specs.Views.{proof_of};
ghost use Rattle.question_form.specs.Views.{unrolled_of};
ghost use Rattle.turn_laws.specs.Raised.{over_variables};
ghost use Rattle.program_value.specs.Programs.{program_of};
ghost use Rattle.verdict.specs.Grounds.{AnswersOver};
ghost use Rattle.verdict.specs.FewerTurns.{AreNoTurns, AreNoTurnsBy, IsEarly, IsEnough, IsJudged, IsSettledBy, IsSmaller};
ghost use Rattle.verdict.specs.Measures.{IsMeasurable, IsUnrolledOf};
ghost use Rattle.verdict.specs.Rounds.{AreAdded, IsDecidable};
ghost use Rattle.verdict.specs.Verdicts.{budget_of};

use crate::deciding::{Decided, decide, decide_from};
use crate::measuring::unroll_within;
use crate::shown::failing;
use crate::{Answered, Budget, Judged, Verdict};
use bit_blast::free_inputs;
use cnf_form::{Cnf, Proof};
use machine_law::Machine;
use passify::passive;
use program_points::PointsFault;
use program_value::Program;
use question_form::{Kind, Passive, Unrolled};
use start_value::Start;
use std::alloc::{AllocError, Global};

/// What the turn question and the fail question within a smaller bound come to.
#[derive(Drop)]
enum NoTurns {
    /// No run makes more backward transfers, and none fails.
    Refuted { fail: Proof, turn: Proof },
    /// No run makes more backward transfers, and the one from the start fails.
    Fails(Start),
    /// Some run makes more backward transfers.
    Turns,
    /// The conflicts are spent.
    Spent,
}

/// What the questions within a smaller bound come to.
#[derive(Drop)]
enum Early {
    /// The verdict, within the budget's bound too.
    Settled(Verdict),
    /// Some run makes more backward transfers than the smaller bound.
    Turns,
    /// The conflicts are spent, or there are too many points.
    Open,
}

/// The proof over at least so many variables.
pub fn over_variables(proof: Proof, least: u64) -> Proof
    ensures { proof_of result ≡ over_variables least (proof_of proof) }
{
    let Proof { clauses, log } = proof;
    let Cnf { variables, clauses } = clauses;
    Proof {
        clauses: Cnf {
            variables: variables.max(least),
            clauses,
        },
        log,
    }
}

/// What the fail question within a smaller bound comes to for the budget's bound, where the turn question is refuted over the bytes of the file at some
/// addresses. The fail question asks those from the beginning, so that no reading that it is over makes more backward transfers. The error is want of memory.
fn ask_fails<M: Machine>(
    alloc: Global,
    program: &Program<M>,
    budget: &Budget,
    whole: &Unrolled,
    passive: &Passive,
    turn: Proof,
    asked: Vec<u32>,
) -> Result<NoTurns, AllocError>
    requires whole { IsUnrolledOf (program_of program.now) M.form (budget_of budget.now) whole.now }
    requires smaller { IsSmaller (program_of program.now) budget.now.unroll M.form (unrolled_of passive.now.unrolled.now) }
    requires decidable { IsDecidable passive.now }
    requires added { AreAdded (unrolled_of passive.now.unrolled.now) asked.items }
    requires turn { AnswersOver (unrolled_of passive.now.unrolled.now) TurnQuestion asked.items budget.now.conflicts (Answered.Refuted turn) }
    ensures { IfOk result (AreNoTurns (program_of program.now) budget.now.unroll M.form) }
{
    let Decided { answered, .. } = decide_from(
        alloc,
        passive,
        Kind::Fail,
        budget.conflicts,
        asked,
    )?;
    match answered {
        Answered::Refuted(fail) => {
            let inputs = free_inputs(whole);
            let fail = over_variables(fail, inputs);
            let turn = over_variables(turn, inputs);
            Ok(NoTurns::Refuted { fail, turn })
        }
        Answered::Sat(start) => Ok(NoTurns::Fails(start)),
        Answered::Spent(_) => Ok(NoTurns::Spent),
    }
}

/// What the turn question, and after it the fail question, within a smaller bound come to for the budget's bound. The error is want of memory.
fn ask_turns<M: Machine>(
    alloc: Global,
    program: &Program<M>,
    budget: &Budget,
    whole: &Unrolled,
    passive: &Passive,
) -> Result<NoTurns, AllocError>
    requires whole { IsUnrolledOf (program_of program.now) M.form (budget_of budget.now) whole.now }
    requires smaller { IsSmaller (program_of program.now) budget.now.unroll M.form (unrolled_of passive.now.unrolled.now) }
    requires decidable { IsDecidable passive.now }
    ensures none { IfOk result (AreNoTurns (program_of program.now) budget.now.unroll M.form) }
    ensures enough { IfOk result (AreNoTurnsBy (IsEnough (program_of program.now) M.form (unrolled_of passive.now.unrolled.now))) }
{
    let none = Vec::new(alloc);
    let Decided { answered, asked } = decide_from(
        alloc,
        passive,
        Kind::Turn,
        budget.conflicts,
        none,
    )?;
    match answered {
        Answered::Refuted(turn) => {
            let no_turns = ask_fails::<M>(alloc, program, budget, whole, passive, turn, asked)?;
            Ok(no_turns)
        }
        Answered::Sat(_) => Ok(NoTurns::Turns),
        Answered::Spent(_) => Ok(NoTurns::Spent),
    }
}

/// The verdict where no run fails or makes more backward transfers than a smaller bound: it holds, or there is no entry state. The error is want of memory.
fn ask_entry<M: Machine>(
    alloc: Global,
    program: &Program<M>,
    budget: &Budget,
    whole: &Unrolled,
    passive: &Passive,
    fail: Proof,
    turn: Proof,
) -> Result<Early, AllocError>
    requires within { IsWithin (program_of program.now) (budget_of budget.now) }
    requires whole { IsUnrolledOf (program_of program.now) M.form (budget_of budget.now) whole.now }
    requires smaller { IsSmaller (program_of program.now) budget.now.unroll M.form (unrolled_of passive.now.unrolled.now) }
    requires decidable { IsDecidable passive.now }
    requires fail { Refutes (program_of program.now) budget.now.unroll FailQuestion (proof_of fail) }
    requires turn { Refutes (program_of program.now) budget.now.unroll TurnQuestion (proof_of turn) }
    ensures { IfOk result (IsEarly (program_of program.now) M.form budget.now) }
{
    match decide(alloc, passive, Kind::Entry, budget.conflicts)? {
        Answered::Sat(start) => Ok(Early::Settled(Verdict::Holds { start, fail, turn })),
        Answered::Refuted(proof) => {
            let inputs = free_inputs(whole);
            let entry = over_variables(proof, inputs);
            Ok(Early::Settled(Verdict::Vacuous(entry)))
        }
        Answered::Spent(_) => Ok(Early::Open),
    }
}

/// What the questions within a smaller bound come to, by its passive program. The error is want of memory.
fn judge_passive<M: Machine>(
    alloc: Global,
    program: &Program<M>,
    budget: &Budget,
    whole: &Unrolled,
    passive: &Passive,
) -> Result<Early, AllocError>
    requires within { IsWithin (program_of program.now) (budget_of budget.now) }
    requires whole { IsUnrolledOf (program_of program.now) M.form (budget_of budget.now) whole.now }
    requires smaller { IsSmaller (program_of program.now) budget.now.unroll M.form (unrolled_of passive.now.unrolled.now) }
    requires decidable { IsDecidable passive.now }
    ensures early { IfOk result (IsEarly (program_of program.now) M.form budget.now) }
    ensures enough { IfOk result (IsSettledBy (IsEnough (program_of program.now) M.form (unrolled_of passive.now.unrolled.now))) }
{
    match ask_turns::<M>(alloc, program, budget, whole, passive)? {
        NoTurns::Refuted { fail, turn } => {
            let early = ask_entry::<M>(alloc, program, budget, whole, passive, fail, turn)?;
            Ok(early)
        }
        NoTurns::Fails(start) => {
            let verdict = failing::<M>(alloc, program, budget, start)?;
            Ok(Early::Settled(verdict))
        }
        NoTurns::Turns => Ok(Early::Turns),
        NoTurns::Spent => Ok(Early::Open),
    }
}

/// What the questions within a smaller bound come to, by its unrolled program. The error is want of memory.
fn judge_smaller<M: Machine>(
    alloc: Global,
    program: &Program<M>,
    budget: &Budget,
    whole: &Unrolled,
    unrolled: &Unrolled,
) -> Result<Early, AllocError>
    requires within { IsWithin (program_of program.now) (budget_of budget.now) }
    requires whole { IsUnrolledOf (program_of program.now) M.form (budget_of budget.now) whole.now }
    requires measurable { IsMeasurable unrolled.now }
    requires smaller { IsSmaller (program_of program.now) budget.now.unroll M.form (unrolled_of unrolled.now) }
    ensures early { IfOk result (IsEarly (program_of program.now) M.form budget.now) }
    ensures enough { IfOk result (IsSettledBy (IsEnough (program_of program.now) M.form (unrolled_of unrolled.now))) }
{
    let passive = passive(alloc, unrolled)?;
    let early = judge_passive::<M>(alloc, program, budget, whole, &passive)?;
    Ok(early)
}

/// What the questions for so many backward transfers come to. The error is want of memory.
fn judge_within<M: Machine>(
    alloc: Global,
    program: &Program<M>,
    budget: &Budget,
    whole: &Unrolled,
    turns: u64,
) -> Result<Early, AllocError>
    requires within { IsWithin (program_of program.now) (budget_of budget.now) }
    requires whole { IsUnrolledOf (program_of program.now) M.form (budget_of budget.now) whole.now }
    requires turns { turns ≤ budget.now.unroll }
    ensures early { IfOk result (IsEarly (program_of program.now) M.form budget.now) }
    ensures enough { IfOk result (IsSettledBy ((start : endings.Start) → IsStart (program_of program.now) start → ¬ RunTurns (program_of program.now) turns start)) }
{
    let smaller = budget.with_unroll(turns);
    match unroll_within::<M>(alloc, program, &smaller) {
        Ok(unrolled) => {
            let early = judge_smaller::<M>(alloc, program, budget, whole, &unrolled)?;
            Ok(early)
        }
        Err(PointsFault::TooMany { .. }) => Ok(Early::Open),
        Err(PointsFault::Memory) => Err(AllocError),
    }
}

/// The most backward transfers that a point of an unrolled program is behind. For so many and more of them it has the same points.
fn most_turns(unrolled: &Unrolled) -> u64 {
    let mut most = 0;
    for point in &unrolled.points {
        most = most.max(point.turns as u64);
    }
    most
}

/// The verdict by the questions for 1, 2, 4 and more backward transfers, as far as those have other points than the whole unrolled program: at the first bound
/// that no run exceeds, they settle it. There is none where some run exceeds each of those bounds, or a question spends its conflicts. The error is want of
/// memory.
pub fn judge_early<M: Machine>(
    alloc: Global,
    program: &Program<M>,
    budget: &Budget,
    whole: &Unrolled,
) -> Result<Option<Judged>, AllocError>
    requires within { IsWithin (program_of program.now) (budget_of budget.now) }
    requires whole { IsUnrolledOf (program_of program.now) M.form (budget_of budget.now) whole.now }
    ensures { IfOk result (λ o. IfSome o (IsJudged (program_of program.now) M.form budget.now)) }
{
    let most = most_turns(whole).min(budget.unroll);
    let mut turns: u64 = 1;
    while turns < most {
        match judge_within::<M>(alloc, program, budget, whole, turns)? {
            Early::Settled(verdict) => return Ok(Some(Judged { verdict, turns })),
            Early::Turns => turns *= 2,
            Early::Open => return Ok(None),
        }
    }
    Ok(None)
}
