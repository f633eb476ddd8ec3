//! Runs of lists of statements.

ghost use Rattle.std.specs.Prelude.{◌≡◌, IfOk};
ghost use Rattle.machine_spec.specs.Bil as bil;
ghost use Rattle.word_spec.specs.Words as words;
ghost use Rattle.machine_spec.specs.BilMeaning as means;
ghost use Rattle.bil_ast.specs.Views.{expression, statement, statements};
ghost use Rattle.bil_eval.specs.Checked.{IsChecked, IsRunnable};
ghost use Rattle.bil_eval.specs.Views.{env_of, held};
ghost use Rattle.bil_eval.specs.Passes.{Passes};
ghost use Rattle.bil_eval.specs.Runs.{Comes, IfWanting, position, test};

use crate::env::{Env, assign_word};
use crate::expressions::{evaluate_memory, evaluate_word};
use crate::faults::EvalFault;
use bil_ast::{Exp, Stmt, Var};
use std::alloc::{AllocError, Global};

/// How the statements so far ended: the list goes on, or an exception was raised.
#[derive(Clone, Copy)]
pub enum Flow {
    On,
    Raised(u32),
}

/// The last jump that was made, and how many turns loops may still make.
#[derive(Clone, Copy)]
pub struct Progress {
    pub jump: Option<u32>,
    pub turns: u64,
}

/// Runs a list.
#[cycle(running)]
pub fn run(
    list: &[Stmt],
    alloc: Global,
    env: &mut Env,
    progress: &mut Progress,
) -> Result<Flow, EvalFault>
    requires { IsRunnable (statements list.now) (held env.old.locals.items) }
    ensures comes { Comes result (position env.new progress.new) (means.execute (statements list.now) env.old.machine.choice (position env.old progress.old)) }
    ensures passes { IfWanting result (Passes env.old.machine.choice (env_of env.new.machine env.new.locals.items) (statements list.now)
        (position env.old progress.old)) }
    ensures held { held env.new.locals.items ≡ held env.old.locals.items }
    ensures choice { env.new.machine.choice ≡ env.old.machine.choice }
{
    for stmt in list {
        match act(stmt, alloc, env, progress)? {
            Flow::On => {}
            Flow::Raised(number) => return Ok(Flow::Raised(number)),
        }
    }
    Ok(Flow::On)
}

/// Runs one statement.
#[cycle(running)]
fn act(
    stmt: &Stmt,
    alloc: Global,
    env: &mut Env,
    progress: &mut Progress,
) -> Result<Flow, EvalFault>
    requires { IsRunnable (statement stmt.now bil.Empty) (held env.old.locals.items) }
    ensures comes { Comes result (position env.new progress.new)
        (means.execute (statement stmt.now bil.Empty) env.old.machine.choice (position env.old progress.old)) }
    ensures passes { IfWanting result (Passes env.old.machine.choice (env_of env.new.machine env.new.locals.items) (statement stmt.now bil.Empty)
        (position env.old progress.old)) }
    ensures held { held env.new.locals.items ≡ held env.old.locals.items }
    ensures choice { env.new.machine.choice ≡ env.old.machine.choice }
{
    match stmt {
        Stmt::Assign(Var::Memory, value) => {
            env.machine.memory = evaluate_memory(value, alloc, &env.machine, &mut env.locals)?;
            Ok(Flow::On)
        }
        Stmt::Assign(variable, value) => {
            let word = evaluate_word(value, alloc, &env.machine, &mut env.locals)?;
            assign_word(*variable, word, env);
            Ok(Flow::On)
        }
        Stmt::Jump(target) => {
            let word = evaluate_word(target, alloc, &env.machine, &mut env.locals)?;
            progress.jump = Some(word.bits as u32);
            Ok(Flow::On)
        }
        Stmt::Raise(number) => Ok(Flow::Raised(*number)),
        Stmt::Special(_) => Ok(Flow::On),
        Stmt::While { condition, body } => repeat(body, condition, alloc, env, progress),
        Stmt::If {
            condition,
            when_true,
            when_false,
        } => {
            if holds(condition, alloc, env)? {
                run(when_true, alloc, env, progress)
            } else {
                run(when_false, alloc, env, progress)
            }
        }
    }
}

/// Whether a condition of 1 bit is 1.
fn holds(condition: &Exp, alloc: Global, env: &mut Env) -> Result<bool, AllocError>
    requires { IsChecked (expression condition.now) (bil.Bits 1) (held env.old.locals.items) }
    ensures value { IfOk result (λ b. means.evaluate (expression condition.now) env.old.machine.choice (env_of env.old.machine env.old.locals.items)
        ≡ means.Word 1 (words.bit b)) }
    ensures machine { env.new.machine ≡ env.old.machine }
    ensures locals { env.new.locals.items ≡ env.old.locals.items }
{
    let word = evaluate_word(condition, alloc, &env.machine, &mut env.locals)?;
    Ok(word.bits != 0)
}

/// Runs a loop. Each turn is paid from those that are left, so there are no more turns than there were at first.
#[cycle(running)]
fn repeat(
    body: &[Stmt],
    condition: &Exp,
    alloc: Global,
    env: &mut Env,
    progress: &mut Progress,
) -> Result<Flow, EvalFault>
    requires condition { IsChecked (expression condition.now) (bil.Bits 1) (held env.old.locals.items) }
    requires body { IsRunnable (statements body.now) (held env.old.locals.items) }
    ensures comes { Comes result (position env.new progress.new)
        (means.loop progress.old.turns (test (expression condition.now) env.old.machine.choice) (means.execute (statements body.now) env.old.machine.choice)
        (position env.old progress.old)) }
    ensures passes { IfWanting result (Passes env.old.machine.choice (env_of env.new.machine env.new.locals.items)
        (bil.While (expression condition.now) (statements body.now) bil.Empty) (position env.old progress.old)) }
    ensures held { held env.new.locals.items ≡ held env.old.locals.items }
    ensures choice { env.new.machine.choice ≡ env.old.machine.choice }
{
    let most = progress.turns;
    for _turn in 0..most {
        if !holds(condition, alloc, env)? {
            return Ok(Flow::On);
        }
        if progress.turns == 0 {
            return Err(EvalFault::OutOfTurns);
        }
        progress.turns -= 1;
        match run(body, alloc, env, progress)? {
            Flow::On => {}
            Flow::Raised(number) => return Ok(Flow::Raised(number)),
        }
    }
    if holds(condition, alloc, env)? {
        Err(EvalFault::OutOfTurns)
    } else {
        Ok(Flow::On)
    }
}
