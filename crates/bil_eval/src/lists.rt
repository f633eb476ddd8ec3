//! Runs of whole lists.

ghost use Rattle.std.specs.Prelude.{◌≡◌, true};
ghost use Rattle.machine_spec.specs.BilCounts.{list_names_only};
ghost use Rattle.machine_spec.specs.BilMeaning.{execute};
ghost use Rattle.machine_spec.specs.BilTyping.{IsWellTyped};
ghost use Rattle.bil_ast.specs.Views.{statements};
ghost use Rattle.bil_eval.specs.Answers.{Answers, LeftMidway, start};
ghost use Rattle.bil_eval.specs.Views.{env_of, held};

use crate::env::Env;
use crate::faults::EvalFault;
use crate::statements::{Flow, Progress, run};
use bil_ast::Stmt;
use std::alloc::Global;

/// How a list ends.
#[derive(Clone, Copy, PartialEq, Eq, Debug)]
pub enum End {
    /// No jump was made: the next address is the one behind.
    Next,
    /// The address of the last jump that was made.
    Jump(u32),
    /// The number of the exception that ended it.
    Exn(u32),
}

/// Runs a well typed list over an environment that holds the variables that it names. Its loops make at most `turns` turns, all loops together, nested ones
/// too.
///
/// The environment is left as the finished assignments left it. `OutOfTurns`: the loops made that many turns, and another was due. `Memory`: the list stopped
/// for want of memory, and the environment is one by which its run comes. After any answer the environment holds the same variables, so that it can be used
/// again.
pub fn eval(alloc: Global, list: &[Stmt], env: &mut Env, turns: u64) -> Result<End, EvalFault>
    requires typed { IsWellTyped (statements list.now) }
    requires held { list_names_only (statements list.now) (held env.old.locals.items) ≡ true }
    ensures answers { Answers result (env_of env.new.machine env.new.locals.items)
        (execute (statements list.now) env.old.machine.choice (start (env_of env.old.machine env.old.locals.items) turns)) }
    ensures memory { LeftMidway result (env_of env.new.machine env.new.locals.items)
        env.old.machine.choice (statements list.now) (start (env_of env.old.machine env.old.locals.items) turns) }
    ensures held { held env.new.locals.items ≡ held env.old.locals.items }
    ensures choice { env.new.machine.choice ≡ env.old.machine.choice }
{
    let mut progress = Progress { jump: None, turns };
    match run(list, alloc, env, &mut progress)? {
        Flow::Raised(number) => Ok(End::Exn(number)),
        Flow::On => match progress.jump {
            Some(address) => Ok(End::Jump(address)),
            None => Ok(End::Next),
        },
    }
}
