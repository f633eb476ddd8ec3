//! Jumps and exceptions as terms.

ghost use Rattle.std.specs.Prelude.{ℕ, IfOk};
ghost use Rattle.machine_spec.specs.Bil as bil;
ghost use Rattle.bil_ast.specs.Views.{expression};
ghost use Rattle.walk_spec.specs.Unrolling.{is_variable_of};
ghost use Rattle.term_names.specs.Views.{form_of};
ghost use Rattle.bil_eval.specs.Checked.{IsChecked};
ghost use Rattle.bil_terms.specs.Lowered.{IsSteady};
ghost use Rattle.bil_terms.specs.Runs.{AreBits, IsLed, IsRun};

use crate::Stored;
use crate::expressions::word_term;
use crate::run::{Bits, Run};
use bil_ast::Exp;
use std::alloc::{AllocError, Global};
use term_dag::Dag;

/// A jump to the word of an expression, which is the list's if none comes later. The error is want of memory.
pub fn jump(
    alloc: Global,
    target: &Exp,
    dag: &mut Dag,
    run: &mut Run,
    place: u32,
    bits: Bits,
    stored: &mut Vec<Stored>,
) -> Result<(), AllocError>
    requires checked { IsChecked (expression target.now) (bil.Bits 32) (is_variable_of (form_of run.old.names)) }
    requires steady { IsSteady (expression target.now) }
    requires run { IsRun dag.old run.old }
    requires bits { AreBits dag.old bits }
    ensures { IfOk result (λ u. IsLed dag.old dag.new place run.old run.new stored.old.items stored.new.items (bil.JumpTo (expression target.now) bil.Empty)) }
{
    let mut locals = Vec::new(alloc);
    let term = word_term(
        target,
        dag,
        &run.names,
        &mut locals,
        place,
        run.live,
        stored,
    )?;
    run.target = term;
    run.jumped = bits.one;
    Ok(())
}

/// An exception is raised: from here on the run does not come by.
pub fn raise(dag: &Dag, run: &mut Run, place: u32, bits: Bits, stored: &[Stored])
    requires run { IsRun dag.now run.old }
    requires bits { AreBits dag.now bits }
    ensures { (number : ℕ) → IsLed dag.now dag.now place run.old run.new stored.now stored.now (bil.Raise number bil.Empty) }
{
    let _ = dag;
    let _ = stored;
    let _ = place;
    run.live = bits.zero;
}
