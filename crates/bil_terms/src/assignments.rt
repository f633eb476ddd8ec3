//! Assignments as terms.

ghost use Rattle.std.specs.Prelude.{◌≡◌, ◌<◌, ◌≤◌, ◌+◌, IfOk, length};
ghost use Rattle.machine_spec.specs.Bil as bil;
ghost use Rattle.bil_ast.specs.Views.{expression};
ghost use Rattle.walk_spec.specs.Unrolling.{is_variable_of};
ghost use Rattle.term_names.specs.Views.{form_of};
ghost use Rattle.bil_eval.specs.Checked.{IsChecked};
ghost use Rattle.bil_terms.specs.Lowered.{IsSteady};
ghost use Rattle.bil_terms.specs.Runs.{IsLed, IsRun};

use crate::Stored;
use crate::expressions::{memory_term, word_term};
use crate::run::Run;
use bil_ast::Exp;
use std::alloc::{AllocError, Global};
use term_dag::Dag;

/// A register takes the word of an expression. The error is want of memory.
pub fn assign_register(
    alloc: Global,
    number: u8,
    value: &Exp,
    dag: &mut Dag,
    run: &mut Run,
    place: u32,
    stored: &mut Vec<Stored>,
) -> Result<(), AllocError>
    requires low { run.old.names.first ≤ number }
    requires high { number < run.old.names.first + length run.old.names.registers.items }
    requires checked { IsChecked (expression value.now) (bil.Bits 32) (is_variable_of (form_of run.old.names)) }
    requires steady { IsSteady (expression value.now) }
    requires run { IsRun dag.old run.old }
    ensures { IfOk result (λ u. (bank : bil.Bank) → IsLed dag.old dag.new place run.old run.new stored.old.items stored.new.items
        (bil.Assign (bil.Register bank number) (expression value.now) bil.Empty)) }
{
    let mut locals = Vec::new(alloc);
    let term = word_term(value, dag, &run.names, &mut locals, place, run.live, stored)?;
    run.names.registers[(number - run.names.first) as usize] = term;
    Ok(())
}

/// A flag takes the bit of an expression. The error is want of memory.
pub fn assign_flag(
    alloc: Global,
    number: u8,
    value: &Exp,
    dag: &mut Dag,
    run: &mut Run,
    place: u32,
    stored: &mut Vec<Stored>,
) -> Result<(), AllocError>
    requires within { number < length run.old.names.flags.items }
    requires checked { IsChecked (expression value.now) (bil.Bits 1) (is_variable_of (form_of run.old.names)) }
    requires steady { IsSteady (expression value.now) }
    requires run { IsRun dag.old run.old }
    ensures { IfOk result (λ u. IsLed dag.old dag.new place run.old run.new stored.old.items stored.new.items
        (bil.Assign (bil.Flag number) (expression value.now) bil.Empty)) }
{
    let mut locals = Vec::new(alloc);
    let term = word_term(value, dag, &run.names, &mut locals, place, run.live, stored)?;
    run.names.flags[number as usize] = term;
    Ok(())
}

/// The memory becomes that of an expression. The error is want of memory.
pub fn assign_memory(
    alloc: Global,
    value: &Exp,
    dag: &mut Dag,
    run: &mut Run,
    place: u32,
    stored: &mut Vec<Stored>,
) -> Result<(), AllocError>
    requires checked { IsChecked (expression value.now) bil.Memory (is_variable_of (form_of run.old.names)) }
    requires steady { IsSteady (expression value.now) }
    requires run { IsRun dag.old run.old }
    ensures { IfOk result (λ u. IsLed dag.old dag.new place run.old run.new stored.old.items stored.new.items
        (bil.Assign bil.Mem (expression value.now) bil.Empty)) }
{
    let mut locals = Vec::new(alloc);
    let term = memory_term(value, dag, &run.names, &mut locals, place, run.live, stored)?;
    run.names.memory = term;
    Ok(())
}
