//! Lists of statements as terms.

ghost use Rattle.std.specs.Prelude.{◌≡◌, true, IfOk};
ghost use Rattle.machine_spec.specs.Bil as bil;
ghost use Rattle.bil_ast.specs.Views.{expression, statement, statements, variable_of};
ghost use Rattle.walk_spec.specs.Unrolling.{is_variable_of};
ghost use Rattle.term_names.specs.Views.{form_of};
ghost use Rattle.bil_eval.specs.Checked.{IsChecked};
ghost use Rattle.bil_terms.specs.Leading.{CanLead};
ghost use Rattle.bil_terms.specs.Entered.{AreEntered};
ghost use Rattle.bil_terms.specs.Lowered.{IsSteady};
ghost use Rattle.bil_terms.specs.Runs.{AreBits, IsLed, IsRun};

use crate::Stored;
use crate::assignments::{assign_flag, assign_memory, assign_register};
use crate::branches::{beginning, merged, split};
use crate::expressions::word_term;
use crate::jumps::{jump, raise};
use crate::run::{Bits, Run};
use bil_ast::{Exp, Stmt, Var};
use std::alloc::{AllocError, Global};
use term_dag::{Dag, Term};

/// A variable takes the value of an expression. The error is want of memory.
fn assign(
    alloc: Global,
    variable: Var,
    value: &Exp,
    dag: &mut Dag,
    run: &mut Run,
    place: u32,
    stored: &mut Vec<Stored>,
) -> Result<(), AllocError>
    requires known { is_variable_of (form_of run.old.names) (variable_of variable) ≡ true }
    requires checked { IsChecked (expression value.now) (bil.type_of (variable_of variable)) (is_variable_of (form_of run.old.names)) }
    requires steady { IsSteady (expression value.now) }
    requires run { IsRun dag.old run.old }
    ensures { IfOk result (λ u. IsLed dag.old dag.new place run.old run.new stored.old.items stored.new.items
        (bil.Assign (variable_of variable) (expression value.now) bil.Empty)) }
{
    match variable {
        Var::Register(_, number) => {
            assign_register(alloc, number, value, dag, run, place, stored)?;
            Ok(())
        }
        Var::Flag(number) => {
            assign_flag(alloc, number, value, dag, run, place, stored)?;
            Ok(())
        }
        Var::Memory => {
            assign_memory(alloc, value, dag, run, place, stored)?;
            Ok(())
        }
        Var::Local(_) => unreachable!(),
    }
}

/// The two sides of an if before they are run.
#[derive(Drop)]
struct Sides {
    /// The condition, 1 bit.
    condition: Term,
    /// The run with which the first list begins, where the condition is 1.
    first: Run,
    /// The run with which the second list begins, where it is 0.
    second: Run,
}

/// The sides of an if by its condition. The error is want of memory.
fn enter(
    condition: &Exp,
    alloc: Global,
    dag: &mut Dag,
    run: &Run,
    place: u32,
    bits: Bits,
    stored: &mut Vec<Stored>,
) -> Result<Sides, AllocError>
    requires checked { IsChecked (expression condition.now) (bil.Bits 1) (is_variable_of (form_of run.now.names)) }
    requires steady { IsSteady (expression condition.now) }
    requires run { IsRun dag.old run.now }
    requires bits { AreBits dag.old bits }
    ensures { IfOk result (λ s. AreEntered dag.old dag.new place run.now stored.old.items stored.new.items (expression condition.now) s) }
{
    let mut locals = Vec::new(alloc);
    let term = word_term(
        condition,
        dag,
        &run.names,
        &mut locals,
        place,
        run.live,
        stored,
    )?;
    let (one, other) = split(dag, bits, term, run.live)?;
    let first = beginning(alloc, run, one)?;
    let second = beginning(alloc, run, other)?;
    Ok(Sides {
        condition: term,
        first,
        second,
    })
}

/// Makes terms of a list. The error is want of memory.
#[cycle(running)]
pub fn run_statements(
    list: &[Stmt],
    alloc: Global,
    dag: &mut Dag,
    run: &mut Run,
    place: u32,
    bits: Bits,
    stored: &mut Vec<Stored>,
) -> Result<(), AllocError>
    requires leads { CanLead (statements list.now) (is_variable_of (form_of run.old.names)) }
    requires run { IsRun dag.old run.old }
    requires bits { AreBits dag.old bits }
    ensures { IfOk result (λ u. IsLed dag.old dag.new place run.old run.new stored.old.items stored.new.items (statements list.now)) }
{
    for stmt in list {
        act(stmt, alloc, dag, run, place, bits, stored)?;
    }
    Ok(())
}

/// Makes terms of one statement. The error is want of memory.
#[cycle(running)]
fn act(
    stmt: &Stmt,
    alloc: Global,
    dag: &mut Dag,
    run: &mut Run,
    place: u32,
    bits: Bits,
    stored: &mut Vec<Stored>,
) -> Result<(), AllocError>
    requires leads { CanLead (statement stmt.now bil.Empty) (is_variable_of (form_of run.old.names)) }
    requires run { IsRun dag.old run.old }
    requires bits { AreBits dag.old bits }
    ensures { IfOk result (λ u. IsLed dag.old dag.new place run.old run.new stored.old.items stored.new.items (statement stmt.now bil.Empty)) }
{
    match stmt {
        Stmt::Assign(variable, value) => {
            assign(alloc, *variable, value, dag, run, place, stored)?;
            Ok(())
        }
        Stmt::Jump(target) => {
            jump(alloc, target, dag, run, place, bits, stored)?;
            Ok(())
        }
        Stmt::Raise(_) => {
            raise(dag, run, place, bits, stored);
            Ok(())
        }
        Stmt::Special(_) => unreachable!(),
        Stmt::While { .. } => unreachable!(),
        Stmt::If {
            condition,
            when_true,
            when_false,
        } => {
            let sides = enter(condition, alloc, dag, run, place, bits, stored)?;
            let mut first = sides.first;
            let mut second = sides.second;
            let (one, other) = (first.live, second.live);
            run_statements(when_true, alloc, dag, &mut first, place, bits, stored)?;
            run_statements(when_false, alloc, dag, &mut second, place, bits, stored)?;
            *run = merged(
                alloc,
                dag,
                bits,
                sides.condition,
                run,
                one,
                other,
                &first,
                &second,
            )?;
            Ok(())
        }
    }
}
