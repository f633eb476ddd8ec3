//! Where the run from a start exits, and in what words of the links two exits differ.
ghost use Rattle.std.specs.Prelude.{◌≡◌, ◌≤◌, ◌<◌, ◌+◌, ◌-◌, ◌++◌, ◌^◌, ℕ, true, IsTrue, IfOk, OnOk, map};
ghost use Rattle.word_spec.specs.Memory.{Little};
ghost use Rattle.word_spec.specs.State.{State};
ghost use Rattle.bilv_spec.specs.Notes.{value};
ghost use Rattle.bilv_spec.specs.Answers.{IsWithin, start_in};
ghost use Rattle.bilv_spec.specs.Points.{is_known_at};
ghost use Rattle.bilv_spec.specs.Verdict as verdicts;
ghost use Rattle.bilv_spec.specs.Verdict.{IsRight, IsStart};
ghost use Rattle.links_lang.specs.Views.{link_of, links_of, named_of};
ghost use Rattle.machine_spec.specs.StateText.{IsWritten};
ghost use Rattle.pair_sides.specs.Sides.{IsSided, machine_in, program_of_side};
ghost use Rattle.pair_spec.specs.Links as spec;
ghost use Rattle.pair_spec.specs.Pairs.{ExitsIn};
ghost use Rattle.pair_verdict.specs.ExitLines as lines;
ghost use Rattle.pair_verdict.specs.ExitLines.{all_lined_words, lined_words};
ghost use Rattle.pair_verdict.specs.Sides.{IsReached};
ghost use Rattle.pair_verdict.specs.StateWords.{AreExitLinks, AreWordsOf, IsWordOf, IsNamedOf, lined_bytes};
ghost use Rattle.start_value.specs.Starts.{layout_of, written_of};
ghost use Rattle.verdict.specs.Verdicts.{budget_of};

use crate::machines::on_machine;
use arm_lift::Arm;
use byte_mem::{Endian, View};
use links_lang::{Link, Named};
use machine_law::Machine;
use pair_sides::Sided;
use rv_lift::Rv32;
use start_value::{Layout, Profile, Start};
use std::alloc::{AllocError, Global};
use table_run::{Ending, exit_state, run};
use verdict::Budget;

/// Where a run exits: the step, counted from 0, and the words of the exit state that links compare, each after the number of its line.
#[derive(Drop)]
pub struct Reached {
    pub step: u64,
    pub words: Vec<(u32, u32)>,
}

/// The word of a register or a flag in a state.
fn named_word<S: View>(state: &S, named: Named) -> u32
    requires { IsNamedOf S.has_register named }
    ensures { result ≡ value Little (named_of named) (S.view state.now) (S.view state.now) }
{
    match named {
        Named::Zero => 0,
        Named::Register(r) => state.reg(r),
        Named::Flag(f) => u32::from(state.flag(f)),
    }
}

/// The byte at an address in a state.
fn byte_at<S: View>(state: &S, at: u32) -> u32
    ensures { result ≡ (S.view state.now).mem at }
{
    state.load(at, 1, Endian::Little).bits as u32
}

/// Puts the bytes of a state from one address up to another, which is in it, after words, each after the number of a line. The error is out of memory.
fn push_bytes<S: View>(
    words: &mut Vec<(u32, u32)>,
    state: &S,
    line: u32,
    low: u32,
    high: u32,
) -> Result<(), AllocError>
    ensures { OnOk result (words.new.items ≡ words.old.items ++ lined_bytes line (S.view state.now) (spec.addresses low high)) }
{
    for at in low as u64..high as u64 + 1 {
        let byte = byte_at(state, at as u32);
        words.push((line, byte))?;
    }
    Ok(())
}

/// Puts what a link compares of an exit state of a side after words. The error is out of memory.
fn push_words<S: View>(
    words: &mut Vec<(u32, u32)>,
    state: &S,
    link: Link,
    second: bool,
) -> Result<(), AllocError>
    requires { IsWordOf second S.has_register link }
    ensures { OnOk result (words.new.items ≡ words.old.items ++ lined_words second (S.view state.now) (link_of link)) }
{
    match link {
        Link::Entry { .. } => Ok(()),
        Link::Share { .. } => Ok(()),
        Link::Exit {
            line,
            first,
            second: other,
        } => {
            let named = if second { other } else { first };
            let word = named_word(state, named);
            words.push((line, word))?;
            Ok(())
        }
        Link::Same { line, low, high } => {
            push_bytes(words, state, line, low, high)?;
            Ok(())
        }
    }
}

/// What links compare of an exit state of a side, in their order. The error is out of memory.
fn exit_words<S: View>(
    alloc: Global,
    state: &S,
    links: &[Link],
    second: bool,
) -> Result<Vec<(u32, u32)>, AllocError>
    requires { AreWordsOf second S.has_register links.now }
    ensures { IfOk result (λ v. v.items ≡ all_lined_words second (S.view state.now) (links_of links.now)) }
{
    let mut words = Vec::new(alloc);
    for link in links {
        push_words(&mut words, state, *link, second)?;
    }
    Ok(words)
}

/// The step by which the run from a start of a side exits, on its machine. The error is out of memory.
fn exit_step<M: Machine>(
    alloc: Global,
    side: &Sided,
    budget: &Budget,
    start: &Start,
) -> Result<u64, AllocError>
    requires machine { machine_in side.now.layout ≡ M.machine }
    requires form { layout_of side.now.layout ≡ M.form }
    requires sided { IsSided side.now }
    requires within { IsWithin (program_of_side side.now) (budget_of budget.now) }
    requires holds { IsRight (program_of_side side.now) budget.now.unroll verdicts.Holds }
    requires written { IsWritten (layout_of side.now.layout) (is_known_at (program_of_side side.now)) (written_of start.now) }
    requires start { IsStart (program_of_side side.now) (start_in (program_of_side side.now) (layout_of side.now.layout) (written_of start.now)) }
    ensures few { IfOk result (λ n. n + 1 < 2 ^ 64) }
    ensures exits { IfOk result (λ n. (at : ℕ) × (s : State) × ExitsIn (program_of_side side.now) budget.now.unroll
        (start_in (program_of_side side.now) (layout_of side.now.layout) (written_of start.now)) at n s) }
{
    let program = side.program::<M>();
    match run::<M>(alloc, &program, start, Some(budget.unroll), budget.points)? {
        Ending::Exit { step, .. } => Ok(step),
        _ => unreachable!(),
    }
}

/// Where the run from a start of a side exits, on its machine. The error is out of memory.
fn exit_by<M: Machine>(
    alloc: Global,
    side: &Sided,
    links: &[Link],
    second: bool,
    budget: &Budget,
    start: &Start,
) -> Result<Reached, AllocError>
    requires machine { machine_in side.now.layout ≡ M.machine }
    requires form { layout_of side.now.layout ≡ M.form }
    requires sided { IsSided side.now }
    requires links { AreExitLinks second side.now.layout links.now }
    requires within { IsWithin (program_of_side side.now) (budget_of budget.now) }
    requires holds { IsRight (program_of_side side.now) budget.now.unroll verdicts.Holds }
    requires written { IsWritten (layout_of side.now.layout) (is_known_at (program_of_side side.now)) (written_of start.now) }
    requires start { IsStart (program_of_side side.now) (start_in (program_of_side side.now) (layout_of side.now.layout) (written_of start.now)) }
    ensures { IfOk result (IsReached (program_of_side side.now) budget.now.unroll
        (start_in (program_of_side side.now) (layout_of side.now.layout) (written_of start.now)) second (links_of links.now)) }
{
    let step = exit_step::<M>(alloc, side, budget, start)?;
    let program = side.program::<M>();
    match exit_state::<M>(alloc, &program, start, step)? {
        Some(state) => {
            let words = exit_words(alloc, &state, links, second)?;
            Ok(Reached { step, words })
        }
        None => unreachable!(),
    }
}

/// Where the run from a start of a side that holds exits, and what links compare there. The error is out of memory.
pub fn exit_of(
    alloc: Global,
    side: &Sided,
    links: &[Link],
    second: bool,
    budget: &Budget,
    start: &Start,
) -> Result<Reached, AllocError>
    requires sided { IsSided side.now }
    requires links { AreExitLinks second side.now.layout links.now }
    requires within { IsWithin (program_of_side side.now) (budget_of budget.now) }
    requires holds { IsRight (program_of_side side.now) budget.now.unroll verdicts.Holds }
    requires written { IsWritten (layout_of side.now.layout) (is_known_at (program_of_side side.now)) (written_of start.now) }
    requires start { IsStart (program_of_side side.now) (start_in (program_of_side side.now) (layout_of side.now.layout) (written_of start.now)) }
    ensures { IfOk result (IsReached (program_of_side side.now) budget.now.unroll
        (start_in (program_of_side side.now) (layout_of side.now.layout) (written_of start.now)) second (links_of links.now)) }
{
    on_machine!(
        side.layout,
        exit_by(alloc, side, links, second, budget, start)
    )
}

/// The line of the first words that are not the same.
pub fn first_apart(first: &[(u32, u32)], second: &[(u32, u32)]) -> Option<u32>
    ensures { result ≡ lines.first_apart first.now second.now }
{
    let mut i = 0;
    while i < first.len() && i < second.len() {
        if first[i].1 != second[i].1 {
            return Some(first[i].0);
        }
        i += 1;
    }
    None
}
