//! Points where the call of a contract's function is stepped over.

ghost use Rattle.std.specs.Prelude.{◌≡◌, ◌≤◌, ◌<◌, ◌+◌, true, IfOk, Contains, [], length, map};
ghost use Rattle.term_spec.specs.Terms.{HasWidth, InRange, term_word};
ghost use Rattle.term_spec.specs.Passive.{AreNames, Tells};
ghost use Rattle.frame_terms.specs.PassiveFrames.{IsWalkable};
ghost use Rattle.notes_value.specs.FrameViews.{contract_of};
ghost use Rattle.notes_value.specs.NoteViews.{note_line_of};
ghost use Rattle.notes_value.specs.Views.{expr_of};
ghost use Rattle.notes_value.specs.declared.notes.NoteLine as declared;
ghost use Rattle.walk_spec.specs.Unrolling.{IsReadable};
ghost use Rattle.question_form.specs.Forms.{AreRootsFormed, AreStepsFormed, IsFormed};
ghost use Rattle.question_form.specs.FrameViews.{frame_unrolled_of, stepped_at, top_of};
ghost use Rattle.program_points.specs.Tables.{stack_at};
ghost use Rattle.question_form.specs.declared.unrolled.Deed.TheVariants as deeds;
ghost use Rattle.term_names.specs.Chosen.{HaveSameForm};
ghost use Rattle.term_names.specs.Views.{form_of, names_of};
ghost use Rattle.note_terms.specs.Lines.{AreStateTerms};
ghost use Rattle.passify.specs.Calls.{AreGiven, IsGiftPaid, IsGiftState, IsGoneOn, NeedsTried};
ghost use Rattle.passify.specs.Handled.{IsSweepOf};
ghost use Rattle.passify.specs.Rows.{IsRowTried, framed, own_point};
ghost use Rattle.passify.specs.Spans.{AreOwn, IsSpan};
ghost use Rattle.passify.specs.Sweeps.{AreTermsOf, AreWell};

use crate::bits::{both, constant};
use crate::edges::{Gone, edges};
use crate::exits::{event, unless};
use crate::point::{edges_at, entry_link};
use crate::spans::{Span, spans, taken};
use crate::sweep::Sweep;
use crate::writing::refused;
use note_terms::{Now, line};
use notes_value::{Contract, NoteLine};
use program_points::Frame;
use question_form::Unrolled;
use std::alloc::{AllocError, Global};
use term_dag::{Dag, Node, Term};
use term_names::{Names, gift_names};

/// The greatest place whose gift has a number among the parts.
const LAST_GIFT: u32 = 4_294_967_293;

/// The lines of what a contract needs are tried, in the state where the step is made, which is the old one too; what is left.
fn needs(
    dag: &mut Dag,
    sweep: &mut Sweep,
    lines: &[NoteLine],
    now: &Now,
    rest: Term,
    big: bool,
) -> Result<Term, AllocError>
    requires well { AreWell dag.old sweep.old }
    requires reads { (l : declared.NoteLine) → Contains lines.now l → IsReadable (form_of now.now.names.now) (expr_of l.says) }
    requires now { AreTermsOf sweep.old.entry dag.old now.now.names.now }
    requires pc { HasWidth dag.old 32 now.now.pc.0 }
    requires rest { HasWidth dag.old 1 rest.0 }
    ensures { IfOk result (λ t. NeedsTried dag.old dag.new sweep.old sweep.new rest.0 t.0 big now.now (map note_line_of lines.now) []) }
{
    let mut left = rest;
    for i in 0..lines.len() {
        let here = Now {
            names: now.names,
            pc: now.pc,
        };
        let before = Now {
            names: now.names,
            pc: now.pc,
        };
        let bit = line(dag, &lines[i].says, &here, &before, big)?;
        let _typed = dag.nodes();
        left = unless(dag, sweep, left, bit)?;
    }
    Ok(left)
}

/// What is left of a bit where all lines of what a contract gives are true in the state after its step, with the state before it as the old one.
fn gives(
    dag: &mut Dag,
    lines: &[NoteLine],
    next: &Now,
    now: &Now,
    rest: Term,
    big: bool,
) -> Result<Term, AllocError>
    requires reads { (l : declared.NoteLine) → Contains lines.now l → IsReadable (form_of next.now.names.now) (expr_of l.says) }
    requires same { HaveSameForm next.now.names.now now.now.names.now }
    requires next { AreStateTerms dag.old next.now }
    requires now { AreStateTerms dag.old now.now }
    requires rest { HasWidth dag.old 1 rest.0 }
    ensures { IfOk result (λ t. AreGiven dag.old dag.new rest.0 t.0 big next.now now.now (map note_line_of lines.now)) }
{
    let _typed = dag.nodes();
    let mut left = rest;
    for i in 0..lines.len() {
        let after = Now {
            names: next.names,
            pc: next.pc,
        };
        let before = Now {
            names: now.names,
            pc: now.pc,
        };
        let bit = line(dag, &lines[i].says, &after, &before, big)?;
        left = both(dag, left, bit)?;
    }
    Ok(left)
}

/// The top of a stack by number, which a contract step returns to; 0 where it is empty, or there is none of the number.
fn returns_to(frames: &[Frame], stack: usize) -> u32
    ensures { result ≡ top_of (stack_at frames.now stack) }
{
    if stack == 0 {
        return 0;
    }
    if frames.len() < stack {
        return 0;
    }
    frames[stack - 1].top
}

/// The terms of the state behind a contract step: those of a part, where the contract may change something, and else those before.
fn given(
    alloc: Global,
    dag: &mut Dag,
    part: u32,
    contract: &Contract,
    spans: &[Span],
    names: &Names,
) -> Result<Names, AllocError>
    requires registers { names.now.first + length names.now.registers.items ≤ 32 }
    requires flags { length names.now.flags.items ≤ 4 }
    requires spans { (s : _) → Contains spans.now s → IsSpan dag.old s }
    requires names { AreNames (form_of names.now) dag.old (names_of names.now) }
    ensures { IfOk result (λ n. IsGiftState dag.old dag.new part (contract_of contract.now) spans.now names.now n) }
{
    let before = gift_names(alloc, dag, part, contract.registers, contract.flags, names)?;
    let memory = taken(dag, spans, part, names.memory)?;
    let Names {
        first,
        registers,
        flags,
        ..
    } = before;
    Ok(Names {
        first,
        registers,
        flags,
        memory,
    })
}

/// A contract step goes on from where it is made: by its edge, where what is given is as the contract gives; what is left.
fn onward(
    alloc: Global,
    unrolled: &Unrolled,
    dag: &mut Dag,
    sweep: &mut Sweep,
    place: u32,
    number: usize,
    names: &Names,
    now: &Now,
    yes: Term,
    kept: Term,
) -> Result<Term, AllocError>
    requires walkable { IsWalkable (frame_unrolled_of unrolled.now) }
    requires formed { IsFormed unrolled.now }
    requires roots { AreRootsFormed unrolled.now }
    requires steps { AreStepsFormed unrolled.now }
    requires place { place < length unrolled.now.points.items }
    requires deed { (own_point unrolled.now place).deed ≡ deeds.Contract number }
    requires well { AreWell dag.old sweep.old }
    requires sweep { IsSweepOf unrolled.now sweep.old }
    requires names { AreTermsOf sweep.old.entry dag.old names.now }
    requires now { AreTermsOf sweep.old.entry dag.old now.now.names.now }
    requires pc { HasWidth dag.old 32 now.now.pc.0 }
    requires yes { HasWidth dag.old 1 yes.0 }
    requires is_yes { (x : _) → InRange x → Tells dag.old x yes.0 true }
    requires kept { HasWidth dag.old 1 kept.0 }
    ensures { IfOk result (λ t. IsGoneOn unrolled.now place (stepped_at unrolled.now number) names.now now.now dag.old dag.new sweep.old sweep.new kept.0 t.0) }
{
    let stack = unrolled.points[place as usize].stack;
    let pc = dag.keep(Node::Constant {
        width: 32,
        value: u64::from(returns_to(&unrolled.frames, stack)),
    })?;
    let next = Now { names, pc };
    let left = gives(
        dag,
        &unrolled.stepped[number].gives,
        &next,
        now,
        kept,
        unrolled.big,
    )?;
    let gone = Gone { jumped: yes, next };
    let link = entry_link(&sweep.entry, unrolled.link);
    let list = edges_at(unrolled, place as usize);
    let last = edges(alloc, unrolled, dag, sweep, list, &gone, link, left)?;
    Ok(last)
}

/// A contract step is tried: what the contract needs, the bytes that it may write, and the edge, where what is given is as the contract gives; what is left.
/// The error is out of memory, or of numbers for parts.
pub fn contract_step(
    alloc: Global,
    unrolled: &Unrolled,
    dag: &mut Dag,
    sweep: &mut Sweep,
    place: u32,
    number: usize,
    now: &Now,
    rest: Term,
) -> Result<Term, AllocError>
    requires walkable { IsWalkable (frame_unrolled_of unrolled.now) }
    requires paid { IsGiftPaid (framed unrolled.now place) (stepped_at unrolled.now number) }
    requires formed { IsFormed unrolled.now }
    requires roots { AreRootsFormed unrolled.now }
    requires steps { AreStepsFormed unrolled.now }
    requires place { place < length unrolled.now.points.items }
    requires deed { (own_point unrolled.now place).deed ≡ deeds.Contract number }
    requires well { AreWell dag.old sweep.old }
    requires sweep { IsSweepOf unrolled.now sweep.old }
    requires own { AreOwn unrolled.now dag.old sweep.old }
    requires now { AreTermsOf sweep.old.entry dag.old now.now.names.now }
    requires pc { HasWidth dag.old 32 now.now.pc.0 }
    requires at { ((x : _) → term_word x dag.old now.now.pc.0 ≡ (framed unrolled.now place).point.at) }
    requires rest { HasWidth dag.old 1 rest.0 }
    ensures { IfOk result (λ t. IsRowTried unrolled.now place now.now.names.now dag.old dag.new sweep.old sweep.new rest.0 t.0) }
{
    if place > LAST_GIFT {
        return Err(AllocError);
    }
    let contract = &unrolled.stepped[number];
    let needed = needs(dag, sweep, &contract.needs, now, rest, unrolled.big)?;
    let yes = constant(dag, true)?;
    let spans = spans(alloc, dag, &contract.writes, now, yes, unrolled.big)?;
    let wrote = refused(dag, unrolled, &spans, &sweep.own)?;
    let kept = event(dag, sweep, needed, wrote)?;
    let names = given(alloc, dag, place + 2, contract, &spans, now.names)?;
    let left = onward(
        alloc, unrolled, dag, sweep, place, number, &names, now, yes, kept,
    )?;
    Ok(left)
}
