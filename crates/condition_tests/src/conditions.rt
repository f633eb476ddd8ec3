//! The questions of small programs as terms, against runs of the instruction table.
ghost use Rattle.std.specs.Prelude.{true};
ghost use Rattle.verdict.specs.Rounds.{IsAskable};

use crate::programs::Case;
use crate::starts::{is_true, reading_with, registers, word_of};
use bil_ast::BinaryOp;
use question_form::{Kind, Passive, Question};
use rv_lift::Rv32;
use std::alloc::{AllocError, Global};
use term_dag::{Dag, Node, Term};
use weakest_pre::question;

/// Whether a question is true under a reading, by its term.
fn is_told(
    alloc: Global,
    question: &Question,
    registers: &[u32],
    words: &[u32],
) -> Result<bool, AllocError> {
    let reading = reading_with(alloc, registers, words)?;
    let word = word_of(alloc, &question.dag, &reading, question.root)?;
    Ok(word == 1)
}

/// Of how many of 100 readings a question is true by their runs, and of how many its term says otherwise.
fn ask(alloc: Global, question: &Question, case: &Case<Rv32<0>>) -> Result<[usize; 2], AllocError> {
    let mut seed = 0x2545_f491;
    let mut trues = 0usize;
    let mut wrong = 0usize;
    for _ in 0..100 {
        let registers = registers(&mut seed);
        let truth = is_true(alloc, case, &registers, question.asked)?;
        let told = is_told(alloc, question, &registers, case.words)?;
        trues = trues.saturating_add(usize::from(truth));
        wrong = wrong.saturating_add(usize::from(told != truth));
    }
    Ok([trues, wrong])
}

/// The same of the question of a kind.
fn ask_kind(
    alloc: Global,
    passive: &Passive,
    kind: Kind,
    case: &Case<Rv32<0>>,
) -> Result<[usize; 2], AllocError>
    requires askable { IsAskable passive.now }
{
    let question = question(alloc, passive, kind)?;
    ask(alloc, &question, case)
}

/// Of how many readings each of the three questions of a program is true by their runs, and of how many the terms say otherwise.
pub fn count_questions(
    alloc: Global,
    passive: &Passive,
    case: &Case<Rv32<0>>,
) -> Result<[usize; 4], AllocError>
    requires askable { IsAskable passive.now }
{
    let [entries, first] = ask_kind(alloc, passive, Kind::Entry, case)?;
    let [fails, second] = ask_kind(alloc, passive, Kind::Fail, case)?;
    let [turns, third] = ask_kind(alloc, passive, Kind::Turn, case)?;
    let wrong = first.saturating_add(second).saturating_add(third);
    Ok([entries, fails, turns, wrong])
}

/// The nodes of terms, up to 2^32 of them.
fn node_at(dag: &Dag, place: usize) -> Option<Node> {
    if place < dag.nodes() && place <= u32::MAX as usize {
        return Some(dag.node(Term(place as u32)));
    }
    None
}

/// Whether a term is a constant.
fn is_constant(dag: &Dag, term: Term) -> bool {
    matches!(node_at(dag, term.0 as usize), Some(Node::Constant { .. }))
}

/// How many selections there are, between two constants and between others.
pub fn selections(dag: &Dag) -> [usize; 2] {
    let mut fixed = 0usize;
    let mut others = 0usize;
    for place in 0..dag.nodes() {
        if let Some(
            Node::Select {
                when_true,
                when_false,
                ..
            },
        ) = node_at(dag, place)
        {
            if is_constant(dag, when_true) && is_constant(dag, when_false) {
                fixed = fixed.saturating_add(1);
            } else {
                others = others.saturating_add(1);
            }
        }
    }
    [fixed, others]
}

/// How many tests of two words for equality there are.
pub fn equalities(dag: &Dag) -> usize {
    let mut count = 0usize;
    for place in 0..dag.nodes() {
        if let Some(
            Node::Binary {
                op: BinaryOp::Equal,
                width: 32,
                ..
            },
        ) = node_at(dag, place)
        {
            count = count.saturating_add(1);
        }
    }
    count
}
