//! What is counted of small programs, each made a passive program.
ghost use Rattle.std.specs.Prelude.{◌≡◌, ◌<◌, ◌≤◌, true, false, IfOk};
ghost use Rattle.bilv_spec.specs.Files.{is_rv};
ghost use Rattle.frame_terms.specs.HeadlessTerms.{as_cells};
ghost use Rattle.frame_start.specs.Segments.{IsFrameAskable};
ghost use Rattle.mem_cells.specs.FrameViews.{frame_cells_of};
ghost use Rattle.mem_cells.specs.Views.{cells_of, program_of_cells};
ghost use Rattle.verdict.specs.Measures.{IsMeasurable};
ghost use Rattle.asked_bytes.specs.AskedBytes.{AreRising};
ghost use Rattle.verdict.specs.Rounds.{IsAskable, IsDecidable};
ghost use Rattle.question_form.specs.Questions.{program_of_question, question_of, term_of};
ghost use Rattle.term_spec.specs.Cells.{AreFormed};
ghost use Rattle.term_spec.specs.WalkQuestions.{TellsQuestion};

use crate::cells::{broken_zeros, count_clauses};
use crate::conditions::{count_questions, equalities, selections};
use crate::logs::count_given;
use crate::programs::{Case, DATA, ENTRY, Program, RISC_V, addresses, file};
use elf32_reader::{ElfFault, Image, read_image};
use flow_graph::descend;
use machine_law::Machine;
use mem_cells::{Celled, cells_some, frame_cells};
use notes_lang::{Dialect, parse_notes};
use passify::passive;
use program_points::PointsFault;
use question_form::{Asked, Kind, Passive, Question, Unrolled};
use rv_lift::Rv32;
use start_value::Layout;
use std::alloc::{AllocError, Global};
use std::test::Fail;
use unroller::unroll;
use weakest_pre::{frame_question, question};

/// The place of `a3` among the registers.
const A3: usize = 12;

/// What is counted.
#[derive(Clone, Copy, PartialEq)]
pub enum Study {
    /// Of how many of 100 readings each of the three questions is true by their runs, and of how many its term says otherwise.
    Questions,
    /// In the terms of whether the program fails: selections between two constants, other ones, nodes; and edges.
    Selections,
    /// Of how many of 500 readings it is true by their runs that the program fails, and of how many cells or clauses say otherwise, where so many bytes of code
    /// are asked.
    Clauses { asked: u32 },
    /// The first, the last and the number of the known bytes that are broken by zeros, where `a3` is an address.
    Broken { at: u32 },
    /// Base reads, pairs of them that have to agree, and tests for equality in cells and in terms.
    Pairs,
    /// Base reads, pairs of them, and asked bytes, where so many bytes of data are asked.
    Sizes { asked: u32 },
    /// How many logs of the verdict are those that the search gives.
    Logs,
}

/// A program of a machine unrolled.
pub fn unrolled<'a, M: Machine>(
    alloc: Global,
    program: &program_value::Program<'a, M>,
    k: u64,
) -> Result<Unrolled<'a>, PointsFault>
    requires { k ≤ 4096 }
    ensures { IfOk result IsMeasurable }
{
    program.image.bytes();
    let graph = descend::<M>(alloc, program)?;
    unroll::<M>(alloc, &graph, program, k, 65536)
}

/// Its passive program.
pub fn passive_of<'a>(alloc: Global, unrolled: &'a Unrolled<'a>) -> Result<Passive<'a>, AllocError>
    requires { IsMeasurable unrolled.now }
    ensures { IfOk result IsDecidable }
{
    let passive = passive(alloc, unrolled)?;
    Ok(passive)
}

/// The counts of a question's cells.
fn study_cells(
    alloc: Global,
    celled: &Celled,
    case: &Case<Rv32<0>>,
    study: Study,
) -> Result<[usize; 4], AllocError>
    requires formed { AreFormed (program_of_cells celled.now) (cells_of celled.now) }
    requires flat { frame_cells_of celled.now ≡ as_cells (cells_of celled.now) }
    requires askable { IsAskable celled.now.question.now.passive.now }
{
    let (reads, pairs) = (celled.addresses.len(), celled.agrees.len());
    match study {
        Study::Clauses { .. } => {
            let [trues, wrong] = count_clauses(alloc, celled, case)?;
            Ok([trues, wrong, 0, 0])
        }
        Study::Pairs => {
            let before = equalities(&celled.question.dag);
            Ok([reads, pairs, equalities(&celled.dag), before])
        }
        _ => Ok([reads, pairs, celled.asked.len(), 0]),
    }
}

/// The first, the last and the number of the known bytes that are broken by zeros, where no byte is asked and the register at a place is an address, of whether
/// a passive program fails.
pub fn broken_of(
    alloc: Global,
    passive: &Passive,
    place: usize,
    at: u32,
) -> Result<[usize; 3], AllocError>
    requires askable { IsFrameAskable passive.now }
    requires place { place < 31 }
{
    let question = frame_question(alloc, passive, Asked::of_program(Kind::Fail))?;
    let celled = frame_cells(alloc, &question, &[])?;
    broken_zeros(alloc, &celled, place, at)
}

/// The bytes that a study asks.
fn asked_of(alloc: Global, study: Study) -> Result<Vec<u32>, AllocError>
    ensures { IfOk result (λ v. AreRising v.items) }
{
    match study {
        Study::Clauses { asked } => addresses(alloc, ENTRY, asked),
        Study::Sizes { asked } => addresses(alloc, DATA, asked),
        _ => addresses(alloc, ENTRY, 0),
    }
}

/// The counts of a question by its cells.
fn study_question(
    alloc: Global,
    question: &Question,
    case: &Case<Rv32<0>>,
    study: Study,
) -> Result<[usize; 4], AllocError>
    requires askable { IsAskable question.now.passive.now }
    requires tells { TellsQuestion (program_of_question question.now) (question_of question.now) (term_of question.now) }
{
    let asked = asked_of(alloc, study)?;
    let celled = cells_some(alloc, question, &asked)?;
    study_cells(alloc, &celled, case, study)
}

/// The counts of whether a passive program fails.
fn study_fails(
    alloc: Global,
    passive: &Passive,
    case: &Case<Rv32<0>>,
    study: Study,
) -> Result<[usize; 4], AllocError>
    requires askable { IsAskable passive.now }
{
    let question = question(alloc, passive, Kind::Fail)?;
    if study == Study::Selections {
        let [fixed, others] = selections(&question.dag);
        let edges = passive.unrolled.edges.len();
        return Ok([fixed, others, question.dag.nodes(), edges]);
    }
    study_question(alloc, &question, case, study)
}

/// The counts of a passive program.
fn study_passive(
    alloc: Global,
    passive: &Passive,
    case: &Case<Rv32<0>>,
    study: Study,
) -> Result<[usize; 4], AllocError>
    requires decidable { IsDecidable passive.now }
{
    match study {
        Study::Questions => count_questions(alloc, passive, case),
        Study::Broken { at } => {
            let [first, last, count] = broken_of(alloc, passive, A3, at)?;
            Ok([first, last, count, 0])
        }
        _ => study_fails(alloc, passive, case, study),
    }
}

/// The counts of an unrolled program.
fn study_unrolled(
    alloc: Global,
    unrolled: &Unrolled,
    case: &Case<Rv32<0>>,
    study: Study,
) -> Result<[usize; 4], AllocError>
    requires measurable { IsMeasurable unrolled.now }
{
    let passive = passive_of(alloc, unrolled)?;
    study_passive(alloc, &passive, case, study)
}

/// The counts of a program of an image.
fn study_program(alloc: Global, case: &Case<Rv32<0>>, study: Study) -> Result<[usize; 4], Fail> {
    if study == Study::Logs {
        return Ok([count_given(alloc, case)?, 0, 0, 0]);
    }
    let k = u64::from(case.k);
    let unrolled = unrolled::<Rv32<0>>(alloc, &case.program, k)?;
    let counts = study_unrolled(alloc, &unrolled, case, study)?;
    Ok(counts)
}

/// The counts of words and notes over the words' file.
fn study_notes(
    alloc: Global,
    image: &Image,
    program: &Program,
    study: Study,
) -> Result<[usize; 4], Fail>
    requires machine { is_rv image.now ≡ true }
{
    let layout = Layout::Rv32 { compressed: false };
    let notes = parse_notes(alloc, program.notes, layout, Dialect::Plain)?;
    let case = Case {
        words: program.words,
        program: program_value::Program::new(image, &notes, ENTRY),
        k: program.k,
    };
    study_program(alloc, &case, study)
}

/// The counts of a program, whose file has these bytes.
fn study_file(
    alloc: Global,
    bytes: &[u8],
    program: &Program,
    study: Study,
) -> Result<[usize; 4], Fail> {
    let image = read_image(alloc, bytes)?;
    if !image.is_risc_v() {
        return Err(Fail::from(ElfFault::Machine));
    }
    study_notes(alloc, &image, program, study)
}

/// The counts of a program.
pub fn counts_of(alloc: Global, program: &Program, study: Study) -> Result<[usize; 4], Fail> {
    let file = file(alloc, RISC_V, program.words)?;
    study_file(alloc, file.as_slice(), program, study)
}
