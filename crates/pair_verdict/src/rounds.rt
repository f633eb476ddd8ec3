//! One round of a question about two functions: its clauses over some bytes of both files, and what the search says of them.
ghost use Rattle.std.specs.Prelude.{◌≡◌, ◌≤◌, ◌<◌, ◌-◌, ◌^◌, IfOk, filter, length, nat_lt};
ghost use Rattle.links_lang.specs.Views.{AreLinksOf, links_of};
ghost use Rattle.mem_cells.specs.Views.{cells_of, program_of_cells};
ghost use Rattle.pair_form.specs.Views.{AreOfProgram, pair_question_of};
ghost use Rattle.start_value.specs.Starts.{written_of};
ghost use Rattle.term_spec.specs.ClauseForm.{inputs};
ghost use Rattle.pair_spec.specs.ExitPlaces.{before_step};
ghost use Rattle.verdict.specs.Rounds.{entry_shown};
ghost use Rattle.pair_verdict.specs.PairRounds.{AreAskableSides, AreAsked, AreJudged, AreValues, AreValuesOf, IsMeant, IsPairRound, broken_in, first_placed, second_placed};

use crate::verdicts::PairAnswered;
use bit_blast::free_inputs;
use cnf_form::Proof;
use frame_start::{Meaning, Segments, meaning_of};
use links_lang::Link;
use mem_cells::Celled;
use pair_blast::blast_two;
use pair_form::{PairKind, SideCells, SideQuestion};
use pair_terms::side_cells;
use question_form::{Passive, Question};
use sat_core::{Answer, solve};
use start_value::{Layout, Start};
use std::alloc::{AllocError, Global};
use term_dag::Dag;
use verdict::start_shown;

/// Both sides of a question about two functions, each with a passive program by which starts follow its walks.
#[derive(Clone, Copy)]
pub struct Sides<'a> {
    pub first: &'a SideQuestion<'a>,
    pub second: &'a SideQuestion<'a>,
    pub first_passive: &'a Passive<'a>,
    pub second_passive: &'a Passive<'a>,
}

/// Addresses of known bytes of both sides.
#[derive(Drop)]
pub struct Asked {
    pub first: Vec<u32>,
    pub second: Vec<u32>,
}

/// What a round of a question about two functions comes to.
#[derive(Drop)]
pub enum PairRound {
    /// The question's answer.
    Answered(PairAnswered),
    /// The values that were found have not the bytes of the files at these addresses, of which there are some.
    Broken(Asked),
}

/// How many inputs cells have.
fn input_count(celled: &Celled) -> usize
    requires few { length celled.now.question.now.passive.now.unrolled.now.points.items ≤ 2 ^ 28 }
    requires fit { inputs (program_of_cells celled.now) (cells_of celled.now) < 2 ^ 64 }
    ensures { result ≡ inputs (program_of_cells celled.now) (cells_of celled.now) }
{
    let first = free_inputs(celled.question.passive.unrolled);
    first as usize + 8 * celled.addresses.len()
}

/// Choices at steps before one. The error is out of memory.
fn choices_before(
    alloc: Global,
    choices: &[(u64, u8)],
    end: u64,
) -> Result<Vec<(u64, u8)>, AllocError>
    ensures { IfOk result (λ v. v.items ≡ filter (λ x. nat_lt x.0 end) choices.now) }
{
    let mut before = Vec::new(alloc);
    for choice in choices {
        if choice.0 < end {
            before.push(*choice)?;
        }
    }
    Ok(before)
}

/// The start of values in which no step chooses that only the exit's place would make.
fn without_exit(alloc: Global, start: Start, points: usize) -> Result<Start, AllocError>
    requires { 1 ≤ points }
    ensures { IfOk result (λ s. written_of s ≡ before_step (points - 1) (written_of start)) }
{
    let choices = choices_before(alloc, &start.choices, points as u64 - 1)?;
    Ok(Start { choices, ..start })
}

/// What values mean, by a passive program of the cells' unrolled program. The passive program of the cells' question has nodes for the exit's words besides. The
/// error is out of memory.
fn meaning_by(
    alloc: Global,
    celled: Celled,
    passive: &Passive,
    values: &[bool],
) -> Result<Meaning, AllocError>
    requires of { AreOfProgram celled }
    requires values { AreValues celled values.now passive.now }
    ensures { IfOk result (IsMeant celled.entry values.now) }
{
    let Celled {
        question,
        dag,
        addresses,
        reads,
        agrees,
        asked,
        root,
    } = celled;
    let plain = Question {
        passive,
        asked: question.asked,
        dag: Dag::new(alloc),
        root: question.root,
    };
    let cells = Celled {
        question: &plain,
        dag,
        addresses,
        reads,
        agrees,
        asked,
        root,
    };
    let meaning = meaning_of(alloc, &cells, values)?;
    Ok(meaning)
}

/// The start of what values show of a side, without choices at the step that only the exit's place makes. The error is out of memory.
fn start_by(alloc: Global, segments: Segments, passive: &Passive) -> Result<Start, AllocError>
    requires some { 1 ≤ length passive.now.unrolled.now.points.items }
    requires one { length segments.choices.items ≡ 1 }
    ensures { IfOk result (λ s. written_of s ≡ before_step (length passive.now.unrolled.now.points.items - 1) (entry_shown segments)) }
{
    let start = start_shown(alloc, segments);
    let start = without_exit(alloc, start, passive.unrolled.points.len())?;
    Ok(start)
}

/// The known bytes that values have not; none where they show something.
fn broken_of(alloc: Global, meaning: Meaning) -> Vec<u32>
    ensures { result.items ≡ broken_in meaning }
{
    match meaning {
        Meaning::Shown(_) => Vec::new(alloc),
        Meaning::Broken(broken) => broken,
    }
}

/// What satisfying values come to, where the second side's are those from a place on: the starts that they give, or the known bytes that they have not. The error
/// is out of memory.
fn judge_values(
    alloc: Global,
    first: SideCells,
    second: SideCells,
    sides: &Sides,
    values: &[bool],
    later: &[bool],
) -> Result<PairRound, AllocError>
    requires first_of { AreOfProgram first.celled }
    requires second_of { AreOfProgram second.celled }
    requires first { AreValuesOf first values.now sides.now.first_passive.now }
    requires second { AreValuesOf second later.now sides.now.second_passive.now }
    ensures { IfOk result (AreJudged first.entry second.entry values.now later.now) }
{
    let one = meaning_by(alloc, first.celled, sides.first_passive, values)?;
    let two = meaning_by(alloc, second.celled, sides.second_passive, later)?;
    match one {
        Meaning::Shown(shown) => match two {
            Meaning::Shown(other) => {
                let first = start_by(alloc, shown, sides.first_passive)?;
                let second = start_by(alloc, other, sides.second_passive)?;
                Ok(PairRound::Answered(PairAnswered::Sat { first, second }))
            }
            Meaning::Broken(broken) => Ok(PairRound::Broken(Asked {
                first: Vec::new(alloc),
                second: broken,
            })),
        },
        Meaning::Broken(broken) => Ok(PairRound::Broken(Asked {
            first: broken,
            second: broken_of(alloc, two),
        })),
    }
}

/// One round of a question about two functions over the bytes of both files at some addresses and those of their literals, which are all known. The error is
/// out of memory.
pub fn pair_round(
    alloc: Global,
    sides: &Sides,
    links: &[Link],
    kind: PairKind,
    asked: &Asked,
    conflicts: u64,
) -> Result<PairRound, AllocError>
    requires some { 1 ≤ conflicts }
    requires links { (form : Layout) × (other : Layout) × AreLinksOf form other links.now }
    requires sides { AreAskableSides (links_of links.now) (pair_question_of kind) sides.now }
    requires asked { AreAsked (first_placed sides.now) (second_placed sides.now) asked.now }
    ensures { IfOk result (IsPairRound (links_of links.now) sides.now (pair_question_of kind) asked.now conflicts) }
{
    let one = side_cells(alloc, sides.first, &asked.first)?;
    let two = side_cells(alloc, sides.second, &asked.second)?;
    let clauses = blast_two(alloc, &one, &two, kind)?;
    match solve(alloc, &clauses, conflicts)? {
        Answer::Sat(values) => {
            let later = &values[input_count(&one.celled)..];
            let judged = judge_values(alloc, one, two, sides, &values, later)?;
            Ok(judged)
        }
        Answer::Unsat(log) => Ok(PairRound::Answered(PairAnswered::Refuted(Proof {
            clauses,
            log,
        }))),
        Answer::Spent(log) => Ok(PairRound::Answered(PairAnswered::Spent(Proof { clauses, log }))),
    }
}
