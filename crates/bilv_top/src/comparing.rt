//! What is asked about two functions, and its answer.
ghost use Rattle.std.specs.Prelude.{◌≡◌, ◌≤◌, ℕ, List, ◌∷◌, IfOk, codes, length};
ghost use Rattle.answer_spec.specs.Outcomes.{AfterPair};
ghost use Rattle.notes_spec.specs.Programs.{names_of};
ghost use Rattle.notes_spec.specs.Verified as verified;
ghost use Rattle.notes_spec.specs.Verified.{IsAccepted};
ghost use Rattle.call_spec.specs.Calls.{Surroundings};
ghost use Rattle.pair_spec.specs.Equals as equals;
ghost use Rattle.pair_spec.specs.Equals.{AfterElfOf};
ghost use Rattle.command_line.specs.Commands as commands;
ghost use Rattle.command_line.specs.Commands.{options_of};
ghost use Rattle.io_edges.specs.Met.{seen};
ghost use Rattle.links_lang.specs.Views.{AreLinksOf, links_of};
ghost use Rattle.notes_lang.specs.Parsing.{layout_names};
ghost use Rattle.pair_sides.specs.Sides.{IsSided, side_of};
ghost use Rattle.bilv_top.specs.Answers.{answer_of};
ghost use Rattle.bilv_top.specs.Pairs.{AfterFirstNotes, AfterLinksRead, AfterSecondElf, AfterSecondNotes, AreCompared, IsCompared, IsMetSince};
ghost use Rattle.io_edges.specs.Begun.{AreBegun};
ghost use Rattle.bilv_top.specs.Reads.{names_after_elfs, names_after_notes, names_of_pair, names_of_pair_task};

use crate::answer::{Answer, Step};
use crate::differ::differ;
use crate::equal::equal;
use crate::pair::{Which, open_elf, read_elf_of, read_links, read_notes_of, sided};
use command_line::{Budget, Options, PairNames};
use elf32_reader::Image;
use io_edges::Shelf;
use links_lang::Link;
use pair_sides::Sided;
use std::alloc::{AllocError, Global};

/// What is asked about two functions.
#[derive(Clone, Copy)]
pub enum PairTask<'a> {
    /// The report of whether they are equal, within budgets.
    Equal(Budget),
    /// Whether the runs from the starts of the report of this name end as the report says.
    Differ(&'a str),
}

/// The answer to what is asked about two functions and links between them. The error is out of memory.
#[tactic(auto, using(io_edges::proofs::Beginning::begun_none))]
fn compare<H: Shelf>(
    alloc: Global,
    shelf: &mut H,
    first: &Sided,
    second: &Sided,
    links: &[Link],
    task: PairTask,
) -> Result<Answer, AllocError>
    requires first { IsSided first.now }
    requires second { IsSided second.now }
    requires links { AreLinksOf first.now.layout second.now.layout links.now }
    ensures keeps { (n : List ℕ) → H.holds shelf.new n ≡ H.holds shelf.old n }
    ensures never_falls { (n : List ℕ) → H.faults shelf.old n ≤ H.faults shelf.new n }
    ensures begun { AreBegun (H.begun shelf.old) (H.begun shelf.new) (names_of_pair_task task.entry) }
    ensures compared { IfOk result (λ a. (s : Surroundings) → IsMetSince s (H.holds shelf.old) (H.faults shelf.old) (H.faults shelf.new) →
        IsCompared s task.entry (side_of first.now) (side_of second.now) (links_of links.now) (answer_of a)) }
{
    match task {
        PairTask::Equal(budget) => equal(alloc, first, second, links, budget),
        PairTask::Differ(name) => differ(alloc, shelf, first, second, links, name),
    }
}

/// The same, with the links of a name.
fn compare_by_links<H: Shelf>(
    alloc: Global,
    shelf: &mut H,
    first: &Sided,
    second: &Sided,
    links: &str,
    task: PairTask,
) -> Result<Answer, AllocError>
    requires first { IsSided first.now }
    requires second { IsSided second.now }
    requires first_names { layout_names first.now.layout ≡ names_of first.now.image.now }
    requires second_names { layout_names second.now.layout ≡ names_of second.now.image.now }
    ensures keeps { (n : List ℕ) → H.holds shelf.new n ≡ H.holds shelf.old n }
    ensures never_falls { (n : List ℕ) → H.faults shelf.old n ≤ H.faults shelf.new n }
    ensures begun { AreBegun (H.begun shelf.old) (H.begun shelf.new) (links.now ∷ names_of_pair_task task.entry) }
    ensures compared { IfOk result (λ a. (s : Surroundings) → IsMetSince s (H.holds shelf.old) (H.faults shelf.old) (H.faults shelf.new) →
        AfterLinksRead s links.now first.now.image.now second.now.image.now (IsCompared s task.entry (side_of first.now) (side_of second.now))
        (answer_of a)) }
{
    match read_links(alloc, shelf, links, first.layout, second.layout)? {
        Step::Go(links) => compare(alloc, shelf, first, second, &links, task),
        Step::Answered(answer) => Ok(answer),
    }
}

/// The same, with the second function of a file that is accepted and of the notes of a name.
fn compare_to_second<H: Shelf>(
    alloc: Global,
    shelf: &mut H,
    first: &Sided,
    second: &Image,
    names: PairNames,
    options: Options,
    task: PairTask,
) -> Result<Answer, AllocError>
    requires first { IsSided first.now }
    requires first_names { layout_names first.now.layout ≡ names_of first.now.image.now }
    requires accepted { IsAccepted second.now }
    ensures keeps { (n : List ℕ) → H.holds shelf.new n ≡ H.holds shelf.old n }
    ensures never_falls { (n : List ℕ) → H.faults shelf.old n ≤ H.faults shelf.new n }
    ensures begun { AreBegun (H.begun shelf.old) (H.begun shelf.new) (names_after_notes (commands.names_of names.entry) task.entry) }
    ensures compared { IfOk result (λ a. (s : Surroundings) → IsMetSince s (H.holds shelf.old) (H.faults shelf.old) (H.faults shelf.new) →
        AfterSecondNotes s (options_of options) (commands.names_of names.entry) first.now.image.now second.now
        (λ q. IsCompared s task.entry (side_of first.now) (equals.side_of (options_of options) second.now q)) (answer_of a)) }
{
    let name = names.other_notes;
    match read_notes_of(alloc, shelf, Which::Second, second, name, options)? {
        Step::Go(found) => {
            let second = sided(second, &found, options);
            compare_by_links(alloc, shelf, first, &second, names.links, task)
        }
        Step::Answered(answer) => Ok(answer),
    }
}

/// The same, of two files that are accepted.
fn compare_opened<H: Shelf>(
    alloc: Global,
    shelf: &mut H,
    first: &Image,
    second: &Image,
    names: PairNames,
    options: Options,
    task: PairTask,
) -> Result<Answer, AllocError>
    requires first_accepted { IsAccepted first.now }
    requires second_accepted { IsAccepted second.now }
    ensures keeps { (n : List ℕ) → H.holds shelf.new n ≡ H.holds shelf.old n }
    ensures never_falls { (n : List ℕ) → H.faults shelf.old n ≤ H.faults shelf.new n }
    ensures begun { AreBegun (H.begun shelf.old) (H.begun shelf.new) (names_after_elfs (commands.names_of names.entry) task.entry) }
    ensures compared { IfOk result (λ a. (s : Surroundings) → IsMetSince s (H.holds shelf.old) (H.faults shelf.old) (H.faults shelf.new) →
        AfterFirstNotes s (options_of options) (commands.names_of names.entry) first.now second.now
        (AreCompared s (options_of options) task.entry first.now second.now) (answer_of a)) }
{
    match read_notes_of(alloc, shelf, Which::First, first, names.notes, options)? {
        Step::Go(found) => {
            let first = sided(first, &found, options);
            compare_to_second(alloc, shelf, &first, second, names, options, task)
        }
        Step::Answered(answer) => Ok(answer),
    }
}

/// The same, of an accepted file and the bytes of another.
#[tactic(auto, using(io_edges::proofs::Beginning::begun_none))]
fn compare_to_file<H: Shelf>(
    alloc: Global,
    shelf: &mut H,
    first: &Image,
    second: &[u8],
    names: PairNames,
    options: Options,
    task: PairTask,
) -> Result<Answer, AllocError>
    requires accepted { IsAccepted first.now }
    requires short { length second.now ≤ verified.elf_limit }
    ensures keeps { (n : List ℕ) → H.holds shelf.new n ≡ H.holds shelf.old n }
    ensures never_falls { (n : List ℕ) → H.faults shelf.old n ≤ H.faults shelf.new n }
    ensures begun { AreBegun (H.begun shelf.old) (H.begun shelf.new) (names_after_elfs (commands.names_of names.entry) task.entry) }
    ensures compared { IfOk result (λ a. (s : Surroundings) → IsMetSince s (H.holds shelf.old) (H.faults shelf.old) (H.faults shelf.new) →
        AfterElfOf (codes "second") second.now (AfterFirstNotes s (options_of options) (commands.names_of names.entry) first.now second.now
        (AreCompared s (options_of options) task.entry first.now second.now)) (answer_of a)) }
{
    match open_elf(alloc, Which::Second, second)? {
        Step::Go(second) => compare_opened(alloc, shelf, first, &second, names, options, task),
        Step::Answered(answer) => Ok(answer),
    }
}

/// The same, of the bytes of the first file.
#[tactic(auto, using(io_edges::proofs::Beginning::begun_none))]
fn compare_files<H: Shelf>(
    alloc: Global,
    shelf: &mut H,
    first: &[u8],
    names: PairNames,
    options: Options,
    task: PairTask,
) -> Result<Answer, AllocError>
    requires short { length first.now ≤ verified.elf_limit }
    ensures keeps { (n : List ℕ) → H.holds shelf.new n ≡ H.holds shelf.old n }
    ensures never_falls { (n : List ℕ) → H.faults shelf.old n ≤ H.faults shelf.new n }
    ensures begun { AreBegun (H.begun shelf.old) (H.begun shelf.new)
        ((commands.names_of names.entry).other_elf ∷ names_after_elfs (commands.names_of names.entry) task.entry) }
    ensures compared { IfOk result (λ a. (s : Surroundings) → IsMetSince s (H.holds shelf.old) (H.faults shelf.old) (H.faults shelf.new) →
        AfterElfOf (codes "first") first.now (AfterSecondElf s (options_of options) (commands.names_of names.entry) first.now
        (AreCompared s (options_of options) task.entry first.now)) (answer_of a)) }
{
    let first = match open_elf(alloc, Which::First, first)? {
        Step::Go(first) => first,
        Step::Answered(answer) => return Ok(answer),
    };
    match read_elf_of(alloc, shelf, Which::Second, names.other_elf)? {
        Step::Go(second) => compare_to_file(alloc, shelf, &first, &second, names, options, task),
        Step::Answered(answer) => Ok(answer),
    }
}

/// The answer to what is asked about the functions that two ELF files with their notes are, and the links between them, or to what refuses one of the five
/// files. The error is out of memory, which a price of 2^128 - 1 or more counts as too, and want of numbers for terms.
pub fn compare_named<H: Shelf>(
    alloc: Global,
    shelf: &mut H,
    names: PairNames,
    options: Options,
    task: PairTask,
) -> Result<Answer, AllocError>
    ensures keeps { (n : List ℕ) → H.holds shelf.new n ≡ H.holds shelf.old n }
    ensures never_falls { (n : List ℕ) → H.faults shelf.old n ≤ H.faults shelf.new n }
    ensures begun { AreBegun (H.begun shelf.old) (H.begun shelf.new) (names_of_pair (commands.names_of names.entry) task.entry) }
    ensures compared { IfOk result (λ a. AfterPair (seen (H.holds shelf.old) (H.faults shelf.old) (H.faults shelf.new)) (options_of options)
        (commands.names_of names.entry)
        (AreCompared (seen (H.holds shelf.old) (H.faults shelf.old) (H.faults shelf.new)) (options_of options) task.entry) (answer_of a)) }
{
    match read_elf_of(alloc, shelf, Which::First, names.elf)? {
        Step::Go(first) => compare_files(alloc, shelf, &first, names, options, task),
        Step::Answered(answer) => Ok(answer),
    }
}
