//! A side of a question about two functions, as terms.

ghost use Rattle.std.specs.Prelude.{◌≡◌, ℕ, List, ◌∷◌, IfOk};
ghost use Rattle.term_spec.specs.Terms.{HasWidth};
ghost use Rattle.walk_spec.specs.Unrolling.{IsWalkable};
ghost use Rattle.question_form.specs.FrameViews.{IsHeadless};
ghost use Rattle.question_form.specs.Views.{unrolled_of};
ghost use Rattle.links_lang.specs.Views.{links_of};
ghost use Rattle.pair_spec.specs.PairTerms.{HaveWidths};
ghost use Rattle.pair_form.specs.Views.{pair_question_of};
ghost use Rattle.mem_cells.specs.Words.{places_of};
ghost use Rattle.pair_terms.specs.Words.{AreLinksOfSide};
ghost use Rattle.pair_terms.specs.Sides.{AreEntryTerms, AreExitTerms, AreTied, AreTiedBy, CanBeCells, TellsSideOf, program_of_exit};

use crate::exits::ExitTerms;
use crate::words::link_terms;
use links_lang::Link;
use pair_form::{PairKind, SideQuestion};
use question_form::{Asked, Question, Unrolled};
use std::alloc::{AllocError, Global};
use term_dag::{Dag, Term};
use term_names::entry_names;
use weakest_pre::{Facts, both, entry_bit, folded_copies};

/// The words of the links at entry.
fn entry_terms(
    alloc: Global,
    dag: &mut Dag,
    unrolled: &Unrolled,
    links: &[Link],
    second: bool,
) -> Result<Vec<Term>, AllocError>
    requires walkable { IsWalkable (unrolled_of unrolled.now) }
    requires links { AreLinksOfSide second unrolled.now.form links.now }
    ensures { IfOk result (λ ts. AreEntryTerms (unrolled_of unrolled.now) second (links_of links.now) dag.old dag.new (places_of ts.items)) }
{
    let (first, count) = unrolled.form.registers();
    let names = entry_names(alloc, dag, first, count, unrolled.form.flag_count())?;
    let terms = link_terms(alloc, dag, &names, links, second, false)?;
    Ok(terms)
}

/// The exit's bit and words.
fn roots_of(alloc: Global, exit: &ExitTerms) -> Result<Vec<Term>, AllocError>
    ensures { IfOk result (λ roots. roots.items ≡ exit.now.met ∷ exit.now.words.items) }
{
    let mut roots = Vec::with_capacity(alloc, 1)?;
    roots.push(exit.met)?;
    roots.extend_from_slice(&exit.words)?;
    Ok(roots)
}

/// The bit of a side, and its words at the exit.
#[derive(Drop)]
struct Ends {
    root: Term,
    exits: Vec<Term>,
}

/// The exit's bit tied to the entry's, and the exit's words, copied into the entry's nodes.
fn tied(alloc: Global, dag: &mut Dag, exit: &ExitTerms, entry: Term) -> Result<Ends, AllocError>
    requires met { HasWidth exit.now.passive.dag 1 exit.now.met.0 }
    requires words { (widths : List ℕ) × HaveWidths exit.now.passive.dag (places_of exit.now.words.items) widths }
    requires entry { HasWidth dag.old 1 entry.0 }
    ensures { IfOk result (λ t. AreTied (program_of_exit exit.now) exit.now.passive.dag dag.old dag.new entry.0 exit.now.met.0
        (places_of exit.now.words.items) t.root.0 (places_of t.exits.items)) }
{
    let facts = Facts::of_entry(alloc, exit.passive.unrolled)?;
    let roots = roots_of(alloc, exit)?;
    let copies = folded_copies(alloc, dag, &exit.passive.dag, &facts, &roots)?;
    let root = both(dag, entry, copies[0])?;
    let exits = copies[1..].to_vec(alloc)?;
    Ok(Ends { root, exits })
}

/// The bit and the exit's words, as a question asks for them: where it speaks of entry states alone, the entry's bit and no words.
fn tied_by(
    alloc: Global,
    dag: &mut Dag,
    exit: &ExitTerms,
    entry: Term,
    kind: PairKind,
) -> Result<Ends, AllocError>
    requires met { HasWidth exit.now.passive.dag 1 exit.now.met.0 }
    requires words { (widths : List ℕ) × HaveWidths exit.now.passive.dag (places_of exit.now.words.items) widths }
    requires entry { HasWidth dag.old 1 entry.0 }
    ensures { IfOk result (λ t. AreTiedBy (pair_question_of kind) (program_of_exit exit.now) exit.now.passive.dag dag.old dag.new entry.0 exit.now.met.0
        (places_of exit.now.words.items) t.root.0 (places_of t.exits.items)) }
{
    match kind {
        PairKind::Pair => Ok(Ends {
            root: entry,
            exits: Vec::new(alloc),
        }),
        PairKind::Difference => {
            let tied = tied(alloc, dag, exit, entry)?;
            Ok(tied)
        }
    }
}

/// A side of a question about two functions as terms: whether the entry condition is met, but for the bytes of the file, and, for a difference, the function is
/// left, with the words of the links. Of the exit's terms those are copied that the bit or a word reaches, each node once.
///
/// # Errors
///
/// Out of memory; more terms than 32 bits number are the same error.
pub fn side<'a>(
    alloc: Global,
    exit: &'a ExitTerms<'a>,
    links: &[Link],
    second: bool,
    kind: PairKind,
) -> Result<SideQuestion<'a>, AllocError>
    requires headless { IsHeadless exit.now.passive.unrolled.now }
    requires walkable { IsWalkable (program_of_exit exit.now) }
    requires links { AreLinksOfSide second exit.now.passive.unrolled.now.form links.now }
    requires terms { AreExitTerms second (links_of links.now) exit.now }
    ensures of { IfOk result (λ s. s.question.passive.now ≡ exit.now.passive) }
    ensures ready { IfOk result (λ s. CanBeCells s) }
    ensures tells { IfOk result (λ s. TellsSideOf s second (links_of links.now) (pair_question_of kind)) }
{
    let mut dag = Dag::new(alloc);
    let unrolled = exit.passive.unrolled;
    let entry = entry_bit(alloc, &mut dag, unrolled)?;
    let entries = entry_terms(alloc, &mut dag, unrolled, links, second)?;
    let tied = tied_by(alloc, &mut dag, exit, entry, kind)?;
    let question = Question {
        passive: &exit.passive,
        asked: Asked::Entry,
        dag,
        root: tied.root,
    };
    Ok(SideQuestion {
        question,
        entries,
        exits: tied.exits,
    })
}
