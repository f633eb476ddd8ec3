//! The exit of a function, whose place is the last one: whether it is left there, and words of the state.

ghost use Rattle.std.specs.Prelude.{◌≡◌, ◌<◌, ◌≤◌, ◌+◌, ◌*◌, ◌^◌, IfOk, length, map, sum_by};
ghost use Rattle.std.specs.List.{flat_map, list_any};
ghost use Rattle.bilv_spec.specs.Points.{line_price, bytes_loaded};
ghost use Rattle.walk_spec.specs.Unrolled.{point_at};
ghost use Rattle.walk_spec.specs.Unrolling.{IsWalkable};
ghost use Rattle.walk_spec.specs.Prices.{line_steps, variables_of};
ghost use Rattle.start_value.specs.declared.layout.Layout.{Layout};
ghost use Rattle.question_form.specs.Views.{aim_of, edge_of, unrolled_of};
ghost use Rattle.question_form.specs.Forms.{IsFormed, AreRootsFormed};
ghost use Rattle.question_form.specs.FrameViews.{IsHeadless};
ghost use Rattle.passify.specs.Lasts.{AreCarriedTo, CarriesTo};
ghost use Rattle.links_lang.specs.Views.{links_of};
ghost use Rattle.pair_spec.specs.Pairs.{same_bytes};
ghost use Rattle.pair_spec.specs.PairTerms.{exit_widths};
ghost use Rattle.mem_cells.specs.Words.{places_of};
ghost use Rattle.pair_terms.specs.Words.{AreLinksOfSide};
ghost use Rattle.pair_terms.specs.Exits.{IsBlank, IsExit, TellsMet, ensured_lines, is_led_to, is_onto, last_of, leads_to, where_led};
ghost use Rattle.pair_terms.specs.Sides.{AreExitTerms};

use crate::words::{blank_terms, link_terms};
use links_lang::Link;
use note_terms::Now;
use passify::{ToLast, edges_at, passive_to_last};
use question_form::{Aim, Edge, Passive, Unrolled};
use std::alloc::{AllocError, Global};
use term_dag::{Dag, Node, Term};
use term_names::{Names, entry_names};
use weakest_pre::all_true;

/// The exit of a function in terms of its passive program, whose nodes have more behind.
#[derive(Drop)]
pub struct ExitTerms<'a> {
    pub passive: Passive<'a>,
    /// Whether the walk leaves the function: it comes to the last place, where the ensured lines are true.
    pub met: Term,
    /// The words of the links at the exit, in their order.
    pub words: Vec<Term>,
}

/// Whether the function is left, and the words of the links where it is.
#[derive(Drop)]
struct Exit {
    met: Term,
    words: Vec<Term>,
}

/// Whether an edge leads on to a place.
fn is_onto(aim: Aim, place: u32) -> bool
    ensures { result ≡ is_onto place (aim_of aim) }
{
    match aim {
        Aim::OnTo(other) => other == place,
        Aim::IntoHead { .. } | Aim::Outward | Aim::OverLast => false,
    }
}

/// Whether some edge leads to a place.
fn leads(edges: &[Edge], place: u32) -> bool
    ensures { result ≡ list_any (leads_to place) (map edge_of edges.now) }
{
    for i in 0..edges.len() {
        if is_onto(edges[i].aim, place) {
            return true;
        }
    }
    false
}

/// Whether some edge of the point at a place leads to another; none does where there is no row.
fn point_leads(unrolled: &Unrolled, at: usize, place: u32) -> bool
    requires formed { IsFormed unrolled.now }
    requires at { at < length unrolled.now.points.items }
    ensures { result ≡ list_any (leads_to place) (point_at (unrolled_of unrolled.now) at).exits }
{
    let code = &unrolled.codes[unrolled.points[at].code as usize];
    if code.list.is_none() {
        return false;
    }
    leads(edges_at(unrolled, at), place)
}

/// Whether some exit of a point leads to a place.
fn is_led_to(unrolled: &Unrolled, place: u32) -> bool
    requires { IsFormed unrolled.now }
    ensures { result ≡ is_led_to (unrolled_of unrolled.now) place }
{
    for at in 0..unrolled.points.len() {
        if point_leads(unrolled, at, place) {
            return true;
        }
    }
    false
}

/// The exit at the last place, which a bit says is met, with names for what is carried there.
fn at_exit(
    alloc: Global,
    dag: &mut Dag,
    unrolled: &Unrolled,
    names: &Names,
    reached: Term,
    links: &[Link],
    second: bool,
) -> Result<Exit, AllocError>
    requires walkable { IsWalkable (unrolled_of unrolled.now) }
    requires last { CarriesTo (unrolled_of unrolled.now) (last_of (unrolled_of unrolled.now)) dag.old names.now }
    requires reached { TellsMet (unrolled_of unrolled.now) dag.old reached.0 }
    requires links { AreLinksOfSide second unrolled.now.form links.now }
    ensures { let u = unrolled_of unrolled.now in let lines = ensured_lines u in let same = same_bytes (links_of links.now) in
        IfOk result (λ e. IsExit u second (links_of links.now) dag.old dag.new (sum_by line_price lines) (sum_by bytes_loaded lines + same)
        (4 * line_steps lines + (variables_of u + 2 + length links.now + 3 * same)) e.met.0 (places_of e.words.items)) }
{
    let (first, count) = unrolled.form.registers();
    let entry = entry_names(alloc, dag, first, count, unrolled.form.flag_count())?;
    let pc = dag.keep(Node::Constant {
        width: 32,
        value: unrolled.entry as u64,
    })?;
    let link = entry.registers[(unrolled.link - first) as usize];
    let now = Now { names, pc: link };
    let old = Now { names: &entry, pc };
    let met = all_true(
        dag,
        &unrolled.notes.ensured,
        &now,
        &old,
        unrolled.big,
        reached,
    )?;
    let words = link_terms(alloc, dag, names, links, second, true)?;
    Ok(Exit { met, words })
}

/// The exit where it is never met: its words are constants.
fn never(alloc: Global, dag: &mut Dag, links: &[Link], second: bool) -> Result<Exit, AllocError>
    requires links { (form : Layout) × AreLinksOfSide second form links.now }
    ensures { IfOk result (λ e. IsBlank dag.old dag.new (flat_map exit_widths (links_of links.now)) (1 + length links.now) e.met.0 (places_of e.words.items)) }
{
    let met = dag.keep(Node::Constant { width: 1, value: 0 })?;
    let words = blank_terms(alloc, dag, links, second)?;
    Ok(Exit { met, words })
}

/// The exit: at the last place, if that may be met and some edge leads there; else never.
fn exit_of(
    alloc: Global,
    dag: &mut Dag,
    unrolled: &Unrolled,
    last: Option<Names>,
    reached: Term,
    links: &[Link],
    second: bool,
) -> Result<Exit, AllocError>
    requires walkable { IsWalkable (unrolled_of unrolled.now) }
    requires formed { IsFormed unrolled.now }
    requires more { 1 < length unrolled.now.points.items }
    requires few { length unrolled.now.points.items ≤ 2 ^ 32 }
    requires last { AreCarriedTo (unrolled_of unrolled.now) (last_of (unrolled_of unrolled.now)) dag.old last }
    requires reached { TellsMet (unrolled_of unrolled.now) dag.old reached.0 }
    requires links { AreLinksOfSide second unrolled.now.form links.now }
    ensures { let u = unrolled_of unrolled.now in let lines = ensured_lines u in let same = same_bytes (links_of links.now) in
        IfOk result (λ e. IsExit u second (links_of links.now) dag.old dag.new (where_led u (sum_by line_price lines))
        (where_led u (sum_by bytes_loaded lines + same))
        (where_led u (4 * line_steps lines) + (variables_of u + 4 + length links.now + 3 * same)) e.met.0 (places_of e.words.items)) }
{
    let place = (unrolled.points.len() - 1) as u32;
    match &last {
        Some(names) => {
            if is_led_to(unrolled, place) {
                let exit = at_exit(alloc, dag, unrolled, names, reached, links, second)?;
                return Ok(exit);
            }
            let exit = never(alloc, dag, links, second)?;
            Ok(exit)
        }
        None => {
            let exit = never(alloc, dag, links, second)?;
            Ok(exit)
        }
    }
}

/// The exit of a program whose last place it is, as terms: whether the function is left, and the words of links of the state of a side there. The lines that are
/// ensured are judged at the value that the link register has at entry.
///
/// # Errors
///
/// Out of memory; more terms than 32 bits number are the same error.
pub fn exit_terms<'a>(
    alloc: Global,
    unrolled: &'a Unrolled<'a>,
    links: &[Link],
    second: bool,
) -> Result<ExitTerms<'a>, AllocError>
    requires headless { IsHeadless unrolled.now }
    requires roots { AreRootsFormed unrolled.now }
    requires walkable { IsWalkable (unrolled_of unrolled.now) }
    requires formed { IsFormed unrolled.now }
    requires more { 1 < length unrolled.now.points.items }
    requires few { length unrolled.now.points.items ≤ 2 ^ 32 }
    requires links { AreLinksOfSide second unrolled.now.form links.now }
    ensures of { IfOk result (λ e. e.passive.unrolled.now ≡ unrolled.now) }
    ensures terms { IfOk result (λ e. AreExitTerms second (links_of links.now) e) }
{
    let ToLast { passive, last } = passive_to_last(alloc, unrolled)?;
    let Passive {
        unrolled,
        mut dag,
        met,
        fails,
        steps,
        turns,
    } = passive;
    let place = met.len() - 1;
    let exit = exit_of(alloc, &mut dag, unrolled, last, met[place], links, second)?;
    Ok(ExitTerms {
        passive: Passive {
            unrolled,
            dag,
            met,
            fails,
            steps,
            turns,
        },
        met: exit.met,
        words: exit.words,
    })
}
