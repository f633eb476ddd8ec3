//! The price of an unrolled frame.
ghost use Rattle.std.specs.Prelude.{◌≡◌, ◌≤◌, ◌<◌, ◌+◌, ◌∷◌, ℕ, [], if◌then◌else◌, length, slice_range};
ghost use Rattle.std.specs.List.{list_any};
ghost use Rattle.frame_laws.specs.FramePrices.{exit_lines, own_exit, own_writes, unrolled_price};
ghost use Rattle.question_form.specs.Forms.{AreBounds, AreRootsFormed, AreStepsFormed, IsFormed};
ghost use Rattle.question_form.specs.FrameViews.{anchor_at, frame_unrolled_of, point_by};
ghost use Rattle.question_form.specs.Views.{code_of, edge_of};
ghost use Rattle.question_form.specs.declared.unrolled.Deed.TheVariants.{Contract};
ghost use Rattle.walk_spec.specs.Unrolled.{goes_out};
ghost use Rattle.frame_price.specs.Evaluated as evaluated;
ghost use Rattle.frame_price.specs.Evaluated.{chosen_by, first_lines, last_lines};
ghost use Rattle.frame_price.specs.Totals.{AreTotals};
ghost use Rattle.unroller.specs.LineCosts.{capped, AreLineCosts};
ghost use Rattle.unroller.specs.Points.{AreOf};

use crate::lines::{
    Chosen, edges_cost, exit_cost, own_writes_cost, part_cost, roots_cost, step_cost,
};
use question_form::{Code, Deed, Edge, Point, Unrolled};
use unroller::costs::LineCost;
use unroller::lines::{lines_cost, nothing, sum};
use unroller::prices::{Totals, add, any_out, gate_price, known_count, memory_price, plus, times};

/// Which assert lines are judged at a point of a root: an invariant is not, where the segment begins at its head.
fn judged_at(u: &Unrolled, root: u32) -> Chosen
    requires { root < length u.now.roots.items }
    ensures { result ≡ chosen_by (anchor_at u.now root) }
{
    match u.roots[root as usize].head {
        None => Chosen::All,
        Some(_) => Chosen::Asserts,
    }
}

/// Where the edges of a point begin that are exits of it, by the end of its edges: an arrival has none, nor has a point without a row.
fn exits_begin(point: Point, code: &Code, end: usize) -> usize
    ensures { result ≡ evaluated.exits_begin point.deed code.now.list point.edges end }
{
    match point.deed {
        Deed::Arrival => end,
        Deed::Row => match &code.list {
            None => end,
            Some(_) => point.edges,
        },
        Deed::Contract(_) => point.edges,
    }
}

/// What the lines cost that a point evaluates before those of its edges.
fn first_cost(u: &Unrolled, point: Point, asserts: (usize, usize)) -> LineCost
    requires formed { IsFormed u.now }
    requires bounds { AreBounds u.now asserts }
    requires root { point.root < length u.now.roots.items }
    requires step { (n : ℕ) → point.deed ≡ Contract n → n < length u.now.stepped.now }
    ensures { AreLineCosts result (first_lines u.now point.deed point.root asserts) }
{
    match point.deed {
        Deed::Row | Deed::Arrival => part_cost(u, asserts, judged_at(u, point.root)),
        Deed::Contract(number) => lines_cost(&u.stepped[number].needs),
    }
}

/// What the lines cost that a point evaluates behind those of its edges.
fn last_cost(u: &Unrolled, deed: Deed) -> LineCost
    requires { (n : ℕ) → deed ≡ Contract n → n < length u.now.stepped.now }
    ensures { AreLineCosts result (last_lines u.now deed) }
{
    match deed {
        Deed::Row | Deed::Arrival => nothing(),
        Deed::Contract(number) => step_cost(&u.stepped[number]),
    }
}

/// What the exit of a contract's frame costs, where a point leads out.
fn exit_price(u: &Unrolled, out: bool) -> u64
    ensures { result ≡ own_exit (frame_unrolled_of u.now).own out }
{
    match u.own {
        None => 0,
        Some(_) => { if out { 8192 } else { 0 } }
    }
}

/// What a point of a code comes to, where the lines that it evaluates have their cost, and those at the exit have theirs.
fn exits_totals(
    u: &Unrolled,
    code: &Code,
    edges: &[Edge],
    lines: LineCost,
    at_exit: LineCost,
) -> Totals
    ensures { AreOf (code.now.row + own_exit (frame_unrolled_of u.now).own (list_any (λ e. goes_out (edge_of e)) edges.now)) code.now.loads code.now.stores
        (length edges.now) (list_any (λ e. goes_out (edge_of e)) edges.now) lines at_exit result }
{
    let out = any_out(edges);
    let all = if out { sum(lines, at_exit) } else { lines };
    Totals {
        rows: code.row as u128 + exit_price(u, out) as u128,
        loads: (code.loads as u128).saturating_add(all.loads),
        stores: code.stores as u128,
        edges: edges.len() as u128,
        lines: all.price,
    }
}

/// What a point comes to whose edges end at a place.
fn point_totals(u: &Unrolled, at_exit: LineCost, point: Point, end: usize) -> Totals
    requires formed { IsFormed u.now }
    requires roots { AreRootsFormed u.now }
    requires step { (n : ℕ) → point.deed ≡ Contract n → n < length u.now.stepped.now }
    requires code { point.code < length u.now.codes.items }
    requires root { point.root < length u.now.roots.items }
    requires edges { point.edges ≤ end }
    requires within { end ≤ length u.now.edges.items }
    requires at_exit { AreLineCosts at_exit (exit_lines (frame_unrolled_of u.now)) }
    ensures { AreTotals (frame_unrolled_of u.now) (point_by u.now point (code_of u.now point) (slice_range u.now.edges.items point.edges end) ∷ []) result }
{
    let code = &u.codes[point.code as usize];
    let judged = first_cost(u, point, code.asserts);
    let first = exits_begin(point, code, end);
    let edges = &u.edges[first..end];
    let at_heads = edges_cost(edges, u);
    let most = sum(judged, at_heads);
    let last = last_cost(u, point.deed);
    let lines = sum(most, last);
    exits_totals(u, code, edges, lines, at_exit)
}

/// What all points come to.
fn all_totals(u: &Unrolled, at_exit: LineCost) -> Totals
    requires formed { IsFormed u.now }
    requires roots { AreRootsFormed u.now }
    requires steps { AreStepsFormed u.now }
    requires at_exit { AreLineCosts at_exit (exit_lines (frame_unrolled_of u.now)) }
    ensures { AreTotals (frame_unrolled_of u.now) (frame_unrolled_of u.now).points result }
{
    let mut total = Totals {
        rows: 0,
        loads: 0,
        stores: 0,
        edges: 0,
        lines: 0,
    };
    let mut end = u.edges.len();
    let mut i = u.points.len();
    'points: while i > 0 {
        i -= 1;
        let point = u.points[i];
        total = add(point_totals(u, at_exit, point, end), total);
        end = point.edges;
    }
    total
}

/// What a frame pays for having heads.
fn heads_price(heads: bool) -> u128
    ensures { result ≡ (if heads then 1024 else 0) }
{
    if heads { 1024 } else { 0 }
}

/// How many lines say what the frame's own contract may write.
fn own_count(u: &Unrolled) -> u128
    ensures { result ≡ own_writes (frame_unrolled_of u.now) }
{
    match u.own {
        None => 0,
        Some(contract) => contract.writes.len() as u128,
    }
}

/// The price of an unrolled frame; 2^128 - 1 stands for all that are greater, which no notes come to that fit a memory. Time goes with points, edges and the
/// assert lines at points, at roots and at the heads that edges lead to, each of which is looked for among the invariants, and with the lines of contracts. It
/// takes no memory.
pub fn frame_price(u: &Unrolled) -> u128
    requires formed { IsFormed u.now }
    requires roots { AreRootsFormed u.now }
    requires steps { AreStepsFormed u.now }
    ensures { result ≡ capped (unrolled_price (frame_unrolled_of u.now) u.now.heads) }
{
    let required = lines_cost(&u.notes.required);
    let own = own_writes_cost(u);
    let entry = sum(required, own);
    let first = sum(entry, roots_cost(&u.roots, u));
    let at_exit = exit_cost(u);
    let totals = all_totals(u, at_exit);
    let lines = plus(first.price, totals.lines);
    let loads = plus(totals.loads, first.loads);
    let kept = u.kept.len() as u128;
    let gates = gate_price(totals.rows, totals.edges, lines, totals.stores, kept);
    let judged = times(totals.stores, own_count(u));
    let outside = times(512, judged);
    let plain = plus(heads_price(u.heads), gates);
    let terms = plus(plain, outside);
    let known = known_count(&u.known);
    plus(
        terms,
        memory_price(loads, totals.stores, totals.edges, known),
    )
}
