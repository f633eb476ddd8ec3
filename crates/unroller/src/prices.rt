//! The price of an unrolled program.
ghost use Rattle.std.specs.Prelude.{◌≡◌, ◌≤◌, ◌<◌, ◌+◌, ◌*◌, ◌-◌, ◌∷◌, [], ℕ, length, map, slice_range, sum_by};
ghost use Rattle.std.specs.List.{list_any};
ghost use Rattle.notes_value.specs.NoteViews.{notes_of};
ghost use Rattle.known_bytes.specs.Runs.{run_of};
ghost use Rattle.question_form.specs.Forms.{IsFormed};
ghost use Rattle.question_form.specs.Views.{code_of, edge_of, point_by, unrolled_of};
ghost use Rattle.walk_spec.specs.Unrolled.{goes_out};
ghost use Rattle.walk_spec.specs.Prices.{cell_price, unrolled_price};
ghost use Rattle.unroller.specs.LineCosts.{capped, AreLineCosts};
ghost use Rattle.unroller.specs.More.{price_with};
ghost use Rattle.unroller.specs.Points.{AreOfCode};
ghost use Rattle.unroller.specs.Totals.{AreSums, AreTotals};

use crate::costs::LineCost;
use crate::lines::{asserts_cost, lines_cost, sum};
use question_form::{Aim, Code, Edge, Known, Point, Unrolled};

/// What points come to, each number at most 2^128 - 1: the price of their rows, their byte loads, their byte stores, their edges, and the price of the lines
/// that are evaluated there.
#[derive(Clone, Copy)]
pub struct Totals {
    pub rows: u128,
    pub loads: u128,
    pub stores: u128,
    pub edges: u128,
    pub lines: u128,
}

/// The sum of two numbers, at most 2^128 - 1.
pub fn plus(a: u128, b: u128) -> u128
    ensures { (x y : ℕ) → a ≡ capped x → b ≡ capped y → result ≡ capped (x + y) }
{
    a.saturating_add(b)
}

/// The product of two numbers, at most 2^128 - 1.
pub fn times(a: u128, b: u128) -> u128
    ensures { (x y : ℕ) → a ≡ capped x → b ≡ capped y → result ≡ capped (x * y) }
{
    a.saturating_mul(b)
}

/// How many pairs of two different ones there are among some, in both orders; at most 2^128 - 1.
fn pairs(a: u128) -> u128
    ensures { (x : ℕ) → a ≡ capped x → result ≡ capped (x * (x - 1)) }
{
    a.saturating_mul(a.saturating_sub(1))
}

/// Whether an edge leads out of the function.
fn leads_out(edge: Edge) -> bool
    ensures { result ≡ goes_out (edge_of edge) }
{
    match edge.aim {
        Aim::Outward => true,
        Aim::OnTo(_) | Aim::IntoHead { .. } | Aim::OverLast => false,
    }
}

/// Whether one of some edges leads out of the function.
pub fn any_out(edges: &[Edge]) -> bool
    ensures { result ≡ list_any (λ e. goes_out (edge_of e)) edges.now }
{
    edges.iter().any(|e| leads_out(*e))
}

/// What a point of a code comes to, where its assert lines and the ensure lines have their costs.
pub fn code_totals(code: &Code, edges: &[Edge], asserted: LineCost, ensured: LineCost) -> Totals
    ensures { AreOfCode code.now edges.now asserted ensured result }
{
    let (count, lines) = match &code.list {
        None => (0, asserted),
        Some(_) => {
            if any_out(edges) {
                (edges.len(), sum(asserted, ensured))
            } else {
                (edges.len(), asserted)
            }
        }
    };
    Totals {
        rows: code.row as u128,
        loads: (code.loads as u128).saturating_add(lines.loads),
        stores: code.stores as u128,
        edges: count as u128,
        lines: lines.price,
    }
}

/// What a point comes to whose edges end at a place.
fn point_totals(u: &Unrolled, ensured: LineCost, point: Point, end: usize) -> Totals
    requires formed { IsFormed u.now }
    requires code { point.code < length u.now.codes.items }
    requires edges { point.edges ≤ end }
    requires within { end ≤ length u.now.edges.items }
    requires ensured { AreLineCosts ensured (map (λ l. l.says) (notes_of u.now.notes.now).ensures) }
    ensures { AreTotals (unrolled_of u.now) (point_by u.now point (code_of u.now point) (slice_range u.now.edges.items point.edges end) ∷ []) result }
{
    let code = &u.codes[point.code as usize];
    let (low, high) = code.asserts;
    let asserted = asserts_cost(&u.notes.asserts, &u.asserts[low..high]);
    code_totals(code, &u.edges[point.edges..end], asserted, ensured)
}

/// The sums of two.
pub fn add(a: Totals, b: Totals) -> Totals
    ensures { AreSums a b result }
{
    Totals {
        rows: a.rows.saturating_add(b.rows),
        loads: a.loads.saturating_add(b.loads),
        stores: a.stores.saturating_add(b.stores),
        edges: a.edges.saturating_add(b.edges),
        lines: a.lines.saturating_add(b.lines),
    }
}

/// What all points come to.
fn all_totals(u: &Unrolled, ensured: LineCost) -> Totals
    requires formed { IsFormed u.now }
    requires ensured { AreLineCosts ensured (map (λ l. l.says) (notes_of u.now.notes.now).ensures) }
    ensures { AreTotals (unrolled_of u.now) (unrolled_of u.now).points result }
{
    let mut total = Totals {
        rows: 0,
        loads: 0,
        stores: 0,
        edges: 0,
        lines: 0,
    };
    let mut end = u.edges.len();
    let mut i = u.points.len();
    'points: while i > 0 {
        i -= 1;
        let point = u.points[i];
        total = add(point_totals(u, ensured, point, end), total);
        end = point.edges;
    }
    total
}

/// The number of known bytes, at most 2^128 - 1.
pub fn known_count(known: &[Known]) -> u128
    ensures { result ≡ capped (sum_by (λ r. r.count) (map run_of known.now)) }
{
    let mut count = 0u128;
    for run in known {
        count = count.saturating_add(run.last.saturating_sub(run.first) as u128 + 1);
    }
    count
}

/// The part of the price that pays for the cells of memory, by byte loads, byte stores, edges and known bytes.
pub fn memory_price(l: u128, s: u128, e: u128, k: u128) -> u128
    ensures { (loads stores edges known : ℕ) → l ≡ capped loads → s ≡ capped stores → e ≡ capped edges → k ≡ capped known →
        result ≡ capped (cell_price loads stores edges known) }
{
    let own_loads = times(128, l);
    let own_stores = times(128, s);
    let with_stores = times(64, times(l, s));
    let with_edges = times(16, times(l, e));
    let with_loads = times(32, pairs(l));
    let with_known = times(40, times(l, k));
    let own = plus(own_loads, own_stores);
    let stored = plus(own, with_stores);
    let joined = plus(stored, with_edges);
    let paired = plus(joined, with_loads);
    plus(paired, with_known)
}

/// The part of the price that pays for terms, by the price of rows, edges, the price of lines, byte stores and runs of kept bytes.
pub fn gate_price(rows: u128, edges: u128, lines: u128, stores: u128, runs: u128) -> u128
    ensures { (r e l s k : ℕ) → rows ≡ capped r → edges ≡ capped e → lines ≡ capped l → stores ≡ capped s → runs ≡ capped k →
        result ≡ capped (1024 + r + 1280 * e + l + 128 * (s * k)) }
{
    let first = plus(1024, rows);
    let led = plus(first, times(1280, edges));
    let evaluated = plus(led, lines);
    plus(evaluated, times(128, times(stores, runs)))
}

/// The price of an unrolled program with so many more byte loads; 2^128 - 1 stands for all that are greater, also of the loads. Time goes with points, edges and
/// the lines that are evaluated at points. It takes no memory.
pub fn price_with(u: &Unrolled, more: u128) -> u128
    requires { IsFormed u.now }
    ensures { (x : ℕ) → more ≡ capped x → result ≡ capped (price_with (unrolled_of u.now) x) }
{
    let required = lines_cost(&u.notes.required);
    let ensured = lines_cost(&u.notes.ensured);
    let totals = all_totals(u, ensured);
    let lines = plus(required.price, totals.lines);
    let own_loads = plus(totals.loads, required.loads);
    let loads = plus(own_loads, more);
    let gates = gate_price(
        totals.rows,
        totals.edges,
        lines,
        totals.stores,
        u.kept.len() as u128,
    );
    let known = known_count(&u.known);
    let memory = memory_price(loads, totals.stores, totals.edges, known);
    plus(gates, memory)
}

/// The price of an unrolled program; 2^128 - 1 stands for all that are greater, which no notes come to that fit a memory. Time and memory are those of
/// [`price_with`].
pub fn price(u: &Unrolled) -> u128
    requires { IsFormed u.now }
    ensures { result ≡ capped (unrolled_price (unrolled_of u.now)) }
{
    price_with(u, 0)
}
