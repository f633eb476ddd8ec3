//! What the lines cost that are evaluated at points, at heads and at roots.
ghost use Rattle.std.specs.Prelude.{◌≡◌, ◌<◌, ◌++◌, ℕ, Contains, length, map, nat_eq, slice_index_or};
ghost use Rattle.std.specs.List.{flat_map, list_any};
ghost use Rattle.frame_laws.specs.FramePrices.{exit_lines, line_of, lines_into};
ghost use Rattle.frame_spec.specs.FramePoints.{says_of};
ghost use Rattle.notes_value.specs.FrameViews.{contract_of, writes_of};
ghost use Rattle.notes_value.specs.NoteViews.{assert_of};
ghost use Rattle.notes_value.specs.Views.{expr_of};
ghost use Rattle.question_form.specs.Forms.{AreBounds, IsAimFormed, IsFormed};
ghost use Rattle.question_form.specs.FrameViews.{aim_of, checks_between, edge_of, frame_unrolled_of, own_contract, root_of};
ghost use Rattle.question_form.specs.declared.unrolled.Edge.{Edge as FormedEdge};
ghost use Rattle.question_form.specs.declared.unrolled.Root.{Root as FormedRoot};
ghost use Rattle.frame_price.specs.Evaluated as evaluated;
ghost use Rattle.frame_price.specs.Evaluated.{check_of, evaluated_lines, lines_if, own_lines};
ghost use Rattle.unroller.specs.LineCosts.{AreLineCosts};

use notes_value::{Assert, Contract, Writes};
use question_form::{Aim, Edge, Root, Unrolled};
use unroller::costs::{LineCost, line_cost};
use unroller::lines::{lines_cost, nothing, sum};

/// Which of the assert lines of an address are evaluated.
#[derive(Clone, Copy)]
pub enum Chosen {
    /// All of them.
    All,
    /// Those that are no invariants.
    Asserts,
    /// The invariants.
    Invariants,
}

/// Whether a line is evaluated.
fn is_chosen(chosen: Chosen, invariants: &[u32], line: u32) -> bool
    ensures { result ≡ evaluated.is_chosen chosen (list_any (nat_eq line) invariants.now) }
{
    match chosen {
        Chosen::All => true,
        Chosen::Asserts => !invariants.contains(&line),
        Chosen::Invariants => invariants.contains(&line),
    }
}

/// What a line costs where it is evaluated.
fn check_cost(line: &Assert, invariants: &[u32], chosen: Chosen) -> LineCost
    ensures { AreLineCosts result (lines_if (evaluated.is_chosen chosen (list_any (nat_eq line.now.line) invariants.now)) (expr_of line.now.says)) }
{
    if is_chosen(chosen, invariants, line.line) {
        line_cost(&line.says)
    } else {
        nothing()
    }
}

/// What the chosen ones of the assert lines at places cost.
fn checks_cost(
    places: &[(u32, usize)],
    asserts: &[Assert],
    invariants: &[u32],
    chosen: Chosen,
) -> LineCost
    requires { (i : ℕ) (d : ℕ × ℕ) → i < length places.now → (slice_index_or places.now i d).1 < length asserts.now }
    ensures { AreLineCosts result (evaluated_lines chosen (map (check_of (map assert_of asserts.now) invariants.now) places.now)) }
{
    let mut total = nothing();
    for place in places {
        total = sum(total, check_cost(&asserts[place.1], invariants, chosen));
    }
    total
}

/// What the chosen ones of a part of the assert lines by address cost.
pub fn part_cost(u: &Unrolled, bounds: (usize, usize), chosen: Chosen) -> LineCost
    requires formed { IsFormed u.now }
    requires bounds { AreBounds u.now bounds }
    ensures { AreLineCosts result (evaluated_lines chosen (checks_between u.now bounds)) }
{
    let (low, high) = bounds;
    checks_cost(
        &u.asserts[low..high],
        &u.notes.asserts,
        u.invariants,
        chosen,
    )
}

/// What the lines at the head cost that an edge leads to.
fn aim_cost(u: &Unrolled, aim: Aim) -> LineCost
    requires formed { IsFormed u.now }
    requires aim { IsAimFormed u.now aim }
    ensures { AreLineCosts result (lines_into (aim_of u.now aim)) }
{
    match aim {
        Aim::IntoHead { asserts, .. } => part_cost(u, asserts, Chosen::All),
        Aim::OnTo(_) | Aim::Outward | Aim::OverLast => nothing(),
    }
}

/// What the lines at the heads cost that edges lead to.
pub fn edges_cost(edges: &[Edge], u: &Unrolled) -> LineCost
    requires formed { IsFormed u.now }
    requires edges { (e : FormedEdge) → Contains edges.now e → IsAimFormed u.now e.aim }
    ensures { AreLineCosts result (flat_map line_of (map (edge_of u.now) edges.now)) }
{
    let mut total = nothing();
    for edge in edges {
        total = sum(total, aim_cost(u, edge.aim));
    }
    total
}

/// What the invariants cost that roots assume.
pub fn roots_cost(roots: &[Root], u: &Unrolled) -> LineCost
    requires formed { IsFormed u.now }
    requires roots { (x : FormedRoot) → Contains roots.now x → AreBounds u.now x.asserts }
    ensures { AreLineCosts result (flat_map (λ x. says_of x.assumes) (map (root_of u.now) roots.now)) }
{
    let mut total = nothing();
    for root in roots {
        total = sum(total, part_cost(u, root.asserts, Chosen::Invariants));
    }
    total
}

/// What lines cost that say which bytes may be written.
pub fn writes_cost(writes: &[Writes]) -> LineCost
    ensures { AreLineCosts result (map (λ w. w.says) (map writes_of writes.now)) }
{
    let mut total = nothing();
    for line in writes {
        total = sum(total, line_cost(&line.says));
    }
    total
}

/// What the lines of a contract cost that its step evaluates behind what the contract needs.
pub fn step_cost(contract: &Contract) -> LineCost
    ensures { AreLineCosts result (says_of (contract_of contract.now).gives ++ map (λ w. w.says) (contract_of contract.now).writes) }
{
    let given = lines_cost(&contract.gives);
    let written = writes_cost(&contract.writes);
    sum(given, written)
}

/// What the lines cost that are judged where a frame is left.
pub fn exit_cost(u: &Unrolled) -> LineCost
    ensures { AreLineCosts result (exit_lines (frame_unrolled_of u.now)) }
{
    match u.own {
        None => lines_cost(&u.notes.ensured),
        Some(contract) => lines_cost(&contract.gives),
    }
}

/// What the lines cost that say which bytes the frame's own contract may write, if it has one.
pub fn own_writes_cost(u: &Unrolled) -> LineCost
    ensures { AreLineCosts result (own_lines (own_contract u.now)) }
{
    match u.own {
        None => nothing(),
        Some(contract) => writes_cost(&contract.writes),
    }
}
