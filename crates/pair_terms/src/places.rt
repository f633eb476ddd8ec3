//! The exit of a function as one more place of its unrolled program.

ghost use Rattle.std.specs.Prelude.{◌≡◌, IfOk, map};
ghost use Rattle.question_form.specs.Views.{unrolled_of};
ghost use Rattle.question_form.specs.Forms.{IsFormed, AreRootsFormed};
ghost use Rattle.question_form.specs.FrameViews.{IsHeadless};
ghost use Rattle.pair_spec.specs.PairTerms.{with_exit_place};
ghost use Rattle.pair_terms.specs.Places.{UnrollingLeavesByLink, edge_led};

use question_form::{Aim, Code, Deed, Edge, Point, Unrolled};
use std::alloc::{AllocError, Global};

/// The greatest number of a place, and of a code.
const LAST: usize = 4_294_967_295;

/// An edge, which leads to a place if it led out.
fn led(edge: Edge, place: u32) -> Edge
    ensures { result ≡ edge_led place edge }
{
    match edge.aim {
        Aim::Outward => Edge {
            falls: edge.falls,
            jumps: edge.jumps,
            to: edge.to,
            aim: Aim::OnTo(place),
        },
        Aim::OnTo(_) | Aim::IntoHead { .. } | Aim::OverLast => edge,
    }
}

/// Edges of which those that led out lead to a place.
fn lead_out(edges: &mut [Edge], place: u32)
    ensures { edges.new ≡ map (edge_led place) edges.old }
{
    for i in 0..edges.len() {
        edges[i] = led(edges[i], place);
    }
}

/// The same program, in which each edge out of the function leads to one more place, the last, at which nothing is done.
///
/// # Errors
///
/// Out of memory; so are more places or codes than 32 bits number.
pub fn with_exit_place<'a>(
    alloc: Global,
    unrolled: Unrolled<'a>,
) -> Result<Unrolled<'a>, AllocError>
    requires { IsFormed unrolled }
    ensures program { IfOk result (λ v. unrolled_of v ≡ with_exit_place (unrolled_of unrolled.entry)) }
    ensures formed { IfOk result (λ v. IsFormed v) }
    ensures form { IfOk result (λ v. v.form ≡ unrolled.entry.form) }
    ensures known { IfOk result (λ v. v.known ≡ unrolled.entry.known) }
    ensures headless { IsHeadless unrolled.entry → IfOk result (λ v. IsHeadless v) }
    ensures roots { IsHeadless unrolled.entry → AreRootsFormed unrolled.entry → IfOk result (λ v. AreRootsFormed v) }
{
    let mut placed = unrolled;
    let (places, codes) = (placed.points.len(), placed.codes.len());
    if places > LAST || codes > LAST {
        return Err(AllocError);
    }
    lead_out(&mut placed.edges, places as u32);
    placed.codes.push(Code {
        at: 0,
        length: 4,
        fetchable: true,
        list: Some(Vec::new(alloc)),
        draws: false,
        row: 64,
        loads: 0,
        stores: 0,
        asserts: (0, 0),
    })?;
    let edges = placed.edges.len();
    placed.points.push(Point {
        root: 0,
        turns: 4097,
        code: codes as u32,
        stack: 0,
        deed: Deed::Row,
        edges,
    })?;
    Ok(placed)
}

/// An unrolled program of a program is left at the value that the link register has at entry.
pub fn unrolling_leaves_by_link()
    ensures { UnrollingLeavesByLink }
{}
