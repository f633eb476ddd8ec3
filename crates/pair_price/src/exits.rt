//! The points of an unrolled program that may exit.
ghost use Rattle.std.specs.Prelude.{◌≡◌};
ghost use Rattle.std.specs.List.{list_any};
ghost use Rattle.walk_spec.specs.Unrolled.{goes_out};
ghost use Rattle.question_form.specs.Forms.{IsFormed};
ghost use Rattle.question_form.specs.Views.{edge_of, unrolled_of};
ghost use Rattle.pair_spec.specs.PairTerms.{exits_of};
ghost use Rattle.pair_price.specs.Priced.{leads_out};

use question_form::{Aim, Code, Edge, Unrolled};

/// Whether an edge leads out of the function.
fn is_outward(edge: Edge) -> bool
    ensures { result ≡ goes_out (edge_of edge) }
{
    match edge.aim {
        Aim::Outward => true,
        Aim::OnTo(_) | Aim::IntoHead { .. } | Aim::OverLast => false,
    }
}

/// Whether one of some edges leads out of the function.
fn any_outward(edges: &[Edge]) -> bool
    ensures { result ≡ list_any (λ e. goes_out (edge_of e)) edges.now }
{
    edges.iter().any(|e| is_outward(*e))
}

/// Whether a point may exit that has this code and these edges; one without a row has none.
fn may_exit(code: &Code, edges: &[Edge]) -> bool
    ensures { result ≡ leads_out code.now.list edges.now }
{
    match &code.list {
        None => false,
        Some(_) => any_outward(edges),
    }
}

/// How many points may exit.
pub(crate) fn exit_count(u: &Unrolled) -> u128
    requires { IsFormed u.now }
    ensures { result ≡ exits_of (unrolled_of u.now) }
{
    let mut count = 0u128;
    let mut end = u.edges.len();
    let mut i = u.points.len();
    'points: while i > 0 {
        i -= 1;
        let point = u.points[i];
        let code = &u.codes[point.code as usize];
        count += may_exit(code, &u.edges[point.edges..end]) as u128;
        end = point.edges;
    }
    count
}
