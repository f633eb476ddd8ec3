//! The price of a side, and of both sides.
ghost use Rattle.std.specs.Prelude.{◌≡◌};
ghost use Rattle.question_form.specs.Forms.{IsFormed};
ghost use Rattle.question_form.specs.Views.{unrolled_of};
ghost use Rattle.unroller.specs.LineCosts.{capped};
ghost use Rattle.unroller.specs.More.{price_with};
ghost use Rattle.links_lang.specs.Views.{links_of};
ghost use Rattle.pair_spec.specs.Pairs as pairs;
ghost use Rattle.pair_spec.specs.PairTerms.{added_loads};
ghost use Rattle.pair_price.specs.Priced.{IsPriceOf, PricesPair};

use crate::exits::exit_count;
use links_lang::{Link, same_bytes, shared_bytes};
use question_form::Unrolled;
use unroller::price_with;

/// The price of a side with the byte loads of the links, at most 2^128 - 1.
fn side_price(u: &Unrolled, links: &[Link]) -> u128
    requires { IsFormed u.now }
    ensures { result ≡ capped (price_with (unrolled_of u.now) (added_loads (links_of links.now) (unrolled_of u.now))) }
{
    let at_exits = same_bytes(links).saturating_mul(exit_count(u));
    let more = shared_bytes(links).saturating_add(at_exits);
    price_with(u, more)
}

/// What pays for the links, at most 2^128 - 1.
fn links_price(links: &[Link]) -> u128
    ensures { result ≡ capped (pairs.links_price (links_of links.now)) }
{
    let bytes = shared_bytes(links).saturating_add(same_bytes(links));
    let parts = (links.len() as u128).saturating_add(bytes);
    parts.saturating_mul(512).saturating_add(1024)
}

/// The price of two unrolled programs with links between them: the prices of the sides with the byte loads of the links, and what pays for the links. 2^128 - 1
/// stands for all that are greater. Time goes with points, edges, evaluated lines and links. It takes no memory.
pub fn pair_price(first: &Unrolled, second: &Unrolled, links: &[Link]) -> u128
    requires first { IsFormed first.now }
    requires second { IsFormed second.now }
    ensures price { PricesPair first.now second.now (links_of links.now) result }
    ensures only { IsPriceOf first.now second.now (links_of links.now) result }
{
    let sides = side_price(first, links).saturating_add(side_price(second, links));
    sides.saturating_add(links_price(links))
}
