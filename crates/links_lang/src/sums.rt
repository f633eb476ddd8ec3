//! What links ask for: flags at the exit, and bytes.
ghost use Rattle.std.specs.Prelude.{◌≡◌, ◌≤◌, ◌<◌, ◌+◌, ◌-◌, ◌^◌, ℕ, [], ◌∷◌, if◌then◌else◌};
ghost use Rattle.std.specs.List.{list_any};
ghost use Rattle.bilv_spec.specs.LiveFlags.{names_flag};
ghost use Rattle.pair_spec.specs.Links.{compares_flag};
ghost use Rattle.start_value.specs.declared.layout.Layout.{Layout};
ghost use Rattle.pair_spec.specs.Pairs as pairs;
ghost use Rattle.graph_nodes.specs.Graphs.{IsFlagSet, has_flag};
ghost use Rattle.links_lang.specs.Views.{AreLinksOf, link_of, links_of, named_of};

use crate::links::{Link, Named};

/// Whether it is this flag.
fn is_this_flag(named: Named, flag: u8) -> bool
    ensures { result ≡ names_flag flag (named_of named) }
{
    match named {
        Named::Flag(other) => other == flag,
        _ => false,
    }
}

/// Whether a link compares a flag of a side at the exit.
fn compares_flag(second: bool, flag: u8, link: &Link) -> bool
    ensures { result ≡ compares_flag second flag (link_of link.now) }
{
    match link {
        Link::Exit {
            first: x,
            second: y,
            ..
        } => is_this_flag(if second { *y } else { *x }, flag),
        _ => false,
    }
}

/// Whether some link compares a flag of a side at the exit.
fn some_compares(links: &[Link], second: bool, flag: u8) -> bool
    ensures { result ≡ list_any (λ l. compares_flag second flag (link_of l)) links.now }
{
    links.iter().any(|link| compares_flag(second, flag, link))
}

/// A weight, or 0.
fn weight(is: bool, weight: u8) -> u8
    ensures { result ≡ (if is then weight else 0) }
{
    if is { weight } else { 0 }
}

/// The set of the flags that are told.
fn set_of(negative: bool, zero: bool, carry: bool, overflow: bool) -> u8
    ensures small { result < 16 }
    ensures negative { has_flag result 3 ≡ negative }
    ensures zeroed { has_flag result 2 ≡ zero }
    ensures carry { has_flag result 1 ≡ carry }
    ensures overflow { has_flag result 0 ≡ overflow }
{
    weight(negative, 8) + weight(zero, 4) + weight(carry, 2) + weight(overflow, 1)
}

/// The set of the flags that links compare of a side at the exit, the second or the first: N 8, Z 4, C 2 and V 1.
pub fn flags_asked(links: &[Link], second: bool) -> u8
    ensures set { IsFlagSet result (λ f. list_any (compares_flag second f) (links_of links.now)) }
    ensures all { (a b : Layout) → AreLinksOf a b links.now → (f : ℕ) → has_flag result f ≡ list_any (compares_flag second f) (links_of links.now) }
{
    let negative = some_compares(links, second, 3);
    let zero = some_compares(links, second, 2);
    let carry = some_compares(links, second, 1);
    let overflow = some_compares(links, second, 0);
    set_of(negative, zero, carry, overflow)
}

/// How many addresses there are from one up to another, which is one of them.
fn count(low: u32, high: u32) -> u128
    ensures count { result ≡ high + 1 - low }
    ensures few { result ≤ 2 ^ 32 }
{
    (high as u128 + 1).saturating_sub(low as u128)
}

/// How many bytes a link shares at the entry.
fn shared(link: &Link) -> u128
    ensures sum { result ≡ pairs.shared_bytes (link_of link.now ∷ []) }
    ensures few { result ≤ 2 ^ 32 }
{
    match link {
        Link::Share { low, high, .. } => count(*low, *high),
        _ => 0,
    }
}

/// How many bytes a link wants the same at the exit.
fn same(link: &Link) -> u128
    ensures sum { result ≡ pairs.same_bytes (link_of link.now ∷ []) }
    ensures few { result ≤ 2 ^ 32 }
{
    match link {
        Link::Same { low, high, .. } => count(*low, *high),
        _ => 0,
    }
}

/// How many bytes the links share at the entry; one that several ranges have counts for each.
#[tactic(auto, using(crate::proofs::ByteCounts::more_shared, crate::proofs::ByteCounts::no_more_shared))]
pub fn shared_bytes(links: &[Link]) -> u128
    ensures { result ≡ pairs.shared_bytes (links_of links.now) }
{
    let mut sum = 0u128;
    for link in links {
        sum += shared(link);
    }
    sum
}

/// How many bytes the links want the same at the exit; one that several ranges have counts for each.
#[tactic(auto, using(crate::proofs::ByteCounts::more_same, crate::proofs::ByteCounts::no_more_same))]
pub fn same_bytes(links: &[Link]) -> u128
    ensures { result ≡ pairs.same_bytes (links_of links.now) }
{
    let mut sum = 0u128;
    for link in links {
        sum += same(link);
    }
    sum
}
