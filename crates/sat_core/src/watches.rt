//! Two watched literals for each clause.
//!
//! A clause with two different literals watches two of them, so that it is looked at only where one of these becomes false. The watches of a literal are a
//! list, linked by one number for each watch, so that a watch moves without taking memory.
ghost use Rattle.std.specs.Prelude.{◌≡◌, ℕ, ◌≤◌, ◌+◌, ◌*◌, ◌<◌, ◌/◌, ◌^◌, ◌∷◌, ◌++◌, [], length, slice_set, slice_index, slice_index_or, IfOk, OnOk};
ghost use Rattle.sat_core.specs.Links.{place, mate, watched_at, no_watch, IsLinked};

use cnf_form::Lit;
use std::alloc::{AllocError, Global};

/// Stands behind the last watch of a list.
pub const NO_WATCH: usize = usize::MAX;

/// The watches of clauses. The clause at the place j of the owners has the watches 2 * j and 2 * j + 1.
#[derive(Drop)]
pub struct Watches {
    /// For each literal the first watch of its list.
    pub heads: Vec<usize>,
    /// For each watch the next one of its list.
    pub links: Vec<usize>,
    /// For each watch its literal.
    pub watched: Vec<Lit>,
    /// The places of the clauses.
    pub owners: Vec<usize>,
}

/// The place of a literal's list.
fn place_of(lit: Lit) -> usize
    ensures { result ≡ place lit }
{
    let even = 2 * lit.variable() as usize;
    if lit.is_positive() { even + 1 } else { even }
}

impl Watches {
    /// No watches. `size` is one more than the number of variables.
    pub fn new(alloc: Global, size: usize) -> Result<Watches, AllocError>
        requires { size ≤ 2 ^ 62 + 1 }
        ensures heads { IfOk result (λ w. (length w.heads.items ≡ 2 * size) × ((p : ℕ) → p < 2 * size → slice_index w.heads.items p ≡ no_watch)) }
        ensures links { IfOk result (λ w. w.links.items ≡ []) }
        ensures watched { IfOk result (λ w. w.watched.items ≡ []) }
        ensures owners { IfOk result (λ w. w.owners.items ≡ []) }
    {
        Ok(Watches {
            heads: vec![in alloc; NO_WATCH; 2 * size]?,
            links: Vec::new(alloc),
            watched: Vec::new(alloc),
            owners: Vec::new(alloc),
        })
    }

    /// Takes the list of a literal away, and answers its first watch.
    pub fn detach(&mut self, lit: Lit) -> usize
        requires { place lit < length self.old.heads.items }
        ensures first { result ≡ slice_index self.old.heads.items (place lit) }
        ensures heads { self.new.heads.items ≡ slice_set self.old.heads.items (place lit) no_watch }
        ensures links { self.new.links ≡ self.old.links }
        ensures watched { self.new.watched ≡ self.old.watched }
        ensures owners { self.new.owners ≡ self.old.owners }
    {
        let place = place_of(lit);
        let first = self.heads[place];
        self.heads[place] = NO_WATCH;
        first
    }

    /// Puts a watch first into the list of a literal.
    pub fn link(&mut self, watch: usize, lit: Lit)
        requires within { place lit < length self.old.heads.items }
        requires watch { watch < length self.old.links.items }
        ensures heads { self.new.heads.items ≡ slice_set self.old.heads.items (place lit) watch }
        ensures links { self.new.links.items ≡ slice_set self.old.links.items watch (slice_index self.old.heads.items (place lit)) }
        ensures watched { self.new.watched ≡ self.old.watched }
        ensures owners { self.new.owners ≡ self.old.owners }
    {
        let place = place_of(lit);
        self.links[watch] = self.heads[place];
        self.heads[place] = watch;
    }

    /// The place of the clause of a watch, and the literal of the clause's other watch.
    pub fn owner(&self, watch: usize) -> (usize, Lit)
        requires pairs { length self.now.watched.items ≡ 2 * length self.now.owners.items }
        requires within { watch < length self.now.watched.items }
        ensures owner { result.0 ≡ slice_index self.now.owners.items (watch / 2) }
        ensures mate { result.1 ≡ watched_at self.now.watched.items (mate watch) }
    {
        (
            self.owners[watch / 2],
            self.watched[watch + 1 - 2 * (watch % 2)],
        )
    }

    /// Adds the watches of the clause at a place, which has the two literals. What an `Err` leaves is open.
    pub fn add(&mut self, owner: usize, first: Lit, second: Lit) -> Result<(), AllocError>
        requires linked { IsLinked self.old.heads.items self.old.links.items self.old.watched.items [] }
        requires first { place first < length self.old.heads.items }
        requires second { place second < length self.old.heads.items }
        ensures linked { OnOk result (IsLinked self.new.heads.items self.new.links.items self.new.watched.items []) }
        ensures heads { OnOk result (length self.new.heads.items ≡ length self.old.heads.items) }
        ensures watched { OnOk result (self.new.watched.items ≡ self.old.watched.items ++ first ∷ second ∷ []) }
        ensures owners { OnOk result (self.new.owners.items ≡ self.old.owners.items ++ owner ∷ []) }
    {
        let watch = self.links.len();
        self.links.extend_from_slice(&[NO_WATCH, NO_WATCH])?;
        self.watched.extend_from_slice(&[first, second])?;
        self.owners.push(owner)?;
        self.link(watch, first);
        self.link(watch + 1, second);
        Ok(())
    }
}
