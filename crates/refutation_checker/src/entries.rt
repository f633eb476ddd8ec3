//! The clauses by their ids.
ghost use Rattle.std.specs.Prelude.{◌≡◌, ◌≢◌, ℕ, ◌<◌, None, Some, length, nat_eq, if◌then◌else◌, slice_index_or, IfSome, IfNone};
ghost use Rattle.std.specs.List.{list_any};
ghost use Rattle.std.specs.Option.{option_copied};
ghost use Rattle.refutation_checker.specs.Entries.{look_up, ids_of, IsRising};

use cnf_form::Clause;

/// A clause with its id, and whether it is present.
#[derive(Clone, Copy)]
pub struct Entry<'a> {
    pub id: u64,
    pub is_present: bool,
    pub clause: &'a Clause,
}

/// Where the entry of an id stands, among entries with rising ids.
pub fn place(entries: &[Entry<'_>], id: u64) -> Option<usize>
    requires { IsRising (ids_of entries.now) }
    ensures within { IfSome result (λ k. k < length entries.now) }
    ensures found { IfSome result (λ k. slice_index_or (ids_of entries.now) k 0 ≡ id) }
    ensures absent { IfNone result ((k : ℕ) → k < length entries.now → slice_index_or (ids_of entries.now) k 0 ≢ id) }
{
    let mut low = 0;
    let mut high = entries.len();
    while low < high {
        let middle = low + (high - low) / 2;
        let here = entries[middle].id;
        if here == id {
            return Some(middle);
        }
        if here < id {
            low = middle + 1;
        } else {
            high = middle;
        }
    }
    None
}

/// The present clause of an id.
pub fn find<'a>(entries: &[Entry<'a>], id: u64) -> Option<&'a Clause>
    requires { IsRising (ids_of entries.now) }
    ensures { option_copied result ≡ look_up entries.now id }
{
    let at = place(entries, id)?;
    let entry = &entries[at];
    if entry.is_present {
        Some(entry.clause)
    } else {
        None
    }
}

/// Takes the clauses of the ids away. An id that names no clause changes nothing.
pub fn delete(entries: &mut [Entry<'_>], ids: &[u64])
    requires { IsRising (ids_of entries.old) }
    ensures looks { (i : ℕ) → look_up entries.new i ≡ (if list_any (nat_eq i) ids.now then None else look_up entries.old i) }
    ensures same_ids { ids_of entries.new ≡ ids_of entries.old }
{
    for id in ids {
        if let Some(at) = place(entries, *id) {
            entries[at].is_present = false;
        }
    }
}
