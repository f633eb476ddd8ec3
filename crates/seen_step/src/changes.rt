//! Places that have another value later.
ghost use Rattle.std.specs.Prelude.{◌≡◌, IfOk, length, map};
ghost use Rattle.seen_step.specs.Views.{change_of, changed};

use crate::step::Change;
use std::alloc::{AllocError, Global};

/// The places whose value is another one later.
pub(crate) fn changes(
    alloc: Global,
    places: &[u32],
    old: &[u32],
    new: &[u32],
) -> Result<Vec<Change>, AllocError>
    requires before { length old.now ≡ length places.now }
    requires after { length new.now ≡ length places.now }
    ensures { IfOk result (λ v. map change_of v.items ≡ changed places.now old.now new.now) }
{
    let mut out = Vec::new(alloc);
    for i in 0..places.len() {
        if old[i] == new[i] {
            continue;
        }
        out.push(Change {
            place: places[i],
            old: old[i],
            new: new[i],
        })?;
    }
    Ok(out)
}
