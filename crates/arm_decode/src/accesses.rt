//! What LDR, STR and the accesses of halfwords share (sections A5.2 and A5.3).
ghost use Rattle.std.specs.Prelude.{◌≡◌};
ghost use Rattle.machine_spec.specs.Arm as rows;
ghost use Rattle.arm_decode.specs.Parts.{HasIndexing, HasAddressing};

use crate::fields::{field, is_set};
use crate::parts::{Addressing, Indexing};

/// Whether the base of an access is written back.
pub(crate) fn writes_back(word: u32) -> bool
    ensures { result ≡ rows.writes_back word }
{
    !is_set(word, 24) || is_set(word, 21)
}

/// Whether no row has these registers, where the offset is a register's or not, with their write-back.
pub(crate) fn is_bad_base(word: u32, by_register: bool) -> bool
    ensures { result ≡ rows.is_bad_base word by_register }
{
    let (n, d, m) = (field(word, 19, 16), field(word, 15, 12), field(word, 3, 0));
    (!is_set(word, 24) && is_set(word, 21))
        || (by_register && m == 15)
        || (writes_back(word) && (n == 15 || n == d || (by_register && n == m)))
}

pub(crate) fn indexing(word: u32) -> Indexing
    ensures { HasIndexing word result }
{
    if !is_set(word, 24) {
        Indexing::Post
    } else if writes_back(word) {
        Indexing::Pre
    } else {
        Indexing::Offset
    }
}

pub(crate) fn addressing(word: u32) -> Addressing
    ensures { HasAddressing word result }
{
    Addressing {
        is_up: is_set(word, 23),
        indexing: indexing(word),
    }
}
