//! The bytes that an ELF file and notes give: those that are kept, and loaded ones of fixed ranges.
#![tactic(auto)]

mod listing;
mod stretches;

pub use listing::{Known, KnownBytes, known_bytes};
pub use stretches::{Stretch, byte_in, first_given, first_known, known_stretch};
