//! The memory of a question as bytes that are read once (read-over-write, Ackermann constraints): nodes over words, base reads, and what ties these to each
//! other and to the bytes of the file.
#![tactic(auto)]

mod asking;
mod building;
mod cells;
mod file_bytes;
mod loads;
mod lowering;
mod making;
mod parts;
mod pieces;
mod stores;
mod takes;
mod ties;

pub use cells::{Agreement, AskedByte, BaseRead, Celled, CelledWords};
pub use file_bytes::is_kept;
pub use making::{cells_some, cells_with_words, frame_cells};
