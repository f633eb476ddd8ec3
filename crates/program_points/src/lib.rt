//! The points of a program, listed from its flow graph: how many backward transfers were made, the addresses that calls are to return to, and the address. So
//! the points of a frame, whose runs are cut at heads, and whose calls of some contracts are stepped over.
#![tactic(auto)]

mod adding;
mod laws;
mod leading;
mod listing;
mod stacks;
mod values;

pub use laws::{ends_are_edges, ends_are_ways};
pub use leading::{called, ends, jumps};
pub use listing::{frame_points, points};
pub use stacks::{Stacks, no_frames, pushed};
pub use values::{Cuts, End, Frame, FramePoint, FramePoints, Point, Points, PointsFault, Root};
