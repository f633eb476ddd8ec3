//! The text of what a report over frames shows: a start with the ending that the report names and, for a segment from a head, a head part.
#![tactic(auto)]

mod ending;
mod fault;
mod parts;
mod printer;
mod reader;
mod text;

pub use ending::{event_at, framed_ending};
pub use fault::{FrameFault, FramedFault, Seen, SeenHead};
pub use parts::{Mark, mark_of};
pub use printer::{print_framed, push_event_at, push_framed_ending, push_parts};
pub use reader::{parse_framed, read_parts};
pub use text::{FramedEnding, FramedEvent, FramedText};
