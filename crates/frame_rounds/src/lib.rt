//! What a question about an unrolled frame comes to: its clauses over some bytes of the file, decided in rounds that each ask more of them. Satisfying values are
//! handed on as what is shown of the segments.
#![tactic(auto)]

mod answers;
mod deciding;
mod rounds;

pub use answers::{FrameAnswered, FrameDecided};
pub use deciding::{decide_frame, decide_frame_from};
