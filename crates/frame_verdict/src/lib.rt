//! The verdict on a function whose notes have invariants or contracts: the points and the price of its frames, and the questions of each, with what shows an
//! answer. Runs of a frame are cut at the addresses of the invariants, the heads, and judged segment by segment, and calls of contracts of lower ranks are stepped
//! over.
#![tactic(auto)]

mod certifying;
mod early;
mod framed;
mod inputs;
mod judged;
mod measuring;
pub mod plain;
mod ranking;
mod ranks;
mod scripting;
mod segments;
mod shown;
mod smaller;
mod verdicts;
mod verifying;

pub use certifying::certify_frame;
pub use ranking::verify_frame;
pub use scripting::script_frame;
pub use verdicts::{FrameVerdict, Named, Passed};
