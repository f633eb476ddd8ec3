//! The verdict on a function: its points, its price and its three questions, each answer with what shows it.
#![tactic(auto)]

mod certifying;
mod deciding;
mod early;
mod measuring;
mod scripting;
mod shown;
mod verdicts;
mod verifying;

pub use call_form::Budget;
pub use certifying::certify;
pub use deciding::{asked_next, start_shown};
pub use early::over_variables;
pub use measuring::{Measured, measure, unroll_within};
pub use scripting::script;
pub use verdicts::{Answered, Certified, Exceeded, Judged, Scripted, Verdict};
pub use verifying::{judge_unrolled, verify};
