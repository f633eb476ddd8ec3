//! Runs the checks of a suite over files, with a verifier of notes, and prints what each came to.
#![tactic(auto)]

mod answering;
mod came;
mod choosing;
mod ended;
mod loading;
mod printing;
mod reading;
mod request;
mod running;
mod stepping;
mod suite;

pub use came::{Came, Verifier};
pub use ended::Ended;
pub use printing::print_answer;
pub use request::Run;
pub use suite::run_suite;
