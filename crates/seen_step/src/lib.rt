//! The steps of a run as they are seen: what a state holds before a step, and what the step leaves with another value.
#![tactic(auto)]

mod changes;
mod looks;
mod step;
mod values;

pub use looks::{Glance, look, seen};
pub use step::{Change, SeenStep, StepKind};
