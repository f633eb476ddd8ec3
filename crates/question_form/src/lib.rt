//! The values that the layers between the points of a program and the clauses of its questions hand on. They name no machine and no row of a table.
#![tactic(auto)]

mod laws;
mod questions;
mod unrolled;

pub use call_form::{Asked, Kind};
pub use known_bytes::Known;
pub use laws::headless_values;
pub use program_points::Frame;
pub use questions::{Passive, Question};
pub use unrolled::{Aim, Code, Deed, Edge, Point, Root, Unrolled};
