//! Links between two functions: what their entry states and their exit states are to agree on, as text.
#![tactic(auto)]

mod faults;
mod lines;
mod links;
mod names;
mod parser;
mod sums;
mod texts;

pub use faults::{LinkFault, LinksError};
pub use links::{Link, Named};
pub use parser::parse_links;
pub use sums::{flags_asked, same_bytes, shared_bytes};
