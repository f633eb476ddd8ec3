//! Checks that a log in the lines of LRAT refutes a set of clauses.
//!
//! A line adds a clause that follows from the present clauses by unit propagation along its hints, or deletes clauses.
//! A log that adds the empty clause in this way is a refutation: no values satisfy the clauses.
#![tactic(auto)]

mod assignment;
mod cause;
mod entries;
mod judge;
mod marks;
mod names;
mod print;
mod read;
mod slots;

pub use assignment::{Assignment, look_at};
pub use cause::{Cause, Checked};
pub use marks::{Marks, check, check_line};
pub use print::print_lrat;
pub use read::read_lrat;
pub use slots::Look;
