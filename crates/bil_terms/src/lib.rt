//! Expressions and lists as terms.
#![tactic(auto)]

mod assignments;
mod branches;
mod expressions;
mod jumps;
mod left;
mod lists;
mod run;
mod stored;
mod variables;

pub use expressions::{memory_term, word_term};
pub use left::{Left, run_list};
pub use stored::Stored;
pub use variables::LocalTerm;
