//! Lists of statements with less to do: a word that is known in place of its load, and no assignments of flags that nothing reads.
#![tactic(auto)]

mod constants;
mod dropping;
mod laws;

pub use constants::{Literal, with_literal};
pub use dropping::with_flags;
pub use laws::{
    flags_add_nothing, flags_keep_meaning, flags_store_no_more, literals_add_nothing,
    literals_assign_the_same, literals_keep_meaning, other_flags_stay,
};
