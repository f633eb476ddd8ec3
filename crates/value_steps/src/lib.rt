//! The values of a line of notes and of its parts, told as lines, and the names of registers that such lines take.
#![tactic(auto)]

mod expressions;
mod instances;
mod lines;
mod names;
mod notes;

pub use expressions::push_expression;
pub use instances::instance;
pub use lines::push_value_lines;
pub use names::{flag_name, push_register, push_register_names};
pub use notes::{push_assert_values, push_note_values};
