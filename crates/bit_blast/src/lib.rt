//! The clauses of a question without memory: circuits for its terms, and ties for what is said of its base reads; and where its inputs stand among the variables.
#![tactic(auto)]

mod cells;
mod clauses;
mod differing;
mod entry;
pub mod input_places;
mod inputs;
mod laying;
mod lookup;
mod memories;
mod nodes;
mod operators;
mod products;
mod reads;
mod reciprocals;
mod starts;
mod steps;
mod ties;
mod values;
mod words;

pub use cells::{cell_words, tie_reads};
pub use clauses::{blast, blast_frame};
pub use differing::addresses_in_order;
pub use entry::{bytes_in_order, not_zero};
pub use input_places::InputPlaces;
pub use inputs::first_input;
pub use laying::{free_inputs, places_of};
pub use lookup::known_byte;
pub use memories::{of_bytes, put, start_memory};
pub use nodes::operand;
pub use starts::flags_by_number;
pub use steps::{choices_by_place, choices_by_step, list_choice};
pub use ties::push_tie;
pub use values::number_at;
