//! Reads what a solver of SMT-LIB scripts prints after it has found a question satisfiable: the values of the symbols that the script declares.
#![tactic(auto)]

mod bits;
mod digits;
mod draft;
mod fault;
mod findings;
mod kept;
mod laws;
mod model;
mod piece;
mod place;
mod read;
mod reading;
mod scanner;
mod sort_place;
mod stores;
mod symbol;
mod token;

pub use fault::{ModelFault, ModelFaultKind};
pub use laws::one_answer;
pub use model::{Model, ModelMemory};
pub use read::{read_frame_model, read_model};
pub use symbol::{Gift, Others};
