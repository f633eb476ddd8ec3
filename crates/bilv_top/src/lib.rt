//! The public call `bilv`: from the words and the files to one status and one text.
#![tactic(auto)]

mod answer;
mod asked;
mod call;
mod certificate;
mod certify;
mod comparing;
mod differ;
mod equal;
mod frame_reports;
mod frame_tasks;
mod framed;
mod graph;
mod inputs;
mod lift;
mod machines;
mod model;
mod pair;
mod plain;
mod program;
mod reading;
mod replay;
mod reports;
mod script;
mod selfrun;
mod tasks;
mod texts;
mod upgrade;
mod verify;

pub use answer::{Answer, Evidence, Step};
pub use call::{Outcome, bilv};
pub use framed::{Framed, find_framed};
pub use inputs::{NOTES_LIMIT, program_on, refuse_elf};
pub use machines::layout;
pub use program::answer_words;
