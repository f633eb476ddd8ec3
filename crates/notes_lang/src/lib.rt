//! Notes: what a user promises of a function and asks of it, as text.
#![tactic(auto)]

mod contracts;
mod drafts;
mod faults;
mod line_words;
mod names;
mod notes;
mod notes_text;
mod parser;
mod sayings;
mod scopes;
mod texts;
mod versions;

pub use faults::FaultKind;
pub use notes::{
    Assert, Contract, Dialect, FixedRange, FrameNotes, Function, NoteLine, Notes, Targets, Writes,
};
pub use notes_text::{NoteFault, NotesError, parse, parse_notes};
pub use notes_value::{Expr, Operator, Size, value};
pub use versions::upgrade;
