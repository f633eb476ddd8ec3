//! What makes an answer about a function mean less than it seems: lines that no run comes to, code that may be written, options that do not fit the file, and lines
//! that say the same of every state.
#![tactic(auto)]

mod check;
mod constants;
mod fields;
mod options;
mod ranges;
mod reached;
mod symbols;
mod warning;

pub use check::warnings;
pub use constants::{constant_lines, constants_are_steady};
pub use options::wrong_option;
pub use ranges::writable_code;
pub use reached::unreached;
pub use warning::{Warning, push_warning};
