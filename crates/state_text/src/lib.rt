//! The text of a start with its ending; the tokens of a line come with it.
#![tactic(auto)]

mod draft;
mod parser;
mod printer;
mod progress;
mod start;
mod state_fault;
mod state_line;

pub use line_tokens::{Sign, Token, tokens};
pub use parser::{first_named, parse_state};
pub use printer::{
    print_state, push_block, push_bytes, push_choices, push_ending, push_event, push_flags,
    push_machine, push_number, push_registers, push_step, push_text, push_value, push_word,
};
pub use start::{CallState, Event, FrameEvent, HeadStart, NamedEnding, StateText};
pub use state_fault::{ParseFault, StateFault};
pub use state_line::{
    StateLine, event_of_line, event_of_word, is_word, place_of, state_line as line_of,
};
