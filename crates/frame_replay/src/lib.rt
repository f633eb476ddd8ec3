//! The judgement of a report over frames by running it again: its text is read, and the segment that it shows has to end as the text says.
#![tactic(auto)]

mod comparing;
mod judging;
mod reading;
mod replays;
mod reports;
mod returns;
mod running;
mod texts;

pub use comparing::{bare, is_event, is_turn};
pub use judging::kept_line;
pub use reading::Refusal;
pub use replays::replay_frame;
pub use reports::replay_report;
pub use returns::return_addresses;
pub use running::{bound, step_of};
pub use texts::{bad_block, named_so, numbered, push_place, refused, turns_within};
