//! The judgement of a report over the frames of notes with contracts by running it again: its text is read, and the run that it shows, with what its contract
//! steps are given, has to end as the text says.
#![tactic(auto)]

mod blocks;
mod comparing;
mod judging;
mod ranks;
mod reading;
mod replays;
mod running;
mod texts;

pub use blocks::changes_of;
pub use ranks::rank_at;
pub use replays::replay_called;
