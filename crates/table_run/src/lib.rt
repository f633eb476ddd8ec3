//! Runs of a machine's instruction table over a program: whether a state may be the entry state; what a run from a start comes to, also in a frame that is cut
//! at heads or steps over contracts; and what one from the state of a model comes to and reads.
#![tactic(auto)]

mod blocks;
mod called;
mod called_entry;
mod called_rows;
mod called_turns;
mod changes;
mod choices;
mod contract_steps;
mod cuts;
mod ending;
mod entry;
mod exits;
mod filling;
mod frame;
mod gifts;
mod heads;
mod jumps;
mod lines;
mod made;
mod memory;
mod model_bytes;
mod observers;
mod reads;
mod runs;
mod spans;
mod steps;
mod tracing;
mod words;

pub use called::{called_state, run_called, watch_called};
pub use called_entry::called_lines_ok;
pub use ending::{CalledEnding, CalledEvent, CalledRun, Ending, EntryFault, FrameEnding};
pub use entry::{entry_ok, lines_ok};
pub use exits::exit_state;
pub use heads::{head_ok, head_state};
pub use made::made_calls;
pub use observers::Watched;
pub use runs::{run, run_frame, start_state, watch_frame};
pub use tracing::{Traced, required_bytes, trace};
