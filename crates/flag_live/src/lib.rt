//! The assignments of flags that a flow graph's static paths read (live variable analysis).
#![tactic(auto)]

mod asking;
mod contract_flags;
mod copies;
mod live;
mod paths;
mod trimmed;
mod walk;

pub use trimmed::trim;
