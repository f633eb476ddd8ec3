//! Suites: the text of a TOML file that names checks of machine code, and what each check is expected to come to.
#![tactic(auto)]

mod check;
mod checks;
mod fault;
mod keys;
mod parse;
#[cfg(test)]
mod tests;

pub use check::{Check, Suite};
pub use fault::{Place, SuiteFault};
pub use parse::parse_suite;
