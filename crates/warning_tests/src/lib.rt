//! Tests of warnings: each where it is so, and where it is not, over small files of both machines.
//!
//! They stand apart so that what warns is proved once, and not again with its tests.
#![tactic(auto)]

#[cfg(test)]
mod files;
#[cfg(test)]
mod told;
