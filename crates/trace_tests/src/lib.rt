//! Tests of the texts of traces: expressions of notes, the values of a line, the lines of steps.
//!
//! They stand apart so that what prints is proved once, and not again with its tests.
#![tactic(auto)]

#[cfg(test)]
mod expressions;
#[cfg(test)]
mod steps;
#[cfg(test)]
mod values;
