//! Tests of the questions of small programs, but for one of RISC-V, as terms, as cells and as clauses, against runs of the instruction table, and of the logs
//! of verdicts and of searches.
//!
//! They stand apart so that each part is proved once, and not again with its tests.
#![tactic(auto)]

#[cfg(test)]
mod arm;
#[cfg(test)]
mod cells;
#[cfg(test)]
mod conditions;
#[cfg(test)]
mod counts;
#[cfg(test)]
mod logs;
#[cfg(test)]
mod programs;
#[cfg(test)]
mod propagation;
#[cfg(test)]
mod searches;
#[cfg(test)]
mod starts;
#[cfg(test)]
mod stretches;
#[cfg(test)]
mod studies;
