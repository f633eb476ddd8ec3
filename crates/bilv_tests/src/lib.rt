//! Tests of reading and writing whole files, and of the texts of errors. What the public call answers is told by the tables of `bilv_cases`.
#![tactic(auto)]

#[cfg(test)]
mod edges;
#[cfg(test)]
mod error_texts;
