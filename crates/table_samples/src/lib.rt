//! Worked tables of instructions, by computation alone: the expansions of all halfwords, as sums that stand beside those of another copy of the table which
//! was compared with GNU objdump.
//!
//! Nothing stands on this crate.
#![tactic(auto)]
