//! The text of a trace: a run told step by step, and the values of a line of notes, as definitions, in `specs/`.
#![tactic(auto)]
