//! The commands of the program, and the work that it makes for itself: the definitions, in `specs/`.
#![tactic(auto)]
