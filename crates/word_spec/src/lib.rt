//! What is claimed of words, memory and states, and the texts of numbers and lines: the definitions, in `specs/`.
#![tactic(auto)]
