//! What a call is asked, what it meets outside, and what it answers: the definitions, in `specs/`.
#![tactic(auto)]
