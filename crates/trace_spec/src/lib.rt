//! The steps of a run of a frame as they are seen: where each was made, and what it changed, in `specs/`.
#![tactic(auto)]
