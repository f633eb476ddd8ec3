//! What questions of frames come to.
use cnf_form::Proof;
use frame_start::Segments;

/// What a question of a frame comes to.
#[derive(Drop)]
pub enum FrameAnswered {
    /// It is true, and this shows it.
    Sat(Segments),
    /// It is true of nothing.
    Refuted(Proof),
    /// The conflicts are spent.
    Spent(Proof),
}

/// What a question of a frame comes to, and the addresses whose bytes were asked for it besides those of literals.
#[derive(Drop)]
pub struct FrameDecided {
    pub answered: FrameAnswered,
    pub added: Vec<u32>,
}
