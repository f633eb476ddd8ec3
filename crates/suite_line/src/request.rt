//! What a command line asks for.
use suite_run::Run;

/// What is asked for.
#[derive(Clone, Copy)]
pub enum Request<'a> {
    /// That a suite is run.
    Run(Run<'a>),
    /// The notes that a template stands for.
    Notes(Files<'a>),
    /// The warnings about a template over an ELF file.
    Check(Files<'a>),
}

/// An ELF file and a template of notes, and the options with which `bilv` would read them. The names stand as they were written.
#[derive(Clone, Copy)]
pub struct Files<'a> {
    pub elf: &'a str,
    pub notes: &'a str,
    /// The word of ARM's profile.
    pub arm: &'a str,
    /// Whether compressed instructions are read.
    pub rvc: bool,
}
