//! Laws of ELF files.
ghost use Rattle.bilv_spec.specs.FileLaws.{OneFault};

/// A file has at most one first fault.
#[tactic(auto, using(crate::proofs::Faults::one_fault))]
pub fn one_fault()
    ensures { OneFault }
{}
