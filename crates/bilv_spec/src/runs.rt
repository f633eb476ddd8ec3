//! Laws of runs and verdicts.
ghost use Rattle.bilv_spec.specs.RunLaws.{OneEnd, OneVerdict};

/// A program has at most one right verdict.
#[tactic(auto, using(crate::proofs::One::one_verdict))]
pub fn one_verdict()
    ensures { OneVerdict }
{}

/// A run has at most one end.
pub fn one_end()
    ensures { OneEnd }
{}
