//! Laws of the machines.
ghost use Rattle.machine_spec.specs.ArmMachineLaws.{ArmIsFitted, ArmIsLawful};
ghost use Rattle.machine_spec.specs.RvMachineLaws.{RowsAreOfTheTable, RvIsFitted, RvIsLawful, ShortIsExpansion, ShortIsLawful};

/// The row of a word of RV32IM is that of an instruction of the table.
pub fn rows_are_of_the_table()
    ensures { RowsAreOfTheTable }
{}

/// Each row of RV32IM is lawful, with the compressed instructions and without them.
#[tactic(auto, using(crate::proofs::RvNarrow::rv_is_lawful))]
pub fn rv_is_lawful()
    ensures { RvIsLawful }
{}

/// A compressed instruction does what its expansion does, but that it has 2 bytes.
#[tactic(auto, using(crate::proofs::RvNarrow::short_is_expansion))]
pub fn short_is_expansion()
    ensures { ShortIsExpansion }
{}

/// A lawful row with 2 bytes in place of 4 is lawful.
#[tactic(auto, using(crate::proofs::ShortLawful::short_is_lawful))]
pub fn short_is_lawful()
    ensures { ShortIsLawful }
{}

/// Each row of ARM state is lawful, in both byte orders and each profile.
#[tactic(auto, using(crate::proofs::ArmLawful::arm_is_lawful))]
pub fn arm_is_lawful()
    ensures { ArmIsLawful }
{}

/// The state texts of RV32IM name its registers.
#[tactic(auto, using(crate::proofs::Fitted::rv_is_fitted))]
pub fn rv_is_fitted()
    ensures { RvIsFitted }
{}

/// The state texts of ARM name its registers and flags, in both byte orders and each profile.
#[tactic(auto, using(crate::proofs::Fitted::arm_is_fitted))]
pub fn arm_is_fitted()
    ensures { ArmIsFitted }
{}
