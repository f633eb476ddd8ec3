//! Laws of the tables of rows.
ghost use Rattle.machine_spec.specs.RvMachineLaws.{OneShort};
ghost use Rattle.machine_spec.specs.TableLaws.{ArmOneRow, RvOneRow};

/// No word is of two lines of the RV32IM table.
#[tactic(auto, using(crate::proofs::RvTable::one_row))]
pub fn rv_one_row()
    ensures { RvOneRow }
{}

/// No halfword is of two lines of the table of compressed instructions.
#[tactic(auto, using(crate::proofs::ShortTable::one_short))]
pub fn one_short()
    ensures { OneShort }
{}

/// No word is of two lines of the ARM table of a profile.
#[tactic(auto, using(crate::proofs::ArmTable::one_row))]
pub fn arm_one_row()
    ensures { ArmOneRow }
{}
