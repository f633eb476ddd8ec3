//! Laws of notes that are printed again, of version 2.
ghost use Rattle.answer_laws.specs.Upgrading.{UpgradeIsFound, UpgradeIsPrinted, UpgradeKeepsVerdict};

/// A file with the notes of version 2 in place of a text has the same verdicts.
#[tactic(auto, using(crate::proofs::Upgraded::upgrade_keeps_verdict))]
pub fn upgrade_keeps_verdict()
    ensures { UpgradeKeepsVerdict }
{}

/// Where they are no longer than notes may be, they are found where the text was.
#[tactic(auto, using(crate::proofs::Upgraded::upgrade_is_found))]
pub fn upgrade_is_found()
    ensures { UpgradeIsFound }
{}

/// Where both files are read, and the status is 0, such notes are printed.
pub fn upgrade_is_printed()
    ensures { UpgradeIsPrinted }
{}
