//! Laws of reports and their replays.
ghost use Rattle.answer_laws.specs.LayoutContracts.{ContractsAreOfLayout};
ghost use Rattle.answer_laws.specs.Replayed.{NamesCanBeWritten, RightReportReplays};

/// What a right report names can be written in a state's text.
pub fn names_can_be_written()
    ensures { NamesCanBeWritten }
{}

/// The text of a right report that names an ending is replayed.
pub fn right_report_replays()
    ensures { RightReportReplays }
{}

/// What contracts over a machine may change can be written in state texts of a layout that fits the machine.
#[tactic(auto, using(crate::proofs::OfLayout::contracts_are_of_layout))]
pub fn contracts_are_of_layout()
    ensures { ContractsAreOfLayout }
{}
