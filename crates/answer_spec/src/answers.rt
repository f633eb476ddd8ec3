//! Laws of reports, replays and answers.
ghost use Rattle.answer_spec.specs.AnswerLaws.{AbsentFails, ElfRefusedOnce, OneEntryFault, OneReportedVerdict, PointsComeFirst};

/// Two right reports of one program that give a verdict give the same one.
pub fn one_reported_verdict()
    ensures { OneReportedVerdict }
{}

/// Where there are more points than the budget, each right report says so.
pub fn points_come_first()
    ensures { PointsComeFirst }
{}

/// Where no file has the name that a command reads first, its answer is a read fault.
pub fn absent_fails()
    ensures { AbsentFails }
{}

/// Where the ELF file is told, refused, and read without fault, its refusal is the one answer.
pub fn elf_refused_once()
    ensures { ElfRefusedOnce }
{}

/// A state has at most one first fault as an entry state, and an entry state has none.
pub fn one_entry_fault()
    ensures { OneEntryFault }
{}
