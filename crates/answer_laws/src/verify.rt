//! Laws of the right answer to two files.
ghost use Rattle.answer_laws.specs.Completeness.{FindingIsReported, OneAnswer, OneFinding, OneProgram, VerifyIsComplete};

/// A program comes within a budget to too many points, to one price above the size, or to one verdict.
pub fn one_finding()
    ensures { OneFinding }
{}

/// Two files have one program at most.
pub fn one_program()
    ensures { OneProgram }
{}

/// Where nothing fails, and no question spends its conflicts, the answer is the refusal that is due or the report of what the program comes to.
pub fn verify_is_complete()
    ensures { VerifyIsComplete }
{}

/// A program that both files are is then reported as what it comes to, and in no other way.
pub fn finding_is_reported()
    ensures { FindingIsReported }
{}

/// Two files and a budget have one such answer, but for the run or the segment that it shows.
pub fn one_answer()
    ensures { OneAnswer }
{}
