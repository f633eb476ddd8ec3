//! The walk of an unrolled program and the runs of its program.
ghost use Rattle.walk_laws.specs.Layers.{BrokenIsNew, ClausesOfQuestion, StartBreaksNone, StartIsWritten, ValuesGiveStart};
ghost use Rattle.walk_laws.specs.RunOfWalk.{WalkAnswersOver, WalkIsRun};

/// The walk of a reading is its run, step by step.
pub fn walk_is_run()
    ensures { WalkIsRun }
{}

/// The questions of an unrolled program are those of its program, over each set of known bytes that has its literals.
pub fn walk_answers_over()
    ensures { WalkAnswersOver }
{}

/// The clauses of the cells of a question are those of the question.
pub fn clauses_of_question()
    ensures { ClausesOfQuestion }
{}

/// The start of values that satisfy the clauses has a run by which the question is true.
pub fn values_give_start()
    ensures { ValuesGiveStart }
{}

/// A start of values can be written.
pub fn start_is_written()
    ensures { StartIsWritten }
{}

/// Where values have a start, none of their base reads has another byte than the known one.
pub fn start_breaks_none()
    ensures { StartBreaksNone }
{}

/// A known byte that satisfying values have not was not asked.
pub fn broken_is_new()
    ensures { BrokenIsNew }
{}
