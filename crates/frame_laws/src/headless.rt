//! Laws of frames without invariants and contracts.
ghost use Rattle.frame_laws.specs.HeadlessLaws.{HeadlessClauses, HeadlessIsSatisfiable, HeadlessPoints, HeadlessPrice, HeadlessQuestions, HeadlessReads, HeadlessReports, HeadlessSweeps, HeadlessUnrolling, HeadlessWalks};

/// The points of the frame of a program are the program's.
pub fn headless_points()
    ensures { HeadlessPoints }
{}

/// So is its price.
pub fn headless_price()
    ensures { HeadlessPrice }
{}

/// The entry's segment of a reading is the run of the program's reading.
pub fn headless_reads()
    ensures { HeadlessReads }
{}

/// A question over some known bytes is true of a reading where the program's is.
pub fn headless_questions()
    ensures { HeadlessQuestions }
{}

/// Some reading makes a question true where one of the program does.
pub fn headless_is_satisfiable()
    ensures { HeadlessIsSatisfiable }
{}

/// The unrolled program of a program is the unrolled frame of its frame, and there is no other.
pub fn headless_unrolling()
    ensures { HeadlessUnrolling }
{}

/// Its walk is the program's walk.
pub fn headless_walks()
    ensures { HeadlessWalks }
{}

/// Its sweep is the program's sweep.
pub fn headless_sweeps()
    ensures { HeadlessSweeps }
{}

/// The clauses of a question of the frame are those of the question of the program.
pub fn headless_clauses()
    ensures { HeadlessClauses }
{}

/// A report on notes without invariants and contracts is right where it is so as one on their frames.
pub fn headless_reports()
    ensures { HeadlessReports }
{}
