//! Laws of questions.
ghost use Rattle.bilv_spec.specs.QuestionLaws.{QuestionOver, QuestionsAreOfRuns, QuestionsDecide, ReadingIsStart};

/// A question that is true of a reading is true over each set of kept and fixed bytes.
pub fn question_over()
    ensures { QuestionOver }
{}

/// The run of a reading, which takes at each step the choice of the point at which it stands, is that of a start with a choice for each step.
pub fn reading_is_start()
    ensures { ReadingIsStart }
{}

/// Some reading makes a question true exactly where the program has such a run from an entry state, with choices step by step.
pub fn questions_are_of_runs()
    ensures { QuestionsAreOfRuns }
{}

/// The three questions decide the right verdict.
pub fn questions_decide()
    ensures { QuestionsDecide }
{}
