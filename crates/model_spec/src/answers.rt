//! Laws of the answers of outside solvers.
ghost use Rattle.model_spec.specs.ModelLaws.{ModelsAreOfScripts, OneModelFault, PrintedRunsAlike, ValuesAreGiven};

/// A script is true under the values of an answer's reading exactly where the question is true of the reading.
pub fn models_are_of_scripts()
    ensures { ModelsAreOfScripts }
{}

/// The start that is printed of a reading is a start, and its run is the reading's but for memory.
pub fn printed_runs_alike()
    ensures { PrintedRunsAlike }
{}

/// The values of an answer's reading are those that the answer gives.
pub fn values_are_given()
    ensures { ValuesAreGiven }
{}

/// A text has at most one first fault, and an answer has none.
pub fn one_model_fault()
    ensures { OneModelFault }
{}
