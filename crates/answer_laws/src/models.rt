//! Laws of calls that judge an outside solver's answer.
ghost use Rattle.answer_laws.specs.ModelAnswers.{OneEntryModelAnswer};

/// Two answers to one text about the entry states of a frame are the same, but for the start that they show.
pub fn one_entry_model_answer()
    ensures { OneEntryModelAnswer }
{}
