//! Laws of terms and of what is asked of them.
ghost use Rattle.term_spec.specs.Passive.{HeldAnswers};
ghost use Rattle.term_spec.specs.TermLaws.{AskedIsRight, EntryIsSame, EntryIsSameOver};
ghost use Rattle.walk_spec.specs.Prices.{PartsAddUp};

/// What is asked on demand is known, and has the literals of the points.
pub fn asked_is_right()
    ensures { AskedIsRight }
{}

/// A question is true of a reading by what is held after the sweep.
pub fn held_answers()
    ensures { HeldAnswers }
{}

/// The gates, byte loads and nodes of a question are those of its points and of its entry condition.
pub fn parts_add_up()
    ensures { PartsAddUp }
{}

/// The entry condition of an unrolled program is that of its program.
pub fn entry_is_same()
    ensures { EntryIsSame }
{}

/// So is its entry condition over the known bytes that are asked.
pub fn entry_is_same_over()
    ensures { EntryIsSameOver }
{}
