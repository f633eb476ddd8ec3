//! Laws of lists with less to do.
ghost use Rattle.bil_trim.specs.Literals.{LiteralsKeepMeaning};
ghost use Rattle.bil_trim.specs.Parts.{LiteralsAddNothing};
ghost use Rattle.bil_trim.specs.Flags.{FlagsAddNothing, FlagsKeepMeaning, FlagsStoreNoMore, LiteralsAssignTheSame, OtherFlagsStay};

/// A list without loops that stores nothing does the same with the value of a literal in place of its loads, where the memory has it.
pub fn literals_keep_meaning()
    ensures { LiteralsKeepMeaning }
{}

/// A list with the value of a literal in place of its loads has no more in it, and loads nothing if all its loads were of the literal.
pub fn literals_add_nothing()
    ensures { LiteralsAddNothing }
{}

/// A list with the value of a literal in place of its loads assigns the same flags.
pub fn literals_assign_the_same()
    ensures { LiteralsAssignTheSame }
{}

/// A list without loops that has a meaning does the same without the assignments of flags that it reads only before them, except that it leaves those flags.
pub fn flags_keep_meaning()
    ensures { FlagsKeepMeaning }
{}

/// Such a list stores no byte more without these assignments.
pub fn flags_store_no_more()
    ensures { FlagsStoreNoMore }
{}

/// A list without loops leaves a flag that it does not assign.
pub fn other_flags_stay()
    ensures { OtherFlagsStay }
{}

/// A list without the assignments of some flags has no more in it, and assigns of the other flags those that it did.
pub fn flags_add_nothing()
    ensures { FlagsAddNothing }
{}
