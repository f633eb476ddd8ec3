//! Laws of state texts.
ghost use Rattle.bilv_spec.specs.StateLaws.{KnownByLine, PrintedIsTold, PrintedOnce, ToldIsPrinted, ToldOrRefused};

/// A text that is printed of a written state says that state.
pub fn printed_is_told()
    ensures { PrintedIsTold }
{}

/// Two written states with one text are the same.
pub fn printed_once()
    ensures { PrintedOnce }
{}

/// A text that says a state is printed of it, but for the last line feed, which may lack.
pub fn told_is_printed()
    ensures { ToldIsPrinted }
{}

/// Each text says one state, or has one first refused line with one fault.
pub fn told_or_refused()
    ensures { ToldOrRefused }
{}

/// A reader that knows no byte, and the first line of a byte that is known, give what a text says.
pub fn known_by_line()
    ensures { KnownByLine }
{}
