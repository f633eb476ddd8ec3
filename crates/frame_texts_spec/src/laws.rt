//! Laws of texts with head parts, and with blocks of contract steps.
ghost use Rattle.frame_texts_spec.specs.CallTextLaws.{BlocklessIsFramed, BlocklessReplay, ChangesAreOfLayout, FrameReportsReplay, OneCallReading, OneTextForOne, PrintedBlocksAreReadBack, PrintedBlocksOnce, ToldBlocksArePrinted, WrittenIsShown};
ghost use Rattle.frame_texts_spec.specs.ReplayLaws.{HeadlessReplay, NoReturnsAsked, PlainPrinted};
ghost use Rattle.frame_texts_spec.specs.FrameTextLaws.{HeadlessIsStateText, OneReading, PrintedIsReadBack, ToldIsFramed};

/// A text without a head part, whose ending a run of the tables may have, says what it says of such a run.
pub fn headless_is_state_text()
    ensures { HeadlessIsStateText }
{}

/// Each text says one state, or is refused at one line with one fault, and never both.
pub fn one_reading()
    ensures { OneReading }
{}

/// What is printed of a state that can be written is read back.
pub fn printed_is_read_back()
    ensures { PrintedIsReadBack }
{}

/// What a text says can be written, and its lines are those that are printed of it.
pub fn told_is_framed()
    ensures { ToldIsFramed }
{}

/// A text without blocks whose first line is one of texts without contracts says what it says there.
pub fn blockless_is_framed()
    ensures { BlocklessIsFramed }
{}

/// Each text with blocks says one state, or is refused at one line with one fault, and never both.
pub fn one_call_reading()
    ensures { OneCallReading }
{}

/// What is printed of a state with blocks that can be written is read back.
pub fn printed_blocks_are_read_back()
    ensures { PrintedBlocksAreReadBack }
{}

/// What the contracts of a program may change is of the layout, where their registers and flags are.
pub fn changes_are_of_layout()
    ensures { ChangesAreOfLayout }
{}

/// What can be written of a program in a text with blocks can be shown in a report.
pub fn written_is_shown()
    ensures { WrittenIsShown }
{}

/// What a text with blocks says can be written, and its lines are those that are printed of it.
pub fn told_blocks_are_printed()
    ensures { ToldBlocksArePrinted }
{}

/// Two texts that say the same have the same lines.
pub fn one_text_for_one()
    ensures { OneTextForOne }
{}

/// Two states with blocks that are printed alike are one.
pub fn printed_blocks_once()
    ensures { PrintedBlocksOnce }
{}

/// Where notes have no contracts, a text without blocks is answered as it is without contracts.
pub fn blockless_replay()
    ensures { BlocklessReplay }
{}

/// A right report that names an ending replays.
pub fn frame_reports_replay()
    ensures { FrameReportsReplay }
{}

/// Without invariants and contracts a text without a head part is answered as a report of a run of the tables.
pub fn headless_replay()
    ensures { HeadlessReplay }
{}

/// Without invariants the answer hangs on no test of return addresses.
pub fn no_returns_asked()
    ensures { NoReturnsAsked }
{}

/// What is printed of a run of the tables has no head part, and its first line is one of such runs.
pub fn plain_printed()
    ensures { PlainPrinted }
{}
