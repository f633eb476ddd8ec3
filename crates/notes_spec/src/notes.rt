//! Laws of notes: tokens, lines and texts have one meaning at most, and a text that is refused has one first fault.
//!
//! They hold for all names of registers and flags; reserved words mean nothing, whatever they name.
ghost use Rattle.notes_spec.specs.NotesLaws.{AllIsEach, MachineNamesOfWords, NeverBoth, OneExpression, OneNoteFault, OneOfBoth, OneReading, OneSaying, PairedIsPlain, StrictIsLenient, WordsSaid, WordValue};
ghost use Rattle.notes_spec.specs.Upgrades.{NoneIsAll, UpgradeSaysSame, VerdictIsSame};

/// An `all` is 1 where its expression is true for each of its numbers, else 0.
#[tactic(auto, using(crate::proofs::Alls::all_is_each))]
pub fn all_is_each()
    ensures { AllIsEach }
{}

/// Tokens are one expression at most.
#[tactic(auto, using(crate::proofs::ParserFinds::one_expression))]
pub fn one_expression()
    ensures { OneExpression }
{}

/// A line says one thing at most.
#[tactic(auto, using(crate::proofs::NotesSaid::one_saying))]
pub fn one_saying()
    ensures { OneSaying }
{}

/// What a line says as it must be read, it says as well with any name and any bounds of an `all`.
#[tactic(auto, using(crate::proofs::Modes::strict_is_lenient))]
pub fn strict_is_lenient()
    ensures { StrictIsLenient }
{}

/// A text is the text of one value of notes at most.
pub fn one_reading()
    ensures { OneReading }
{}

/// A text that is notes has no first fault.
pub fn never_both()
    ensures { NeverBoth }
{}

/// A text has one first fault at most: one line and one kind.
#[tactic(auto, using(crate::proofs::NotesFirst::one_fault))]
pub fn one_note_fault()
    ensures { OneNoteFault }
{}

/// A text is notes, or it has a first fault.
pub fn one_of_both()
    ensures { OneOfBoth }
{}

/// The value of an expression is below 2 ^ 32 where its numbers are, and its loads are of 4 bytes at most.
#[tactic(auto, using(crate::proofs::NotesWords::word_value))]
pub fn word_value()
    ensures { WordValue }
{}

/// The tokens of a line without fault say such an expression, where the names of registers and flags and the constants do.
#[tactic(auto, using(crate::proofs::NotesWords::words_said))]
pub fn words_said()
    ensures { WordsSaid }
{}

/// The names of the registers and flags of RV32 and of ARM stand for such expressions.
#[tactic(auto, using(crate::proofs::NotesNames::machine_names_of_words))]
pub fn machine_names_of_words()
    ensures { MachineNamesOfWords }
{}

/// Notes of version 1 after the line of the version are the same notes, each line number one greater, where the machine names nothing `all`.
#[tactic(auto, using(crate::proofs::Upgrading::upgrade_says_same))]
pub fn upgrade_says_same()
    ensures { UpgradeSaysSame }
{}

/// Neither RV32 nor ARM names anything `all`.
#[tactic(auto, using(crate::proofs::Upgrading::none_is_all))]
pub fn none_is_all()
    ensures { NoneIsAll }
{}

/// A program whose lines have numbers one greater has the same right verdict.
#[tactic(auto, using(crate::proofs::LaterRuns::verdict_is_same))]
pub fn verdict_is_same()
    ensures { VerdictIsSame }
{}

/// The notes of a function that is compared have neither invariants nor contracts.
pub fn paired_is_plain()
    ensures { PairedIsPlain }
{}
