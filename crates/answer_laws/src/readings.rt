//! Laws of readings.
ghost use Rattle.answer_laws.specs.Readings.{AgreementIsEnough, ChoicesFollow, WrittenAgrees};

/// The memory of a start that is written agrees with the file on all known bytes.
pub fn written_agrees()
    ensures { WrittenAgrees }
{}

/// A question over asked bytes is the question where the memory agrees with the file on all known bytes.
pub fn agreement_is_enough()
    ensures { AgreementIsEnough }
{}

/// Choices that are those of the points along a reading's run make a start that follows the reading.
pub fn choices_follow()
    ensures { ChoicesFollow }
{}
