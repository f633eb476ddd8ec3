//! Laws of refutations and of the texts of certificates.
ghost use Rattle.clause_spec.specs.CertificateLaws.{RefutationIsSound, OneRefusal, OneCause, RefusalHasPlace, PrintedIsAccepted, ReadAgain, OneCertificateReading, ReadIsPrintable, OneCheck, AcceptedFollows, EmpoweringIsNew};

/// The clauses of a refutation have no satisfying values.
pub fn refutation_is_sound()
    ensures { RefutationIsSound }
{}

/// A log is a refutation, or it has a first refused line.
#[tactic(auto, using(crate::proofs::Refusals::one_refusal))]
pub fn one_refusal()
    ensures { OneRefusal }
{}

/// There is at most one first refused line, with one cause.
#[tactic(auto, using(crate::proofs::Refusals::one_cause))]
pub fn one_cause()
    ensures { OneCause }
{}

/// The first refused line is one of the log, or the one behind the last exactly where no line added the empty clause.
pub fn refusal_has_place()
    ensures { RefusalHasPlace }
{}

/// A printed certificate of a refutation is accepted, within the bounds of the grammar and the limit of bytes.
pub fn printed_is_accepted()
    ensures { PrintedIsAccepted }
{}

/// A printed certificate is read again as the clauses and the log that were printed, within the bounds of the grammar.
pub fn read_again()
    ensures { ReadAgain }
{}

/// A text of clauses has one reading or one first refused line with its fault, and never both.
pub fn one_reading()
    ensures { OneCertificateReading }
{}

/// Clauses that are read are within the bounds of the grammar, and over their variables.
pub fn read_is_printable()
    ensures { ReadIsPrintable }
{}

/// A certificate has one status and one text of its check.
pub fn one_check()
    ensures { OneCheck }
{}

/// A clause whose hints lead to a conflict follows by unit propagation from the clauses that are present.
pub fn accepted_follows()
    ensures { AcceptedFollows }
{}

/// An empowering clause is new: no clause that is there already is a part of it, or is itself.
pub fn empowering_is_new()
    ensures { EmpoweringIsNew }
{}
