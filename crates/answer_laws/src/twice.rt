//! Laws of two calls, of which the second reads what the first one wrote. A call leaves what the shelf holds as it was, so both may be made over one shelf.
ghost use Rattle.answer_laws.specs.TwoCalls.{AcceptedIsReplayed, CertificateIsAccepted, ReportIsReplayed};

/// A certificate that a call wrote is accepted by another.
pub fn certificate_is_accepted()
    ensures { CertificateIsAccepted }
{}

/// A report that a call wrote, and that shows a run, is replayed by another.
pub fn report_is_replayed()
    ensures { ReportIsReplayed }
{}

/// What a call wrote behind the line that accepts an answer, and that shows a run, is replayed by another.
pub fn accepted_is_replayed()
    ensures { AcceptedIsReplayed }
{}
