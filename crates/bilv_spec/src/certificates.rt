//! Laws of refutations and of the texts of certificates.
ghost use Rattle.bilv_spec.specs.EvidenceLaws.{RefutedIsFalse, CertifiedIsAccepted};

/// A question that is refuted is true of no reading.
pub fn refuted_is_false()
    ensures { RefutedIsFalse }
{}

/// The certificate of a refuted question is accepted, within the bounds of the grammar and the limit of bytes.
pub fn certified_is_accepted()
    ensures { CertifiedIsAccepted }
{}
