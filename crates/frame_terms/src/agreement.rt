//! Laws of terms and cells of frames under readings that agree on what they name.
ghost use Rattle.frame_terms.specs.FrameAgreement.{FrameAddressesAgree, FrameCellsAgree, FrameTermsAgree};

/// Terms have the same words under readings with the same inputs and memories.
pub fn frame_terms_agree()
    ensures { FrameTermsAgree }
{}

/// Cells have the same words under readings with the same inputs.
pub fn frame_cells_agree()
    ensures { FrameCellsAgree }
{}

/// The address of a base read hangs on the base reads of addresses before it alone.
pub fn frame_addresses_agree()
    ensures { FrameAddressesAgree }
{}
