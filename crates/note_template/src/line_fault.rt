//! Why a line is refused, and where.
use crate::fault::Refusal;

/// Why a line is refused, and at which column.
#[derive(Drop)]
pub(crate) struct LineFault {
    pub(crate) column: usize,
    pub(crate) refusal: Refusal,
}
