//! Words of bits, the lowest first, and the operators on them as circuits.
//!
//! Each function adds the gates of one operator to a circuit, and gives the bits of its result. What it gives is told by the operator of the definitions, under
//! every valuation that the gates allow; and at most so many gates are added as the operator's weight is.
#![tactic(auto)]

pub mod arithmetic;
pub mod bitwise;
pub mod compare;
pub mod division;
pub mod parts;
pub mod shift;
