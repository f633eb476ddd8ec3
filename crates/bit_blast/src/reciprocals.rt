//! Constants that stand for the reciprocals of divisors. Compilers write a division by a constant as a product with such a constant, of which they take the
//! upper bits.
ghost use Rattle.std.specs.Prelude.{◌≡◌, ◌≤◌, ◌<◌, ◌+◌, ◌-◌, ◌*◌, IsTrue, IfSome};
ghost use Rattle.bit_blast.specs.Reciprocals.{IsReciprocal};

/// How many bits a divisor has less than the dividends. So a constant that is meant otherwise passes for a reciprocal once in some 2,000 times.
const SPARE: usize = 12;

/// A divisor, and the place from which on the bits of a product with its reciprocal are the quotient's.
#[derive(Clone, Copy)]
pub struct Reciprocal {
    pub divisor: u64,
    pub place: usize,
}

/// The divisor for whose reciprocal a constant stands at a place, for signed dividends of so many bits.
fn divisor_at(factor: u64, bits: usize, place: usize) -> Option<u64>
    requires some { 1 ≤ factor }
    requires more { 12 < bits }
    requires order { bits ≤ place }
    requires few { place < 64 }
    ensures { IfSome result (λ d. IsReciprocal factor d (bits - 1) place) }
{
    let power = 1u64 << place;
    let divisor = power / factor + 1;
    if divisor >= 1u64 << (bits - 1 - SPARE) {
        return None;
    }
    if factor - power % factor >= 1u64 << (place + 1 - bits) {
        return None;
    }
    Some(divisor)
}

/// Whether a signed quotient of words of so many bits, a product below a place and a difference take no more gates than a product of the width may.
fn is_cheap(bits: usize, place: usize, width: usize) -> bool
    requires bits { bits ≤ 64 }
    requires place { place ≤ 64 }
    requires width { width ≤ 64 }
    ensures { IsTrue result → bits * (3 * bits + 5) + 3 * width + 3 * place * place ≤ 3 * width * width }
{
    bits * (3 * bits + 5) + 3 * width + 3 * place * place <= 3 * width * width
}

/// The divisor for whose reciprocal a constant stands, at the lowest place, for signed dividends of so many bits, where the circuits have room in
/// that of a product of the width.
pub fn divided_by(factor: u64, bits: usize, width: usize) -> Option<Reciprocal>
    requires order { bits ≤ width }
    requires few { width ≤ 64 }
    ensures is { IfSome result (λ r. IsReciprocal factor r.divisor (bits - 1) r.place) }
    ensures within { IfSome result (λ r. r.place < width) }
    ensures gates { IfSome result (λ r. bits * (3 * bits + 5) + 3 * width + 3 * r.place * r.place ≤ 3 * width * width) }
{
    if factor == 0 {
        return None;
    }
    if bits <= SPARE {
        return None;
    }
    for place in bits..width {
        if !is_cheap(bits, place, width) {
            return None;
        }
        if let Some(divisor) = divisor_at(factor, bits, place) {
            return Some(Reciprocal { divisor, place });
        }
    }
    None
}
