//! Lists of numbers that 0 ends, and literals.
ghost use Rattle.std.specs.Prelude.{◌≡◌, ◌<◌, ◌≤◌, ◌^◌, [], ◌∷◌, ◌++◌, ℕ, List, map, not, length, true, false, IfOk, IfSome, MatchOption, ◌&&◌, nat_le};
ghost use Rattle.std.specs.List.{list_all};
ghost use Rattle.clause_spec.specs.CertificateGrammar.{Integer, parts, is_zero, is_ended, literal_of};
ghost use Rattle.clause_spec.specs.Refutation.{is_listed};

use crate::clause::Clause;
use crate::lit::Lit;
use crate::number::Number;
use std::alloc::{AllocError, Global};

/// The greatest number of a log.
const GREATEST_NUMBER: u64 = 1 << 62;

/// The numbers before the first 0, and those behind it, if there is one.
pub fn split_at_zero(numbers: &[Number]) -> Option<(&[Number], &[Number])>
    ensures parts { MatchOption result (list_all (λ n. not (is_zero n)) numbers.now ≡ true)
        (λ split. parts is_zero numbers.now ≡ split.0.now ∷ parts is_zero split.1.now) }
    ensures ended { IfSome result (λ split. is_ended numbers.now ≡ is_ended split.1.now) }
{
    for (i, number) in numbers.iter().enumerate() {
        if number.is_zero() {
            return Some((&numbers[..i], &numbers[i + 1..]));
        }
    }
    None
}

/// The literals of numbers, where none is 0 or above 2^62.
pub fn literals(alloc: Global, numbers: &[Number]) -> Result<Option<Clause>, AllocError>
    ensures { IfOk result (λ o. MatchOption o (list_all (λ (n : Integer). is_listed n.size) numbers.now ≡ false)
        (λ clause. clause ≡ map literal_of numbers.now)) }
{
    let mut clause = Clause::new(alloc);
    for number in numbers {
        let size = number.size();
        if size == 0 || size > GREATEST_NUMBER {
            return Ok(None);
        }
        clause.push(Lit::new(size, !number.is_negative()))?;
    }
    Ok(Some(clause))
}
