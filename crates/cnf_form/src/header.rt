//! The line `p cnf`.
ghost use Rattle.std.specs.Prelude.{◌≡◌, ◌≤◌, ◌^◌, [], ◌∷◌, true, Option, Some, MatchOption, MatchResult};
ghost use Rattle.clause_spec.specs.CertificateGrammar.{words_of, behind_p, HeaderLine, NoCnfLine, is_small, line_fault, Header as GrammarHeader};
ghost use Rattle.cnf_form.specs.Faults.{fault_of};

use crate::fault::CnfFault;
use crate::number::digits_size;
use crate::words::next_word;
use std::marker::Model;

/// The greatest number of variables, and of clauses.
const GREATEST_COUNT: u64 = 1 << 30;

/// The numbers of a line `p cnf`: of variables, at most 2^30, and of clauses. Contracts see it as the header.
#[derive(Clone, Copy)]
pub(crate) struct Header {
    variables: u64,
    clauses: u64,
}

impl Model for Header {
    ghost use Rattle.std.specs.Prelude.{◌≤◌, ◌^◌};
    ghost use Rattle.clause_spec.specs.CertificateGrammar.{Header as GrammarHeader};

    ghost Value = { GrammarHeader };

    ghost view = { λ h. record { variables = h.variables; clauses = h.clauses } };

    ghost invariant = { λ h. h.variables ≤ 2 ^ 30 };

    ghost inverse = { λ h. record { variables = h.variables; clauses = h.clauses } };
}

impl Header {
    /// The number of variables, at most 2^30.
    pub(crate) fn variables(self) -> u64
        ensures value { result ≡ self.variables }
        ensures bound { result ≤ 2 ^ 30 }
    {
        self.variables
    }

    /// The number of clauses.
    pub(crate) fn clauses(self) -> u64
        ensures { result ≡ self.clauses }
    {
        self.clauses
    }
}

/// The three words of a line, if there are three.
fn three_words(line: &[u8]) -> Option<(&[u8], &[u8], &[u8])>
    ensures { MatchOption result (behind_p (words_of line.now) ≡ NoCnfLine)
        (λ w. words_of line.now ≡ w.0.now ∷ w.1.now ∷ w.2.now ∷ []) }
{
    let Some((first, behind_first)) = next_word(line) else {
        return None;
    };
    let Some((second, behind_second)) = next_word(behind_first) else {
        return None;
    };
    let Some((third, rest)) = next_word(behind_second) else {
        return None;
    };
    match next_word(rest) {
        None => Some((first, second, third)),
        Some(_) => None,
    }
}

/// The header of a line that begins with `p`, of what stands behind the `p`; or why the line is refused, `Token` before `Header`.
pub(crate) fn header_behind(line: &[u8]) -> Result<Header, CnfFault>
    ensures { MatchResult result (λ h. (behind_p (words_of line.now) ≡ HeaderLine h) × (is_small h ≡ true))
        (λ f. (seen : Option GrammarHeader) → line_fault seen (behind_p (words_of line.now)) ≡ Some (fault_of f)) }
{
    let Some((name, variables_word, clauses_word)) = three_words(line) else {
        return Err(CnfFault::Token);
    };
    if name != b"cnf".as_slice() {
        return Err(CnfFault::Token);
    }
    let Some(variables) = digits_size(variables_word) else {
        return Err(CnfFault::Token);
    };
    let Some(clauses) = digits_size(clauses_word) else {
        return Err(CnfFault::Token);
    };
    if variables > GREATEST_COUNT || clauses > GREATEST_COUNT {
        return Err(CnfFault::Header);
    }
    Ok(Header { variables, clauses })
}
