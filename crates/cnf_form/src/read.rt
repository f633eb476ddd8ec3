//! Reads the text of clauses (DIMACS CNF), up to the line `proof`.
ghost use Rattle.std.specs.Prelude.{◌≡◌, ℕ, [], ◌++◌, ◌-◌, drop, length, Some, None, is_some, IfOk, IfErr, MatchOption};
ghost use Rattle.clause_spec.specs.Clauses.{AreOnVariables};
ghost use Rattle.word_spec.specs.Texts.{split_lines};
ghost use Rattle.clause_spec.specs.CertificateGrammar.{behind_p, words_of, numbers_of, numbers_line, numbers_in, cnf_line, line_fault, header_after, at_proof, at_end, Clauses, RefusedAt, cnf_of as answer_of};
ghost use Rattle.cnf_form.specs.Faults.{fault_of, IsRefusal};
ghost use Rattle.cnf_form.specs.Views.{cnf_of};

use crate::fault::{CnfError, CnfFault};
use crate::form::Cnf;
use crate::gather::Gathered;
use crate::header::{Header, header_behind};
use crate::number::integer;
use crate::words::{next_line, next_word};
use std::alloc::{AllocError, Global};

/// What the lines so far say.
#[derive(Drop)]
struct Reading {
    header: Option<Header>,
    gathered: Gathered,
}

/// Whether each word of a line is a number.
fn are_numbers(line: &[u8]) -> bool
    ensures { result ≡ is_some (numbers_of (words_of line.now)) }
{
    let mut rest = line;
    while let Some((word, behind)) = next_word(rest) {
        if integer(word).is_none() {
            return false;
        }
        rest = behind;
    }
    true
}

/// Reads a line of numbers behind a header, or says why it is refused.
fn read_numbers(
    alloc: Global,
    header: Header,
    gathered: &mut Gathered,
    line: &[u8],
) -> Result<Option<CnfFault>, AllocError>
    ensures { let l = numbers_line (numbers_of (words_of line.now)) in IfOk result (λ o.
        MatchOption o ((line_fault (Some header) l ≡ None) × (gathered.new ≡ gathered.old ++ numbers_in l))
        (λ f. line_fault (Some header) l ≡ Some (fault_of f))) }
{
    let variables = header.variables();
    let mut rest = line;
    while let Some((word, behind)) = next_word(rest) {
        let Some(number) = integer(word) else {
            return Ok(Some(CnfFault::Token));
        };
        if number.size() > variables {
            if are_numbers(behind) {
                return Ok(Some(CnfFault::Variable));
            }
            return Ok(Some(CnfFault::Token));
        }
        gathered.push(alloc, number)?;
        rest = behind;
    }
    Ok(None)
}

impl Reading {
    /// Reads the header of what stands behind the `p` of a line, or says why the line is refused.
    fn read_header(&mut self, behind: &[u8]) -> Option<CnfFault>
        ensures { let l = behind_p (words_of behind.now) in MatchOption result
            ((line_fault self.old.header l ≡ None) × (self.new.header ≡ header_after self.old.header l)
            × (numbers_in l ≡ []) × (self.new.gathered ≡ self.old.gathered))
            (λ f. line_fault self.old.header l ≡ Some (fault_of f)) }
    {
        match header_behind(behind) {
            Err(fault) => Some(fault),
            Ok(header) => {
                if self.header.is_some() {
                    return Some(CnfFault::Header);
                }
                self.header = Some(header);
                None
            }
        }
    }

    /// Reads a line, or says why it is refused.
    fn read_line(&mut self, alloc: Global, line: &[u8]) -> Result<Option<CnfFault>, AllocError>
        ensures { let l = cnf_line line.now in IfOk result (λ o. MatchOption o
            ((line_fault self.old.header l ≡ None) × (self.new.header ≡ header_after self.old.header l)
            × (self.new.gathered ≡ self.old.gathered ++ numbers_in l))
            (λ f. line_fault self.old.header l ≡ Some (fault_of f))) }
    {
        let Some((word, behind)) = next_word(line) else {
            return Ok(None);
        };
        if word == b"c".as_slice() {
            return Ok(None);
        }
        if word == b"p".as_slice() {
            return Ok(self.read_header(behind));
        }
        let Some(header) = self.header else {
            if are_numbers(line) {
                return Ok(Some(CnfFault::Header));
            }
            return Ok(Some(CnfFault::Token));
        };
        let fault = read_numbers(alloc, header, &mut self.gathered, line)?;
        Ok(fault)
    }

    /// What is read at the line `proof` of this number.
    fn at_proof(self, line: usize) -> Result<(Cnf, usize), CnfError>
        ensures read { IfOk result (λ r. at_proof line self.header self.gathered ≡ Clauses (cnf_of r.0) r.1) }
        ensures refused { IfErr result (IsRefusal (at_proof line self.header self.gathered)) }
    {
        let Some(header) = self.header else {
            return Err(CnfError::Refused {
                line,
                fault: CnfFault::Header,
            });
        };
        if !self.gathered.is_counted(header) {
            return Err(CnfError::Refused {
                line,
                fault: CnfFault::Count,
            });
        }
        let cnf = Cnf {
            variables: header.variables(),
            clauses: self.gathered.into_clauses(),
        };
        Ok((cnf, line))
    }

    /// Why a text without a line `proof` is refused.
    fn fault_at_end(&self) -> CnfFault
        ensures { (n : ℕ) → at_end n self.now.header self.now.gathered ≡ RefusedAt n (fault_of result) }
    {
        let Some(header) = self.header else {
            return CnfFault::Header;
        };
        if self.gathered.is_counted(header) {
            CnfFault::Proof
        } else {
            CnfFault::Count
        }
    }
}

/// The clauses of a certificate (DIMACS CNF), and the number of its lines up to the line `proof`, that line with them.
/// [`behind_lines`] gives what stands behind it.
///
/// Each literal is over a variable from 1 to the number of variables, so that the clauses pass `are_on_variables`.
///
/// # Errors
///
/// `Refused` with the first line that is refused, and its first fault in the order of [`CnfFault`]; `Memory` where
/// memory ran out.
pub fn read_cnf(alloc: Global, text: &[u8]) -> Result<(Cnf, usize), CnfError>
    ensures read { IfOk result (λ r. answer_of text.now ≡ Clauses (cnf_of r.0) r.1) }
    ensures refused { IfErr result (IsRefusal (answer_of text.now)) }
    ensures over { IfOk result (λ r. AreOnVariables r.0.variables r.0.clauses.items) }
{
    let mut reading = Reading {
        header: None,
        gathered: Gathered::new(alloc),
    };
    let mut rest = text;
    let mut number: usize = 1;
    while let Some((line, behind)) = next_line(rest) {
        if line == b"proof".as_slice() {
            let read = reading.at_proof(number)?;
            return Ok(read);
        }
        if let Some(fault) = reading.read_line(alloc, line)? {
            return Err(CnfError::Refused {
                line: number,
                fault,
            });
        }
        rest = behind;
        number += 1;
    }
    Err(CnfError::Refused {
        line: number,
        fault: reading.fault_at_end(),
    })
}

/// The text behind its first `lines` lines; nothing where it has fewer.
pub fn behind_lines(text: &[u8], lines: usize) -> &[u8]
    ensures lines { split_lines result.now ≡ drop lines (split_lines text.now) }
    ensures behind { result.now ≡ drop (length text.now - length result.now) text.now }
{
    let mut rest = text;
    for _ in 0..lines {
        match next_line(rest) {
            Some((_, behind)) => rest = behind,
            None => return rest,
        }
    }
    rest
}
