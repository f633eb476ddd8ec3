//! Judges one line.
ghost use Rattle.std.specs.Prelude.{◌≡◌, ℕ, ◌<◌, ◌+◌, ◌^◌, Some, None, true, false, length, map, option_map, nat_lt, nat_le, ◌&&◌};
ghost use Rattle.std.specs.List.{list_all};
ghost use Rattle.clause_spec.specs.Clauses.{Literal, Clause as SpecClause};
ghost use Rattle.clause_spec.specs.Refutation.{judge_hints, judge_added, is_of_grammar, is_listed, hint_size, some_above, some_negative};
ghost use Rattle.cnf_form.specs.Views.{hint_of, line_of};
ghost use Rattle.refutation_checker.specs.Answers.{cause_of};
ghost use Rattle.refutation_checker.specs.Slots.{true_in, AreUpTo, IsWithin};
ghost use Rattle.refutation_checker.specs.Entries.{look_up, ids_of, IsRising};

use crate::assignment::look_at;
use crate::cause::Cause;
use crate::entries::{Entry, find};
use crate::slots::{AtLine, Look, Slot, assign, deny};
use cnf_form::{Clause, Hint, Lit, LogLine};

/// The greatest number of a log.
const GREATEST_NUMBER: u64 = 1 << 62;

/// Takes the hints in order at a line, and says why they are refused.
pub fn follow(
    entries: &[Entry<'_>],
    names: &[u64],
    slots: &mut [Slot],
    line: usize,
    hints: &[Hint],
) -> Option<Cause>
    requires rising { IsRising (ids_of entries.now) }
    requires named { IsRising names.now }
    requires within { (i : ℕ) (c : SpecClause) → look_up entries.now i ≡ Some c → IsWithin names.now (length slots.old) c }
    ensures judged { option_map cause_of result ≡ judge_hints (look_up entries.now) (true_in line names.now slots.old) (map hint_of hints.now) }
    ensures lines { AreUpTo line slots.old → AreUpTo line slots.new }
{
    for hint in hints {
        let id = match *hint {
            Hint::ById(id) => id,
            Hint::Negative(_) => return Some(Cause::UnknownHint),
        };
        let Some(clause) = find(entries, id) else {
            return Some(Cause::UnknownHint);
        };
        let at_line = AtLine { names, slots, line };
        match look_at(&at_line, clause.lits()) {
            Look::Conflict => return None,
            Look::Unit(lit) => assign(names, slots, line, lit),
            Look::Other => return Some(Cause::NotUnit),
        }
    }
    Some(Cause::NoConflict)
}

fn has_above(clause: &[Lit], variables: u64) -> bool
    ensures { result ≡ some_above variables clause.now }
{
    for lit in clause {
        if variables < lit.variable() {
            return true;
        }
    }
    false
}

fn has_negative(hints: &[Hint]) -> bool
    ensures { result ≡ some_negative (map hint_of hints.now) }
{
    for hint in hints {
        if let Hint::Negative(_) = *hint {
            return true;
        }
    }
    false
}

/// The first cause for which an added clause is refused at a line that has set nothing.
pub fn judge_clause(
    entries: &[Entry<'_>],
    names: &[u64],
    slots: &mut [Slot],
    line: usize,
    variables: u64,
    last: u64,
    id: u64,
    clause: &[Lit],
    hints: &[Hint],
) -> Option<Cause>
    requires rising { IsRising (ids_of entries.now) }
    requires named { IsRising names.now }
    requires within { (i : ℕ) (c : SpecClause) → look_up entries.now i ≡ Some c → IsWithin names.now (length slots.old) c }
    requires ready { some_above variables clause.now ≡ false → IsWithin names.now (length slots.old) clause.now }
    requires empty { (m : Literal) → true_in line names.now slots.old m ≡ false }
    ensures judged { option_map cause_of result ≡ judge_added variables (record { last = last; present = look_up entries.now; ended = false }) id clause.now
        (map hint_of hints.now) }
    ensures lines { AreUpTo line slots.old → AreUpTo line slots.new }
{
    if id <= last {
        return Some(Cause::IdNotAbove);
    }
    if has_above(clause, variables) {
        return Some(Cause::VariableAbove);
    }
    if deny(names, slots, line, clause) {
        return Some(Cause::Tautology);
    }
    if has_negative(hints) {
        return Some(Cause::NegativeHint);
    }
    follow(entries, names, slots, line, hints)
}

/// Whether a number may stand in a list of the grammar.
fn is_listed_number(number: u64) -> bool
    ensures { result ≡ is_listed number }
{
    0 < number && number <= GREATEST_NUMBER
}

fn are_listed_literals(clause: &[Lit]) -> bool
    ensures { result ≡ list_all (λ (l : Literal). is_listed l.variable) clause.now }
{
    for lit in clause {
        if !is_listed_number(lit.variable()) {
            return false;
        }
    }
    true
}

fn are_listed_hints(hints: &[Hint]) -> bool
    ensures { result ≡ list_all (λ h. is_listed (hint_size h)) (map hint_of hints.now) }
{
    for hint in hints {
        let size = match *hint {
            Hint::ById(id) => id,
            Hint::Negative(size) => size,
        };
        if !is_listed_number(size) {
            return false;
        }
    }
    true
}

fn are_listed_ids(ids: &[u64]) -> bool
    ensures { result ≡ list_all is_listed ids.now }
{
    for id in ids {
        if !is_listed_number(*id) {
            return false;
        }
    }
    true
}

/// Whether the line is one that the grammar has.
pub fn is_lawful(line: &LogLine) -> bool
    ensures { result ≡ is_of_grammar (line_of line.now) }
{
    match line {
        LogLine::Bad => false,
        LogLine::Delete { id, ids } => *id <= GREATEST_NUMBER && are_listed_ids(ids),
        LogLine::Add { id, clause, hints } => {
            *id <= GREATEST_NUMBER && are_listed_literals(clause.lits()) && are_listed_hints(hints)
        }
    }
}
