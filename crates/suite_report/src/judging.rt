//! Whether checks came to what is expected, and the status of a suite.
ghost use Rattle.std.specs.Prelude.{◌≡◌, string_bytes};
ghost use Rattle.suite_report.specs.Reports as spec;
ghost use Rattle.suite_report.specs.Views.{told_of};

use crate::told::Told;

/// Whether a text begins with words, behind which a blank, a line feed or the text's end stands.
pub fn begins_with(words: &[u8], text: &[u8]) -> bool
    ensures { result ≡ spec.begins_with words.now text.now }
{
    if !text.starts_with(words) {
        return false;
    }
    match text[words.len()..].first() {
        Some(b) => *b == b' ' || *b == b'\n',
        None => true,
    }
}

/// Whether a text has a part.
pub fn has_part(part: &[u8], text: &[u8]) -> bool
    ensures { result ≡ spec.has_part part.now text.now }
{
    for i in 0..text.len() {
        if text[i..].starts_with(part) {
            return true;
        }
    }
    part.is_empty()
}

/// Whether a check came to what is expected of it: its report begins with those words.
pub fn is_expected(told: &Told<'_>) -> bool
    ensures { result ≡ spec.is_expected (told_of told.now) }
{
    begins_with(told.expect.as_bytes(), told.report)
}

/// Whether a check came to a vacuous answer, or to one with a warning.
fn means_less(told: &Told<'_>) -> bool
    ensures { result ≡ spec.means_less (told_of told.now) }
{
    if begins_with(b"vacuous", told.report) {
        return true;
    }
    !told.warnings.is_empty()
}

/// The status that a check asks for: 0 where it came to what is expected; else its own from 2 on, and 1 below that. Where one is strict, 1 for a vacuous answer
/// that is expected, and for one with a warning.
pub fn asked_status(strict: bool, told: &Told<'_>) -> u8
    ensures { result ≡ spec.asked_status strict (told_of told.now) }
{
    if !is_expected(told) {
        return told.status.max(1);
    }
    if strict && means_less(told) {
        return 1;
    }
    0
}

/// How bad a status is: done, unknown, failed, and any other.
fn badness(status: u8) -> u8
    ensures { result ≡ spec.badness status }
{
    match status {
        0 => 0,
        3 => 1,
        1 => 2,
        _ => 3,
    }
}

/// The worse of two statuses: the first of two that are as bad.
pub fn worse(first: u8, second: u8) -> u8
    ensures { result ≡ spec.worse first second }
{
    if badness(first) < badness(second) {
        return second;
    }
    first
}
