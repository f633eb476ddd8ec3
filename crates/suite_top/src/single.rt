//! The notes of a template, and the warnings about one, as answers to a check.
ghost use Rattle.std.specs.Prelude.{◌≡◌, ◌++◌, [], IfOk, OnOk, map, string_bytes};
ghost use Rattle.bilv_spec.specs.ElfFaults.{IsImage};
ghost use Rattle.suite_report.specs.Words.{verify_words};
ghost use Rattle.suite_top.specs.Options.{asked_options};
ghost use Rattle.suite_top.specs.Singles.{AreListed, IsExpandedAnswer, warning_lines};

use crate::asked::checked_by;
use bilv_top::refuse_elf;
use elf32_reader::read_image;
use exit_status::{DONE, NOTES_REFUSED};
use note_check::{Warning, push_warning};
use std::alloc::{AllocError, Global};
use suite_check::Checked;
use suite_notes::{Expansion, notes_of};
use suite_report::verify_words;
use suite_run::{Came, Verifier};

/// A status and a report, and no warnings.
fn plain(alloc: Global, status: u8, report: Vec<u8>) -> Came
    ensures status { result.status ≡ status }
    ensures report { result.report.items ≡ report.items }
    ensures none { result.warnings.items ≡ [] }
{
    Came {
        status,
        report,
        warnings: Vec::new(alloc),
    }
}

/// Appends the lines of warnings. What an `Err` leaves is open.
fn push_lines(out: &mut Vec<u8>, alloc: Global, warnings: &[Warning]) -> Result<(), AllocError>
    ensures { OnOk result (out.new.items ≡ out.old.items ++ warning_lines warnings.now) }
{
    for warning in warnings {
        push_warning(alloc, out, *warning)?;
        out.extend_from_slice(b"\n")?;
    }
    Ok(())
}

/// The answer that has the lines of warnings, and behind them the refusal. The error is out of memory.
fn listed(alloc: Global, checked: Checked) -> Result<Came, AllocError>
    ensures status { IfOk result (λ a. a.status ≡ checked.status) }
    ensures report { IfOk result (λ a. a.report.items ≡ warning_lines checked.warnings.items ++ checked.refusal.items) }
    ensures warnings { IfOk result (λ a. a.warnings.items ≡ checked.warnings.items) }
{
    let Checked {
        status,
        refusal,
        warnings,
    } = checked;
    let mut report = Vec::new(alloc);
    push_lines(&mut report, alloc, &warnings)?;
    report.extend_from_slice(&refusal)?;
    Ok(Came {
        status,
        report,
        warnings,
    })
}

/// What is answered to a template over an image: the notes that it stands for, or why it is refused. The error is out of memory.
fn expanded(alloc: Global, file: &[u8], template: Vec<u8>) -> Result<Came, AllocError>
    requires { IsImage file.now }
    ensures { IfOk result (λ a. IsExpandedAnswer file.now template.items a.status a.report.items a.warnings.items) }
{
    match notes_of(alloc, file, template)? {
        Expansion::Notes(notes) => Ok(plain(alloc, DONE, notes)),
        Expansion::Refused(report) => Ok(plain(alloc, NOTES_REFUSED, report)),
    }
}

/// What is answered about notes over an ELF file, by the words of options: the warnings, and behind them why one of the files is refused. The error is out of memory.
fn checked(
    alloc: Global,
    options: &[String],
    file: Vec<u8>,
    notes: Vec<u8>,
) -> Result<Came, AllocError>
    ensures { IfOk result (λ a. AreListed (asked_options (verify_words (map string_bytes options.now))) file.items notes.items a.status a.report.items
        a.warnings.items) }
{
    let words = verify_words(alloc, options)?;
    let checked = checked_by(alloc, &words, &file, &notes)?;
    let came = listed(alloc, checked)?;
    Ok(came)
}

/// What prints the notes that a template stands for over an ELF file, or why one of them is refused.
#[derive(Clone, Copy)]
pub struct Expander;

impl Verifier for Expander {
    ghost use Rattle.suite_top.specs.Singles.{IsExpandedAnswer};

    ghost is_answer = { λ _ _. IsExpandedAnswer };

    fn verify(
        &self,
        alloc: Global,
        _options: &[String],
        file: Vec<u8>,
        notes: Vec<u8>,
    ) -> Result<Came, AllocError> {
        match read_image(alloc, &file) {
            Ok(_) => {
                let came = expanded(alloc, &file, notes)?;
                Ok(came)
            }
            Err(fault) => {
                let answer = refuse_elf(alloc, fault)?;
                Ok(plain(alloc, answer.status, answer.text))
            }
        }
    }
}

/// What prints the warnings about a template over an ELF file, and behind them why one of them is refused.
#[derive(Clone, Copy)]
pub struct Checker;

impl Verifier for Checker {
    ghost use Rattle.suite_top.specs.Singles.{IsCheckedAnswer};

    ghost is_answer = { λ _. IsCheckedAnswer };

    fn verify(
        &self,
        alloc: Global,
        options: &[String],
        file: Vec<u8>,
        notes: Vec<u8>,
    ) -> Result<Came, AllocError> {
        match notes_of(alloc, &file, notes)? {
            Expansion::Notes(notes) => {
                let came = checked(alloc, options, file, notes)?;
                Ok(came)
            }
            Expansion::Refused(report) => Ok(plain(alloc, NOTES_REFUSED, report)),
        }
    }
}
