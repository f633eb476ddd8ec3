//! The answers about one ELF file and one template.
ghost use Rattle.std.specs.Prelude.{◌≡◌, IfOk, map, string_bytes};
ghost use Rattle.io_edges.specs.Met.{met, seen};
ghost use Rattle.suite_file.specs.Views.{check_view};
ghost use Rattle.suite_line.specs.Views.{files_of};
ghost use Rattle.suite_top.specs.Ends.{IsFilesEnd};
ghost use Rattle.suite_top.specs.FileChecks.{asked_check, is_lawful, option_words};

use crate::asked::options_of_words;
use crate::refusing::{out_of_memory, refuse_line};
use io_edges::{Shelf, Sink};
use std::alloc::{AllocError, Global};
use suite_file::Check;
use suite_line::Files;
use suite_report::verify_words;
use suite_run::{Ended, Verifier, print_answer};

/// The words of the options. The error is out of memory.
fn words_of(alloc: Global, files: Files) -> Result<Vec<String>, AllocError>
    ensures { IfOk result (λ v. map string_bytes v.items ≡ option_words (files_of files.entry)) }
{
    let mut words = Vec::new(alloc);
    words.push(String::from_str(alloc, "--arm")?)?;
    words.push(String::from_str(alloc, files.arm)?)?;
    if files.rvc {
        words.push(String::from_str(alloc, "--rvc")?)?;
        return Ok(words);
    }
    Ok(words)
}

/// The check that asks about the files. The error is out of memory.
fn check_of(alloc: Global, files: Files) -> Result<Check, AllocError>
    ensures { IfOk result (λ c. check_view c ≡ asked_check (files_of files.entry)) }
{
    let name = String::from_str(alloc, files.notes)?;
    let notes = String::from_str(alloc, files.notes)?;
    let elf = String::from_str(alloc, files.elf)?;
    let options = words_of(alloc, files)?;
    let expect = String::new(alloc);
    Ok(Check {
        name,
        notes,
        elf,
        options,
        expect,
    })
}

/// Whether `bilv verify` takes these options. The error is out of memory.
fn are_lawful(alloc: Global, options: &[String]) -> Result<bool, AllocError>
    ensures { IfOk result (λ b. b ≡ is_lawful (map string_bytes options.now)) }
{
    let words = verify_words(alloc, options)?;
    let found = options_of_words(alloc, &words)?;
    Ok(found.is_some())
}

/// Answers about an ELF file and a template, as a verifier does, and prints the text of the answer.
pub(crate) fn answer_files<V: Verifier, H: Shelf, K: Sink>(
    alloc: Global,
    verifier: &V,
    files: Files,
    shelf: &mut H,
    out: &mut K,
) -> Ended
    ensures { IsFilesEnd (V.is_answer verifier.now) (met (seen (H.holds shelf.old) (H.faults shelf.old) (H.faults shelf.new)) (K.written out.old)
        (K.written out.new) (K.faults out.old) (K.faults out.new)) (files_of files.entry) result.status }
{
    let Ok(check) = check_of(alloc, files) else {
        return out_of_memory();
    };
    match are_lawful(alloc, &check.options) {
        Ok(true) => Ended {
            status: print_answer(alloc, verifier, &check, shelf, out),
            message: None,
        },
        Ok(false) => refuse_line(alloc),
        Err(_) => out_of_memory(),
    }
}
