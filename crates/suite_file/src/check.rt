//! Checks, and how one is made of its texts.
ghost use Rattle.std.specs.Prelude.{◌≡◌, IfOk, map, string_bytes};
ghost use Rattle.suite_file.specs.Views.{check_view, draft_view};

use std::alloc::{AllocError, Global};

/// One question about one function.
#[derive(Drop)]
pub struct Check {
    /// The name under which its answer is told, which no other check of the suite has.
    pub name: String,
    /// The path of its notes, which may be a template.
    pub notes: String,
    /// The path of the ELF file.
    pub elf: String,
    /// The further words of the command line.
    pub options: Vec<String>,
    /// The words with which the report is to begin.
    pub expect: String,
}

/// The checks of a suite, in the order of its text.
#[derive(Drop)]
pub struct Suite {
    pub checks: Vec<Check>,
}

/// The texts of a check, as they stand in a suite.
#[derive(Clone, Copy)]
pub(crate) struct Draft<'a> {
    pub(crate) name: &'a str,
    pub(crate) notes: &'a str,
    pub(crate) elf: &'a str,
    pub(crate) expect: &'a str,
}

/// The check of these texts. The error is out of memory.
pub(crate) fn check_of(
    alloc: Global,
    draft: Draft<'_>,
    options: Vec<String>,
) -> Result<Check, AllocError>
    ensures { IfOk result (λ c. check_view c ≡ draft_view draft.entry (map string_bytes options.items)) }
{
    let name = String::from_str(alloc, draft.name)?;
    let notes = String::from_str(alloc, draft.notes)?;
    let elf = String::from_str(alloc, draft.elf)?;
    let expect = String::from_str(alloc, draft.expect)?;
    Ok(Check {
        name,
        notes,
        elf,
        options,
        expect,
    })
}

/// Copies of texts. The error is out of memory.
pub(crate) fn copied(alloc: Global, texts: &[String]) -> Result<Vec<String>, AllocError>
    ensures { IfOk result (λ v. map string_bytes v.items ≡ map string_bytes texts.now) }
{
    let mut copies = Vec::new(alloc);
    for text in texts {
        copies.push(String::from_str(alloc, text.as_str())?)?;
    }
    Ok(copies)
}
