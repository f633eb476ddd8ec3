//! The text of lists of statements (A Formal Specification for BIL, in this project's profile): one statement a line, two blanks for each depth of blocks.
#![tactic(auto)]

ghost use Rattle.std.specs.Prelude.{◌≡◌, ◌++◌, string_bytes, IfOk, OnOk};
ghost use Rattle.machine_spec.specs.BilText as text;
ghost use Rattle.bil_ast.specs.Views.{statements};

mod expressions;
mod names;
mod statements;

use bil_ast::Stmt;
use statements::{append_list, blanks_of};
use std::alloc::{AllocError, Global};

/// The text of a list of statements. The error is want of memory.
pub fn print_stmts(alloc: Global, list: &[Stmt]) -> Result<Vec<u8>, AllocError>
    ensures { IfOk result (λ bytes. bytes.items ≡ text.list_text 0 (statements list.now)) }
{
    let mut out = String::new(alloc);
    append_list(list, &mut out, alloc, "")?;
    Ok(out.into_bytes())
}

/// Appends the text of a list of statements at a depth, two blanks deep for each step. The error is want of memory, and leaves open what was appended.
pub fn append_stmts(
    alloc: Global,
    out: &mut String,
    list: &[Stmt],
    depth: u32,
) -> Result<(), AllocError>
    ensures { OnOk result (string_bytes out.new ≡ string_bytes out.old ++ text.list_text depth (statements list.now)) }
{
    let blanks = blanks_of(alloc, depth)?;
    append_list(list, out, alloc, &blanks)?;
    Ok(())
}
