//! The assertions of the bytes of the file.
ghost use Rattle.std.specs.Prelude.{◌≡◌, ◌≤◌, ◌<◌, ◌+◌, ◌^◌, ◌++◌, [], ◌∷◌, codes, if◌then◌else◌, map, slice_index, string_bytes, IfOk, OnOk};
ghost use Rattle.known_bytes.specs.Runs.{run_of, AreRuns};
ghost use Rattle.question_form.specs.Views.{kept_of};
ghost use Rattle.smtlib_print.specs.Commands as commands;
ghost use Rattle.smtlib_print.specs.Scripted.{FitsMemory, FitMemory};
ghost use Rattle.smtlib_print.specs.Written.{commands_text, written};

use crate::words::{push_address, push_byte, push_memory};
use known_bytes::Known;
use mem_cells::is_kept;
use std::alloc::AllocError;

/// Appends the assertion that the memory of a part has a byte at an address.
fn push_known(out: &mut String, part: u32, address: u32, value: u8) -> Result<(), AllocError>
    ensures { OnOk result (string_bytes out.new
        ≡ string_bytes out.old ++ (written (commands.assertion (commands.has_byte part address value)) ++ codes "\n")) }
{
    out.push_str("(assert (= (select ")?;
    push_memory(out, part)?;
    out.push_str(" ")?;
    push_address(out, address)?;
    out.push_str(") ")?;
    push_byte(out, value)?;
    out.push_str("))\n")
}

/// Whether the byte of the file at an address is one that the memory of a part has: the entry's has each, the head's those that are kept.
fn is_of_part(part: u32, kept: &[(u32, u32)], address: u32) -> bool
    ensures { result ≡ commands.is_of_part part (map kept_of kept.now) address }
{
    if part == 0 {
        return true;
    }
    is_kept(kept, address)
}

/// Appends the assertion of a byte, if it is one of the part.
fn push_asked(
    out: &mut String,
    part: u32,
    kept: &[(u32, u32)],
    address: u32,
    value: u8,
) -> Result<(), AllocError>
    ensures { OnOk result (string_bytes out.new ≡ string_bytes out.old
        ++ (if commands.is_of_part part (map kept_of kept.now) address
        then written (commands.assertion (commands.has_byte part address value)) ++ codes "\n" else [])) }
{
    if !is_of_part(part, kept, address) {
        return Ok(());
    }
    push_known(out, part, address, value)
}

/// The byte of a run at a distance; those that are not listed are 0.
fn listed(bytes: &[u8], distance: usize) -> u8
    ensures { result ≡ slice_index bytes.now distance }
{
    if distance < bytes.len() {
        return bytes[distance];
    }
    0
}

/// Appends the assertions of the bytes of a run that are of a part.
fn push_run(out: &mut String, part: u32, kept: &[(u32, u32)], run: &Known) -> Result<(), AllocError>
    requires some { run.now.first ≤ run.now.last }
    ensures text { OnOk result (string_bytes out.new
        ≡ string_bytes out.old ++ commands_text (commands.byte_assertions part (map kept_of kept.now) (run_of run.now) 0 (run_of run.now).count)) }
    ensures fits { OnOk result (FitsMemory (run_of run.now)) }
{
    let count = (run.last - run.first) as usize + 1;
    for distance in 0..count {
        let address = run.first + distance as u32;
        push_asked(out, part, kept, address, listed(run.bytes, distance))?;
    }
    Ok(())
}

/// Appends the assertions of the bytes of runs that are of a part, one for each byte: a solver reads many of them faster than one nest of them.
pub fn push_runs(
    out: &mut String,
    part: u32,
    kept: &[(u32, u32)],
    runs: &[Known],
) -> Result<(), AllocError>
    requires runs { AreRuns runs.now }
    ensures text { OnOk result (string_bytes out.new
        ≡ string_bytes out.old ++ commands_text (commands.run_assertions part (map kept_of kept.now) (map run_of runs.now))) }
    ensures fit { OnOk result (FitMemory (map run_of runs.now)) }
{
    for i in 0..runs.len() {
        let run = runs[i];
        push_run(out, part, kept, &run)?;
    }
    Ok(())
}

/// Appends the assertions of the bytes of the file: those of the entry's memory, and those of the head's if it is asked.
pub fn push_file(
    out: &mut String,
    asks_head: bool,
    kept: &[(u32, u32)],
    runs: &[Known],
) -> Result<(), AllocError>
    requires runs { AreRuns runs.now }
    ensures text { OnOk result (string_bytes out.new
        ≡ string_bytes out.old ++ commands_text (commands.file_assertions asks_head (map kept_of kept.now) (map run_of runs.now))) }
    ensures fit { OnOk result (FitMemory (map run_of runs.now)) }
{
    push_runs(out, 0, kept, runs)?;
    if asks_head {
        push_runs(out, 1, kept, runs)?;
    }
    Ok(())
}
