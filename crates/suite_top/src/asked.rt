//! The options of words, and the warnings by them.
ghost use Rattle.std.specs.Prelude.{◌≡◌, Some, IfOk, map, option_map, string_bytes};
ghost use Rattle.command_line.specs.Commands.{command_of, options_of};
ghost use Rattle.suite_top.specs.Options.{IsCheckedBy, asked_options, verify_options};

use command_line::{Command, LineError, Options, read_command};
use exit_status::USAGE;
use std::alloc::{AllocError, Global};
use suite_check::{Checked, check};

/// The options of a command that verifies; other commands have none that count.
fn options_in(command: &Command) -> Option<Options>
    ensures { option_map options_of result ≡ verify_options (Some (command_of command.now)) }
{
    match command {
        Command::Verify { options, .. } => Some(*options),
        Command::Lift { .. } => None,
        Command::Graph { .. } => None,
        Command::Script { .. } => None,
        Command::Replay { .. } => None,
        Command::Certify { .. } => None,
        Command::Model { .. } => None,
        Command::Equal { .. } => None,
        Command::Differ { .. } => None,
        Command::Check { .. } => None,
        Command::SelfRun { .. } => None,
        Command::Upgrade { .. } => None,
    }
}

/// The options of words that verify, or none where these are not lawful. The error is out of memory.
pub(crate) fn options_of_words(
    alloc: Global,
    words: &[String],
) -> Result<Option<Options>, AllocError>
    ensures { IfOk result (λ o. option_map options_of o ≡ asked_options (map string_bytes words.now)) }
{
    match read_command(alloc, words) {
        Ok(command) => Ok(options_in(&command)),
        Err(LineError::Usage) => Ok(None),
        Err(LineError::Memory) => Err(AllocError),
    }
}

/// What is told of notes over an ELF file, by the options of words that verify; status 2 and no warning where these are not lawful. The error is out of memory.
pub(crate) fn checked_by(
    alloc: Global,
    words: &[String],
    file: &[u8],
    notes: &[u8],
) -> Result<Checked, AllocError>
    ensures { IfOk result (λ c. IsCheckedBy (asked_options (map string_bytes words.now)) file.now notes.now c.status c.refusal.items c.warnings.items) }
{
    match options_of_words(alloc, words)? {
        Some(options) => {
            let checked = check(alloc, file, notes, options)?;
            Ok(checked)
        }
        None => Ok(Checked {
            status: USAGE,
            refusal: Vec::new(alloc),
            warnings: Vec::new(alloc),
        }),
    }
}
