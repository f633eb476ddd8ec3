//! Command lines.
ghost use Rattle.std.specs.Prelude.{◌≡◌, ◌≢◌, false, true, None, Some, IfOk, IfSome, IsErrOf, map, option_map, string_bytes};
ghost use Rattle.command_spec.specs.Commands.{IsLawfulCommand};
ghost use Rattle.clap.specs.Words.{kind_of, subcommand_rows_of, subcommand_of};
ghost use Rattle.command_line.specs.Commands.{command_of};
ghost use Rattle.command_line.specs.Lines.{bilv_app, command_in, lawful_command, takes_line};
ghost use Rattle.clap.specs.declared.error.kind.ErrorKind.TheVariants as kind;

use crate::command::Command;
use crate::found::matches_in;
use crate::program::bilv;
use crate::values::command_named;
use clap::ArgMatches;
use clap::error::ErrorKind;
use std::alloc::{AllocError, Global};
use thiserror::Error;

/// Why no command was read.
#[derive(Clone, Copy, Debug, PartialEq, Eq, Error)]
pub enum LineError {
    /// The line is no lawful command.
    #[error("usage")]
    Usage,
    /// Memory ran out.
    #[error("out of memory")]
    Memory,
}

impl From<AllocError> for LineError {
    ghost use Rattle.command_line.specs.declared.reader.LineError.{LineError};

    ghost from_gives = { λ _ e. e ≡ LineError.Memory };

    fn from(_error: AllocError) -> LineError {
        LineError::Memory
    }
}

/// What an error of `clap` says of the line.
pub(crate) fn line_error(error: &clap::Error) -> LineError
    ensures memory { kind_of error.now ≡ kind.OutOfMemory → result ≡ LineError.Memory }
    ensures usage { kind_of error.now ≢ kind.OutOfMemory → result ≡ LineError.Usage }
{
    if error.kind() == ErrorKind::OutOfMemory {
        LineError::Memory
    } else {
        LineError::Usage
    }
}

// What `clap` finds on the line.
fn matches_of<'a>(alloc: Global, words: &'a [String]) -> Result<ArgMatches<'a>, LineError>
    ensures ok { IfOk result (λ m. (takes_line (map string_bytes words.now) ≡ true)
        × (subcommand_rows_of m ≡ subcommand_of bilv_app (map string_bytes words.now))) }
    ensures usage { IsErrOf result LineError.Usage → takes_line (map string_bytes words.now) ≡ false }
{
    let command = bilv(alloc)?;
    matches_in(command, words)
}

fn command_in<'a>(matches: &ArgMatches<'a>) -> Option<Command<'a>>
    ensures value { option_map command_of result ≡ command_in (subcommand_rows_of matches.now) }
    ensures lawful { IfSome result (λ c. IsLawfulCommand (command_of c)) }
{
    let (name, found) = matches.subcommand()?;
    command_named(name, found)
}

/// The command that the words of a command line ask for; the first word is the program's name.
///
/// `Usage` comes only where the line is no lawful command, and `Memory` where memory runs out.
pub fn read_command<'a>(alloc: Global, words: &'a [String]) -> Result<Command<'a>, LineError>
    ensures ok { IfOk result (λ c. lawful_command (map string_bytes words.now) ≡ Some (command_of c)) }
    ensures lawful { IfOk result (λ c. IsLawfulCommand (command_of c)) }
    ensures usage { IsErrOf result LineError.Usage → lawful_command (map string_bytes words.now) ≡ None }
{
    let matches = matches_of(alloc, words)?;
    match command_in(&matches) {
        Some(command) => Ok(command),
        None => Err(LineError::Usage),
    }
}
