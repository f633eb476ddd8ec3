//! What `clap` finds on a line, and for an argument.
ghost use Rattle.std.specs.Prelude.{◌≡◌, ◌≤◌, true, false, IfOk, IfSome, IsErrOf, map, option_map, string_bytes};
ghost use Rattle.clap.specs.Walk.{is_empty};
ghost use Rattle.clap.specs.Words.{app_of, fault_of, first_of, found_of, is_simple, is_simple_and_free, matches_of, rows_of, subcommand_of, subcommand_rows_of};
ghost use Rattle.command_line.specs.Lines.{number_in, whole_in};

use crate::reader::{LineError, line_error};
use clap::{ArgMatches, Command};

/// What `clap` finds on a line, by its words, for a simple command.
///
/// `Usage` comes only where the words are not lawful for the command, and `Memory` where memory runs out.
pub fn matches_in<'a>(
    command: Command<'a>,
    words: &'a [String],
) -> Result<ArgMatches<'a>, LineError>
    requires simple { is_simple (app_of command) ≡ true }
    requires free { is_simple_and_free (app_of command) ≡ true }
    ensures ok { IfOk result (λ m. (is_empty (fault_of (app_of command.entry) (map string_bytes words.now)) ≡ true)
        × (rows_of (found_of m) ≡ matches_of (app_of command.entry) (map string_bytes words.now))
        × (subcommand_rows_of m ≡ subcommand_of (app_of command.entry) (map string_bytes words.now))) }
    ensures usage { IsErrOf result LineError.Usage → is_empty (fault_of (app_of command.entry) (map string_bytes words.now)) ≡ false }
{
    match command.try_get_matches_from(words) {
        Ok(matches) => Ok(matches),
        Err(error) => Err(line_error(&error)),
    }
}

/// The text of an argument, where it has one.
pub fn text<'a>(matches: &ArgMatches<'a>, id: &str) -> Option<&'a str>
    ensures { option_map (λ s. s.now) result ≡ first_of id.now (rows_of (found_of matches.now)) }
{
    matches.get_str(id)
}

fn whole(matches: &ArgMatches<'_>, id: &str) -> Option<u64>
    ensures { result ≡ whole_in id.now (rows_of (found_of matches.now)) }
{
    matches.get_one::<u64>(id)
}

/// The number of an argument, where it has one and this is in a range, both ends included.
pub fn number(matches: &ArgMatches<'_>, id: &str, low: u64, high: u64) -> Option<u64>
    ensures value { result ≡ number_in low high id.now (rows_of (found_of matches.now)) }
    ensures range { IfSome result (λ n. (low ≤ n) × (n ≤ high)) }
{
    let number = whole(matches, id)?;
    if low <= number && number <= high {
        Some(number)
    } else {
        None
    }
}
