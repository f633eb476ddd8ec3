//! Command lines.
ghost use Rattle.std.specs.Prelude.{◌≡◌, ◌≢◌, false, true, None, Some, IfOk, IfSome, IsErrOf, map, option_map, string_bytes};
ghost use Rattle.clap.specs.Words.{found_of, rows_of, subcommand_rows_of, subcommand_of};
ghost use Rattle.suite_line.specs.Requests as lines;
ghost use Rattle.suite_line.specs.Requests.{is_set, lawful_request, suite_app, takes_line};
ghost use Rattle.suite_line.specs.Views.{files_of, request_of};
ghost use Rattle.suite_run.specs.Requests.{run_of};

use crate::program::bilv_suite;
use crate::request::{Files, Request};
use clap::ArgMatches;
use command_line::LineError;
use command_line::found::{matches_in, text};
use std::alloc::Global;
use suite_run::Run;

// What `clap` finds on the line.
fn matches_of<'a>(alloc: Global, words: &'a [String]) -> Result<ArgMatches<'a>, LineError>
    ensures ok { IfOk result (λ m. (takes_line (map string_bytes words.now) ≡ true)
        × (subcommand_rows_of m ≡ subcommand_of suite_app (map string_bytes words.now))) }
    ensures usage { IsErrOf result LineError.Usage → takes_line (map string_bytes words.now) ≡ false }
{
    let command = bilv_suite(alloc)?;
    matches_in(command, words)
}

fn is_true(text: Option<&str>) -> bool
    ensures { result ≡ is_set (option_map (λ s. s.now) text.entry) }
{
    match text {
        Some(text) => text == "true",
        None => false,
    }
}

fn run<'a>(matches: &ArgMatches<'a>) -> Option<Run<'a>>
    ensures { option_map run_of result ≡ lines.run_in (rows_of (found_of matches.now)) }
{
    let suite = text(matches, "suite")?;
    let only = text(matches, "only");
    let strict = is_true(text(matches, "strict"));
    let list = is_true(text(matches, "list"));
    let json = is_true(text(matches, "json"));
    Some(Run {
        suite,
        only,
        strict,
        list,
        json,
    })
}

fn files<'a>(matches: &ArgMatches<'a>) -> Option<Files<'a>>
    ensures { option_map files_of result ≡ lines.files_in (rows_of (found_of matches.now)) }
{
    let elf = text(matches, "elf")?;
    let notes = text(matches, "notes")?;
    let arm = text(matches, "arm")?;
    let rvc = is_true(text(matches, "rvc"));
    Some(Files {
        elf,
        notes,
        arm,
        rvc,
    })
}

// The request of a subcommand's name and what was found for it.
fn request_named<'a>(name: &str, matches: &ArgMatches<'a>) -> Option<Request<'a>>
    ensures { option_map request_of result ≡ lines.request_named name.now (rows_of (found_of matches.now)) }
{
    match name {
        "run" => Some(Request::Run(run(matches)?)),
        "notes" => Some(Request::Notes(files(matches)?)),
        "check" => Some(Request::Check(files(matches)?)),
        _ => None,
    }
}

fn request_in<'a>(matches: &ArgMatches<'a>) -> Option<Request<'a>>
    ensures { option_map request_of result ≡ lines.request_in (subcommand_rows_of matches.now) }
{
    let (name, found) = matches.subcommand()?;
    request_named(name, found)
}

/// What the words of a command line ask for; the first word is the program's name.
///
/// `Usage` comes only where the line is not lawful, and `Memory` where memory runs out.
pub fn read_request<'a>(alloc: Global, words: &'a [String]) -> Result<Request<'a>, LineError>
    ensures ok { IfOk result (λ r. lawful_request (map string_bytes words.now) ≡ Some (request_of r)) }
    ensures usage { IsErrOf result LineError.Usage → lawful_request (map string_bytes words.now) ≡ None }
{
    let matches = matches_of(alloc, words)?;
    match request_in(&matches) {
        Some(request) => Ok(request),
        None => Err(LineError::Usage),
    }
}
