//! The words of the command line, as `clap` reads them.
ghost use Rattle.std.specs.Prelude.{◌≡◌, ◌≤◌, Some, None, IfOk, IfSome, IsErrOf, map, option_map, string_bytes, true, false, codes};
ghost use Rattle.clap.specs.Words.{found_of, matches_of, rows_of, rule_of};
ghost use Rattle.command_line.specs.Lines.{IsMade, file_argument, number_option};
ghost use Rattle.cnf_solver.specs.Requests.{certificate_flag, is_set, lawful_request, request_in, request_of, solve_app, takes_line};

use crate::request::Request;
use call_form::CONFLICTS;
use clap::builder::ValueParser;
use clap::{Arg, ArgAction, ArgMatches, Command};
use command_line::LineError;
use command_line::found::{matches_in, number, text};
use std::alloc::{AllocError, Global};

// The required name of the file.
fn file<'a>(alloc: Global) -> Arg<'a>
    ensures rule { rule_of result ≡ file_argument (codes "file") }
    ensures local { result.global ≡ false }
{
    Arg::new(alloc, "file").required(true)
}

// The option for the budget of conflicts.
fn conflicts<'a>(alloc: Global) -> Arg<'a>
    ensures rule { rule_of result ≡ number_option (codes "conflicts") 1 4294967295 (codes "200000") }
    ensures local { result.global ≡ false }
{
    Arg::new(alloc, "conflicts")
        .long("conflicts")
        .value_parser(ValueParser::unsigned(CONFLICTS.low, CONFLICTS.high))
        .default_value(CONFLICTS.written)
}

// The flag that asks for a certificate.
fn certificate<'a>(alloc: Global) -> Arg<'a>
    ensures rule { rule_of result ≡ certificate_flag }
    ensures local { result.global ≡ false }
{
    Arg::new(alloc, "certificate")
        .long("certificate")
        .action(ArgAction::SetTrue)
}

// The program's command line.
fn command<'a>(alloc: Global) -> Result<Command<'a>, AllocError>
    ensures { IfOk result (IsMade solve_app) }
{
    let command = Command::new(alloc, "bilv_solve")
        .arg(file(alloc))?
        .arg(conflicts(alloc))?
        .arg(certificate(alloc))?;
    Ok(command)
}

// What `clap` finds on the line.
fn matches_of<'a>(alloc: Global, words: &'a [String]) -> Result<ArgMatches<'a>, LineError>
    ensures ok { IfOk result (λ m. (takes_line (map string_bytes words.now) ≡ true)
        × (rows_of (found_of m) ≡ matches_of solve_app (map string_bytes words.now))) }
    ensures usage { IsErrOf result LineError.Usage → takes_line (map string_bytes words.now) ≡ false }
{
    let command = command(alloc)?;
    matches_in(command, words)
}

fn is_true(text: Option<&str>) -> bool
    ensures { result ≡ is_set (option_map (λ s. s.now) text.entry) }
{
    match text {
        Some(text) => text == "true",
        None => false,
    }
}

fn request_in<'a>(matches: &ArgMatches<'a>) -> Option<Request<'a>>
    ensures value { option_map request_of result ≡ request_in (rows_of (found_of matches.now)) }
    ensures lawful { IfSome result (λ r. 1 ≤ r.conflicts) }
{
    let file = text(matches, "file")?;
    let conflicts = number(matches, "conflicts", CONFLICTS.low, CONFLICTS.high)?;
    let certificate = is_true(text(matches, "certificate"));
    Some(Request {
        file,
        conflicts,
        certificate,
    })
}

/// What the words of a command line ask for; the first word is the program's name.
///
/// `Usage` comes only where the line is not lawful, and `Memory` where memory runs out.
pub fn read_request<'a>(alloc: Global, words: &'a [String]) -> Result<Request<'a>, LineError>
    ensures ok { IfOk result (λ r. lawful_request (map string_bytes words.now) ≡ Some (request_of r)) }
    ensures lawful { IfOk result (λ r. 1 ≤ r.conflicts) }
    ensures usage { IsErrOf result LineError.Usage → lawful_request (map string_bytes words.now) ≡ None }
{
    let matches = matches_of(alloc, words)?;
    match request_in(&matches) {
        Some(request) => Ok(request),
        None => Err(LineError::Usage),
    }
}
