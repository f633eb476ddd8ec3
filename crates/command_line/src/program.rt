//! What the program's command line may hold, as `clap` is told.
ghost use Rattle.std.specs.Prelude.{◌≡◌, IfOk, false};
ghost use Rattle.clap.specs.Words.{app_of, rule_of};
ghost use Rattle.command_line.specs.Lines.{IsMade, SharesNone, arm_option, bilv_app, file_argument, named_option, number_argument, number_option, question_option, rvc_option};
ghost use Rattle.command_line.specs.Tables.{app_in, rule_in, with_argument, with_arguments, with_row, with_rows};

use crate::table::{Argument, Subcommand, subcommands};
use call_form::Range;
use clap::builder::{ArgAction, ValueParser};
use clap::{Arg, Command};
use std::alloc::{AllocError, Global};

// A required file name.
fn file<'a>(alloc: Global, name: &'a str) -> Arg<'a>
    ensures rule { rule_of result ≡ file_argument name.entry.now }
    ensures local { result.global ≡ false }
{
    Arg::new(alloc, name).required(true)
}

// A required whole number in a range.
fn number<'a>(alloc: Global, name: &'a str, low: u64, high: u64) -> Arg<'a>
    ensures rule { rule_of result ≡ number_argument name.entry.now low high }
    ensures local { result.global ≡ false }
{
    file(alloc, name).value_parser(ValueParser::unsigned(low, high))
}

// An option, by its name.
fn named<'a>(alloc: Global, name: &'a str) -> Arg<'a>
    ensures rule { rule_of result ≡ named_option name.entry.now }
    ensures local { result.global ≡ false }
{
    Arg::new(alloc, name).long(name)
}

// An option whose value is a whole number in a range.
fn budget<'a>(alloc: Global, name: &'a str, range: Range) -> Arg<'a>
    ensures rule { rule_of result ≡ number_option name.entry.now range.low range.high range.written.now }
    ensures local { result.global ≡ false }
{
    named(alloc, name)
        .value_parser(ValueParser::unsigned(range.low, range.high))
        .default_value(range.written)
}

// The required option that names a question.
fn question<'a>(alloc: Global) -> Arg<'a>
    ensures rule { rule_of result ≡ question_option }
    ensures local { result.global ≡ false }
{
    named(alloc, "question").required(true)
}

// The option that names ARM's profile.
fn arm<'a>(alloc: Global) -> Arg<'a>
    ensures rule { rule_of result ≡ arm_option }
    ensures local { result.global ≡ false }
{
    named(alloc, "arm").default_value("v4")
}

// The flag of compressed instructions.
fn rvc<'a>(alloc: Global) -> Arg<'a>
    ensures rule { rule_of result ≡ rvc_option }
    ensures local { result.global ≡ false }
{
    named(alloc, "rvc").action(ArgAction::SetTrue)
}

// What `clap` is told of an argument.
fn told<'a>(alloc: Global, argument: &Argument) -> Arg<'a>
    ensures rule { rule_of result ≡ rule_in argument.now }
    ensures local { result.global ≡ false }
{
    match *argument {
        Argument::File(name) => file(alloc, name),
        Argument::Number(name, low, high) => number(alloc, name, low, high),
        Argument::Budget(name, range) => budget(alloc, name, range),
        Argument::Question => question(alloc),
        Argument::Frame => named(alloc, "frame"),
        Argument::Arm => arm(alloc),
        Argument::Compressed => rvc(alloc),
    }
}

// The command with one argument more.
fn with_argument<'a>(
    alloc: Global,
    command: Command<'a>,
    argument: &Argument,
) -> Result<Command<'a>, AllocError>
    requires { SharesNone command }
    ensures { IfOk result (IsMade (with_argument (app_of command.entry) argument.now)) }
{
    command.arg(told(alloc, argument))
}

// The command with these arguments more.
fn with_arguments<'a>(
    alloc: Global,
    mut command: Command<'a>,
    arguments: &[Argument],
) -> Result<Command<'a>, AllocError>
    requires { SharesNone command }
    ensures { IfOk result (IsMade (with_arguments (app_of command.entry) arguments.now)) }
{
    for argument in arguments {
        command = with_argument(alloc, command, argument)?;
    }
    Ok(command)
}

// The command of a row.
fn made<'a>(alloc: Global, row: &Subcommand) -> Result<Command<'a>, AllocError>
    ensures { IfOk result (IsMade (app_in row.now)) }
{
    let mut command = Command::new(alloc, row.name);
    for group in row.groups {
        command = with_arguments(alloc, command, group)?;
    }
    Ok(command)
}

// The command with the subcommand of one row more.
fn with_row<'a>(
    alloc: Global,
    command: Command<'a>,
    row: &Subcommand,
) -> Result<Command<'a>, AllocError>
    requires { SharesNone command }
    ensures { IfOk result (IsMade (with_row (app_of command.entry) row.now)) }
{
    let added = made(alloc, row)?;
    command.subcommand(added)
}

// The command with the subcommands of these rows more.
fn with_rows<'a>(
    alloc: Global,
    mut command: Command<'a>,
    rows: &[Subcommand],
) -> Result<Command<'a>, AllocError>
    requires { SharesNone command }
    ensures { IfOk result (IsMade (with_rows (app_of command.entry) rows.now)) }
{
    for row in rows {
        command = with_row(alloc, command, row)?;
    }
    Ok(command)
}

/// The program's command line.
pub(crate) fn bilv<'a>(alloc: Global) -> Result<Command<'a>, AllocError>
    ensures { IfOk result (IsMade bilv_app) }
{
    let command = Command::new(alloc, "bilv").subcommand_required(true);
    with_rows(alloc, command, subcommands())
}
