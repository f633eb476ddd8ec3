//! What the program's command line may hold, as `clap` is told.
ghost use Rattle.std.specs.Prelude.{◌≡◌, IfOk, false, codes};
ghost use Rattle.clap.specs.Words.{app_of, rule_of};
ghost use Rattle.command_line.specs.Lines.{IsMade, SharesNone, arm_option, file_argument, named_option, over_program};
ghost use Rattle.suite_line.specs.Requests.{flag_option, run_command, suite_app};

use clap::builder::ArgAction;
use clap::{Arg, Command};
use std::alloc::{AllocError, Global};

// A required file name.
fn file<'a>(alloc: Global, name: &'a str) -> Arg<'a>
    ensures rule { rule_of result ≡ file_argument name.entry.now }
    ensures local { result.global ≡ false }
{
    Arg::new(alloc, name).required(true)
}

// An option, by its name.
fn named<'a>(alloc: Global, name: &'a str) -> Arg<'a>
    ensures rule { rule_of result ≡ named_option name.entry.now }
    ensures local { result.global ≡ false }
{
    Arg::new(alloc, name).long(name)
}

// A flag, by its name.
fn flag<'a>(alloc: Global, name: &'a str) -> Arg<'a>
    ensures rule { rule_of result ≡ flag_option name.entry.now }
    ensures local { result.global ≡ false }
{
    named(alloc, name).action(ArgAction::SetTrue)
}

// The command that runs a suite.
fn run<'a>(alloc: Global) -> Result<Command<'a>, AllocError>
    ensures { IfOk result (IsMade run_command) }
{
    let command = Command::new(alloc, "run")
        .arg(file(alloc, "suite"))?
        .arg(named(alloc, "only"))?
        .arg(flag(alloc, "strict"))?
        .arg(flag(alloc, "list"))?
        .arg(flag(alloc, "json"))?;
    Ok(command)
}

// The option that names ARM's profile.
fn arm<'a>(alloc: Global) -> Arg<'a>
    ensures rule { rule_of result ≡ arm_option }
    ensures local { result.global ≡ false }
{
    named(alloc, "arm").default_value("v4")
}

// A command over an ELF file and a template.
fn over_files<'a>(alloc: Global, name: &'a str) -> Result<Command<'a>, AllocError>
    ensures { IfOk result (IsMade (over_program name.entry.now)) }
{
    let command = Command::new(alloc, name)
        .arg(file(alloc, "elf"))?
        .arg(file(alloc, "notes"))?
        .arg(arm(alloc))?
        .arg(flag(alloc, "rvc"))?;
    Ok(command)
}

/// The program's command line.
pub(crate) fn bilv_suite<'a>(alloc: Global) -> Result<Command<'a>, AllocError>
    ensures { IfOk result (IsMade suite_app) }
{
    let bare = Command::new(alloc, "bilv_suite").subcommand_required(true);
    let run = run(alloc)?;
    let notes = over_files(alloc, "notes")?;
    let check = over_files(alloc, "check")?;
    let command = bare.subcommand(run)?.subcommand(notes)?.subcommand(check)?;
    Ok(command)
}
