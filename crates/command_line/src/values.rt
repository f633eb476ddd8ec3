//! Commands, from what was found for a subcommand.
ghost use Rattle.std.specs.Prelude.{◌≡◌, ◌≤◌, IfSome, option_map};
ghost use Rattle.command_spec.specs.Commands.{IsLawfulCommand};
ghost use Rattle.clap.specs.Words.{found_of, rows_of};
ghost use Rattle.command_line.specs.Commands.{budget_of, command_of, frame_question, names_of, options_of};
ghost use Rattle.command_line.specs.Lines as lines;
ghost use Rattle.start_value.specs.Starts.{profile_in};

use crate::command::{Command, Options, PairNames};
use crate::found::{number, text};
use call_form::{Asked, Budget, CONFLICTS, POINTS, Range, SIZE, UNROLL};
use clap::ArgMatches;
use start_value::Profile;

fn within(matches: &ArgMatches<'_>, id: &str, range: Range) -> Option<u64>
    ensures value { result ≡ lines.number_in range.low range.high id.now (rows_of (found_of matches.now)) }
    ensures range { IfSome result (λ n. (range.low ≤ n) × (n ≤ range.high)) }
{
    number(matches, id, range.low, range.high)
}

fn budget(matches: &ArgMatches<'_>) -> Option<Budget>
    ensures { option_map budget_of result ≡ lines.budget_in (rows_of (found_of matches.now)) }
{
    let unroll = within(matches, "unroll", UNROLL)?;
    let points = within(matches, "points", POINTS)?;
    let size = within(matches, "size", SIZE)?;
    let conflicts = within(matches, "conflicts", CONFLICTS)?;
    Some(Budget {
        unroll,
        points,
        size,
        conflicts,
    })
}

fn question_named(name: &str) -> Option<Asked>
    ensures { option_map frame_question result ≡ lines.question_named name.now }
{
    match name {
        "entry" => Some(Asked::Entry),
        "fail" => Some(Asked::Fail),
        "step" => Some(Asked::Step),
        "turn" => Some(Asked::Turn),
        _ => None,
    }
}

fn question(matches: &ArgMatches<'_>) -> Option<Asked>
    ensures { option_map frame_question result ≡ lines.question_in (rows_of (found_of matches.now)) }
{
    question_named(text(matches, "question")?)
}

fn profile_named(name: &str) -> Option<Profile>
    ensures { option_map profile_in result ≡ lines.profile_named name.now }
{
    match name {
        "v4" => Some(Profile::V4),
        "v4t" => Some(Profile::V4T),
        "v5" => Some(Profile::V5),
        _ => None,
    }
}

fn profile(matches: &ArgMatches<'_>) -> Option<Profile>
    ensures { option_map profile_in result ≡ lines.profile_in (rows_of (found_of matches.now)) }
{
    profile_named(text(matches, "arm")?)
}

fn flag_named(name: &str) -> Option<bool>
    ensures { result ≡ lines.flag_named name.now }
{
    match name {
        "true" => Some(true),
        "false" => Some(false),
        _ => None,
    }
}

fn compressed(matches: &ArgMatches<'_>) -> Option<bool>
    ensures { result ≡ lines.compressed_in (rows_of (found_of matches.now)) }
{
    flag_named(text(matches, "rvc")?)
}

fn options(matches: &ArgMatches<'_>) -> Option<Options>
    ensures { option_map options_of result ≡ lines.options_in (rows_of (found_of matches.now)) }
{
    let profile = profile(matches)?;
    let compressed = compressed(matches)?;
    Some(Options {
        profile,
        compressed,
    })
}

fn names<'a>(matches: &ArgMatches<'a>) -> Option<PairNames<'a>>
    ensures { option_map names_of result ≡ lines.names_in (rows_of (found_of matches.now)) }
{
    let elf = text(matches, "elf")?;
    let notes = text(matches, "notes")?;
    let other_elf = text(matches, "other-elf")?;
    let other_notes = text(matches, "other-notes")?;
    let links = text(matches, "links")?;
    Some(PairNames {
        elf,
        notes,
        other_elf,
        other_notes,
        links,
    })
}

fn verify<'a>(matches: &ArgMatches<'a>) -> Option<Command<'a>>
    ensures value { option_map command_of result ≡ lines.verify_in (rows_of (found_of matches.now)) }
    ensures lawful { IfSome result (λ c. IsLawfulCommand (command_of c)) }
{
    let elf = text(matches, "elf")?;
    let notes = text(matches, "notes")?;
    let options = options(matches)?;
    let budget = budget(matches)?;
    Some(Command::Verify {
        elf,
        notes,
        options,
        budget,
    })
}

fn lift<'a>(matches: &ArgMatches<'a>) -> Option<Command<'a>>
    ensures value { option_map command_of result ≡ lines.lift_in (rows_of (found_of matches.now)) }
    ensures lawful { IfSome result (λ c. IsLawfulCommand (command_of c)) }
{
    let elf = text(matches, "elf")?;
    let options = options(matches)?;
    Some(Command::Lift { elf, options })
}

fn graph<'a>(matches: &ArgMatches<'a>) -> Option<Command<'a>>
    ensures value { option_map command_of result ≡ lines.graph_in (rows_of (found_of matches.now)) }
    ensures lawful { IfSome result (λ c. IsLawfulCommand (command_of c)) }
{
    let elf = text(matches, "elf")?;
    let notes = text(matches, "notes")?;
    let options = options(matches)?;
    Some(Command::Graph {
        elf,
        notes,
        options,
    })
}

fn smt<'a>(matches: &ArgMatches<'a>) -> Option<Command<'a>>
    ensures value { option_map command_of result ≡ lines.smt_in (rows_of (found_of matches.now)) }
    ensures lawful { IfSome result (λ c. IsLawfulCommand (command_of c)) }
{
    let elf = text(matches, "elf")?;
    let notes = text(matches, "notes")?;
    let options = options(matches)?;
    let question = question(matches)?;
    let frame = text(matches, "frame");
    let budget = budget(matches)?;
    Some(Command::Script {
        elf,
        notes,
        options,
        question,
        frame,
        budget,
    })
}

fn replay<'a>(matches: &ArgMatches<'a>) -> Option<Command<'a>>
    ensures value { option_map command_of result ≡ lines.replay_in (rows_of (found_of matches.now)) }
    ensures lawful { IfSome result (λ c. IsLawfulCommand (command_of c)) }
{
    let elf = text(matches, "elf")?;
    let notes = text(matches, "notes")?;
    let options = options(matches)?;
    let state = text(matches, "state")?;
    Some(Command::Replay {
        elf,
        notes,
        options,
        state,
    })
}

fn cert<'a>(matches: &ArgMatches<'a>) -> Option<Command<'a>>
    ensures value { option_map command_of result ≡ lines.cert_in (rows_of (found_of matches.now)) }
    ensures lawful { IfSome result (λ c. IsLawfulCommand (command_of c)) }
{
    let elf = text(matches, "elf")?;
    let notes = text(matches, "notes")?;
    let options = options(matches)?;
    let question = question(matches)?;
    let frame = text(matches, "frame");
    let budget = budget(matches)?;
    Some(Command::Certify {
        elf,
        notes,
        options,
        question,
        frame,
        budget,
    })
}

fn check<'a>(matches: &ArgMatches<'a>) -> Option<Command<'a>>
    ensures value { option_map command_of result ≡ lines.check_in (rows_of (found_of matches.now)) }
    ensures lawful { IfSome result (λ c. IsLawfulCommand (command_of c)) }
{
    let certificate = text(matches, "certificate")?;
    Some(Command::Check { certificate })
}

fn selfrun<'a>(matches: &ArgMatches<'a>) -> Option<Command<'a>>
    ensures value { option_map command_of result ≡ lines.selfrun_in (rows_of (found_of matches.now)) }
    ensures lawful { IfSome result (λ c. IsLawfulCommand (command_of c)) }
{
    let seed = number(matches, "seed", 0, 2147483647)?;
    let count = number(matches, "count", 1, 16000)?;
    Some(Command::SelfRun {
        seed: seed as u32,
        count: count as u32,
    })
}

fn upgrade<'a>(matches: &ArgMatches<'a>) -> Option<Command<'a>>
    ensures value { option_map command_of result ≡ lines.upgrade_in (rows_of (found_of matches.now)) }
    ensures lawful { IfSome result (λ c. IsLawfulCommand (command_of c)) }
{
    let elf = text(matches, "elf")?;
    let notes = text(matches, "notes")?;
    let options = options(matches)?;
    Some(Command::Upgrade {
        elf,
        notes,
        options,
    })
}

fn equal<'a>(matches: &ArgMatches<'a>) -> Option<Command<'a>>
    ensures value { option_map command_of result ≡ lines.equal_in (rows_of (found_of matches.now)) }
    ensures lawful { IfSome result (λ c. IsLawfulCommand (command_of c)) }
{
    let names = names(matches)?;
    let options = options(matches)?;
    let budget = budget(matches)?;
    Some(Command::Equal {
        names,
        options,
        budget,
    })
}

fn differ<'a>(matches: &ArgMatches<'a>) -> Option<Command<'a>>
    ensures value { option_map command_of result ≡ lines.differ_in (rows_of (found_of matches.now)) }
    ensures lawful { IfSome result (λ c. IsLawfulCommand (command_of c)) }
{
    let names = names(matches)?;
    let options = options(matches)?;
    let report = text(matches, "report")?;
    Some(Command::Differ {
        names,
        options,
        report,
    })
}

fn model<'a>(matches: &ArgMatches<'a>) -> Option<Command<'a>>
    ensures value { option_map command_of result ≡ lines.model_in (rows_of (found_of matches.now)) }
    ensures lawful { IfSome result (λ c. IsLawfulCommand (command_of c)) }
{
    let elf = text(matches, "elf")?;
    let notes = text(matches, "notes")?;
    let answer = text(matches, "answer")?;
    let options = options(matches)?;
    let question = question(matches)?;
    let budget = budget(matches)?;
    Some(Command::Model {
        elf,
        notes,
        answer,
        options,
        question,
        budget,
    })
}

/// The command of a subcommand's name and what was found for it.
#[tactic(auto, unfolding(crate::specs::Lines::command_named))]
pub(crate) fn command_named<'a>(name: &str, matches: &ArgMatches<'a>) -> Option<Command<'a>>
    ensures value { option_map command_of result ≡ lines.command_named name.now (rows_of (found_of matches.now)) }
    ensures lawful { IfSome result (λ c. IsLawfulCommand (command_of c)) }
{
    match name {
        "verify" => verify(matches),
        "lift" => lift(matches),
        "graph" => graph(matches),
        "smt" => smt(matches),
        "replay" => replay(matches),
        "cert" => cert(matches),
        "check" => check(matches),
        "selfrun" => selfrun(matches),
        "upgrade" => upgrade(matches),
        "equal" => equal(matches),
        "differ" => differ(matches),
        "model" => model(matches),
        _ => None,
    }
}
