//! Commands.
use call_form::{Asked, Budget};
use start_value::Profile;

/// What an executable leaves open of its machine.
#[derive(Clone, Copy)]
pub struct Options {
    /// The profile of an ARM file. It changes nothing of a RISC-V file.
    pub profile: Profile,
    /// Whether a RISC-V file has compressed instructions. It changes nothing of an ARM file.
    pub compressed: bool,
}

impl Options {
    ghost use Rattle.std.specs.Prelude.{◌≡◌};
    ghost use Rattle.call_spec.specs.Calls.{default_options};
    ghost use Rattle.command_line.specs.Commands.{options_of};

    /// The options where none are given.
    pub fn standard() -> Options
        ensures { options_of result ≡ default_options }
    {
        Options {
            profile: Profile::V4,
            compressed: false,
        }
    }
}

/// The names of two executables, each with its notes, and of the links between them, as they were written.
#[derive(Clone, Copy)]
pub struct PairNames<'a> {
    /// The first executable.
    pub elf: &'a str,
    /// Its notes.
    pub notes: &'a str,
    /// The second executable.
    pub other_elf: &'a str,
    /// Its notes.
    pub other_notes: &'a str,
    /// The links.
    pub links: &'a str,
}

/// What the program is asked to do. File names stand as they were written.
#[derive(Clone, Copy)]
pub enum Command<'a> {
    /// Decides whether the function that the notes name keeps what they demand.
    Verify {
        elf: &'a str,
        notes: &'a str,
        options: Options,
        budget: Budget,
    },
    /// Prints the lifted code.
    Lift {
        elf: &'a str,
        options: Options,
    },
    /// Prints the control flow graph.
    Graph {
        elf: &'a str,
        notes: &'a str,
        options: Options,
    },
    /// Prints the SMT-LIB script of a question of the frame that a word names, or of that of the entry.
    Script {
        elf: &'a str,
        notes: &'a str,
        options: Options,
        question: Asked,
        frame: Option<&'a str>,
        budget: Budget,
    },
    /// Runs the start that a report holds.
    Replay {
        elf: &'a str,
        notes: &'a str,
        options: Options,
        state: &'a str,
    },
    /// Prints the certificate of a question of the frame that a word names, or of that of the entry.
    Certify {
        elf: &'a str,
        notes: &'a str,
        options: Options,
        question: Asked,
        frame: Option<&'a str>,
        budget: Budget,
    },
    /// Checks a certificate.
    Check {
        certificate: &'a str,
    },
    /// Verifies work that is made from a seed, 0 to 2147483647, with 1 to 16000 instructions.
    SelfRun {
        seed: u32,
        count: u32,
    },
    /// Prints notes again as version 2.
    Upgrade {
        elf: &'a str,
        notes: &'a str,
        options: Options,
    },
    /// Decides whether two functions do the same.
    Equal {
        names: PairNames<'a>,
        options: Options,
        budget: Budget,
    },
    /// Runs both functions from the starts that a report of `equal` holds.
    Differ {
        names: PairNames<'a>,
        options: Options,
        report: &'a str,
    },
    /// Judges the answer of an outside solver to the script of a question.
    Model {
        elf: &'a str,
        notes: &'a str,
        answer: &'a str,
        options: Options,
        question: Asked,
        budget: Budget,
    },
}
