//! The exit statuses of the programs, what each says, and the end of a program.
#![tactic(auto)]

ghost use Rattle.std.specs.Prelude.{◌≡◌};
ghost use Rattle.std.specs.Process.{exit_status};

use std::process::ExitCode;

/// What was asked for is there: a verdict `holds` or `vacuous`, lifted words, a flow graph, a script, a certificate that is printed or accepted, or a report
/// that was replayed.
pub const DONE: u8 = 0;

/// A run of the program fails, or a question is satisfiable.
pub const FAILS: u8 = 1;

/// The command line is not lawful.
pub const USAGE: u8 = 2;

/// The answer stays unknown within the budgets.
pub const UNKNOWN: u8 = 3;

/// The ELF file is refused.
pub const ELF_REFUSED: u8 = 4;

/// The notes are refused.
pub const NOTES_REFUSED: u8 = 5;

/// A file could not be read.
pub const READ_FAULT: u8 = 6;

/// A write failed.
pub const WRITE_FAULT: u8 = 7;

/// Memory ran out, and nothing was written.
pub const NO_MEMORY: u8 = 8;

/// A text is not what it says: a report that its replay does not find, a certificate that is not accepted, clauses that are refused.
pub const TEXT_REFUSED: u8 = 9;

/// The solver of clauses found values that satisfy them.
pub const SATISFIABLE: u8 = 10;

/// The solver of clauses found that no values satisfy them.
pub const UNSATISFIABLE: u8 = 20;

/// The solver of clauses found neither within its budget of conflicts; solvers end so with the status of success.
pub const UNDECIDED: u8 = 0;

/// The end of a program: the status that it is to hand to the system. It cannot be dropped, so a program that was answered cannot end without its status.
pub struct End {
    pub code: ExitCode,
}

impl End {
    /// The end with a status.
    pub fn new(status: u8) -> End
        ensures { exit_status result.code ≡ status }
    {
        End {
            code: ExitCode::from(status),
        }
    }

    /// The code that `main` gives.
    pub fn code(self) -> ExitCode
        ensures { result ≡ self.code }
    {
        let End { code } = self;
        code
    }
}
