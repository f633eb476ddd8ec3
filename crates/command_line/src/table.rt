//! The subcommands and their arguments, as tables.
ghost use Rattle.std.specs.Prelude.{◌≡◌};
ghost use Rattle.command_line.specs.Lines.{bilv_app};
ghost use Rattle.command_line.specs.Tables.{bare_app, with_rows};

use call_form::{CONFLICTS, POINTS, Range, SIZE, UNROLL};

/// An argument of a subcommand.
pub(crate) enum Argument {
    /// A required file, by its name.
    File(&'static str),
    /// A required whole number, by its name, from the first number to the second.
    Number(&'static str, u64, u64),
    /// An option whose value is a whole number in a range, by its name.
    Budget(&'static str, Range),
    /// The required option that names a question.
    Question,
    /// The option that names a frame.
    Frame,
    /// The option that names ARM's profile.
    Arm,
    /// The flag of compressed instructions.
    Compressed,
}

/// A subcommand.
pub(crate) struct Subcommand {
    /// Its name.
    pub(crate) name: &'static str,
    /// Its arguments in their order, those together that several subcommands share.
    pub(crate) groups: &'static [&'static [Argument]],
}

const PROGRAM: [Argument; 4] = [
    Argument::File("elf"),
    Argument::File("notes"),
    Argument::Arm,
    Argument::Compressed,
];

const BUDGETS: [Argument; 4] = [
    Argument::Budget("unroll", UNROLL),
    Argument::Budget("points", POINTS),
    Argument::Budget("size", SIZE),
    Argument::Budget("conflicts", CONFLICTS),
];

const OTHER_PROGRAM: [Argument; 3] = [
    Argument::File("other-elf"),
    Argument::File("other-notes"),
    Argument::File("links"),
];

const SUBCOMMANDS: &[Subcommand] = &[
    Subcommand {
        name: "verify",
        groups: &[&PROGRAM, &BUDGETS],
    },
    Subcommand {
        name: "lift",
        groups: &[&[Argument::File("elf"), Argument::Arm, Argument::Compressed]],
    },
    Subcommand {
        name: "graph",
        groups: &[&PROGRAM],
    },
    Subcommand {
        name: "upgrade",
        groups: &[&PROGRAM],
    },
    Subcommand {
        name: "smt",
        groups: &[
            &PROGRAM,
            &[Argument::Question],
            &BUDGETS,
            &[Argument::Frame],
        ],
    },
    Subcommand {
        name: "cert",
        groups: &[
            &PROGRAM,
            &[Argument::Question],
            &BUDGETS,
            &[Argument::Frame],
        ],
    },
    Subcommand {
        name: "check",
        groups: &[&[Argument::File("certificate")]],
    },
    Subcommand {
        name: "model",
        groups: &[
            &PROGRAM,
            &[Argument::Question],
            &BUDGETS,
            &[Argument::File("answer")],
        ],
    },
    Subcommand {
        name: "replay",
        groups: &[&PROGRAM, &[Argument::File("state")]],
    },
    Subcommand {
        name: "equal",
        groups: &[&PROGRAM, &OTHER_PROGRAM, &BUDGETS],
    },
    Subcommand {
        name: "differ",
        groups: &[&PROGRAM, &OTHER_PROGRAM, &[Argument::File("report")]],
    },
    Subcommand {
        name: "selfrun",
        groups: &[&[
            Argument::Number("seed", 0, 2147483647),
            Argument::Number("count", 1, 16000),
        ]],
    },
];

/// The program's subcommands.
pub(crate) fn subcommands() -> &'static [Subcommand]
    ensures { with_rows bare_app result.now ≡ bilv_app }
{
    SUBCOMMANDS
}
