use crate::parse_suite;
use std::alloc::{AllocError, Global};

const SUITE: &str = r#"elf = "firmware.elf"
options = ["--rvc", "--points", "4096"]

[[check]]
notes = "notes/copy.notes"

[[check]]
notes = "notes/copy.notes"
name = "copy, shifted"
elf = "other.elf"
options = []
expect = "fails jump"
"#;

const PRINTED: &str = "notes/copy.notes|notes/copy.notes|firmware.elf|holds|--rvc|--points|4096
copy, shifted|notes/copy.notes|other.elf|fails jump
";

/// The checks of a text, a line each, or its fault.
fn told(alloc: Global, text: &str) -> Result<String, AllocError> {
    let mut line = String::new(alloc);
    match parse_suite(alloc, text) {
        Ok(suite) => {
            for check in &suite.checks {
                let (name, notes, elf) = (&check.name, &check.notes, &check.elf);
                let expect = &check.expect;
                write!(line, "{name}|{notes}|{elf}|{expect}")?;
                for option in &check.options {
                    write!(line, "|{option}")?;
                }
                line.push_str("\n")?;
            }
        }
        Err(fault) => write!(line, "{fault}")?,
    }
    Ok(line)
}

/// A text, and what is told of it.
const CASES: [(&str, &str); 15] = [
    (SUITE, PRINTED),
    ("", "the suite has no check"),
    ("check = []", "the suite has no check"),
    ("Elf = 1\nzone = 2", "the suite: unknown key `Elf`"),
    ("elf = 1", "the suite: `elf` is of the wrong type"),
    ("options = [1]", "the suite: `options` is of the wrong type"),
    ("check = 3", "the suite: `check` is of the wrong type"),
    ("check = [3]", "check 1: `check` is of the wrong type"),
    ("[[check]]\nnotes = \"a\"", "check 1: no `elf`"),
    (
        "elf = \"e\"\n[[check]]\nname = \"a\"",
        "check 1: no `notes`",
    ),
    (
        "elf = \"e\"\n[[check]]\nnotes = \"a\"\n[[check]]\nnotes = \"b\"\nnote = 1",
        "check 2: unknown key `note`",
    ),
    (
        "elf = \"e\"\n[[check]]\nnotes = \"a\"\nexpect = true",
        "check 1: `expect` is of the wrong type",
    ),
    (
        "elf = \"e\"\n[[check]]\nnotes = \"a\"\noptions = \"--rvc\"",
        "check 1: `options` is of the wrong type",
    ),
    (
        "elf = \"e\"\n[[check]]\nnotes = \"a\"\n[[check]]\nnotes = \"b\"\nname = \"a\"",
        "two checks have the name `a`",
    ),
    (
        "elf = ",
        "TOML parse error at line 1, column 7\ninvalid value, expected a string, number, boolean, date-time, array or inline table\n",
    ),
];

#[test]
fn tells_suites(rt: HostRuntime) -> Result<(), AllocError> {
    for (text, want) in CASES {
        let told = told(rt.alloc(), text)?;
        assert_eq!(rt; told.as_str(), want, "at {text}");
    }
    Ok(())
}
