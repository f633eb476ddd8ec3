//! The texts of errors.
use elf32_reader::{ElfFault, SymFault};
use notes_lang::{FaultKind, NoteFault, NotesError};
use program_points::PointsFault;
use state_text::{ParseFault, StateFault};
use std::alloc::AllocError;
use std::fmt::Display;
use table_run::EntryFault;

/// Appends a line for each error.
fn append<E: Display>(text: &mut String, errors: &[E]) -> Result<(), AllocError> {
    for error in errors {
        write!(text, "{error}\n")?;
    }
    Ok(())
}

const FILES: [ElfFault; 13] = [
    ElfFault::Short,
    ElfFault::Magic,
    ElfFault::Class,
    ElfFault::Data,
    ElfFault::Version,
    ElfFault::Type,
    ElfFault::Machine,
    ElfFault::HeaderTable,
    ElfFault::SegmentRange,
    ElfFault::FileSize,
    ElfFault::Overlap,
    ElfFault::SymbolTable,
    ElfFault::Memory,
];

const SYMBOLS: [SymFault; 2] = [SymFault::NoFunction, SymFault::Ambiguous(4, 8)];

const KINDS: [FaultKind; 16] = [
    FaultKind::Limit,
    FaultKind::Byte,
    FaultKind::Token,
    FaultKind::Number,
    FaultKind::Depth,
    FaultKind::Word,
    FaultKind::Syntax,
    FaultKind::Name,
    FaultKind::Align,
    FaultKind::Range,
    FaultKind::Entry,
    FaultKind::Version,
    FaultKind::Const,
    FaultKind::All,
    FaultKind::Mixed,
    FaultKind::Pair,
];

const LINE: NoteFault = NoteFault {
    line: 3,
    kind: FaultKind::Name,
};

const STATES: [StateFault; 5] = [
    StateFault::Line,
    StateFault::Register,
    StateFault::Byte,
    StateFault::Choice,
    StateFault::End,
];

const POINTS: [PointsFault; 2] = [PointsFault::TooMany { count: 7 }, PointsFault::Memory];

const ENTRIES: [EntryFault; 3] = [
    EntryFault::Link,
    EntryFault::Require { line: 2 },
    EntryFault::Byte { at: 0x10f },
];

const PLAIN: &str = "E1 Short
E2 Magic
E3 Class
E4 Data
E5 Version
E6 Type
E7 Machine
E8 HeaderTable
E9 SegmentRange
E10 FileSize
E11 Overlap
E12 SymbolTable
memory
no function
ambiguous 4 8
N1 Limit
N2 Byte
N3 Token
N4 Number
N5 Depth
N6 Word
N7 Syntax
N8 Name
N9 Align
N10 Range
N11 Entry
N12 Version
N13 Const
N14 All
N15 Mixed
N16 Pair
S1 Line
S2 Register
S3 Byte
S4 Choice
S5 End
there are more points than may be listed: 7 were found
out of memory
link
require 2
byte 0000010f
";

#[test]
fn errors_are_printed(rt: HostRuntime) -> Result<(), AllocError> {
    let mut text = String::new(rt.alloc());
    append(&mut text, &FILES)?;
    append(&mut text, &SYMBOLS)?;
    append(&mut text, &KINDS)?;
    append(&mut text, &STATES)?;
    append(&mut text, &POINTS)?;
    append(&mut text, &ENTRIES)?;
    assert_eq!(rt; text.as_str(), PLAIN);
    Ok(())
}

#[test]
fn errors_of_texts_are_printed(rt: HostRuntime) -> Result<(), AllocError> {
    let mut text = String::new(rt.alloc());
    append(&mut text, &[LINE])?;
    append(&mut text, &[NotesError::Fault(LINE), NotesError::Memory])?;
    let refused = ParseFault::Refused {
        line: 34,
        kind: StateFault::Byte,
        bytes: Vec::new(rt.alloc()),
    };
    append(&mut text, &[refused, ParseFault::Memory])?;
    let expected =
        "line 3 N8 Name\nline 3 N8 Name\nout of memory\nline 34: S3 Byte\nout of memory\n";
    assert_eq!(rt; text.as_str(), expected);
    Ok(())
}
