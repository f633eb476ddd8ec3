//! The texts of errors.
use command_line::LineError;
use io_edges::{Failed, ReadFault, WriteFault};
use std::alloc::AllocError;
use std::fmt::Display;

/// Appends a line for each error.
fn append<E: Display>(text: &mut String, errors: &[E]) -> Result<(), AllocError> {
    for error in errors {
        write!(text, "{error}\n")?;
    }
    Ok(())
}

const READS: [ReadFault; 3] = [ReadFault::Failed, ReadFault::TooLarge, ReadFault::Memory];

const WRITES: [WriteFault; 2] = [
    WriteFault::Failed { written: 3 },
    WriteFault::Stuck {
        written: 3,
        offered: 4,
    },
];

const LINES: [LineError; 2] = [LineError::Usage, LineError::Memory];

const TEXT: &str = "the call failed
a read failed
the file has more bytes than the limit
out of memory
a write failed after 3 bytes
a write after 3 bytes took none of 4
usage
out of memory
";

#[test]
fn errors_are_printed(rt: HostRuntime) -> Result<(), AllocError> {
    let mut text = String::new(rt.alloc());
    append(&mut text, &[Failed])?;
    append(&mut text, &READS)?;
    append(&mut text, &WRITES)?;
    append(&mut text, &LINES)?;
    assert_eq!(rt; text.as_str(), TEXT);
    Ok(())
}
