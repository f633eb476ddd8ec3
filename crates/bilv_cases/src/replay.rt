//! The call that replays what a case wrote.
use crate::case::{Replay, Writer};
use crate::draft::list_of;
use std::alloc::{AllocError, Global};

/// The name under which a text is replayed or checked.
pub const REPORT: &str = "report";

/// The words of the call that replays a text, and the report in it: what `model` writes is a line before it, and what `equal` writes of one function is a word
/// before the report on that function alone.
pub fn replay_call<'a>(
    alloc: Global,
    replay: &Replay,
    text: &'a [u8],
) -> Result<(Vec<String>, &'a [u8]), AllocError> {
    match replay.writer {
        Writer::Verify => Ok((words(alloc, "replay", replay, 0, 2)?, text)),
        Writer::Model => Ok((words(alloc, "replay", replay, 0, 2)?, after(text, b'\n'))),
        Writer::Equal => equal_call(alloc, replay, text),
    }
}

/// The same, of what `equal` wrote.
fn equal_call<'a>(
    alloc: Global,
    replay: &Replay,
    text: &'a [u8],
) -> Result<(Vec<String>, &'a [u8]), AllocError> {
    if text.starts_with(b"first ") {
        return Ok((words(alloc, "replay", replay, 0, 2)?, after(text, b' ')));
    }
    if text.starts_with(b"second ") {
        return Ok((words(alloc, "replay", replay, 2, 2)?, after(text, b' ')));
    }
    Ok((words(alloc, "differ", replay, 0, 5)?, text))
}

/// The words of a call over some of the case's files and the report.
fn words(
    alloc: Global,
    command: &str,
    replay: &Replay,
    first: usize,
    count: usize,
) -> Result<Vec<String>, AllocError> {
    let mut words = list_of(alloc, &["bilv", command])?;
    for name in replay.names.iter().skip(first).take(count) {
        words.push(name.clone()?)?;
    }
    words.push(String::from_str(alloc, REPORT)?)?;
    for word in &replay.machine {
        words.push(word.clone()?)?;
    }
    Ok(words)
}

/// What stands after the first byte of a value.
fn after(text: &[u8], value: u8) -> &[u8] {
    match text.iter().position(|&byte| byte == value) {
        Some(end) => &text[end + 1..],
        None => &[],
    }
}
