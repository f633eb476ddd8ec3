//! The program: it answers its command line by lines as checks end, a message on standard error, and the exit status.
#![tactic(auto)]

use io_edges::{FileShelf, OutSink, words};
use std::io;
use std::process::ExitCode;
use suite_top::answer_words;

fn main(rt: HostRuntime) -> ExitCode {
    let mut shelf = FileShelf::new(&rt);
    let mut out = OutSink::new(io::writer(&rt));
    let ended = answer_words(rt.alloc(), words(&rt), &mut shelf, &mut out);
    if let Some(message) = &ended.message {
        let _ = rt.eprint(message.as_str());
    }
    ExitCode::from(ended.status)
}
