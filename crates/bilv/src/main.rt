//! The program: it answers its command line by one text and the exit status.
#![tactic(auto)]

use bilv_top::answer_words;
use io_edges::{FileShelf, OutSink, words};
use std::io;
use std::process::ExitCode;

fn main(rt: HostRuntime) -> ExitCode {
    let mut shelf = FileShelf::new(&rt);
    let mut out = OutSink::new(io::writer(&rt));
    answer_words(rt.alloc(), words(&rt), &mut shelf, &mut out).code()
}
