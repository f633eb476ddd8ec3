//! The words of the command line.
ghost use Rattle.std.specs.Prelude.{◌≡◌, IfOk};
ghost use Rattle.std.specs.Vec.Iter.{into_iter_items};

use std::alloc::{AllocError, Global};
use std::rt::Env;
use std::{env, io};

/// The words that are given, in their order. The error is out of memory.
fn collected(alloc: Global, args: env::Args) -> Result<Vec<String>, AllocError>
    ensures { IfOk result (λ words. words.items ≡ into_iter_items args) }
{
    let mut args = args;
    let mut words = Vec::new(alloc);
    while let Some(word) = args.next() {
        words.push(word)?;
    }
    Ok(words)
}

/// The words with which the program was started, the first of which is its name, or none where one is not UTF-8. The error is out of memory. No contract tells
/// what they are.
pub fn words<R: Env + AllocGlobal>(rt: &R) -> Result<Vec<String>, AllocError> {
    match env::args(rt) {
        Ok(args) => collected(rt.alloc(), args),
        Err(error) if error.kind() == io::ErrorKind::InvalidData => Ok(Vec::new(rt.alloc())),
        Err(_) => Err(AllocError),
    }
}
