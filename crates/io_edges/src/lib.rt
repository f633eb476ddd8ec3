//! What a program reads and writes: files by name, and a sink of text, each with a count of its faults.
#![tactic(auto)]

ghost use Rattle.std.specs.Prelude.{◌≡◌, ◌≢◌, ℕ, ◌≤◌, ◌<◌, List, [], ◌∷◌, Option, length, take, IfOk, IfErr, OnOk, OnErr, IsErrOf};
ghost use Rattle.call_spec.specs.Outside.{Held, Agrees, IsLonger, Rose, Reads, Appends};
ghost use Rattle.io_edges.specs.Begun.{AreBegun, BeginsAt};
ghost use Rattle.io_edges.specs.WriteFaults.{Stopped, CountsError};

use std::alloc::Global;
use thiserror::Error;

mod arguments;
mod counts;
mod files;
mod mem_shelf;
mod mem_sink;
mod never_fail;
mod placed;
mod system;

pub use arguments::words;
pub use files::MemFile;
pub use mem_shelf::MemShelf;
pub use mem_sink::MemSink;
pub use never_fail::{NeverFailShelf, NeverFailSink};
pub use placed::PlacedFile;
pub use system::{FileShelf, OutSink};

/// A read or a write that failed.
#[derive(Clone, Copy, Debug, PartialEq, Eq, Error)]
#[error("the call failed")]
pub struct Failed;

/// Files by name.
pub trait Shelf {
    /// What is told of a name.
    ghost holds: { Self → List ℕ → Held };

    /// How many reads of a name failed. It never falls, and may stay at the last value of 64 bits.
    ghost faults: { Self → List ℕ → ℕ };

    /// How many reads of a name began at a place. A shelf may leave reads uncounted: what is said of any shelf holds of one that counts them all.
    ghost begun: { Self → List ℕ → ℕ → ℕ };

    /// Fills the front of a buffer with the bytes of a file from the byte `at` on, and says how many it filled.
    /// Of a nonempty buffer it fills none only at the file's end. A name that no file has is a fault.
    /// What the rest of the buffer has is left open, and after an `Err` what all of it has.
    fn read(&mut self, name: &str, at: u64, into: &mut [u8]) -> Result<usize, Failed>
        ensures keeps { (n : List ℕ) → holds self.new n ≡ holds self.old n }
        ensures never_falls { (n : List ℕ) → faults self.old n ≤ faults self.new n }
        ensures begins { BeginsAt (begun self.old) (begun self.new) name.now at }
        ensures within { IfOk result (λ n. n ≤ length into.new) }
        ensures ok { IfOk result (λ n. Reads (holds self.old name.now) at into.new n) }
        ensures failed { OnErr result (Rose (faults self.old name.now) (faults self.new name.now)) }
        ensures steady { OnOk result ((n : List ℕ) → faults self.new n ≡ faults self.old n) };
}

/// What takes the text of an answer.
pub trait Sink {
    /// All that was written, where that is told.
    ghost written: { Self → Option (List ℕ) };

    /// How many writes failed, or took none of a nonempty piece. It never falls, and may stay at the last value of 64 bits.
    ghost faults: { Self → ℕ };

    /// How many writes failed. It never falls, and may stay at the last value of 64 bits.
    ghost errors: { Self → ℕ };

    /// Takes bytes from the front of a piece, and says how many it took.
    /// To take none of a nonempty piece counts as a fault. After an `Err` the text is as it was.
    fn write(&mut self, bytes: &[u8]) -> Result<usize, Failed>
        ensures never_falls { faults self.old ≤ faults self.new }
        ensures within { IfOk result (λ n. n ≤ length bytes.now) }
        ensures ok { IfOk result
            (λ n. Appends (written self.old) (take n bytes.now) (written self.new)) }
        ensures nothing { IfOk result
            (λ n. n ≡ 0 → 0 < length bytes.now → Rose (faults self.old) (faults self.new)) }
        ensures failed { OnErr result (Rose (faults self.old) (faults self.new)) }
        ensures same { OnErr result (written self.new ≡ written self.old) }
        ensures error { OnErr result (Rose (errors self.old) (errors self.new)) }
        ensures no_error { OnOk result (errors self.new ≡ errors self.old) };
}

/// How many bytes of a file are asked for at once.
const PIECE: usize = 65536;

/// Why a file was not read.
#[derive(Clone, Copy, Debug, PartialEq, Eq, Error)]
pub enum ReadFault {
    /// A read failed.
    #[error("a read failed")]
    Failed,
    /// The file has more bytes than the limit.
    #[error("the file has more bytes than the limit")]
    TooLarge,
    /// There was no memory for the bytes.
    #[error("out of memory")]
    Memory,
}

/// Why not all bytes were written.
#[derive(Clone, Copy, Debug, PartialEq, Eq, Error)]
pub enum WriteFault {
    /// A write failed, after so many bytes were written.
    #[error("a write failed after {written} bytes")]
    Failed { written: usize },
    /// After so many bytes a write took none of the `offered` bytes that were left.
    #[error("a write after {written} bytes took none of {offered}")]
    Stuck { written: usize, offered: usize },
}

/// The whole of a file of at most `limit` bytes.
/// It is `TooLarge` once more than `limit` bytes were read, `Failed` at the first read that fails,
/// and `Memory` where the bytes that were read are at most `limit` and find no room.
#[tactic(auto, using(crate::proofs::Fronts::front_start, crate::proofs::Fronts::front_more, crate::proofs::Fronts::front_whole, crate::proofs::Fronts::front_longer))]
pub fn read_all<H: Shelf>(
    alloc: Global,
    shelf: &mut H,
    name: &str,
    limit: u64,
) -> Result<Vec<u8>, ReadFault>
    ensures keeps { (n : List ℕ) → H.holds shelf.new n ≡ H.holds shelf.old n }
    ensures never_falls { (n : List ℕ) → H.faults shelf.old n ≤ H.faults shelf.new n }
    ensures begun { AreBegun (H.begun shelf.old) (H.begun shelf.new) (name.now ∷ []) }
    ensures whole { IfOk result (λ v. Agrees (H.holds shelf.old name.now) v.items) }
    ensures within { IfOk result (λ v. length v.items ≤ limit) }
    ensures too_large { IsErrOf result ReadFault.TooLarge →
        IsLonger (H.holds shelf.old name.now) limit }
    ensures failed { IsErrOf result ReadFault.Failed →
        Rose (H.faults shelf.old name.now) (H.faults shelf.new name.now) }
    // So a read that failed is answered as nothing else.
    ensures steady { result ≢ Err ReadFault.Failed → (n : List ℕ) → H.faults shelf.new n ≡ H.faults shelf.old n }
{
    let mut bytes = Vec::new(alloc);
    let mut piece = [0u8; PIECE];
    loop {
        let at = bytes.len() as u64;
        let Ok(count) = shelf.read(name, at, &mut piece) else {
            return Err(ReadFault::Failed);
        };
        if count == 0 {
            return Ok(bytes);
        }
        if count as u64 > limit - at {
            return Err(ReadFault::TooLarge);
        }
        let Ok(()) = bytes.extend_from_slice(&piece[..count]) else {
            return Err(ReadFault::Memory);
        };
    }
}

/// Writes all the bytes, in as many writes as the sink wants.
/// It stops at the first write that fails, or that takes none of what is left.
#[tactic(auto, using(crate::proofs::Fronts::appends_more, crate::proofs::Fronts::rest_long))]
pub fn write_all<K: Sink>(sink: &mut K, bytes: &[u8]) -> Result<(), WriteFault>
    ensures never_falls { K.faults sink.old ≤ K.faults sink.new }
    ensures ok { OnOk result (Appends (K.written sink.old) bytes.now (K.written sink.new)) }
    ensures by_fault { IfErr result (Stopped (K.written sink.old) bytes.now (K.written sink.new)) }
    ensures risen { OnErr result (Rose (K.faults sink.old) (K.faults sink.new)) }
    ensures by_error { IfErr result (CountsError (K.errors sink.old) (K.errors sink.new)) }
    ensures no_error { OnOk result (K.errors sink.new ≡ K.errors sink.old) }
{
    let mut written = 0usize;
    while written < bytes.len() {
        let piece = &bytes[written..];
        let Ok(taken) = sink.write(piece) else {
            return Err(WriteFault::Failed { written });
        };
        if taken == 0 {
            let offered = piece.len();
            return Err(WriteFault::Stuck { written, offered });
        }
        written += taken;
    }
    Ok(())
}
