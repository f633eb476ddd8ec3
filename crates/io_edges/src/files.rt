//! Files in memory.
ghost use Rattle.std.specs.Prelude.{◌≡◌, ◌+◌, ◌-◌, ◌<◌, length, min, MatchOption};
ghost use Rattle.call_spec.specs.Outside.{Absent, Bytes, Reads};
ghost use Rattle.io_edges.specs.Files.{held_by, Fills};
ghost use Rattle.io_edges.specs.Places.{IsPlace};

/// A file in memory.
#[derive(Drop)]
pub struct MemFile {
    /// The name that a shelf is asked for.
    pub name: String,
    /// The whole content.
    pub bytes: Vec<u8>,
}

/// The place of the first file of a name.
#[tactic(auto, using(crate::proofs::FilePlaces::place_here))]
pub(crate) fn find_file(files: &[MemFile], name: &str) -> Option<usize>
    ensures { MatchOption result (held_by files.now name.now ≡ Absent)
        (λ i. (i < length files.now) × IsPlace files.now name.now i) }
{
    for (i, file) in files.iter().enumerate() {
        if file.name.as_str() == name {
            return Some(i);
        }
    }
    None
}

/// Fills the front of a buffer with the bytes from a place on, and says how many it filled.
pub(crate) fn copy_from(bytes: &[u8], at: u64, into: &mut [u8]) -> usize
    ensures reads { Reads (Bytes bytes.now) at into.new result }
    ensures fills { Fills (Bytes bytes.now) at into.new result }
{
    let len = bytes.len();
    if at >= len as u64 {
        return 0;
    }
    let rest = &bytes[at as usize..];
    let count = into.len().min(rest.len());
    into[..count].copy_from_slice(&rest[..count]);
    count
}
