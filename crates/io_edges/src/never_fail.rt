//! A shelf and a sink that never fail.
use crate::files::{copy_from, find_file};
use crate::{Failed, MemFile, Shelf, Sink};

/// Files in memory, of which the first of a name counts, and an empty file under each other name. No read fails.
#[derive(Drop)]
pub struct NeverFailShelf {
    files: Vec<MemFile>,
}

impl NeverFailShelf {
    ghost use Rattle.std.specs.Prelude.{◌≡◌, ℕ, List};
    ghost use Rattle.io_edges.specs.Files.{held_by, or_empty};
    ghost use Rattle.io_edges.specs.Shelves.{kept_in};

    /// A shelf of these files.
    pub fn new(files: Vec<MemFile>) -> NeverFailShelf
        ensures { (n : List ℕ) → kept_in result n ≡ or_empty (held_by files.items n) }
    {
        NeverFailShelf { files }
    }
}

impl Shelf for NeverFailShelf {
    ghost use Rattle.std.specs.Prelude.{◌≡◌, ℕ, ◌≤◌, List, length, IfOk, IsOk};
    ghost use Rattle.call_spec.specs.Outside.{Reads};
    ghost use Rattle.io_edges.specs.Begun.{BeginsAt};
    ghost use Rattle.io_edges.specs.Files.{Fills};
    ghost use Rattle.io_edges.specs.Shelves.{kept_in};

    ghost holds = { kept_in };

    ghost faults = { λ _ _. 0 };

    ghost begun = { λ _ _ _. 0 };

    #[tactic(auto, using(crate::proofs::FilePlaces::held_here))]
    fn read(&mut self, name: &str, at: u64, into: &mut [u8]) -> Result<usize, Failed>
        ensures keeps { (n : List ℕ) → kept_in self.new n ≡ kept_in self.old n }
        ensures never { IsOk result }
        ensures begins { BeginsAt (λ _ _. 0) (λ _ _. 0) name.now at }
        ensures within { IfOk result (λ n. n ≤ length into.new) }
        ensures ok { IfOk result (λ n. Reads (kept_in self.old name.now) at into.new n) }
        ensures fills { IfOk result (Fills (kept_in self.old name.now) at into.new) }
    {
        match find_file(&self.files, name) {
            Some(place) => Ok(copy_from(&self.files[place].bytes, at, into)),
            None => Ok(0),
        }
    }
}

/// Takes every byte, and keeps none.
#[derive(Clone, Copy)]
pub struct NeverFailSink;

impl Sink for NeverFailSink {
    ghost use Rattle.std.specs.Prelude.{◌≡◌, None, length};

    ghost written = { λ _. None };

    ghost faults = { λ _. 0 };

    ghost errors = { λ _. 0 };

    fn write(&mut self, bytes: &[u8]) -> Result<usize, Failed>
        ensures { result ≡ Ok (length bytes.now) }
    {
        Ok(bytes.len())
    }
}
