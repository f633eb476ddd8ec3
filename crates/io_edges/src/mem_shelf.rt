//! A shelf in memory, whose reads can be made to fail.
ghost use Rattle.std.specs.Prelude.{◌≡◌, vec_len};

use crate::counts::{begun_after, raised};
use crate::files::{copy_from, find_file};
use crate::{Failed, MemFile, Shelf};
use std::alloc::{AllocError, Global};

/// Files in memory, of which the first of a name counts. Reads of chosen numbers fail.
/// It has a count of failed reads for each file, and one for all names that no file has; and for each file a count of the reads that began at its first byte.
#[derive(Drop)]
pub struct MemShelf {
    files: Vec<MemFile>,
    counts: Vec<u64>,
    absent: u64,
    begun: Vec<u64>,
    failing: Vec<u64>,
    calls: u64,
    ghost counted: { vec_len counts ≡ vec_len files },
    ghost begun_counted: { vec_len begun ≡ vec_len files },
}

impl MemShelf {
    ghost use Rattle.std.specs.Prelude.{ℕ, List, IfOk};
    ghost use Rattle.io_edges.specs.Files.{held_by};
    ghost use Rattle.io_edges.specs.Shelves.{begun_in, held_in, faults_in, failing_reads, reads_made};

    /// A shelf of these files. Its reads are numbered from 0, and those of the numbers in `failing` fail.
    #[tactic(auto, using(crate::proofs::FileCounts::count_zero, crate::proofs::FileCounts::begun_zero))]
    pub fn new(
        alloc: Global,
        files: Vec<MemFile>,
        failing: Vec<u64>,
    ) -> Result<MemShelf, AllocError>
        ensures holds { IfOk result (λ s. (n : List ℕ) → held_in s n ≡ held_by files.items n) }
        ensures no_faults { IfOk result (λ s. (n : List ℕ) → faults_in s n ≡ 0) }
        ensures none_begun { IfOk result (λ s. (n : List ℕ) (place : ℕ) → begun_in s n place ≡ 0) }
        ensures failing { IfOk result (λ s. failing_reads s ≡ failing.items) }
        ensures no_reads { IfOk result (λ s. reads_made s ≡ 0) }
    {
        let counts = vec![in alloc; 0u64; files.len()]?;
        let begun = vec![in alloc; 0u64; files.len()]?;
        Ok(MemShelf {
            files,
            counts,
            absent: 0,
            begun,
            failing,
            calls: 0,
        })
    }

    /// How many reads of a name failed. The names that no file has share one count.
    #[tactic(auto, using(crate::proofs::FileCounts::count_here, crate::proofs::FileCounts::count_absent))]
    pub fn fault_count(&self, name: &str) -> u64
        ensures { result ≡ faults_in self.now name.now }
    {
        match find_file(&self.files, name) {
            Some(place) => self.counts[place],
            None => self.absent,
        }
    }
}

impl Shelf for MemShelf {
    ghost use Rattle.std.specs.Prelude.{◌≢◌, ℕ, ◌≤◌, ◌↔◌, List, length, IsErr, IfOk, OnOk, OnErr};
    ghost use Rattle.call_spec.specs.Outside.{Absent, Rose, Reads};
    ghost use Rattle.io_edges.specs.Begun.{BeginsAt};
    ghost use Rattle.io_edges.specs.Counts.{count_begun, one_more, RaisesOnly};
    ghost use Rattle.io_edges.specs.Files.{Fills};
    ghost use Rattle.io_edges.specs.Shelves.{begun_in, held_in, faults_in, failing_reads, reads_made, FailsNext};

    ghost holds = { held_in };

    ghost faults = { faults_in };

    ghost begun = { begun_in };

    #[tactic(auto, using(crate::proofs::FilePlaces::held_here, crate::proofs::FileCounts::count_never_falls, crate::proofs::FileCounts::set_never_falls, crate::proofs::FileCounts::count_here, crate::proofs::FileCounts::count_absent, crate::proofs::FileCounts::set_here, crate::proofs::FileCounts::begun_here))]
    fn read(&mut self, name: &str, at: u64, into: &mut [u8]) -> Result<usize, Failed>
        ensures keeps { (n : List ℕ) → held_in self.new n ≡ held_in self.old n }
        ensures never_falls { (n : List ℕ) → faults_in self.old n ≤ faults_in self.new n }
        ensures begins { BeginsAt (begun_in self.old) (begun_in self.new) name.now at }
        ensures within { IfOk result (λ n. n ≤ length into.new) }
        ensures ok { IfOk result (λ n. Reads (held_in self.old name.now) at into.new n) }
        ensures failed { OnErr result
            (Rose (faults_in self.old name.now) (faults_in self.new name.now)) }

        // It fails at its chosen numbers and at names that no file has, and nowhere else.
        ensures fails { IsErr result ↔ FailsNext self.old name.now }
        ensures fills { IfOk result (Fills (held_in self.old name.now) at into.new) }
        ensures raises { OnErr result
            (RaisesOnly (held_in self.old) (faults_in self.old) (faults_in self.new) name.now) }
        ensures steady { OnOk result
            ((n : List ℕ) → faults_in self.new n ≡ faults_in self.old n) }
        ensures begun { held_in self.old name.now ≢ Absent → begun_in self.new name.now 0 ≡ count_begun at (begun_in self.old name.now 0) }
        ensures failing { failing_reads self.new ≡ failing_reads self.old }
        ensures counted { reads_made self.new ≡ one_more (reads_made self.old) }
    {
        let fails = self.failing.contains(&self.calls);
        self.calls = raised(self.calls);
        let Some(place) = find_file(&self.files, name) else {
            self.absent = raised(self.absent);
            return Err(Failed);
        };
        self.begun[place] = begun_after(self.begun[place], at);
        if fails {
            self.counts[place] = raised(self.counts[place]);
            return Err(Failed);
        }
        Ok(copy_from(&self.files[place].bytes, at, into))
    }
}
