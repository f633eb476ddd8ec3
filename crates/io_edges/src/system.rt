//! The file system, and a writer as standard output. What they hold is not told: they are trusted.
ghost use Rattle.std.specs.Prelude.{◌≡◌, ◌⊎◌, ℕ, ◌≤◌, ◌<◌, List, None, Some, length, IfOk, IfSome, OnOk, OnErr};
ghost use Rattle.std.specs.Io.KnownBytes.{WriteAppends};
ghost use Rattle.call_spec.specs.Outside.{Untold, Reads, Rose};
ghost use Rattle.io_edges.specs.Begun.{BeginsAt};
ghost use Rattle.io_edges.specs.Counts.{one_more, count_after};
ghost use Rattle.io_edges.specs.Shelves.{file_faults, last_file};
ghost use Rattle.io_edges.specs.Sinks.{writer_of, out_faults, out_errors};
ghost use Rattle.io_edges.specs.Takes.{IsLast, name_of, place_of, TakesNamed};

use crate::counts::raised;
use crate::{Failed, PlacedFile, Shelf, Sink};
use std::fs::File;
use std::io::Write;
use std::rt::Files;

/// A file of the file system, with the name under which it was opened.
#[derive(Drop)]
struct NamedFile<F> {
    name: String,
    placed: PlacedFile<F>,
}

/// Files by path. Its one count, of all reads that failed, stands for every name.
/// The file that was read last stays open, so a file that is read piece by piece is opened once, and may be a pipe. It is not kept where memory runs out for
/// its name: the next read then opens it again.
#[derive(Drop)]
pub struct FileShelf<'a, R: Files> {
    files: &'a R,
    last: Option<NamedFile<R::File>>,
    faults: u64,
}

impl<'a, R: Files + AllocGlobal> FileShelf<'a, R> {
    /// A shelf over the files of a runtime.
    pub fn new(files: &'a R) -> FileShelf<'a, R>
        ensures no_faults { file_faults result ≡ 0 }
        ensures none { last_file result ≡ None }
    {
        FileShelf {
            files,
            last: None,
            faults: 0,
        }
    }

    /// How many reads failed.
    pub fn fault_count(&self) -> u64
        ensures { result ≡ file_faults self.now }
    {
        self.faults
    }

    /// The file that was read last, where it has the name.
    fn taken(&mut self, name: &str) -> Option<NamedFile<R::File>>
        ensures named { IfSome result (λ f. name_of f ≡ name.now) }
        ensures last { IfSome result (λ f. last_file self.old ≡ Some f) }
        ensures same { file_faults self.new ≡ file_faults self.old }
    {
        match self.last.take() {
            Some(last) if last.name.as_str() == name => Some(last),
            _ => None,
        }
    }

    /// The file of a name, just opened. The error is a file that can't be opened.
    fn open(&self, name: &str) -> Result<PlacedFile<R::File>, Failed>
        ensures first { IfOk result (λ p. place_of p ≡ Some 0) }
    {
        match File::open(self.files, name) {
            Ok(file) => Ok(PlacedFile::new(file)),
            Err(_) => Err(Failed),
        }
    }

    /// Keeps a file as the last one. Where memory runs out for its name none is kept, so that the next read opens it again: of a pipe, which cannot be read at a
    /// place a second time, that read then fails.
    fn keep(&mut self, name: &str, placed: PlacedFile<R::File>)
        ensures kept { IsLast (last_file self.new) name.now placed ⊎ (last_file self.new ≡ None) }
        ensures same { file_faults self.new ≡ file_faults self.old }
    {
        self.last = match String::from_str(self.files.alloc(), name) {
            Ok(name) => Some(NamedFile { name, placed }),
            Err(_) => None,
        };
    }

    /// A read of the file of a name: the last one where that has the name, else one that is opened.
    fn read_named(&mut self, name: &str, at: u64, into: &mut [u8]) -> Result<usize, Failed>
        ensures within { IfOk result (λ n. n ≤ length into.new) }
        ensures takes { IfOk result (TakesNamed R.File.remaining R.File.stream_position (last_file self.old) name.now at into.new (last_file self.new)) }
        ensures same { file_faults self.new ≡ file_faults self.old }
    {
        match self.taken(name) {
            Some(mut last) => {
                let read = last.placed.read_at(at, into);
                self.last = Some(last);
                read
            }
            None => {
                let mut placed = self.open(name)?;
                let read = placed.read_at(at, into);
                self.keep(name, placed);
                read
            }
        }
    }
}

impl<R: Files + AllocGlobal> Shelf for FileShelf<'_, R> {
    ghost holds = { λ _ _. Untold };

    ghost faults = { λ s _. file_faults s };

    ghost begun = { λ _ _ _. 0 };

    fn read(&mut self, name: &str, at: u64, into: &mut [u8]) -> Result<usize, Failed>
        ensures never_falls { (n : List ℕ) → file_faults self.old ≤ file_faults self.new }
        ensures begins { BeginsAt (λ _ _. 0) (λ _ _. 0) name.now at }
        ensures within { IfOk result (λ n. n ≤ length into.new) }
        ensures ok { IfOk result (λ n. Reads Untold at into.new n) }
        ensures failed { OnErr result (Rose (file_faults self.old) (file_faults self.new)) }

        // The bytes are those that the open file gave at the place.
        ensures takes { IfOk result (TakesNamed R.File.remaining R.File.stream_position (last_file self.old) name.now at into.new (last_file self.new)) }
        ensures raises { OnErr result (file_faults self.new ≡ one_more (file_faults self.old)) }
        ensures steady { OnOk result ((n : List ℕ) → file_faults self.new ≡ file_faults self.old) }
    {
        match self.read_named(name, at, into) {
            Ok(count) => Ok(count),
            Err(Failed) => {
                self.faults = raised(self.faults);
                Err(Failed)
            }
        }
    }
}

/// A writer. It counts the writes that failed, or took nothing of a nonempty piece.
#[derive(Drop)]
pub struct OutSink<W> {
    to: W,
    faults: u64,
    errors: u64,
}

impl<W: Write> OutSink<W> {
    /// A sink over a writer.
    pub fn new(to: W) -> OutSink<W>
        ensures writer { writer_of result ≡ to }
        ensures no_faults { out_faults result ≡ 0 }
        ensures no_errors { out_errors result ≡ 0 }
    {
        OutSink {
            to,
            faults: 0,
            errors: 0,
        }
    }

    /// How many writes failed, or took nothing of a nonempty piece.
    pub fn fault_count(&self) -> u64
        ensures { result ≡ out_faults self.now }
    {
        self.faults
    }
}

impl<W: Write> Sink for OutSink<W> {
    ghost written = { λ _. None };

    ghost faults = { λ s. out_faults s };

    ghost errors = { λ s. out_errors s };

    fn write(&mut self, bytes: &[u8]) -> Result<usize, Failed>
        ensures never_falls { out_faults self.old ≤ out_faults self.new }
        ensures within { IfOk result (λ n. n ≤ length bytes.now) }
        ensures nothing { IfOk result (λ n. n ≡ 0 → 0 < length bytes.now →
            Rose (out_faults self.old) (out_faults self.new)) }
        ensures failed { OnErr result (Rose (out_faults self.old) (out_faults self.new)) }
        ensures error { OnErr result (Rose (out_errors self.old) (out_errors self.new)) }
        ensures no_error { OnOk result (out_errors self.new ≡ out_errors self.old) }

        // The writer took what the result says.
        ensures passes { WriteAppends (W.contents (writer_of self.old)) (W.contents (writer_of self.new))
            result bytes.now }
        ensures raises { OnErr result (out_faults self.new ≡ one_more (out_faults self.old)) }
        ensures raises_errors { OnErr result (out_errors self.new ≡ one_more (out_errors self.old)) }
        ensures stuck { IfOk result
            (λ n. out_faults self.new ≡ count_after (out_faults self.old) bytes.now n) }
    {
        match self.to.write(bytes) {
            Ok(0) if !bytes.is_empty() => {
                self.faults = raised(self.faults);
                Ok(0)
            }
            Ok(count) => Ok(count),
            Err(_) => {
                self.faults = raised(self.faults);
                self.errors = raised(self.errors);
                Err(Failed)
            }
        }
    }
}
