//! A file that is open, read from places on.
ghost use Rattle.std.specs.Prelude.{◌≡◌, ◌+◌, ◌<◌, ◌≤◌, ◌^◌, Some, None, length, IfOk, OnErr};
ghost use Rattle.io_edges.specs.Takes.{file_in, place_of, Takes};

use crate::Failed;
use std::io::{Read, Seek, SeekFrom};

/// A file, and the place where its next read goes on: none after a call that failed.
#[derive(Drop)]
pub struct PlacedFile<F> {
    file: F,
    place: Option<u64>,
}

impl<F: Read + Seek> PlacedFile<F> {
    /// A file that was just opened, which stands at its first byte.
    pub fn new(file: F) -> PlacedFile<F>
        ensures file { file_in result ≡ file }
        ensures place { place_of result ≡ Some 0 }
    {
        PlacedFile {
            file,
            place: Some(0),
        }
    }

    /// Fills the front of a buffer with the bytes from the place `at` on, and says how many it filled: none of a nonempty buffer only at the file's end.
    /// It seeks only where the last read does not go on at that place, so that a pipe can be read from its first byte to its last.
    ///
    /// # Errors
    ///
    /// A seek or a read that failed, or a seek that led elsewhere. The next read seeks then.
    pub fn read_at(&mut self, at: u64, into: &mut [u8]) -> Result<usize, Failed>
        ensures within { IfOk result (λ n. n ≤ length into.new) }
        ensures takes { IfOk result (Takes F.remaining F.stream_position self.old at into.new self.new) }
        ensures goes_on { IfOk result (λ n. at + n < 2 ^ 64 → place_of self.new ≡ Some (at + n)) }
        ensures lost { OnErr result (place_of self.new ≡ None) }
    {
        let place = self.place;
        self.place = None;
        if place != Some(at) {
            match self.file.seek(SeekFrom::Start(at)) {
                Ok(found) if found == at => {}
                _ => return Err(Failed),
            }
        }
        match self.file.read(into) {
            Ok(count) => {
                self.place = at.checked_add(count as u64);
                Ok(count)
            }
            Err(_) => Err(Failed),
        }
    }
}
