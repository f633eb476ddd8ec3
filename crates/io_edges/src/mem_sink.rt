//! A sink in memory, whose writes can be made to fail.
ghost use Rattle.std.specs.Prelude.{◌≤◌, vec_len, vec_capacity};

use crate::counts::raised;
use crate::{Failed, Sink};
use std::alloc::{AllocError, Global};

/// Text in memory. Its room is taken when it is made, and never exceeded. Writes of chosen numbers fail.
#[derive(Drop)]
pub struct MemSink {
    text: Vec<u8>,
    room: usize,
    most: usize,
    failing: Vec<u64>,
    calls: u64,
    faults: u64,
    errors: u64,
    ghost fits: { vec_len text ≤ room },
    ghost has_room: { room ≤ vec_capacity text },
}

impl MemSink {
    ghost use Rattle.std.specs.Prelude.{◌≡◌, [], length, IfOk};
    ghost use Rattle.io_edges.specs.Sinks.{text_in, room_of, most_of, failing_writes, writes_made, write_faults, write_errors};

    /// A sink of at most `room` bytes, which takes at most `most` of them in a write.
    /// Its writes are numbered from 0, and those of the numbers in `failing` fail.
    pub fn new(
        alloc: Global,
        room: usize,
        most: usize,
        failing: Vec<u64>,
    ) -> Result<MemSink, AllocError>
        ensures empty { IfOk result (λ s. text_in s ≡ []) }
        ensures room { IfOk result (λ s. room_of s ≡ room) }
        ensures most { IfOk result (λ s. most_of s ≡ most) }
        ensures failing { IfOk result (λ s. failing_writes s ≡ failing.items) }
        ensures no_writes { IfOk result (λ s. writes_made s ≡ 0) }
        ensures no_faults { IfOk result (λ s. write_faults s ≡ 0) }
        ensures no_errors { IfOk result (λ s. write_errors s ≡ 0) }
    {
        let text = Vec::with_capacity(alloc, room)?;
        Ok(MemSink {
            text,
            room,
            most,
            failing,
            calls: 0,
            faults: 0,
            errors: 0,
        })
    }

    /// All that was written.
    pub fn text(&self) -> &[u8]
        ensures value { result.now ≡ text_in self.now }
        ensures in_room { length result.now ≤ room_of self.now }
    {
        self.text.as_slice()
    }

    /// How many writes failed, or took nothing of a piece.
    pub fn fault_count(&self) -> u64
        ensures { result ≡ write_faults self.now }
    {
        self.faults
    }
}

impl Sink for MemSink {
    ghost use Rattle.std.specs.Prelude.{◌≡◌, ◌<◌, ◌↔◌, length, take, Some, Contains, IsErr, IfOk, OnOk, OnErr};
    ghost use Rattle.call_spec.specs.Outside.{Rose, Appends};
    ghost use Rattle.io_edges.specs.Counts.{one_more, count_after};
    ghost use Rattle.io_edges.specs.Sinks.{text_in, room_of, most_of, taken_of, failing_writes, writes_made, write_faults, write_errors};

    ghost written = { λ s. Some (text_in s) };

    ghost faults = { write_faults };

    ghost errors = { write_errors };

    fn write(&mut self, bytes: &[u8]) -> Result<usize, Failed>
        ensures never_falls { write_faults self.old ≤ write_faults self.new }
        ensures within { IfOk result (λ n. n ≤ length bytes.now) }
        ensures ok { IfOk result
            (λ n. Appends (Some (text_in self.old)) (take n bytes.now) (Some (text_in self.new))) }
        ensures nothing { IfOk result (λ n. n ≡ 0 → 0 < length bytes.now →
            Rose (write_faults self.old) (write_faults self.new)) }
        ensures failed { OnErr result (Rose (write_faults self.old) (write_faults self.new)) }
        ensures same { OnErr result (Some (text_in self.new) ≡ Some (text_in self.old)) }
        ensures error { OnErr result (Rose (write_errors self.old) (write_errors self.new)) }
        ensures no_error { OnOk result (write_errors self.new ≡ write_errors self.old) }

        // It fails at its chosen numbers, and nowhere else.
        ensures fails { IsErr result ↔ Contains (failing_writes self.old) (writes_made self.old) }
        ensures takes { IfOk result (λ n. n ≡ taken_of self.old bytes.now) }
        ensures raises { OnErr result (write_faults self.new ≡ one_more (write_faults self.old)) }
        ensures raises_errors { OnErr result (write_errors self.new ≡ one_more (write_errors self.old)) }
        ensures stuck { IfOk result
            (λ n. write_faults self.new ≡ count_after (write_faults self.old) bytes.now n) }

        ensures in_room { length (text_in self.new) ≤ room_of self.new }
        ensures room { room_of self.new ≡ room_of self.old }
        ensures most { most_of self.new ≡ most_of self.old }
        ensures failing { failing_writes self.new ≡ failing_writes self.old }
        ensures counted { writes_made self.new ≡ one_more (writes_made self.old) }
    {
        let fails = self.failing.contains(&self.calls);
        self.calls = raised(self.calls);
        if fails {
            self.faults = raised(self.faults);
            self.errors = raised(self.errors);
            return Err(Failed);
        }
        let left = self.room - self.text.len();
        let count = bytes.len().min(self.most).min(left);
        if count == 0 && !bytes.is_empty() {
            self.faults = raised(self.faults);
            return Ok(0);
        }
        match self.text.extend_from_slice(&bytes[..count]) {
            Ok(()) => Ok(count),
            Err(_) => unreachable!(),
        }
    }
}
