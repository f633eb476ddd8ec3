//! Files of the system and writers, in which a call may fail, and what shelves and sinks in memory do and count that no command asks.
use io_edges::{
    Failed, FileShelf, MemShelf, MemSink, NeverFailShelf, NeverFailSink, OutSink, PlacedFile,
    Shelf, WriteFault, read_all, write_all,
};
use std::fs;
use std::io::{self, ErrorKind, Read, Seek, SeekFrom, Write};
use std::test::Fail;

/// Whether a read of three bytes at most gives these.
fn gives<S: Shelf>(shelf: &mut S, name: &str, at: u64, want: &str) -> bool {
    let mut piece = [0u8; 3];
    match shelf.read(name, at, &mut piece) {
        Ok(count) => &piece[..count] == want.as_bytes(),
        Err(Failed) => false,
    }
}

/// The first read seeks, the second goes on, and then one seeks back.
#[test]
fn reads_the_file_system(rt: HostRuntime) -> Result<(), Fail> {
    let name = "io_edges_test.txt";
    fs::write(&rt, name, "seven 7")?;
    let mut shelf = FileShelf::new(&rt);
    for (at, want) in [(2, "ven"), (5, " 7"), (7, ""), (0, "sev")] {
        assert!(rt; gives(&mut shelf, name, at, want), "at {at}");
    }
    fs::remove_file(&rt, name)?;
    Ok(())
}

#[test]
fn counts_reads_that_failed(rt: HostRuntime) -> Result<(), Fail> {
    let name = "io_edges_none.txt";
    let mut files = FileShelf::new(&rt);
    assert!(rt; !gives(&mut files, name, 0, ""));
    assert_eq!(rt; files.fault_count(), 1);
    let mut shelf = MemShelf::new(rt.alloc(), Vec::new(rt.alloc()), Vec::new(rt.alloc()))?;
    assert!(rt; !gives(&mut shelf, name, 0, ""));
    assert_eq!(rt; shelf.fault_count(name), 1);
    Ok(())
}

#[test]
fn never_fails(rt: HostRuntime) -> Result<(), Fail> {
    let mut shelf = NeverFailShelf::new(Vec::new(rt.alloc()));
    assert_eq!(rt; read_all(rt.alloc(), &mut shelf, "none", 0)?.len(), 0);
    assert_eq!(rt; write_all(&mut NeverFailSink, b"seven 7"), Ok(()));
    Ok(())
}

const STUCK: WriteFault = WriteFault::Stuck {
    written: 3,
    offered: 4,
};

#[test]
fn counts_writes_that_took_nothing(rt: HostRuntime) -> Result<(), Fail> {
    let mut sink = MemSink::new(rt.alloc(), 3, 9, Vec::new(rt.alloc()))?;
    assert_eq!(rt; write_all(&mut sink, b"seven 7"), Err(STUCK));
    assert_eq!(rt; sink.fault_count(), 1);
    let mut room = [0u8; 3];
    let mut sink = OutSink::new(room.as_mut_slice());
    assert_eq!(rt; write_all(&mut sink, b"seven 7"), Err(STUCK));
    assert_eq!(rt; sink.fault_count(), 1);
    assert_eq!(rt; room.as_slice(), b"sev".as_slice());
    Ok(())
}

/// Bytes that are read and written in calls numbered from 0, of which one fails. A write takes three bytes at most.
#[derive(Drop)]
struct Flaky {
    at: usize,
    calls: usize,
    failing: usize,
}

impl Flaky {
    /// At the first byte, with a call that fails.
    fn new(failing: usize) -> Flaky {
        Flaky {
            at: 0,
            calls: 0,
            failing,
        }
    }

    /// Counts a call, and fails at the chosen one.
    fn call(&mut self) -> io::Result<()> {
        let fails = self.calls == self.failing;
        self.calls = self.calls.saturating_add(1);
        if fails {
            return Err(io::Error::from(ErrorKind::Other));
        }
        Ok(())
    }
}

impl Read for Flaky {
    fn read(&mut self, into: &mut [u8]) -> io::Result<usize> {
        self.call()?;
        let text = b"seven 7";
        let rest = &text[self.at.min(7)..];
        let count = rest.len().min(into.len());
        into[..count].copy_from_slice(&rest[..count]);
        self.at = self.at.saturating_add(count);
        Ok(count)
    }
}

impl Seek for Flaky {
    fn seek(&mut self, to: SeekFrom) -> io::Result<u64> {
        self.call()?;
        match to {
            SeekFrom::Start(at) => {
                self.at = at as usize;
                Ok(at)
            }
            _ => Err(io::Error::from(ErrorKind::Unsupported)),
        }
    }
}

impl Write for Flaky {
    fn write(&mut self, bytes: &[u8]) -> io::Result<usize> {
        self.call()?;
        Ok(bytes.len().min(3))
    }

    fn flush(&mut self) -> io::Result<()> {
        Ok(())
    }
}

/// How many bytes the reads of three bytes at 0, at 5 and at 7 give, where a call fails.
fn counts(failing: usize) -> [Option<usize>; 3] {
    let mut file = PlacedFile::new(Flaky::new(failing));
    let mut piece = [0u8; 3];
    let first = file.read_at(0, &mut piece).ok();
    let second = file.read_at(5, &mut piece).ok();
    let third = file.read_at(7, &mut piece).ok();
    [first, second, third]
}

/// The calls are a read, a seek and a read, and a read that goes on; after one that failed a read seeks.
#[test]
fn each_call_on_a_file_may_fail(rt: HostRuntime) {
    let table = [
        [None, Some(2), Some(0)],
        [Some(3), None, Some(0)],
        [Some(3), None, Some(0)],
        [Some(3), Some(2), None],
        [Some(3), Some(2), Some(0)],
    ];
    for failing in 0..5 {
        assert_eq!(rt; counts(failing), table[failing], "call {failing}");
    }
}

#[test]
fn each_call_on_a_writer_may_fail(rt: HostRuntime) {
    let table = [
        Err(WriteFault::Failed { written: 0 }),
        Err(WriteFault::Failed { written: 3 }),
        Err(WriteFault::Failed { written: 6 }),
        Ok(()),
    ];
    for failing in 0..4 {
        let mut sink = OutSink::new(Flaky::new(failing));
        assert_eq!(rt;
            write_all(&mut sink, b"seven 7"),
            table[failing],
            "call {failing}"
        );
    }
}
