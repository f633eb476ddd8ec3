//! The counts of small programs.
use crate::programs::{Program, diamonds, frame, loads};
use crate::studies::{Study, counts_of};
use std::test::Fail;

/// Counts `a0` down to 0, and returns.
const COUNT_DOWN: [u32; 3] = [0xfff5_0513, 0xfe05_1ee3, 0x0000_8067];

/// Calls what returns four bytes too far where `a0` is 0: `mv t0,ra`, `jal f`, `mv ra,t0`, `ret`, and at f `bnez a0,g`, `addi ra,ra,4`, at g `ret`.
const WRONG_RETURN: [u32; 7] = [
    0x0000_8293,
    0x00c0_00ef,
    0x0002_8093,
    0x0000_8067,
    0x0005_1463,
    0x0040_8093,
    0x0000_8067,
];

/// `sw a0,0(a1)` and `ret`.
const STORE: [u32; 2] = [0x00a5_a023, 0x0000_8067];

/// `sw a0,0(a1)`, `lw a2,0(a3)` and `ret`.
const STORE_AND_LOAD: [u32; 3] = [0x00a5_a023, 0x0006_a603, 0x0000_8067];

/// Two bytes at `a1` are copied to `a0`: `lbu a2,0(a1)`, `sb a2,0(a0)`, `lbu a2,1(a1)`, `sb a2,1(a0)`, `ret`.
const COPY: [u32; 5] = [
    0x0005_c603,
    0x00c5_0023,
    0x0015_c603,
    0x00c5_00a3,
    0x0000_8067,
];

/// `lw a2,0(a3)`, which may load the two words behind it, and `ret`.
const LOAD: [u32; 3] = [0x0006_a603, 0x0ff5_0513, 0x0000_8067];

/// `div a0,a0,a1` and `ret`.
const DIVIDE: [u32; 2] = [0x02b5_4533, 0x0000_8067];

/// A count down returns too early from 1, and from another number it turns too often; a call returns to a wrong place, and a store changes code. The terms of
/// the questions say what the runs do.
#[test]
fn questions_are_as_runs(rt: HostRuntime) -> Result<(), Fail> {
    let ensure: &[u8] = b"entry 0x10000\nrequire a0 != 2\nensure a0 = old(a0) - 3\n";
    let entry: &[u8] = b"entry 0x10000\n";
    let table: [(&[u32], &[u8], u8, [usize; 4]); 4] = [
        (&COUNT_DOWN, ensure, 2, [74, 17, 43, 0]),
        (&COUNT_DOWN, ensure, 1, [74, 17, 57, 0]),
        (&WRONG_RETURN, entry, 2, [87, 14, 0, 0]),
        (&STORE, entry, 2, [87, 8, 0, 0]),
    ];
    for (words, notes, k, counts) in table {
        let program = Program { words, notes, k };
        let found = counts_of(rt.alloc(), &program, Study::Questions)?;
        assert_eq!(rt; found, counts);
    }
    Ok(())
}

/// The clauses of a store and a load, and of a copy, say what the runs do; and of a load from code zeros are not what the file has. The logs of a division of
/// the least number by -1 are given.
#[test]
fn cells_and_clauses_are_as_runs(rt: HostRuntime) -> Result<(), Fail> {
    let table: [(&[u32], &[u8], Study, [usize; 4]); 4] = [
        (
            &STORE_AND_LOAD,
            b"entry 0x10000\nensure a2 = a0\n",
            Study::Clauses { asked: 12 },
            [336, 0, 0, 0],
        ),
        (
            &COPY,
            b"entry 0x10000\nensure mem8[a0 + 1] = old(mem8[a1 + 1])\n",
            Study::Clauses { asked: 20 },
            [26, 0, 0, 0],
        ),
        (
            &LOAD,
            b"entry 0x10000\nensure a2 = 1\n",
            Study::Broken { at: 0x1_0004 },
            [0x1_0004, 0x1_0007, 4, 0],
        ),
        (
            &DIVIDE,
            b"entry 0x10000\nrequire a0 = 0x80000000\nrequire a1 = 0xFFFFFFFF\nensure a0 = 0x80000000\n",
            Study::Logs,
            [2, 0, 0, 0],
        ),
    ];
    for (words, notes, study, counts) in table {
        let program = Program { words, notes, k: 0 };
        let found = counts_of(rt.alloc(), &program, study)?;
        assert_eq!(rt; found, counts);
    }
    Ok(())
}

/// What is ensured of the programs below.
const NOTES: &[u8] = b"entry 0x10000\nensure a0 != 0\n";

/// Each place where two ways meet costs one selection, of `a0`. Each branch has one more, between two constants: those of the address that it goes on to.
/// The logs of the verdict are those that the search gives.
#[test]
fn meeting_ways_cost_one_selection(rt: HostRuntime) -> Result<(), Fail> {
    let words = diamonds(rt.alloc())?;
    let program = Program {
        words: &words,
        notes: NOTES,
        k: 0,
    };
    let found = counts_of(rt.alloc(), &program, Study::Selections)?;
    assert_eq!(rt; found, [32, 32, 853, 97]);
    let found = counts_of(rt.alloc(), &program, Study::Logs)?;
    assert_eq!(rt; found, [2, 0, 0, 0]);
    Ok(())
}

/// A frame makes no pair at all: none of two reads, and none of a load and a store. The one test for equality is that of the address that is returned to.
#[test]
fn frames_make_no_pairs(rt: HostRuntime) -> Result<(), Fail> {
    let words = frame(rt.alloc())?;
    let program = Program {
        words: &words,
        notes: NOTES,
        k: 0,
    };
    let found = counts_of(rt.alloc(), &program, Study::Pairs)?;
    assert_eq!(rt; found, [256, 0, 1, 1]);
    Ok(())
}

/// A load from a constant address, by `lui a1,0x11`, has one byte of the 64 KiB that are asked. Of an unknown address and offsets no pair is made, and of the
/// known bytes none is asked at first.
#[test]
fn loads_have_no_pairs(rt: HostRuntime) -> Result<(), Fail> {
    for (first, asked, counts) in [
        (0x0001_15b7, 65536, [400, 0, 400, 0]),
        (0x0000_0013, 0, [400, 0, 0, 0]),
    ] {
        let words = loads(rt.alloc(), first)?;
        let program = Program {
            words: &words,
            notes: NOTES,
            k: 0,
        };
        let found = counts_of(rt.alloc(), &program, Study::Sizes { asked })?;
        assert_eq!(rt; found, counts);
    }
    Ok(())
}
