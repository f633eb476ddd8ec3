//! Words that assemblers print for known instructions, and back; and all halfwords.
use rv_decode::{decode, encode};

/// `jal zero,-8`, `jalr ra,12(ra)`, `bne a0,zero,-4`, `sw a0,4(a1)`, `lui a2,0x12345`, `srai a2,a0,7`, `divu a2,a0,a1`, `fence`, `ebreak`.
const WORDS: [u32; 9] = [
    0xff9f_f06f,
    0x00c0_80e7,
    0xfe05_1ee3,
    0x00a5_a223,
    0x1234_5637,
    0x4075_5613,
    0x02b5_5633,
    0x0ff0_000f,
    0x0010_0073,
];

#[test]
fn words_are_given_back(rt: HostRuntime) {
    for word in WORDS {
        match decode(word, false) {
            Some(insn) => assert_eq!(rt; encode(&insn), word),
            None => panic!(rt; "no row at {word:08x}"),
        }
    }
}

/// How many halfwords are of an instruction of RV32C: the others are reserved, of no instruction, or the beginning of a word.
const HALFWORDS: u32 = 28_823;

#[test]
fn halfwords_are_given_back(rt: HostRuntime) {
    let mut rows = 0_u32;
    for word in 0..0x1_0000_u32 {
        if let Some(insn) = decode(word, true) {
            assert_eq!(rt; encode(&insn), word);
            rows = rows.wrapping_add(u32::from(insn.half.is_some()));
        }
    }
    assert_eq!(rt; rows, HALFWORDS);
}
