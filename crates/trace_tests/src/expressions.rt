//! The text of expressions.
use notes_lang::{Dialect, parse_notes};
use start_value::{Layout, Profile};
use std::alloc::Global;
use std::test::Fail;
use value_steps::push_expression;

/// The text of an expression as it is printed; nothing where the notes are refused.
fn printed(alloc: Global, layout: Layout, says: &str) -> Result<Vec<u8>, Fail> {
    let text = format!(in alloc; "notes 2\nentry 0x10000\nrequire {says}\n")?;
    let mut out = Vec::new(alloc);
    let Ok(notes) = parse_notes(alloc, text.as_bytes(), layout, Dialect::Plain) else {
        return Ok(out);
    };
    for note in &notes.required {
        push_expression(alloc, &mut out, layout, &note.says)?;
    }
    Ok(out)
}

const RISC_V: Layout = Layout::Rv32 { compressed: false };

const ARM: Layout = Layout::Arm {
    big: false,
    profile: Profile::V4,
};

/// Each is printed as it stands.
const SAME: [&str; 10] = [
    "a0 <u old(a1)",
    "a0 - (a1 - a2) = 5 * (a3 | 7)",
    "a0 - a1 - a2 >=s 0x80000000",
    "not (a0 = 1 or a1 = 2) and not a2 != 3",
    "(a0 = 1) = (a1 = 2)",
    "(not a0) + 1 <=u 1023",
    "a0 = 1 and a1 = 1 or a2 = 1",
    "(a0 = 1 or a1 = 1) and pc >u 4",
    "a0 & 3 ^ a1 & 3 | a2 = mem16[sp - 4] >>> 2",
    "old(mem32[mem8[t6] << 2]) = ra",
];

/// Names and numbers that have another form.
const OTHER: [(&str, &str); 4] = [
    ("x10 + 1024 = fp", "a0 + 0x00000400 = s0"),
    ("((a0)) = (zero + 0x10)", "a0 = 0 + 16"),
    ("(a0 * a1) + 1 = 0", "a0 * a1 + 1 = 0"),
    ("all i 2 4 (mem8[a0 + i] = i)", "all(mem8[a0 + 2] = 2, ..)"),
];

#[test]
fn expressions_are_printed(rt: HostRuntime) -> Result<(), Fail> {
    for says in SAME {
        assert_eq!(rt;
            printed(rt.alloc(), RISC_V, says)?.as_slice(),
            says.as_bytes()
        );
    }
    for (says, wanted) in OTHER {
        assert_eq!(rt;
            printed(rt.alloc(), RISC_V, says)?.as_slice(),
            wanted.as_bytes()
        );
    }
    Ok(())
}

#[test]
fn registers_of_arm_are_printed(rt: HostRuntime) -> Result<(), Fail> {
    let says = "r13 & 3 = 0 and N = 1 or r14 = r12";
    let wanted = "sp & 3 = 0 and N = 1 or lr = r12";
    assert_eq!(rt;
        printed(rt.alloc(), ARM, says)?.as_slice(),
        wanted.as_bytes()
    );
    Ok(())
}
