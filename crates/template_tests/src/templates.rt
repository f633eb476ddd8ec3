//! What templates stand for.
use crate::files::{ARM, RISC_V};
use std::alloc::Global;
use std::test::Fail;
use suite_notes::{Expansion, notes_of};

/// The notes of a template, or the text of its refusal.
fn answer(alloc: Global, file: &str, template: &str) -> Result<String, Fail> {
    let bytes = hex::decode(alloc, file)?;
    let template = template.as_bytes().to_vec(alloc)?;
    match notes_of(alloc, &bytes, template)? {
        Expansion::Notes(text) | Expansion::Refused(text) => {
            Ok(String::from_utf8_lossy(alloc, &text)?)
        }
    }
}

const RISC_V_TEMPLATES: [(&str, &str); 25] = [
    ("", ""),
    ("notes 2\nfunction parse", "notes 2\nfunction parse"),
    ("assert @parse+0x14 a0 = 1\n", "assert 0x00010024 a0 = 1\n"),
    ("assert @parse-16 1", "assert 0x00010000 1"),
    (
        "require a0 = @rx_buffer\r\nrequire a1 = @size(rx_buffer)\r\n",
        "require a0 = 0x00020000\r\nrequire a1 = 0x00000040\r\n",
    ),
    ("require a0 = @rx_buffer-a1", "require a0 = 0x00020000-a1"),
    ("require a0 = @parse-0x10011", "require a0 = 0xffffffff"),
    (
        "# @nothing, abi\n\tabi # kept",
        "# @nothing, abi\nensure sp = old(sp) and gp = old(gp) and tp = old(tp) and s0 = old(s0) and s1 = old(s1) and s2 = old(s2) and s3 = old(s3) and s4 = old(s4) and s5 = old(s5) and s6 = old(s6) and s7 = old(s7) and s8 = old(s8) and s9 = old(s9) and s10 = old(s10) and s11 = old(s11)# kept",
    ),
    (
        "abi @parse\r\n",
        "modifies 0x00010010 ra t0 t1 t2 t3 t4 t5 t6 a0 a1 a2 a3 a4 a5 a6 a7\r\n",
    ),
    (
        "stack 0x30000 TOP",
        "require 0x00030000 <=u sp and sp <=u TOP and (sp & 15) = 0",
    ),
    ("global\n", "require gp = 0x00011880\n"),
    (
        "only a0 16",
        "ensure old(t6 - (a0) <u 0x00000010) or mem8[old(t6)] = old(mem8[t6])",
    ),
    (
        "only @rx_buffer @size(rx_buffer), mem32[a0 + 4] N\nstack 4096 8192",
        "ensure old(t6 - (0x00020000) <u 0x00000040) or old(t6 - (mem32 [ a0 + 0x00000004 ]) <u N) or old(t6 - 0x00001000 <u sp - 0x00001000) or mem8[old(t6)] = old(mem8[t6])\nrequire 0x00001000 <=u sp and sp <=u 0x00002000 and (sp & 15) = 0",
    ),
    (
        "loaded\nrequire a0 = @rx_bufer",
        "notes: line 2 column 14: no such symbol, the nearest is rx_buffer\n",
    ),
    (
        "require a0 = @zero",
        "notes: line 1 column 14: no such symbol\n",
    ),
    (
        "require @.L1 = @zero",
        "notes: line 1 column 9: symbols of this name differ\n",
    ),
    ("require a0@parse", "notes: line 1 column 11: not in form\n"),
    (
        "require a0 = @size(parse)4",
        "notes: line 1 column 14: not in form\n",
    ),
    (
        "require a0 = @size parse",
        "notes: line 1 column 14: no such symbol\n",
    ),
    (
        "assert @parse+4294967296 1",
        "notes: line 1 column 8: not in form\n",
    ),
    (" stack 4096", "notes: line 1 column 2: not in form\n"),
    ("only t6 4", "notes: line 1 column 1: not in form\n"),
    (
        "only a0) = 0 or (a0 4",
        "notes: line 1 column 1: not in form\n",
    ),
    ("global 4", "notes: line 1 column 1: not in form\n"),
    ("abi @parse, 4", "notes: line 1 column 1: not in form\n"),
];

const ARM_TEMPLATES: [(&str, &str); 7] = [
    (
        "abi",
        "ensure sp = old(sp) and r4 = old(r4) and r5 = old(r5) and r6 = old(r6) and r7 = old(r7) and r8 = old(r8) and r9 = old(r9) and r10 = old(r10) and r11 = old(r11)",
    ),
    (
        "abi 0x8000",
        "modifies 0x00008000 r0 r1 r2 r3 r12 lr N Z C V",
    ),
    (
        "stack @rx_buffer 0x21000",
        "require 0x00020000 <=u sp and sp <=u 0x00021000 and (sp & 3) = 0",
    ),
    (
        "only r0 @size(rx_buffer)",
        "ensure old(r12 - (r0) <u 0x00000040) or mem8[old(r12)] = old(mem8[r12])",
    ),
    ("require r0 = @thumb", "require r0 = 0x00008001"),
    ("global", "notes: line 1 column 1: not in form\n"),
    ("only ip 4", "notes: line 1 column 1: not in form\n"),
];

#[test]
fn templates_of_risc_v(rt: HostRuntime) -> Result<(), Fail> {
    for (template, wanted) in RISC_V_TEMPLATES {
        assert_eq!(rt; answer(rt.alloc(), RISC_V, template)?.as_str(), wanted);
    }
    Ok(())
}

#[test]
fn templates_of_arm(rt: HostRuntime) -> Result<(), Fail> {
    for (template, wanted) in ARM_TEMPLATES {
        assert_eq!(rt; answer(rt.alloc(), ARM, template)?.as_str(), wanted);
    }
    Ok(())
}

/// A line with a form and so many further bytes.
fn line_of(alloc: Global, more: usize) -> Result<String, Fail> {
    let mut line = String::from_str(alloc, "@parse ")?;
    for _ in 0..more {
        line.push('x')?;
    }
    Ok(line)
}

#[test]
fn lines_are_counted_as_notes(rt: HostRuntime) -> Result<(), Fail> {
    let full = line_of(rt.alloc(), 1013)?;
    let notes = answer(rt.alloc(), RISC_V, &full)?;
    assert_eq!(rt; notes.len(), 1024);
    let longer = line_of(rt.alloc(), 1014)?;
    let refused = answer(rt.alloc(), RISC_V, &longer)?;
    assert_eq!(rt;
        refused.as_str(),
        "notes: line 1 column 1: longer than 1024 bytes\n"
    );
    Ok(())
}
