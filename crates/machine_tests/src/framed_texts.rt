//! Texts of reports over frames.
use frame_text::{FramedEnding, FramedEvent, FramedFault, parse_framed, print_framed};
use start_value::{Layout, Profile};
use std::alloc::{AllocError, Global};

pub(crate) const ARM: Layout = Layout::Arm {
    big: true,
    profile: Profile::V4,
};

const FIRST: &str = "not inductive invariant 4 at 0x00010000 step 2";

pub(crate) const ENTRY: &str = "state armv4-be
r0 0x00000000
r1 0x00000000
r2 0x00000000
r3 0x00000000
r4 0x00000000
r5 0x00000000
r6 0x00000000
r7 0x00000000
r8 0x00000000
r9 0x00000000
r10 0x00000000
r11 0x00000000
r12 0x00000000
r13 0x00000000
r14 0x00000000
N 1
Z 0
C 0
V 1
byte 0x00020000 0x01
";

const HEAD: &str = "head 0x00010000
stack 0x00010008
r0 0x00000000
r1 0x00000001
r2 0x00000002
r3 0x00000003
r4 0x00000004
r5 0x00000005
r6 0x00000006
r7 0x00000007
r8 0x00000008
r9 0x00000009
r10 0x0000000a
r11 0x0000000b
r12 0x0000000c
r13 0x0000000d
r14 0x0000000e
N 0
Z 1
C 0
V 0
byte 0x00020004 0x07
choice 1 3
end
";

/// What a text is refused for.
fn fault(alloc: Global, text: &str) -> Result<String, AllocError> {
    match parse_framed(alloc, text.as_bytes(), ARM) {
        Ok(_) => format!(in alloc; "no fault"),
        Err(fault) => format!(in alloc; "{fault}"),
    }
}

#[test]
fn the_text_of_a_loop_is_read_and_printed(rt: HostRuntime) -> Result<(), FramedFault> {
    let alloc = rt.alloc();
    let text = format!(in alloc; "{FIRST}\n{ENTRY}{HEAD}")?;
    let framed = parse_framed(alloc, text.as_bytes(), ARM)?;
    let named = FramedEnding::NotInductive {
        event: FramedEvent::InvariantFails { line: 4 },
        at: 0x10000,
        step: 2,
    };
    assert_eq!(rt; framed.named, named);
    let printed = print_framed(alloc, &framed, ARM)?;
    assert_eq!(rt; printed.as_slice(), text.as_bytes());
    Ok(())
}

#[test]
fn a_head_part_behind_choices_is_refused(rt: HostRuntime) -> Result<(), AllocError> {
    let alloc = rt.alloc();
    let text = format!(in alloc; "{FIRST}\n{ENTRY}choice 0 1\n{HEAD}")?;
    let told = fault(alloc, text.as_str())?;
    assert_eq!(rt; told.as_str(), "line 24: S6 Head");
    Ok(())
}

#[test]
fn a_ninth_word_is_refused(rt: HostRuntime) -> Result<(), AllocError> {
    let alloc = rt.alloc();
    let text = format!(in alloc; "{FIRST} 2\n{ENTRY}{HEAD}")?;
    let told = fault(alloc, text.as_str())?;
    assert_eq!(rt; told.as_str(), "line 1: S1 Line");
    Ok(())
}
