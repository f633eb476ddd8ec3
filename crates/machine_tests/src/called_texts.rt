//! Texts of reports whose runs make contract steps.
ghost use Rattle.std.specs.Prelude.{IfOk, true};
ghost use Rattle.frame_texts_spec.specs.FrameTexts.{no_checks};
ghost use Rattle.frame_texts_spec.specs.CallTextLaws.{AreOfLayout};
ghost use Rattle.start_value.specs.Starts.{layout_of};
ghost use Rattle.start_value.specs.declared.layout.Layout.TheVariants.{Arm};
ghost use Rattle.start_value.specs.declared.layout.Profile.TheVariants.{V4};
ghost use Rattle.call_text.specs.Readings.{checks_by};

use crate::framed_texts::{ARM, ENTRY};
use call_text::{
    CalledEnding, CalledFault, ContractChanges, FrameName, parse_called, print_called,
};
use frame_text::FramedEvent;
use std::alloc::{AllocError, Global};

const FIRST: &str = "unproved 0x00010040 gives 7 at 0x00010050 step 12";

const CALLED: &str = "call 3 0x00010040
r0 0x00000005
r1 0xffffffff
N 1
V 0
byte 0x00020004 0x07
byte 0x00020005 0x01
";

const LATER: &str = "call 9 0x00010040
r0 0x80000000
r1 0x00000000
N 0
V 1
end
";

/// The second block is at the step of the first.
const AGAIN: &str = "call 3 0x00010040
r0 0x80000000
r1 0x00000000
N 0
V 1
end
";

/// What a contract may change: r0, r1, N and V.
fn contracts(alloc: Global) -> Result<Vec<ContractChanges>, AllocError>
    ensures { IfOk result (λ v. AreOfLayout (layout_of (Arm true V4)) (checks_by (λ frame. no_checks) v.items)) }
{
    let contract = ContractChanges {
        at: 0x10040,
        registers: vec![in alloc; 0, 1]?,
        flags: vec![in alloc; 3, 0]?,
    };
    let contracts = vec![in alloc; contract]?;
    Ok(contracts)
}

#[test]
fn blocks_are_read_and_printed(rt: HostRuntime) -> Result<(), CalledFault> {
    let alloc = rt.alloc();
    let contracts = contracts(alloc)?;
    let text = format!(in alloc; "{FIRST}\n{ENTRY}{CALLED}{LATER}")?;
    let called = parse_called(alloc, text.as_bytes(), &contracts, ARM)?;
    let named = CalledEnding::UnprovedBy {
        frame: FrameName::Contract { at: 0x10040 },
        event: FramedEvent::GivesFails { line: 7 },
        at: 0x10050,
        step: 12,
    };
    assert_eq!(rt; called.named, named);
    assert_eq!(rt; called.calls.len(), 2);
    let first = &called.calls[0];
    assert_eq!(rt; (first.step, first.at, first.flags), (3, 0x10040, 8));
    assert_eq!(rt; first.regs.as_slice(), [5, 0xffff_ffff].as_slice());
    assert_eq!(rt;
        first.bytes.as_slice(),
        [(0x20004, 7), (0x20005, 1)].as_slice()
    );
    assert_eq!(rt; called.calls[1].flags, 1);
    let printed = print_called(alloc, &called, &contracts, ARM)?;
    assert_eq!(rt; printed.as_slice(), text.as_bytes());
    Ok(())
}

#[test]
fn a_second_block_at_a_step_is_refused(rt: HostRuntime) -> Result<(), AllocError> {
    let alloc = rt.alloc();
    let contracts = contracts(alloc)?;
    let text = format!(in alloc; "{FIRST}\n{ENTRY}{CALLED}{AGAIN}")?;
    let told = match parse_called(alloc, text.as_bytes(), &contracts, ARM) {
        Ok(_) => format!(in alloc; "no fault")?,
        Err(fault) => format!(in alloc; "{fault}")?,
    };
    assert_eq!(rt; told.as_str(), "line 30: S7 Call");
    Ok(())
}
