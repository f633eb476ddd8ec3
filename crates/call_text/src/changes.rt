//! What the contract of an address may change.
ghost use Rattle.std.specs.Prelude.{◌≡◌, ◌-◌, ◌++◌, IfOk, OnOk, map};
ghost use Rattle.std.specs.Option.{option_map};
ghost use Rattle.word_spec.specs.Words.{bit_at};
ghost use Rattle.frame_texts_spec.specs.CallTexts.{places, values_of};
ghost use Rattle.start_value.specs.Starts.{layout_of};
ghost use Rattle.state_text.specs.Starts.{written_call_of};
ghost use Rattle.call_text.specs.Texts.{changes_at, changes_of};

use crate::text::ContractChanges;
use start_value::Layout;
use state_text::CallState;
use std::alloc::{AllocError, Global};

/// What the contract of an address may change, if there is one.
pub(crate) fn changes_at<'a>(
    contracts: &'a [ContractChanges],
    at: u32,
) -> Option<&'a ContractChanges>
    ensures { option_map (λ x. changes_of x.now) result ≡ changes_at contracts.now at }
{
    for contract in contracts {
        if contract.at == at {
            return Some(contract);
        }
    }
    None
}

/// Appends the places of registers, of which the first of the layout has a number.
fn push_register_places(out: &mut Vec<usize>, registers: &[u8], first: u8) -> Result<(), AllocError>
    ensures { OnOk result (out.new.items ≡ out.old.items ++ map (λ r. r - first) registers.now) }
{
    for register in registers {
        out.push((*register).saturating_sub(first) as usize)?;
    }
    Ok(())
}

/// Appends the places of flags, of which flag 0 stands at the last.
fn push_flag_places(out: &mut Vec<usize>, flags: &[u8], last: usize) -> Result<(), AllocError>
    ensures { OnOk result (out.new.items ≡ out.old.items ++ map (λ f. last - f) flags.now) }
{
    for flag in flags {
        out.push(last.saturating_sub(*flag as usize))?;
    }
    Ok(())
}

/// The places of what may be changed, as registers and flags are named in a layout.
pub(crate) fn places(
    alloc: Global,
    layout: Layout,
    changes: &ContractChanges,
) -> Result<Vec<usize>, AllocError>
    ensures { IfOk result (λ v. v.items ≡ places (layout_of layout) (changes_of changes.now)) }
{
    let (first, _) = layout.registers();
    let last = layout.names().len().saturating_sub(1);
    let mut out = Vec::new(alloc);
    push_register_places(&mut out, changes.registers.as_slice(), first)?;
    push_flag_places(&mut out, changes.flags.as_slice(), last)?;
    Ok(out)
}

/// A flag of a set.
fn flag_bit(set: u8, flag: u8) -> u32
    ensures { result ≡ bit_at flag set }
{
    if flag >= 8 {
        return 0;
    }
    ((set >> flag) % 2) as u32
}

/// Appends flags of a set.
fn push_bits(out: &mut Vec<u32>, flags: &[u8], set: u8) -> Result<(), AllocError>
    ensures { OnOk result (out.new.items ≡ out.old.items ++ map (λ f. bit_at f set) flags.now) }
{
    for flag in flags {
        out.push(flag_bit(set, *flag))?;
    }
    Ok(())
}

/// The values that a contract step is given, in the order of their places.
pub(crate) fn values(
    alloc: Global,
    changes: &ContractChanges,
    call: &CallState,
) -> Result<Vec<u32>, AllocError>
    ensures { IfOk result (λ v. v.items ≡ values_of (changes_of changes.now) (written_call_of call.now)) }
{
    let mut out = Vec::new(alloc);
    out.extend_from_slice(call.regs.as_slice())?;
    push_bits(&mut out, changes.flags.as_slice(), call.flags)?;
    Ok(out)
}
