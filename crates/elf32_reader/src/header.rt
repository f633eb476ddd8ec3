//! The faults of a file's header, in their order (System V ABI, object files: ELF header).
ghost use Rattle.std.specs.Prelude.{◌≡◌, ◌≤◌, ◌+◌, ◌↔◌, IsTrue, length, OnOk, IfErr};
ghost use Rattle.bilv_spec.specs.ElfFaults.{ShortFile, BadMagic, BadClass, BadData, BadVersion, BadType, BadMachine, BadHeaderTable, FileFaultApplies};
ghost use Rattle.elf32_reader.specs.Refusals.{IsRefused, IsClear};

use crate::fault::ElfFault;
use crate::fields::{half, word};

const MAGIC: [u8; 4] = [0x7f, 0x45, 0x4c, 0x46];

/// What e_machine is for ARM.
const ARM: u16 = 40;

/// What e_machine is for RISC-V.
pub(crate) const RISC_V: u16 = 243;

fn is_short(file: &[u8]) -> bool
    ensures { IsTrue result ↔ FileFaultApplies file.now ShortFile }
{
    file.len() < 52
}

fn is_other_magic(file: &[u8]) -> bool
    requires { 52 ≤ length file.now }
    ensures { IsTrue result ↔ FileFaultApplies file.now BadMagic }
{
    !file.starts_with(&MAGIC)
}

fn is_other_class(file: &[u8]) -> bool
    requires { 52 ≤ length file.now }
    ensures { IsTrue result ↔ FileFaultApplies file.now BadClass }
{
    file[4] != 1
}

fn is_other_order(file: &[u8]) -> bool
    requires { 52 ≤ length file.now }
    ensures { IsTrue result ↔ FileFaultApplies file.now BadData }
{
    file[5] != 1 && file[5] != 2
}

fn is_other_version(file: &[u8]) -> bool
    requires { 52 ≤ length file.now }
    ensures { IsTrue result ↔ FileFaultApplies file.now BadVersion }
{
    file[6] != 1 || word(file, 20) != 1
}

fn is_other_type(file: &[u8]) -> bool
    requires { 52 ≤ length file.now }
    ensures { IsTrue result ↔ FileFaultApplies file.now BadType }
{
    let kind = half(file, 16);
    kind != 2 && kind != 3
}

fn is_other_machine(file: &[u8]) -> bool
    requires { 52 ≤ length file.now }
    ensures { IsTrue result ↔ FileFaultApplies file.now BadMachine }
{
    let machine = half(file, 18);
    machine != ARM && (machine != RISC_V || file[5] == 2)
}

fn is_bad_table(file: &[u8]) -> bool
    requires { 52 ≤ length file.now }
    ensures { IsTrue result ↔ FileFaultApplies file.now BadHeaderTable }
{
    let count = half(file, 44);
    if count != 0 && half(file, 42) != 32 {
        return true;
    }
    if count == 65535 {
        return true;
    }
    (file.len() as u64) < word(file, 28) as u64 + 32 * count as u64
}

/// The first fault of the header, if one applies.
pub(crate) fn check_header(file: &[u8]) -> Result<(), ElfFault>
    ensures clear { OnOk result (IsClear file.now 8) }
    ensures first { IfErr result (IsRefused file.now) }
{
    if is_short(file) {
        return Err(ElfFault::Short);
    }
    if is_other_magic(file) {
        return Err(ElfFault::Magic);
    }
    if is_other_class(file) {
        return Err(ElfFault::Class);
    }
    if is_other_order(file) {
        return Err(ElfFault::Data);
    }
    if is_other_version(file) {
        return Err(ElfFault::Version);
    }
    if is_other_type(file) {
        return Err(ElfFault::Type);
    }
    if is_other_machine(file) {
        return Err(ElfFault::Machine);
    }
    if is_bad_table(file) {
        return Err(ElfFault::HeaderTable);
    }
    Ok(())
}
