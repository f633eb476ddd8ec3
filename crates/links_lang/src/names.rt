//! The names of registers and flags.
ghost use Rattle.std.specs.Prelude.{◌≡◌, map, IfSome};
ghost use Rattle.notes_spec.specs.RvNames.{name_in, rv_names};
ghost use Rattle.notes_spec.specs.ArmNames.{arm_names};
ghost use Rattle.notes_lang.specs.Parsing.{layout_names};
ghost use Rattle.links_lang.specs.Views.{IsOfForm};
ghost use Rattle.links_lang.specs.Naming.{IsMeaning, row_of};

use crate::links::Named;
use start_value::Layout;

/// The names of RV32IM (RISC-V Unprivileged ISA 20191213, chapter 25). The program counter has one, and is no register.
const RV_NAMES: [(&[u8], Option<Named>); 66] = [
    (b"zero", Some(Named::Zero)),
    (b"x0", Some(Named::Zero)),
    (b"ra", Some(Named::Register(1))),
    (b"x1", Some(Named::Register(1))),
    (b"sp", Some(Named::Register(2))),
    (b"x2", Some(Named::Register(2))),
    (b"gp", Some(Named::Register(3))),
    (b"x3", Some(Named::Register(3))),
    (b"tp", Some(Named::Register(4))),
    (b"x4", Some(Named::Register(4))),
    (b"t0", Some(Named::Register(5))),
    (b"x5", Some(Named::Register(5))),
    (b"t1", Some(Named::Register(6))),
    (b"x6", Some(Named::Register(6))),
    (b"t2", Some(Named::Register(7))),
    (b"x7", Some(Named::Register(7))),
    (b"s0", Some(Named::Register(8))),
    (b"x8", Some(Named::Register(8))),
    (b"s1", Some(Named::Register(9))),
    (b"x9", Some(Named::Register(9))),
    (b"a0", Some(Named::Register(10))),
    (b"x10", Some(Named::Register(10))),
    (b"a1", Some(Named::Register(11))),
    (b"x11", Some(Named::Register(11))),
    (b"a2", Some(Named::Register(12))),
    (b"x12", Some(Named::Register(12))),
    (b"a3", Some(Named::Register(13))),
    (b"x13", Some(Named::Register(13))),
    (b"a4", Some(Named::Register(14))),
    (b"x14", Some(Named::Register(14))),
    (b"a5", Some(Named::Register(15))),
    (b"x15", Some(Named::Register(15))),
    (b"a6", Some(Named::Register(16))),
    (b"x16", Some(Named::Register(16))),
    (b"a7", Some(Named::Register(17))),
    (b"x17", Some(Named::Register(17))),
    (b"s2", Some(Named::Register(18))),
    (b"x18", Some(Named::Register(18))),
    (b"s3", Some(Named::Register(19))),
    (b"x19", Some(Named::Register(19))),
    (b"s4", Some(Named::Register(20))),
    (b"x20", Some(Named::Register(20))),
    (b"s5", Some(Named::Register(21))),
    (b"x21", Some(Named::Register(21))),
    (b"s6", Some(Named::Register(22))),
    (b"x22", Some(Named::Register(22))),
    (b"s7", Some(Named::Register(23))),
    (b"x23", Some(Named::Register(23))),
    (b"s8", Some(Named::Register(24))),
    (b"x24", Some(Named::Register(24))),
    (b"s9", Some(Named::Register(25))),
    (b"x25", Some(Named::Register(25))),
    (b"s10", Some(Named::Register(26))),
    (b"x26", Some(Named::Register(26))),
    (b"s11", Some(Named::Register(27))),
    (b"x27", Some(Named::Register(27))),
    (b"t3", Some(Named::Register(28))),
    (b"x28", Some(Named::Register(28))),
    (b"t4", Some(Named::Register(29))),
    (b"x29", Some(Named::Register(29))),
    (b"t5", Some(Named::Register(30))),
    (b"x30", Some(Named::Register(30))),
    (b"t6", Some(Named::Register(31))),
    (b"x31", Some(Named::Register(31))),
    (b"fp", Some(Named::Register(8))),
    (b"pc", None),
];

/// The names of ARM (ARM Architecture Reference Manual, sections A2.4 and A2.5; fp and ip are names of the procedure call standard). The program counter has
/// two, and is no register.
const ARM_NAMES: [(&[u8], Option<Named>); 25] = [
    (b"r0", Some(Named::Register(0))),
    (b"r1", Some(Named::Register(1))),
    (b"r2", Some(Named::Register(2))),
    (b"r3", Some(Named::Register(3))),
    (b"r4", Some(Named::Register(4))),
    (b"r5", Some(Named::Register(5))),
    (b"r6", Some(Named::Register(6))),
    (b"r7", Some(Named::Register(7))),
    (b"r8", Some(Named::Register(8))),
    (b"r9", Some(Named::Register(9))),
    (b"r10", Some(Named::Register(10))),
    (b"r11", Some(Named::Register(11))),
    (b"r12", Some(Named::Register(12))),
    (b"r13", Some(Named::Register(13))),
    (b"r14", Some(Named::Register(14))),
    (b"r15", None),
    (b"fp", Some(Named::Register(11))),
    (b"ip", Some(Named::Register(12))),
    (b"sp", Some(Named::Register(13))),
    (b"lr", Some(Named::Register(14))),
    (b"pc", None),
    (b"N", Some(Named::Flag(3))),
    (b"Z", Some(Named::Flag(2))),
    (b"C", Some(Named::Flag(1))),
    (b"V", Some(Named::Flag(0))),
];

/// The register or flag of the first row of a table with this name.
fn find(table: &[(&[u8], Option<Named>)], word: &[u8]) -> Option<Named>
    ensures { IsMeaning (name_in (map row_of table.now) word.now) result }
{
    for (name, meaning) in table {
        if word == *name {
            return *meaning;
        }
    }
    None
}

/// The register of RV32IM that a word names.
#[tactic(auto, unfolding(notes_spec::specs::RvNames::rv_table))]
fn find_rv(word: &[u8]) -> Option<Named>
    ensures { IsMeaning (rv_names word.now) result }
{
    find(&RV_NAMES, word)
}

/// The register or flag of ARM that a word names.
#[tactic(auto, unfolding(notes_spec::specs::ArmNames::arm_table))]
fn find_arm(word: &[u8]) -> Option<Named>
    ensures { IsMeaning (arm_names word.now) result }
{
    find(&ARM_NAMES, word)
}

/// The register or flag of a machine that a word names.
pub(crate) fn named(layout: Layout, word: &[u8]) -> Option<Named>
    ensures meaning { IsMeaning (layout_names layout word.now) result }
    ensures form { IfSome result (λ x. IsOfForm layout x) }
{
    match layout {
        Layout::Rv32 { .. } => find_rv(word),
        Layout::Arm { .. } => find_arm(word),
    }
}
