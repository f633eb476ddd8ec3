//! The machine of a template.

/// The machine that notes are for.
#[derive(Clone, Copy, Debug, PartialEq, Eq)]
pub enum TemplateMachine {
    /// RV32, with the registers' names and uses of its ILP32 ABI.
    RiscV,
    /// 32-bit ARM, with the registers' uses of its procedure call standard.
    Arm,
}
