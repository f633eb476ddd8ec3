//! The flags that an instruction reads and assigns.
ghost use Rattle.std.specs.Prelude.{◌≡◌, ◌<◌, ◌==◌, ◌&&◌, ◌||◌, false, ℕ};
ghost use Rattle.machine_spec.specs.Arm as rows;
ghost use Rattle.word_spec.specs.Words as words;
ghost use Rattle.machine_law.specs.Facts.{IsFlagUse};
ghost use Rattle.arm_decode.specs.Parts.{condition_number};
ghost use Rattle.arm_step.specs.Parts.{flags_of, flags_named};

use crate::flags::Flags;
use arm_decode::Condition;
use machine_law::FlagUse;

/// N and Z together, C, and V, as far as they are in a set.
#[derive(Clone, Copy)]
pub(crate) struct FlagSet {
    pub(crate) nz: bool,
    pub(crate) c: bool,
    pub(crate) v: bool,
}

impl FlagSet {
    /// No flag.
    pub(crate) const NONE: FlagSet = FlagSet {
        nz: false,
        c: false,
        v: false,
    };
}

fn bit(set: bool) -> u8
    ensures { result ≡ words.bit set }
{
    if set { 1 } else { 0 }
}

/// Flags as a number: N 8, Z 4, C 2 and V 1.
fn number(flags: Flags) -> u8
    ensures small { result < 16 }
    ensures bits { (f : ℕ) → f < 4 → (words.bit_at f result == 1) ≡ (flags_of flags f == 1) }
{
    8 * bit(flags.n) + 4 * bit(flags.z) + 2 * bit(flags.c) + bit(flags.v)
}

/// The flags of a set.
fn flags_in(set: FlagSet) -> Flags
    ensures { (f : ℕ) → f < 4 → (flags_of result f == 1) ≡ rows.flag_set set.nz set.c set.v f }
{
    Flags {
        n: set.nz,
        z: set.nz,
        c: set.c,
        v: set.v,
    }
}

fn flags(n: bool, z: bool, c: bool, v: bool) -> Flags
    ensures n { result.n ≡ n }
    ensures z { result.z ≡ z }
    ensures c { result.c ≡ c }
    ensures v { result.v ≡ v }
{
    Flags { n, z, c, v }
}

/// The flags that a condition names.
fn condition_flags(condition: Condition) -> Flags
    ensures { flags_named condition result }
{
    match condition {
        Condition::Eq | Condition::Ne => flags(false, true, false, false),
        Condition::Cs | Condition::Cc => flags(false, false, true, false),
        Condition::Mi | Condition::Pl => flags(true, false, false, false),
        Condition::Vs | Condition::Vc => flags(false, false, false, true),
        Condition::Hi | Condition::Ls => flags(false, true, true, false),
        Condition::Ge | Condition::Lt => flags(true, false, false, true),
        Condition::Gt | Condition::Le => flags(true, true, false, true),
        Condition::Al => flags(false, false, false, false),
    }
}

/// Flags with C beside them, where it is read.
fn with_carry(condition: Flags, carry: bool) -> Flags
    ensures n { result.n ≡ condition.n }
    ensures z { result.z ≡ condition.z }
    ensures c { result.c ≡ (condition.c || carry) }
    ensures v { result.v ≡ condition.v }
{
    Flags {
        c: condition.c || carry,
        ..condition
    }
}

/// A set where a condition always holds, and else none.
fn where_always(condition: Condition, set: FlagSet) -> FlagSet
    ensures { (w f : ℕ) → condition_number condition ≡ rows.condition_code w
        → rows.flag_set result.nz result.c result.v f ≡ (rows.is_always w && rows.flag_set set.nz set.c set.v f) }
{
    if condition.is_always() {
        set
    } else {
        FlagSet::NONE
    }
}

/// The flags that an instruction uses: it reads those of its condition, and C where that is said; it assigns some, and some surely where its condition always
/// holds.
pub(crate) fn flags_by(
    condition: Condition,
    reads_carry: bool,
    assigned: FlagSet,
    surely: FlagSet,
) -> FlagUse
    ensures { (w : ℕ) → condition_number condition ≡ rows.condition_code w → IsFlagUse result (rows.flag_use w (rows.flag_set false reads_carry false)
        (rows.flag_set assigned.nz assigned.c assigned.v) (rows.flag_set surely.nz surely.c surely.v)) }
{
    FlagUse {
        reads: number(with_carry(condition_flags(condition), reads_carry)),
        assigns: number(flags_in(assigned)),
        surely: number(flags_in(where_always(condition, surely))),
    }
}
