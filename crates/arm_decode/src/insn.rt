//! The instructions of ARM state.
ghost use Rattle.std.specs.Prelude.{◌≡◌, ◌≢◌};
ghost use Rattle.machine_spec.specs.Arm as rows;
ghost use Rattle.arm_decode.specs.Insns.{word_of};
ghost use Rattle.arm_decode.specs.Parts.{condition_number};

use crate::blocks::Block;
use crate::branches::Branch;
use crate::class::Class;
use crate::counts::Count;
use crate::data::Computing;
use crate::exchanges::Exchange;
use crate::fields::field;
use crate::halfwords::Halfword;
use crate::interrupts::SoftwareInterrupt;
use crate::long_multiplies::MultiplyLong;
use crate::multiplies::Multiply;
use crate::parts::Condition;
use crate::swaps::Swap;
use crate::transfers::Transfer;

/// An instruction, by its class.
#[derive(Clone, Copy)]
pub enum Insn {
    Computing(Computing),
    Multiply(Multiply),
    MultiplyLong(MultiplyLong),
    Swap(Swap),
    Transfer(Transfer),
    Halfword(Halfword),
    Block(Block),
    Branch(Branch),
    SoftwareInterrupt(SoftwareInterrupt),
    Exchange(Exchange),
    Count(Count),
}

/// The classes, listed once: `classes!(match insn, x => value)` has the same value for each class, where `x` is the instruction of that class, and
/// `classes!(find word, profile)` returns the instruction of a word.
#[macro_export]
macro_rules! classes {
    (match $insn:expr, $x:ident => $value:expr) => {
        classes!(@list match ($insn) $x ($value))
    };
    (find $word:expr, $profile:expr) => {
        classes!(@list find ($word) ($profile))
    };
    (@list $($call:tt)*) => {
        classes!(@ $($call)* Computing Multiply MultiplyLong Swap Transfer Halfword Block Branch SoftwareInterrupt Exchange Count)
    };
    (@ match ($insn:expr) $x:ident ($value:expr) $($class:ident)*) => {
        match $insn {
            $($crate::Insn::$class($x) => $value,)*
        }
    };
    (@ find ($word:expr) ($profile:expr) $($class:ident)*) => {
        $(if let Some(x) = $crate::$class::of($word, $profile) {
            return Some($crate::Insn::$class(x));
        })*
    };
}

impl Insn {
    /// Its word.
    pub(crate) fn word(self) -> u32
        ensures same { result ≡ word_of self }
        ensures condition { rows.condition_code result ≢ 15 }
    {
        classes!(match self, x => x.word())
    }

    /// Its condition.
    pub fn condition(self) -> Condition
        ensures { condition_number result ≡ rows.condition_code (word_of self) }
    {
        Condition::of(field(self.word(), 31, 28))
    }
}
