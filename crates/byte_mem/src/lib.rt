//! Memory by addresses of 32 bits, and what every machine's state and step look like.
#![tactic(auto)]

ghost use Rattle.std.specs.Prelude.{◌≡◌, ℕ, ◌≤◌, ◌<◌, ◌*◌, ◌==◌, Bool, IsTrue};
ghost use Rattle.word_spec.specs.State.{State};
ghost use Rattle.word_spec.specs.Memory as memory;
ghost use Rattle.byte_mem.specs.Views.{endian_of};

mod bytes;
mod gapped;

use bv_word::Word;
pub use bytes::{Bytes32, one_list};

/// A byte order: the lowest byte at the lowest address, or the highest.
#[derive(Clone, Copy)]
pub enum Endian {
    Little,
    Big,
}

/// How a jump is made: to an address that the instruction names, or to one that the state gives. A call keeps its return address in a link register.
#[derive(Clone, Copy)]
pub enum How {
    Direct,
    DirectCall,
    Indirect,
    IndirectCall,
}

/// How a step ends: at the next address, by a jump, or by an exception that leaves the state as it was (an odd address of a halfword, a trap, an unaligned
/// address of a load to the program counter).
#[derive(Clone, Copy)]
pub enum StepOut {
    Next,
    Jump { to: u32, how: How },
    Halfword,
    Trap,
    Align,
}

/// A machine's state, as notes read it.
pub trait View {
    /// The state that it stands for.
    ghost view: { Self → State };

    /// The number of the register in which calls leave their return address.
    ghost link_register: { ℕ };

    /// Which numbers are registers of the machine.
    ghost has_register: { ℕ → Bool };

    /// A register.
    fn reg(&self, r: u8) -> u32
        requires { IsTrue (has_register r) }
        ensures { result ≡ (view self.now).regs r };

    /// Whether a flag is set, N being 3, Z 2, C 1 and V 0.
    fn flag(&self, f: u8) -> bool
        requires { f ≤ 3 }
        ensures set { result ≡ ((view self.now).flags f == 1) }
        ensures bit { (view self.now).flags f < 2 };

    /// The address of the step at hand.
    fn pc(&self) -> u32
        ensures { result ≡ (view self.now).pc };

    /// The register in which calls leave their return address.
    fn link(&self) -> u32
        ensures { result ≡ (view self.now).regs link_register };

    /// The number of `n` bytes at an address, 1 to 8 of them; addresses wrap.
    fn load(&self, a: u32, n: u8, endian: Endian) -> Word
        requires some { 1 ≤ n }
        requires few { n ≤ 8 }
        ensures width { result.width ≡ 8 * n }
        ensures bits { result.bits ≡ memory.load (endian_of endian) n (view self.now).mem a };
}
