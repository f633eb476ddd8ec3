//! What a machine is to everything above its table: its instructions, what each does, and the list of statements that says the same.
//!
//! Everything above this crate is written once for any machine and believes only what stands here.
#![tactic(auto)]

ghost use Rattle.std.specs.Prelude.{◌≡◌, ◌≤◌, ◌<◌, ◌+◌, ◌^◌, ℕ, Some, [], length, option_map, IfOk, OnOk, OnErr};
ghost use Rattle.machine_spec.specs.Machine as table;
ghost use Rattle.machine_spec.specs.MachineLaws.{IsFitted, IsLawfulMachine, IsLifting, with_memory};
ghost use Rattle.word_spec.specs.Memory.{Little, store};
ghost use Rattle.word_spec.specs.State.{IsState};
ghost use Rattle.machine_spec.specs.Bil as bil;
ghost use Rattle.machine_spec.specs.StateText as texts;
ghost use Rattle.bil_ast.specs.Views.{statements};
ghost use Rattle.byte_mem.specs.Views.{IsStep};
ghost use Rattle.start_value.specs.Starts.{layout_of, written_of};
ghost use Rattle.machine_law.specs.Facts.{cost_of, successors_of, IsFlagUse, IsFit, made};

mod facts;
mod lengths;
mod words;

use bil_ast::Stmt;
use byte_mem::{Bytes32, StepOut, View};
pub use facts::{Cost, FlagUse, Succ};
pub use lengths::{is_narrow, length, taken, unit};
use start_value::{Layout, Start};
use std::alloc::{AllocError, Global};
pub use words::lift_word;

/// A machine with a table of instructions.
pub trait Machine {
    /// An instruction.
    type Insn: Drop;

    /// A state.
    type State: View + Drop;

    /// The machine of the definitions.
    ghost machine: { table.Machine };

    /// Which registers its lifted code names.
    ghost bank: { bil.Bank };

    /// The form of its state texts.
    ghost form: { texts.Layout };

    /// The row of an instruction.
    ghost row: { Self.Insn → table.Row };

    /// How many bytes a state can store without taking memory.
    ghost spare: { Self.State → ℕ };

    /// The instruction of a word: none exactly where the table has no row for it.
    fn decode(word: u32) -> Option<Self::Insn>
        ensures { option_map row result ≡ machine.row word };

    /// Does to the state what the row does under a choice, 0 to 3, and says how it went on. An exception leaves the state as it was. It takes no memory: the
    /// state has to have room for 64 bytes.
    fn step(insn: &Self::Insn, state: &mut Self::State, choice: u8) -> StepOut
        requires { 64 ≤ spare state.old }
        ensures step { IsStep (Self.State.view state.old) (Self.State.view state.new) result ((row insn.now).effect (Self.State.view state.old) choice) }
        ensures room { spare state.old ≤ spare state.new + 64 };

    /// The first address and the number of the bytes that the row stores in the state.
    fn stored(insn: &Self::Insn, state: &Self::State) -> Option<(u32, u8)>
        ensures { result ≡ (row insn.now).stored (Self.State.view state.now) };

    /// The first address and the number of the bytes that the row loads in the state.
    fn loaded(insn: &Self::Insn, state: &Self::State) -> Option<(u32, u8)>
        ensures { result ≡ (row insn.now).loaded (Self.State.view state.now) };

    /// The statements that do what the row does where it stands at an address. The error is want of memory.
    fn lift(alloc: Global, insn: &Self::Insn, at: u32) -> Result<Vec<Stmt>, AllocError>
        ensures { IfOk result (λ list. IsLifting machine bank (row insn.now) at (statements list.items)) };

    /// The static successors of the row where it stands at an address.
    fn successors(insn: &Self::Insn, at: u32) -> Succ
        ensures { successors_of result ≡ (row insn.now).successors at };

    /// The pair target of two instructions, the second at an address, the first before it.
    fn pair(before: &Self::Insn, insn: &Self::Insn, at: u32) -> Option<u32>
        ensures { result ≡ table.pair_of (Some (row before.now)) (Some (row insn.now)) at };

    /// The address of the literal that the row loads where it stands at an address.
    fn literal(insn: &Self::Insn, at: u32) -> Option<u32>
        ensures { result ≡ (row insn.now).literal at };

    /// The price of the row's point, and its byte loads and stores.
    fn cost(insn: &Self::Insn) -> Cost
        ensures { cost_of result ≡ (row insn.now).cost };

    /// The flags that the row reads, may assign, and surely assigns.
    fn flags(insn: &Self::Insn) -> FlagUse
        ensures { IsFlagUse result (row insn.now).flags };

    /// Whether the row reads the choice.
    fn draws(insn: &Self::Insn) -> bool
        ensures { result ≡ (row insn.now).draws };

    /// Whether the row keeps the address after it in the link register where it calls.
    fn links(insn: &Self::Insn) -> bool
        ensures { result ≡ (row insn.now).links };

    /// How many bytes the row has that begins with a halfword: 2 where the machine has rows of 2 bytes and the low two bits are not 11, and else 4.
    fn width(first: u16) -> u8
        ensures { result ≡ table.width machine.narrow first };

    /// The number of the link register.
    fn link() -> u8
        ensures { result ≡ machine.link };

    /// The form of the machine's state texts.
    fn layout() -> Layout
        ensures { layout_of result ≡ form };

    /// The state of a start at an address, with the memory that is handed in: the start's bytes and choices play no part.
    /// The start has to have the registers and the flags of the form, and no more.
    fn make(start: &Start, pc: u32, memory: Bytes32) -> Self::State
        requires { IsFit form (written_of start.now) }
        ensures view { Self.State.view result ≡ made form (written_of start.now) pc memory.entries }
        ensures room { spare result ≡ memory.spare };

    /// Puts the registers and the flags of a start into a state, at an address. The memory stays: the start's bytes and choices play no part. The start has to
    /// have the registers and the flags of the form, and no more. It takes no memory.
    fn give(state: &mut Self::State, start: &Start, pc: u32)
        requires { IsFit form (written_of start.now) }
        ensures view { Self.State.view state.new ≡ with_memory (made form (written_of start.now) pc []) (Self.State.view state.old).mem }
        ensures room { spare state.new ≡ spare state.old };

    /// An equal state; its room is open. The error is want of memory.
    fn copy(alloc: Global, state: &Self::State) -> Result<Self::State, AllocError>
        ensures { IfOk result (λ copy. Self.State.view copy ≡ Self.State.view state.now) };

    /// Makes room for stores of `n` bytes. The error is want of memory; the state is the same either way.
    fn reserve(state: &mut Self::State, n: usize) -> Result<(), AllocError>
        ensures same { Self.State.view state.new ≡ Self.State.view state.old }
        ensures room { OnOk result (n ≤ spare state.new) };

    /// Changes the byte at an address. It takes no memory: the state has to have room for a byte.
    fn put(state: &mut Self::State, at: u32, byte: u8)
        requires { 1 ≤ spare state.old }
        ensures view { Self.State.view state.new ≡ with_memory (Self.State.view state.old) (store Little 1 (Self.State.view state.old).mem at byte) }
        ensures room { spare state.old ≤ spare state.new + 1 };

    /// Every row of the table is lawful, and as long as its first halfword says.
    ghost lawful: { IsLawfulMachine machine };

    /// The parts of every state are in range.
    ghost states: { (s : Self.State) → IsState (Self.State.view s) };

    /// A state's link register is the machine's.
    ghost same_link: { Self.State.link_register ≡ machine.link };

    /// A state's registers are the machine's.
    ghost same_registers: { Self.State.has_register ≡ machine.has_register };

    /// The form of its state texts names its registers and flags, at most 31 and 4, among them the link register.
    ghost fitted: { IsFitted machine form };
}
