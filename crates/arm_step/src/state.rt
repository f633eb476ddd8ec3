//! The state of ARM.
ghost use Rattle.std.specs.Prelude.{ℕ, ◌<◌, ◌^◌};
ghost use Rattle.word_spec.specs.Memory.{memory_of};

use crate::flags::Flags;
use crate::registers::Registers;
use arm_decode::{AnyRegister, Register};
use bv_word::Word;
use byte_mem::{Bytes32, Endian, How, StepOut, View};
use std::alloc::{AllocError, Global};

/// The program counter, the registers r0 to r14, the flags, and the memory.
#[derive(Drop)]
pub struct State {
    pc: u32,
    registers: Registers,
    flags: Flags,
    memory: Bytes32,
    ghost pc_in_range: { pc < 2 ^ 32 },
    ghost bytes_in_range: { (a : ℕ) → memory_of memory.entries a < 256 },
}

impl View for State {
    ghost use Rattle.word_spec.specs.Profiles.{V4};
    ghost use Rattle.machine_spec.specs.Arm.{arm};
    ghost use Rattle.word_spec.specs.Memory.{Little};
    ghost use Rattle.arm_step.specs.States.{state_of};

    ghost view = { state_of };

    ghost link_register = { (arm Little V4).link };

    ghost has_register = { (arm Little V4).has_register };

    fn reg(&self, r: u8) -> u32 {
        self.registers.read(r)
    }

    fn flag(&self, f: u8) -> bool {
        self.flags.get(f)
    }

    fn pc(&self) -> u32 {
        self.pc
    }

    fn link(&self) -> u32 {
        self.registers.read(14)
    }

    fn load(&self, a: u32, n: u8, endian: Endian) -> Word {
        self.memory.load(a, n, endian)
    }
}

impl State {
    ghost use Rattle.std.specs.Prelude.{◌≡◌, ◌≤◌, ◌+◌, ◌*◌, length, OnOk, OnErr, IfOk};
    ghost use Rattle.word_spec.specs.Memory as memory;
    ghost use Rattle.word_spec.specs.Memory.{Little, store};
    ghost use Rattle.word_spec.specs.State as machine;
    ghost use Rattle.word_spec.specs.State.{put, with_pc};
    ghost use Rattle.machine_spec.specs.Arm as rows;
    ghost use Rattle.word_spec.specs.Words as words;
    ghost use Rattle.word_spec.specs.Words.{add, bit, bit_at};
    ghost use Rattle.byte_mem.specs.Views.{endian_of, IsStep};
    ghost use Rattle.arm_step.specs.Parts.{flags_of};
    ghost use Rattle.arm_step.specs.RegisterFile.{registers_of};
    ghost use Rattle.arm_step.specs.States.{state_of, spare_of};

    /// The state with a memory at an address, whose registers r0 to r14 are given in order, and whose flags are those of a number, as N 8, Z 4, C 2 and V 1.
    pub fn new(pc: u32, registers: &[u32], flags: u8, memory: Bytes32) -> State
        requires registers { length registers.now ≡ 15 }
        requires flags { flags < 16 }
        ensures state { state_of result ≡ record { pc = pc; regs = registers_of registers.now; flags = λ f. bit_at f flags; mem = memory_of memory.entries } }
        ensures spare { spare_of result ≡ memory.spare }
    {
        memory.bytes_fit();
        State {
            pc,
            registers: Registers::of(registers),
            flags: Flags::of(flags),
            memory,
        }
    }

    /// Changes the registers r0 to r14, which are given in order, the flags, which are those of a number, as N 8, Z 4, C 2 and V 1, and the address.
    pub fn give(&mut self, pc: u32, registers: &[u32], flags: u8)
        requires registers { length registers.now ≡ 15 }
        requires flags { flags < 16 }
        ensures state { state_of self.new ≡ record (state_of self.old) { pc = pc; regs = registers_of registers.now; flags = λ f. bit_at f flags } }
        ensures spare { spare_of self.new ≡ spare_of self.old }
    {
        self.pc = pc;
        self.registers = Registers::of(registers);
        self.flags = Flags::of(flags);
    }

    /// Makes room for stores of `n` bytes. The error is want of memory, and nothing has changed.
    pub fn reserve(&mut self, n: usize) -> Result<(), AllocError>
        ensures state { OnOk result (state_of self.new ≡ state_of self.old) }
        ensures room { OnOk result (n ≤ spare_of self.new) }
        ensures spare { OnOk result (spare_of self.old ≤ spare_of self.new) }
        ensures err { OnErr result (self.new ≡ self.old) }
    {
        self.memory.reserve(n)?;
        Ok(())
    }

    /// An equal state. The error is want of memory.
    pub fn copy(&self, alloc: Global) -> Result<State, AllocError>
        ensures { IfOk result (λ copy. state_of copy ≡ state_of self.now) }
    {
        let memory = self.memory.copy(alloc)?;
        Ok(State {
            pc: self.pc,
            registers: self.registers,
            flags: self.flags,
            memory,
        })
    }

    /// The memory.
    pub fn memory(&self) -> &Bytes32
        ensures { memory_of result.now.entries ≡ (state_of self.now).mem }
    {
        &self.memory
    }

    /// The flags.
    pub fn flags(&self) -> Flags
        ensures { flags_of result ≡ (state_of self.now).flags }
    {
        self.flags
    }

    /// What a register reads: r15 is the address of the step and 8 (section A2.4).
    #[tactic(auto, using(crate::proofs::ReadRegisters::plain))]
    pub fn read_any(&self, r: AnyRegister) -> u32
        ensures { result ≡ rows.reg (state_of self.now) r.number }
    {
        let number = r.number();
        if number == 15 {
            self.pc.wrapping_add(8)
        } else {
            self.registers.read(number)
        }
    }

    /// What a register reads.
    #[tactic(auto, using(crate::proofs::ReadRegisters::plain))]
    pub fn read(&self, r: Register) -> u32
        ensures reg { result ≡ rows.reg (state_of self.now) r.number }
        ensures regs { result ≡ (state_of self.now).regs r.number }
    {
        self.registers.read(r.number())
    }

    /// What is stored of a register: of r15 it is the address of the step and 8, or 12 where the choice's low bit is set.
    #[tactic(auto, using(crate::proofs::ReadRegisters::has_low_bit))]
    pub fn read_stored(&self, r: AnyRegister, choice: u8) -> u32
        ensures { result ≡ rows.stored_reg (state_of self.now) choice r.number }
    {
        let number = r.number();
        if number == 15 {
            self.pc.wrapping_add(if choice % 2 == 1 { 12 } else { 8 })
        } else {
            self.registers.read(number)
        }
    }

    /// Changes a register.
    pub fn set(&mut self, rd: Register, value: u32)
        ensures state { state_of self.new ≡ record (state_of self.old) { regs = put (state_of self.old).regs rd.number value } }
        ensures spare { spare_of self.new ≡ spare_of self.old }
    {
        self.registers.write(rd, value);
    }

    /// Changes the flags.
    pub(crate) fn set_flags(&mut self, flags: Flags)
        ensures state { state_of self.new ≡ record (state_of self.old) {
          flags = rows.with_flags (state_of self.old).flags (bit flags.n) (bit flags.z)
              (bit flags.c) (bit flags.v);
        } }
        ensures spare { spare_of self.new ≡ spare_of self.old }
    {
        self.flags = flags;
    }

    /// Goes on to the next address.
    pub(crate) fn go_on(&mut self) -> StepOut
        ensures out { result ≡ StepOut.Next }
        ensures state { state_of self.new ≡ with_pc (state_of self.old) (add 32 (state_of self.old).pc 4) }
        ensures spare { spare_of self.new ≡ spare_of self.old }
    {
        self.pc = self.pc.wrapping_add(4);
        StepOut::Next
    }

    /// Jumps.
    pub(crate) fn jump(&mut self, to: u32, how: How) -> StepOut
        ensures out { result ≡ StepOut.Jump to how }
        ensures state { state_of self.new ≡ with_pc (state_of self.old) to }
        ensures spare { spare_of self.new ≡ spare_of self.old }
    {
        self.pc = to;
        StepOut::Jump { to, how }
    }

    /// The number of `n` bytes at an address, 1, 2 or 4 of them.
    pub(crate) fn loaded(&self, a: u32, n: u8, endian: Endian) -> u32
        requires some { 1 ≤ n }
        requires few { n ≤ 4 }
        ensures number { result ≡ memory.load (endian_of endian) n (state_of self.now).mem a }
        ensures fits { result < 2 ^ (8 * n) }
    {
        let loaded = self.memory.load(a, n, endian);
        loaded.unsigned(32).bits as u32
    }

    /// Stores the low `n` bytes of a word at an address.
    pub(crate) fn store(&mut self, a: u32, n: u8, endian: Endian, value: u32)
        requires some { 1 ≤ n }
        requires few { n ≤ 4 }
        requires room { n ≤ spare_of self.old }
        ensures state { state_of self.new ≡ record (state_of self.old) { mem = store (endian_of endian) n (state_of self.old).mem a value } }
        ensures spare { spare_of self.old ≤ spare_of self.new + n }
    {
        let low = Word::new(32, value as u64).low(8 * n);
        self.memory.store_reserved(a, n, endian, low);
    }

    /// Changes the byte at an address.
    pub fn put(&mut self, at: u32, byte: u8)
        requires { 1 ≤ spare_of self.old }
        ensures state { state_of self.new ≡ record (state_of self.old) { mem = store Little 1 (state_of self.old).mem at byte } }
        ensures spare { spare_of self.old ≤ spare_of self.new + 1 }
    {
        self.store(at, 1, Endian::Little, byte as u32);
    }
}
