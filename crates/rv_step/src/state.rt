//! The state of RV32IM.
ghost use Rattle.std.specs.Prelude.{ℕ, ◌<◌, ◌^◌};
ghost use Rattle.word_spec.specs.Memory.{memory_of};

use crate::registers::Registers;
use bv_word::Word;
use byte_mem::{Bytes32, Endian, How, StepOut, View};
use rv_decode::Register;
use std::alloc::{AllocError, Global};

/// The program counter, the registers x1 to x31, and the memory.
#[derive(Drop)]
pub struct State {
    pc: u32,
    registers: Registers,
    memory: Bytes32,
    ghost pc_in_range: { pc < 2 ^ 32 },
    ghost bytes_in_range: { (a : ℕ) → memory_of memory.entries a < 256 },
}

impl View for State {
    ghost use Rattle.machine_spec.specs.RvMachine.{rv32};
    ghost use Rattle.std.specs.Prelude.{false};
    ghost use Rattle.rv_step.specs.States.{state_of};

    ghost view = { state_of };

    ghost link_register = { (rv32 false).link };

    ghost has_register = { (rv32 false).has_register };

    fn reg(&self, r: u8) -> u32 {
        self.registers.read(r)
    }

    fn flag(&self, f: u8) -> bool {
        false
    }

    fn pc(&self) -> u32 {
        self.pc
    }

    fn link(&self) -> u32 {
        self.registers.read(1)
    }

    fn load(&self, a: u32, n: u8, endian: Endian) -> Word {
        self.memory.load(a, n, endian)
    }
}

impl State {
    ghost use Rattle.std.specs.Prelude.{◌≡◌, ◌≤◌, ◌+◌, ◌∷◌, length, OnOk, OnErr, IfOk};
    ghost use Rattle.word_spec.specs.Memory.{Little, store};
    ghost use Rattle.word_spec.specs.State.{with_pc};
    ghost use Rattle.machine_spec.specs.MachineLaws.{with_memory};
    ghost use Rattle.machine_spec.specs.Rv.{reg, with_reg};
    ghost use Rattle.word_spec.specs.Words.{add};
    ghost use Rattle.rv_step.specs.RegisterFile.{registers_of};
    ghost use Rattle.rv_step.specs.States.{state_of, spare_of};

    /// The state with a memory at an address, its registers 0.
    pub fn new(pc: u32, memory: Bytes32) -> State
        ensures state { state_of result ≡ record { pc = pc; regs = λ r. 0; flags = λ f. 0; mem = memory_of memory.entries } }
        ensures spare { spare_of result ≡ memory.spare }
    {
        memory.bytes_fit();
        State {
            pc,
            registers: Registers::new(),
            memory,
        }
    }

    /// The state with a memory at an address, whose registers x1 to x31 are given in order.
    pub fn from_registers(pc: u32, registers: &[u32], memory: Bytes32) -> State
        requires { length registers.now ≡ 31 }
        ensures state { state_of result ≡ record { pc = pc; regs = registers_of (0 ∷ registers.now); flags = λ f. 0; mem = memory_of memory.entries } }
        ensures spare { spare_of result ≡ memory.spare }
    {
        memory.bytes_fit();
        State {
            pc,
            registers: Registers::of(registers),
            memory,
        }
    }

    /// Changes the registers x1 to x31, which are given in order, and the address.
    pub fn give(&mut self, pc: u32, registers: &[u32])
        requires { length registers.now ≡ 31 }
        ensures state { state_of self.new ≡ record (state_of self.old) { pc = pc; regs = registers_of (0 ∷ registers.now) } }
        ensures spare { spare_of self.new ≡ spare_of self.old }
    {
        self.pc = pc;
        self.registers = Registers::of(registers);
    }

    /// Changes a register; x0 keeps its value.
    pub fn set(&mut self, rd: Register, value: u32)
        ensures state { state_of self.new ≡ with_reg (state_of self.old) rd.number value }
        ensures spare { spare_of self.new ≡ spare_of self.old }
    {
        self.registers.write(rd, value);
    }

    /// Makes room for stores of `n` bytes. The error is want of memory, and nothing has changed.
    pub fn reserve(&mut self, n: usize) -> Result<(), AllocError>
        ensures state { OnOk result (state_of self.new ≡ state_of self.old) }
        ensures room { OnOk result (n ≤ spare_of self.new) }
        ensures spare { OnOk result (spare_of self.old ≤ spare_of self.new) }
        ensures err { OnErr result (self.new ≡ self.old) }
    {
        self.memory.reserve(n)?;
        Ok(())
    }

    /// An equal state. The error is want of memory.
    pub fn copy(&self, alloc: Global) -> Result<State, AllocError>
        ensures { IfOk result (λ copy. state_of copy ≡ state_of self.now) }
    {
        let memory = self.memory.copy(alloc)?;
        Ok(State {
            pc: self.pc,
            registers: self.registers,
            memory,
        })
    }

    /// Changes the byte at an address; there has to be room for it.
    pub fn put(&mut self, at: u32, byte: u8)
        requires { 1 ≤ spare_of self.old }
        ensures state { state_of self.new ≡ with_memory (state_of self.old) (store Little 1 (state_of self.old).mem at byte) }
        ensures spare { spare_of self.old ≤ spare_of self.new + 1 }
    {
        self.store(at, 1, u32::from(byte));
    }

    /// Stores the low `n` bytes of a word.
    fn store(&mut self, a: u32, n: u8, value: u32)
        requires some { 1 ≤ n }
        requires few { n ≤ 4 }
        requires room { n ≤ spare_of self.old }
        ensures state { state_of self.new ≡ with_memory (state_of self.old) (store Little n (state_of self.old).mem a value) }
        ensures spare { spare_of self.old ≤ spare_of self.new + n }
    {
        let low = Word::new(32, value as u64).low(8 * n);
        self.memory.store_reserved(a, n, Endian::Little, low);
    }

    /// The memory.
    pub fn memory(&self) -> &Bytes32
        ensures { memory_of result.now.entries ≡ (state_of self.now).mem }
    {
        &self.memory
    }

    /// What a register reads.
    #[tactic(auto, using(crate::proofs::X0::reads))]
    pub(crate) fn read(&self, r: Register) -> u32
        ensures { result ≡ reg (state_of self.now) r.number }
    {
        self.registers.read(r.number())
    }

    /// Goes on to the address behind the instruction, which has a length in bytes.
    pub(crate) fn go_on(&mut self, length: u8) -> StepOut
        ensures out { result ≡ StepOut.Next }
        ensures state { state_of self.new ≡ with_pc (state_of self.old) (add 32 (state_of self.old).pc length) }
        ensures spare { spare_of self.new ≡ spare_of self.old }
    {
        self.pc = self.pc.wrapping_add(u32::from(length));
        StepOut::Next
    }

    /// Jumps.
    pub(crate) fn jump(&mut self, to: u32, how: How) -> StepOut
        ensures out { result ≡ StepOut.Jump to how }
        ensures state { state_of self.new ≡ with_pc (state_of self.old) to }
        ensures spare { spare_of self.new ≡ spare_of self.old }
    {
        self.pc = to;
        StepOut::Jump { to, how }
    }

    /// Sets a register, and goes on to the address behind.
    pub(crate) fn set_and_go_on(&mut self, rd: Register, value: u32, length: u8) -> StepOut
        ensures out { result ≡ StepOut.Next }
        ensures state { state_of self.new ≡ with_pc (with_reg (state_of self.old) rd.number value) (add 32 (state_of self.old).pc length) }
        ensures spare { spare_of self.new ≡ spare_of self.old }
    {
        self.set(rd, value);
        self.go_on(length)
    }

    /// Sets a register to the address behind, and jumps.
    pub(crate) fn link_and_jump(&mut self, rd: Register, to: u32, how: How, length: u8) -> StepOut
        ensures out { result ≡ StepOut.Jump to how }
        ensures state { state_of self.new ≡ with_pc (with_reg (state_of self.old) rd.number (add 32 (state_of self.old).pc length)) to }
        ensures spare { spare_of self.new ≡ spare_of self.old }
    {
        let behind = self.pc.wrapping_add(u32::from(length));
        self.set(rd, behind);
        self.jump(to, how)
    }

    /// Stores the low `n` bytes of a word, and goes on to the address behind.
    pub(crate) fn store_and_go_on(&mut self, a: u32, n: u8, value: u32, length: u8) -> StepOut
        requires some { 1 ≤ n }
        requires few { n ≤ 4 }
        requires room { n ≤ spare_of self.old }
        ensures out { result ≡ StepOut.Next }
        ensures state { state_of self.new ≡ with_pc (record (state_of self.old) { mem = store Little n (state_of self.old).mem a value })
            (add 32 (state_of self.old).pc length) }
        ensures spare { spare_of self.old ≤ spare_of self.new + n }
    {
        self.store(a, n, value);
        self.go_on(length)
    }
}
