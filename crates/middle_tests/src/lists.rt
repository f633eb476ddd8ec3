//! The lists of instructions as terms, against their runs.
ghost use Rattle.std.specs.Prelude.{◌≡◌, true, false, IfOk};
ghost use Rattle.machine_spec.specs.Bil.{XRegisters};
ghost use Rattle.machine_spec.specs.BilCounts.{list_names_only};
ghost use Rattle.machine_spec.specs.BilTyping.{IsWellTyped};
ghost use Rattle.machine_spec.specs.Machine.{Row};
ghost use Rattle.machine_spec.specs.MachineLaws.{IsLifting};
ghost use Rattle.machine_spec.specs.RvMachine.{rv32};
ghost use Rattle.bil_ast.specs.Views.{statements};
ghost use Rattle.bil_eval.specs.Views.{held, is_machine};

use crate::numbers::{next, word};
use bil_ast::Stmt;
use bil_eval::{End, Env, Machine, eval};
use bil_terms::{Left, run_list};
use bv_word::Word;
use byte_mem::{Bytes32, Endian};
use machine_law::lift_word;
use rv_lift::Rv32;
use std::alloc::{AllocError, Global};
use term_dag::{Dag, Reading, Term};
use term_names::{Names, entry_names};

/// A word for each instruction of RV32IM, most from `a0` and `a1` to `a2`, and some that write `x0`.
const WORDS: [u32; 51] = [
    // lui, auipc, jal, jalr
    0x1234_5637,
    0x89ab_c617,
    0x0080_00ef,
    0xffc5_00e7,
    // beq, bne, blt, bge, bltu, bgeu
    0x00b5_0463,
    0xfeb5_1ce3,
    0x00b5_4463,
    0xfeb5_5ce3,
    0x00b5_6863,
    0x00b5_7463,
    // lb, lh, lw, lbu, lhu
    0x0015_0603,
    0x0025_1603,
    0xffc5_2603,
    0x0035_4603,
    0x0055_5603,
    // sb, sh, sw
    0x00b5_00a3,
    0xfeb5_1f23,
    0x00b5_2223,
    // addi, slti, sltiu, xori, ori, andi
    0xfff5_0613,
    0xffd5_2613,
    0x01f5_3613,
    0xfff5_4613,
    0x7f05_6613,
    0xff05_7613,
    // slli, srli, srai
    0x0055_1613,
    0x01f5_5613,
    0x4075_5613,
    // add, sub, sll, slt, sltu, xor, srl, sra, or, and
    0x00b5_0633,
    0x40b5_0633,
    0x00b5_1633,
    0x00b5_2633,
    0x00b5_3633,
    0x00b5_4633,
    0x00b5_5633,
    0x40b5_5633,
    0x00b5_6633,
    0x00b5_7633,
    // mul, mulh, mulhsu, mulhu, div, divu, rem, remu
    0x02b5_0633,
    0x02b5_1633,
    0x02b5_2633,
    0x02b5_3633,
    0x02b5_4633,
    0x02b5_5633,
    0x02b5_6633,
    0x02b5_7633,
    // fence, ecall, ebreak
    0x0ff0_000f,
    0x0000_0073,
    0x0010_0073,
    // addi, lw, jalr to x0
    0x0015_0013,
    0x0005_2003,
    0x0000_8067,
];

/// Registers without a plain order.
fn registers(seed: &mut u32) -> [u32; 32] {
    let mut registers = [0u32; 32];
    for place in 1..32 {
        registers[place] = next(seed);
    }
    registers
}

/// A memory with eight bytes from an address on.
fn memory(alloc: Global, at: u32, bits: u64) -> Result<Bytes32, AllocError> {
    let mut memory = Bytes32::new(alloc);
    memory.store(at, 8, Endian::Little, Word::new(64, bits))?;
    Ok(memory)
}

/// The state with registers and eight bytes from the address in `a0` on, as what terms are read under.
fn reading_of(alloc: Global, registers: &[u32; 32], bits: u64) -> Result<Reading, AllocError> {
    let memory = memory(alloc, registers[10], bits)?;
    let registers = Vec::from_slice(alloc, registers)?;
    Ok(Reading {
        registers,
        flags: Vec::new(alloc),
        memory,
        fill: 0,
        choices: Vec::new(alloc),
        base: Vec::new(alloc),
    })
}

/// The same state, as what a list runs on.
fn env_of(alloc: Global, registers: [u32; 32], bits: u64) -> Result<Env, AllocError>
    ensures { IfOk result (λ e. held e.locals.items ≡ is_machine) }
{
    let memory = memory(alloc, registers[10], bits)?;
    let machine = Machine {
        registers,
        flags: [false; 4],
        memory,
        choice: 0,
    };
    let locals = Vec::new(alloc);
    Ok(Env { machine, locals })
}

/// Whether terms say how a list ends: whether it raises, whether it jumps, and where to.
fn is_end(words: &[u64], left: &Left, end: End) -> bool {
    let raised = word(words, left.raised);
    let jumped = word(words, left.jumped);
    match end {
        End::Exn(_) => raised == 1,
        End::Next => raised == 0 && jumped == 0,
        End::Jump(to) => raised == 0 && jumped == 1 && word(words, left.target) == u64::from(to),
    }
}

/// Whether terms are the registers of a machine.
fn are_registers(words: &[u64], names: &Names, machine: &Machine) -> bool {
    for place in 0..31 {
        match names.registers.get(place) {
            Some(term) if word(words, *term) == u64::from(machine.registers[place + 1]) => {}
            _ => return false,
        }
    }
    true
}

/// Whether a term has the bytes of a machine near the address in `a0`.
fn is_memory(
    alloc: Global,
    dag: &Dag,
    reading: &Reading,
    term: Term,
    machine: &Machine,
) -> Result<bool, AllocError> {
    if term.0 as usize >= dag.nodes() {
        return Ok(false);
    }
    let words = dag.values(alloc, reading)?;
    let first = machine.registers[10].wrapping_sub(4);
    for place in 0..16 {
        let at = first.wrapping_add(place);
        let byte = machine.memory.load(at, 1, Endian::Little).bits;
        if u64::from(dag.byte(&words, reading, term, at)) != byte {
            return Ok(false);
        }
    }
    Ok(true)
}

/// Whether terms say how a list ends, and what it leaves where it raises nothing.
fn agrees(
    alloc: Global,
    dag: &Dag,
    reading: &Reading,
    left: &Left,
    end: End,
    machine: &Machine,
) -> Result<bool, AllocError> {
    let words = dag.values(alloc, reading)?;
    if !is_end(&words, left, end) {
        return Ok(false);
    }
    if matches!(end, End::Exn(_)) {
        return Ok(true);
    }
    if !are_registers(&words, &left.names, machine) {
        return Ok(false);
    }
    is_memory(alloc, dag, reading, left.names.memory, machine)
}

/// Whether under a reading the terms are what the list comes to.
fn compare(
    alloc: Global,
    dag: &Dag,
    left: &Left,
    list: &[Stmt],
    seed: &mut u32,
) -> Result<bool, AllocError>
    requires typed { IsWellTyped (statements list.now) }
    requires names { list_names_only (statements list.now) is_machine ≡ true }
{
    let registers = registers(seed);
    let bits = u64::from(next(seed)) << 32 | u64::from(next(seed));
    let reading = reading_of(alloc, &registers, bits)?;
    let mut env = env_of(alloc, registers, bits)?;
    match eval(alloc, list, &mut env, 0) {
        Ok(end) => agrees(alloc, dag, &reading, left, end, &env.machine),
        Err(_) => Ok(false),
    }
}

/// The list of a word.
fn lifted(alloc: Global, word: u32) -> Result<Vec<Stmt>, AllocError>
    ensures { IfOk result (λ v. (row : Row) × IsLifting (rv32 false) XRegisters row 65536 (statements v.items)) }
{
    match lift_word::<Rv32<0>>(alloc, word, 0x1_0000)? {
        None => Err(AllocError),
        Some(list) => Ok(list),
    }
}

/// Whether terms agree with a list under 20 readings.
fn agrees_always(
    alloc: Global,
    dag: &Dag,
    left: &Left,
    list: &[Stmt],
    seed: &mut u32,
) -> Result<bool, AllocError>
    requires typed { IsWellTyped (statements list.now) }
    requires names { list_names_only (statements list.now) is_machine ≡ true }
{
    for _ in 0..20 {
        if !compare(alloc, dag, left, list, seed)? {
            return Ok(false);
        }
    }
    Ok(true)
}

/// A list as terms over the state at entry.
fn terms_of(alloc: Global, dag: &mut Dag, list: &[Stmt]) -> Result<Left, AllocError>
    requires { (row : Row) × IsLifting (rv32 false) XRegisters row 65536 (statements list.now) }
{
    let names = entry_names(alloc, dag, 1, 31, 0)?;
    let left = run_list(alloc, dag, list, &names, 0)?;
    Ok(left)
}

/// Whether a list as terms agrees with its runs.
fn try_list(alloc: Global, list: &[Stmt], seed: &mut u32) -> Result<bool, AllocError>
    requires { (row : Row) × IsLifting (rv32 false) XRegisters row 65536 (statements list.now) }
{
    let mut dag = Dag::new(alloc);
    let left = terms_of(alloc, &mut dag, list)?;
    agrees_always(alloc, &dag, &left, list, seed)
}

#[test]
fn lists_as_terms_are_as_their_runs(rt: HostRuntime) -> Result<(), AllocError> {
    let mut seed = 0x2545_f491;
    for word in WORDS {
        let list = lifted(rt.alloc(), word)?;
        assert!(rt; try_list(rt.alloc(), &list, &mut seed)?, "{word:08x}");
    }
    Ok(())
}
