//! Lists with loops, which no machine lifts, and a sum: sizes, copies, texts, types and runs.
ghost use Rattle.std.specs.Prelude.{◌≡◌, true, IfOk};
ghost use Rattle.machine_spec.specs.BilCounts.{list_names_only, names_only};
ghost use Rattle.machine_spec.specs.Bil.{Empty};
ghost use Rattle.bil_ast.specs.Views.{expression, statement, statements};
ghost use Rattle.bil_eval.specs.Views.{is_machine};

use bil_ast::{Bank, BilType, BinaryOp, CastKind, Exp, Local, Stmt, Var, Width};
use bil_eval::{End, Env, EvalFault, Machine, eval};
use bil_print::print_stmts;
use bil_types::{Need, TypeFault, check, type_of};
use bv_word::Word;
use byte_mem::{Bytes32, Endian};
use std::alloc::{AllocError, Global};
use std::test::Fail;

const X10: Var = Var::Register(Bank::XRegisters, 10);

/// A loop that ends by itself only where the choice's lowest bit is 0.
fn spins(alloc: Global) -> Result<Vec<Stmt>, AllocError>
    ensures { IfOk result (λ list. list_names_only (statements list.items) is_machine ≡ true) }
{
    let seen = Stmt::Special(String::from_str(alloc, "seen")?);
    let bit = Exp::Unknown(BilType::Bits(Width::new(1)));
    let list = vec![in alloc; Stmt::repeat(bit, vec![in alloc; seen]?)]?;
    Ok(list)
}

/// A jump, and behind it a loop that never ends: a list goes on behind a jump.
fn endless(alloc: Global) -> Result<Vec<Stmt>, AllocError>
    ensures { IfOk result (λ list. list_names_only (statements list.items) is_machine ≡ true) }
{
    let jump = Stmt::Jump(Exp::Constant(Word::new(32, 4)));
    let always = Exp::Constant(Word::new(1, 1));
    let list = vec![in alloc; jump, Stmt::repeat(always, Vec::new(alloc))]?;
    Ok(list)
}

/// The sum of `x10` and a word.
fn sum(alloc: Global, word: Word) -> Result<Exp, AllocError>
    ensures { IfOk result (λ e. names_only (expression e) is_machine ≡ true) }
{
    let sum = Exp::binary(alloc, BinaryOp::Plus, Exp::Var(X10), Exp::Constant(word))?;
    Ok(sum)
}

/// Adds 1 to `x10`.
fn one_more(alloc: Global) -> Result<Vec<Stmt>, AllocError>
    ensures { IfOk result (λ list. list_names_only (statements list.items) is_machine ≡ true) }
{
    let sum = sum(alloc, Word::new(32, 1))?;
    let list = vec![in alloc; Stmt::Assign(X10, sum)]?;
    Ok(list)
}

/// Adds 1 to `x10` while it is below a word.
fn counts_to(alloc: Global, word: Word) -> Result<Stmt, AllocError>
    ensures { IfOk result (λ s. list_names_only (statement s Empty) is_machine ≡ true) }
{
    let below = Exp::binary(alloc, BinaryOp::Less, Exp::Var(X10), Exp::Constant(word))?;
    let body = one_more(alloc)?;
    Ok(Stmt::repeat(below, body))
}

/// A jump, and behind it two loops of three turns each from 0.
fn two_counts(alloc: Global) -> Result<Vec<Stmt>, AllocError>
    ensures { IfOk result (λ list. list_names_only (statements list.items) is_machine ≡ true) }
{
    let first = counts_to(alloc, Word::new(32, 3))?;
    let second = counts_to(alloc, Word::new(32, 6))?;
    let jump = Stmt::Jump(Exp::Constant(Word::new(32, 4)));
    let list = vec![in alloc; jump, first, second]?;
    Ok(list)
}

/// A byte behind its own highest bit, by a local.
fn bound(alloc: Global) -> Result<Exp, AllocError> {
    let width = Width::new(8);
    let local = Local { number: 3, width };
    let memory = Exp::Var(Var::Memory);
    let byte = Exp::load(alloc, memory, Exp::Var(X10), Endian::Big, width)?;
    let high = Exp::cast(
        alloc,
        CastKind::High,
        Width::new(1),
        Exp::Var(Var::Local(local)),
    )?;
    let both = Exp::concat(alloc, high, Exp::Var(Var::Local(local)))?;
    Exp::bind(alloc, local, byte, both)
}

/// A word of 8 bits stored where 32 are said.
fn short_store(alloc: Global) -> Result<Exp, AllocError> {
    let memory = Exp::Var(Var::Memory);
    let byte = Exp::Constant(Word::new(8, 1));
    Exp::store(
        alloc,
        memory,
        Exp::Var(X10),
        Endian::Little,
        Width::new(32),
        byte,
    )
}

/// The text of a copy of a list.
fn copied_text(alloc: Global, list: &[Stmt]) -> Result<Vec<u8>, AllocError> {
    let copy = Stmt::copy_list(list, alloc)?;
    print_stmts(alloc, &copy)
}

/// A loop and a remark, which no lifted list has, and forms that those of RV32IM have not.
#[test]
fn copies_are_printed(rt: HostRuntime) -> Result<(), AllocError> {
    let mut list = spins(rt.alloc())?;
    list.push(Stmt::Assign(X10, bound(rt.alloc())?))?;
    assert_eq!(rt; Stmt::list_size(&list), 12);
    let text = copied_text(rt.alloc(), &list)?;
    let expected = b"while unknown[imm<1>]:1 {
  special (seen)
}
x10 := let v3_8 = mem[x10, be]:8 in (high:1[v3_8] @ v3_8)
";
    assert_eq!(rt; text.as_slice(), expected.as_slice());
    Ok(())
}

/// A word of 8 bits stands where 32 are asked by the first node.
fn fault() -> TypeFault {
    TypeFault {
        place: 0,
        need: Need::Bits(Width::new(32)),
        found: BilType::Bits(Width::new(8)),
    }
}

/// In a list and in an expression.
#[test]
fn faults_of_type_are_found(rt: HostRuntime) -> Result<(), AllocError> {
    let list = [Stmt::Jump(Exp::Constant(Word::new(8, 1)))];
    assert_eq!(rt; check(&list), Err(fault()));
    let sum = sum(rt.alloc(), Word::new(8, 1))?;
    assert_eq!(rt; type_of(&sum), Err(fault()));
    Ok(())
}

#[test]
fn stored_words_have_their_width(rt: HostRuntime) -> Result<(), AllocError> {
    let store = short_store(rt.alloc())?;
    assert_eq!(rt; type_of(&store), Err(fault()));
    Ok(())
}

#[test]
fn the_highest_bit_is_cast(rt: HostRuntime) -> Result<(), AllocError> {
    let both = bound(rt.alloc())?;
    assert_eq!(rt; type_of(&both), Ok(BilType::Bits(Width::new(9))));
    Ok(())
}

/// How a list ends with a choice, from registers that all hold a value and a memory of zeros, within five turns, and what `x10` holds then.
fn outcome(alloc: Global, list: &[Stmt], value: u32, choice: u8) -> Result<(End, u32), EvalFault>
    requires { list_names_only (statements list.now) is_machine ≡ true }
{
    if check(list).is_err() {
        return Ok((End::Exn(0), value));
    }
    let machine = Machine {
        registers: [value; 32],
        flags: [false; 4],
        memory: Bytes32::new(alloc),
        choice,
    };
    let locals = Vec::new(alloc);
    let mut env = Env { machine, locals };
    let end = eval(alloc, list, &mut env, 5)?;
    Ok((end, env.machine.registers[10]))
}

#[test]
fn sums_wrap(rt: HostRuntime) -> Result<(), Fail> {
    let list = one_more(rt.alloc())?;
    assert_eq!(rt;
        outcome(rt.alloc(), &list, 0xffff_ffff, 0),
        Ok((End::Next, 0))
    );
    Ok(())
}

#[test]
fn turns_are_counted(rt: HostRuntime) -> Result<(), Fail> {
    let list = endless(rt.alloc())?;
    assert_eq!(rt;
        outcome(rt.alloc(), &list, 0, 0),
        Err(EvalFault::OutOfTurns)
    );
    let list = spins(rt.alloc())?;
    assert_eq!(rt;
        outcome(rt.alloc(), &list, 0, 1),
        Err(EvalFault::OutOfTurns)
    );
    assert_eq!(rt; outcome(rt.alloc(), &list, 7, 2), Ok((End::Next, 7)));
    let list = two_counts(rt.alloc())?;
    assert_eq!(rt; outcome(rt.alloc(), &list, 2, 0), Ok((End::Jump(4), 6)));
    assert_eq!(rt;
        outcome(rt.alloc(), &list, 0, 0),
        Err(EvalFault::OutOfTurns)
    );
    Ok(())
}
