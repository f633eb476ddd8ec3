//! Values of expressions.

ghost use Rattle.std.specs.Prelude.{◌≡◌, true, IfOk};
ghost use Rattle.machine_spec.specs.Bil as bil;
ghost use Rattle.word_spec.specs.Memory.{memory_of};
ghost use Rattle.machine_spec.specs.BilTyping.{type_width};
ghost use Rattle.machine_spec.specs.BilCounts as counts;
ghost use Rattle.machine_spec.specs.BilMeaning as means;
ghost use Rattle.bil_ast.specs.Views.{bil_type_of, expression};
ghost use Rattle.bil_eval.specs.Checked.{IsMemory, IsWord, is_memory_variable};
ghost use Rattle.bil_eval.specs.Views.{env_of, held};

use crate::env::{LocalWord, Machine, read_word};
use bil_ast::{BilType, Exp, Var};
use bv_word::Word;
use byte_mem::Bytes32;
use std::alloc::{AllocError, Global};
use word_formula::operators;

/// Whether the expression is the machine's memory itself.
fn is_memory_variable(e: &Exp) -> bool
    ensures { result ≡ is_memory_variable (expression e.now) }
{
    match e {
        Exp::Var(Var::Memory) => true,
        _ => false,
    }
}

/// The low bits of the step's choice.
fn unknown_bits(kind: BilType, choice: u8) -> Word
    requires { IsWord (bil.Unknown (bil_type_of kind)) (λ x. true) }
    ensures value { means.unknown (bil_type_of kind) choice ≡ means.Word result.width result.bits }
    ensures width { result.width ≡ type_width (bil_type_of kind) }
{
    match kind {
        BilType::Bits(width) => Word::new(64, choice as u64).low(width.bits),
        BilType::Memory => unreachable!(),
    }
}

/// The value of a word. The error is want of memory.
#[cycle(evaluation)]
pub fn evaluate_word(
    e: &Exp,
    alloc: Global,
    machine: &Machine,
    locals: &mut Vec<LocalWord>,
) -> Result<Word, AllocError>
    requires { IsWord (expression e.now) (held locals.old.items) }
    ensures value { IfOk result (λ w. means.evaluate (expression e.now) machine.now.choice (env_of machine.now locals.old.items) ≡ means.Word w.width w.bits) }
    ensures width { IfOk result (λ w. w.width ≡ counts.width (expression e.now)) }
    ensures locals { locals.new.items ≡ locals.old.items }
{
    match e {
        Exp::Var(variable) => Ok(read_word(*variable, machine, locals)),
        Exp::Constant(word) => Ok(*word),
        Exp::Load {
            memory,
            address,
            order,
            width,
        } => {
            let address = evaluate_word(address, alloc, machine, locals)?;
            if is_memory_variable(memory) {
                Ok(
                    machine
                        .memory
                        .load(address.bits as u32, width.bits / 8, *order),
                )
            } else {
                let memory = evaluate_memory(memory, alloc, machine, locals)?;
                Ok(memory.load(address.bits as u32, width.bits / 8, *order))
            }
        }
        Exp::Store { .. } => unreachable!(),
        Exp::Binary(op, first, second) => {
            let first = evaluate_word(first, alloc, machine, locals)?;
            let second = evaluate_word(second, alloc, machine, locals)?;
            Ok(operators::binary(*op, first, second))
        }
        Exp::Unary(op, operand) => {
            let operand = evaluate_word(operand, alloc, machine, locals)?;
            Ok(operators::unary(*op, operand))
        }
        Exp::Cast(kind, width, operand) => {
            let operand = evaluate_word(operand, alloc, machine, locals)?;
            Ok(operators::cast(*kind, *width, operand))
        }
        Exp::Let(local, value, body) => {
            let value = evaluate_word(value, alloc, machine, locals)?;
            locals.push(LocalWord {
                number: local.number,
                value,
            })?;
            let result = evaluate_word(body, alloc, machine, locals);
            locals.pop();
            result
        }
        Exp::Unknown(kind) => Ok(unknown_bits(*kind, machine.choice)),
        Exp::Choose {
            condition,
            when_true,
            when_false,
        } => {
            let condition = evaluate_word(condition, alloc, machine, locals)?;
            if condition.bits == 0 {
                evaluate_word(when_false, alloc, machine, locals)
            } else {
                evaluate_word(when_true, alloc, machine, locals)
            }
        }
        Exp::Extract { hi, lo, word } => {
            let word = evaluate_word(word, alloc, machine, locals)?;
            Ok(word.extract(*hi, *lo))
        }
        Exp::Concat(upper, lower) => {
            let upper = evaluate_word(upper, alloc, machine, locals)?;
            let lower = evaluate_word(lower, alloc, machine, locals)?;
            Ok(upper.concat(lower))
        }
    }
}

/// The value of a memory. The error is want of memory.
#[cycle(evaluation)]
pub fn evaluate_memory(
    e: &Exp,
    alloc: Global,
    machine: &Machine,
    locals: &mut Vec<LocalWord>,
) -> Result<Bytes32, AllocError>
    requires { IsMemory (expression e.now) (held locals.old.items) }
    ensures value { IfOk result (λ m. means.evaluate (expression e.now) machine.now.choice (env_of machine.now locals.old.items)
        ≡ means.Bytes (memory_of m.entries)) }
    ensures locals { locals.new.items ≡ locals.old.items }
{
    match e {
        Exp::Var(_) => machine.memory.copy(alloc),
        Exp::Store {
            memory,
            address,
            order,
            width,
            value,
        } => {
            let mut stored = evaluate_memory(memory, alloc, machine, locals)?;
            let address = evaluate_word(address, alloc, machine, locals)?;
            let value = evaluate_word(value, alloc, machine, locals)?;
            stored.store(address.bits as u32, width.bits / 8, *order, value)?;
            Ok(stored)
        }
        Exp::Let(local, value, body) => {
            let value = evaluate_word(value, alloc, machine, locals)?;
            locals.push(LocalWord {
                number: local.number,
                value,
            })?;
            let result = evaluate_memory(body, alloc, machine, locals);
            locals.pop();
            result
        }
        Exp::Choose {
            condition,
            when_true,
            when_false,
        } => {
            let condition = evaluate_word(condition, alloc, machine, locals)?;
            if condition.bits == 0 {
                evaluate_memory(when_false, alloc, machine, locals)
            } else {
                evaluate_memory(when_true, alloc, machine, locals)
            }
        }
        _ => unreachable!(),
    }
}
