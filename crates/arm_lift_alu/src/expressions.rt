//! The expressions of lifted instructions.
ghost use Rattle.std.specs.Prelude.{◌≡◌, IfOk};
ghost use Rattle.machine_spec.specs.Bil as bil;
ghost use Rattle.bil_ast.specs.Views.{binary_of, expression};
ghost use Rattle.arm_lift_alu.specs.Lifted as lifts;

use arm_decode::Condition;
use bil_ast::{BinaryOp, Exp, UnaryOp, Var};
use bv_word::Word;
use std::alloc::{AllocError, Global};

const N: u8 = 3;

const Z: u8 = 2;

const C: u8 = 1;

const V: u8 = 0;

/// A constant word of 32 bits.
pub fn number(value: u32) -> Exp
    ensures { expression result ≡ lifts.number value }
{
    Exp::Constant(Word::new(32, value as u64))
}

/// A flag, by its number: V is 0, C is 1, Z is 2 and N is 3.
pub fn flag(number: u8) -> Exp
    ensures { expression result ≡ lifts.flag number }
{
    Exp::Var(Var::Flag(number))
}

/// Each bit turned. The error is want of memory.
pub fn turned(alloc: Global, word: Exp) -> Result<Exp, AllocError>
    ensures { IfOk result (λ e. expression e ≡ bil.Unary bil.Not (expression word)) }
{
    Exp::unary(alloc, UnaryOp::Not, word)
}

/// Whether a flag is not set.
fn unset(alloc: Global, number: u8) -> Result<Exp, AllocError>
    ensures { IfOk result (λ e. expression e ≡ bil.Unary bil.Not (lifts.flag number)) }
{
    turned(alloc, flag(number))
}

/// N against V.
fn signs(alloc: Global, op: BinaryOp) -> Result<Exp, AllocError>
    ensures { IfOk result (λ e. expression e ≡ bil.Binary (binary_of op) (lifts.flag 3) (lifts.flag 0)) }
{
    Exp::binary(alloc, op, flag(N), flag(V))
}

/// Whether C is set and Z is not.
fn higher(alloc: Global) -> Result<Exp, AllocError>
    ensures { IfOk result (λ e. expression e ≡ lifts.higher) }
{
    let unequal = unset(alloc, Z)?;
    Exp::binary(alloc, BinaryOp::And, flag(C), unequal)
}

/// Whether Z is not set and N is V.
fn greater(alloc: Global) -> Result<Exp, AllocError>
    ensures { IfOk result (λ e. expression e ≡ lifts.greater) }
{
    let unequal = unset(alloc, Z)?;
    let same_signs = signs(alloc, BinaryOp::Equal)?;
    Exp::binary(alloc, BinaryOp::And, unequal, same_signs)
}

/// What a condition tests, as one bit (section A3.2). The error is want of memory.
pub fn test(alloc: Global, condition: Condition) -> Result<Exp, AllocError>
    ensures { IfOk result (λ e. expression e ≡ lifts.test condition) }
{
    match condition {
        Condition::Eq => Ok(flag(Z)),
        Condition::Ne => unset(alloc, Z),
        Condition::Cs => Ok(flag(C)),
        Condition::Cc => unset(alloc, C),
        Condition::Mi => Ok(flag(N)),
        Condition::Pl => unset(alloc, N),
        Condition::Vs => Ok(flag(V)),
        Condition::Vc => unset(alloc, V),
        Condition::Hi => higher(alloc),
        Condition::Ls => {
            let holds = higher(alloc)?;
            turned(alloc, holds)
        }
        Condition::Ge => signs(alloc, BinaryOp::Equal),
        Condition::Lt => signs(alloc, BinaryOp::NotEqual),
        Condition::Gt => greater(alloc),
        Condition::Le => {
            let holds = greater(alloc)?;
            turned(alloc, holds)
        }
        Condition::Al => Ok(Exp::Constant(Word::new(1, 1))),
    }
}
