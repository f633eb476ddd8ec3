//! Types of expressions.

ghost use Rattle.std.specs.Prelude.{◌≡◌, ◌+◌, ◌-◌, ◌^◌, min, IfOk, IfErr, Some};
ghost use Rattle.machine_spec.specs.Bil.{size};
ghost use Rattle.machine_spec.specs.BilTyping.{Faulty, type_or_fault, typed};
ghost use Rattle.bil_ast.specs.Views.{bil_type_of, expression};
ghost use Rattle.bil_types.specs.Views.{fault_of, numbered_of};

use crate::TypeFault;
use crate::rules::{
    binary_type, cast_type, choice_type, concat_type, constant_type, extract_type, let_type,
    load_type, store_type, type_of_unknown, unary_type, variable_type,
};
use bil_ast::{BilType, Exp};

/// The type of an expression, or its first fault. It takes no memory.
pub fn type_of(e: &Exp) -> Result<BilType, TypeFault>
    ensures typed { IfOk result (λ t. typed (expression e.now) ≡ Some (bil_type_of t)) }
    ensures fault { IfErr result (λ f. type_or_fault 0 (expression e.now) ≡ Faulty (fault_of f)) }
{
    let (found, _) = type_at(e, 0)?;
    Ok(found)
}

/// The type of an expression whose first node has the number `at`, with the number of the node after it; a number that is greater than 2^64 - 1 is that.
#[tactic(auto, using(crate::proofs::Numbers::capped, crate::proofs::Numbers::capped_second, crate::proofs::Numbers::capped_third))]
pub(crate) fn type_at(e: &Exp, at: u64) -> Result<(BilType, u64), TypeFault>
    ensures found { numbered_of result ≡ type_or_fault at (expression e.now) }
    ensures next { IfOk result (λ t. t.1 ≡ min (at + size (expression e.now)) (2 ^ 64 - 1)) }
{
    let first = at.saturating_add(1);
    match e {
        Exp::Var(x) => Ok((variable_type(*x), first)),
        Exp::Constant(word) => Ok((constant_type(*word), first)),
        Exp::Unknown(found) => Ok((type_of_unknown(at, *found)?, first)),
        Exp::Load {
            memory,
            address,
            width,
            ..
        } => {
            let (memory, next) = type_at(memory, first)?;
            let (address, next) = type_at(address, next)?;
            Ok((load_type(at, memory, address, *width)?, next))
        }
        Exp::Store {
            memory,
            address,
            width,
            value,
            ..
        } => {
            let (memory, next) = type_at(memory, first)?;
            let (address, next) = type_at(address, next)?;
            let (value, next) = type_at(value, next)?;
            Ok((store_type(at, memory, address, *width, value)?, next))
        }
        Exp::Binary(op, left, right) => {
            let (left, next) = type_at(left, first)?;
            let (right, next) = type_at(right, next)?;
            Ok((binary_type(at, *op, left, right)?, next))
        }
        Exp::Unary(_, word) => {
            let (word, next) = type_at(word, first)?;
            Ok((unary_type(at, word)?, next))
        }
        Exp::Cast(kind, width, word) => {
            let (word, next) = type_at(word, first)?;
            Ok((cast_type(at, *kind, *width, word)?, next))
        }
        Exp::Let(local, value, body) => {
            let (value, next) = type_at(value, first)?;
            let (body, next) = type_at(body, next)?;
            Ok((let_type(at, local.width, value, body)?, next))
        }
        Exp::Choose {
            condition,
            when_true,
            when_false,
        } => {
            let (condition, next) = type_at(condition, first)?;
            let (when_true, next) = type_at(when_true, next)?;
            let (when_false, next) = type_at(when_false, next)?;
            Ok((choice_type(at, condition, when_true, when_false)?, next))
        }
        Exp::Extract { hi, lo, word } => {
            let (word, next) = type_at(word, first)?;
            Ok((extract_type(at, *hi, *lo, word)?, next))
        }
        Exp::Concat(high, low) => {
            let (high, next) = type_at(high, first)?;
            let (low, next) = type_at(low, next)?;
            Ok((concat_type(at, high, low)?, next))
        }
    }
}
