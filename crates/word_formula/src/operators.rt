//! Operators on words.

ghost use Rattle.std.specs.Prelude.{◌≡◌, true};
ghost use Rattle.machine_spec.specs.BilMeaning as means;
ghost use Rattle.machine_spec.specs.BilTyping.{cast_fits, result_width};
ghost use Rattle.bil_ast.specs.Views.{binary_of, cast_of, unary_of};

use bil_ast::{BinaryOp, CastKind, UnaryOp, Width};
use bv_word::Word;

/// An operator on two words of one width.
#[tactic(auto, using(crate::proofs::Bits::turned))]
pub fn binary(op: BinaryOp, a: Word, b: Word) -> Word
    requires { a.width ≡ b.width }
    ensures value { means.on_words (binary_of op) a.width a.bits b.bits ≡ means.Word result.width result.bits }
    ensures width { result.width ≡ result_width (binary_of op) a.width }
{
    match op {
        BinaryOp::Plus => a.add(b),
        BinaryOp::Minus => a.sub(b),
        BinaryOp::Times => a.mul(b),
        BinaryOp::Divide => a.udiv(b),
        BinaryOp::SignedDivide => a.sdiv(b),
        BinaryOp::Modulo => a.urem(b),
        BinaryOp::SignedModulo => a.srem(b),
        BinaryOp::And => a.and(b),
        BinaryOp::Or => a.or(b),
        BinaryOp::Xor => a.xor(b),
        BinaryOp::ShiftLeft => a.shl(b),
        BinaryOp::ShiftRight => a.shr(b),
        BinaryOp::ShiftSigned => a.sar(b),
        BinaryOp::Equal => a.eq(b),
        BinaryOp::NotEqual => a.eq(b).not(),
        BinaryOp::Less => a.ult(b),
        BinaryOp::LessEqual => a.ule(b),
        BinaryOp::SignedLess => a.slt(b),
        BinaryOp::SignedLessEqual => a.sle(b),
    }
}

/// An operator on one word.
pub fn unary(op: UnaryOp, a: Word) -> Word
    ensures value { means.unary (unary_of op) (means.Word a.width a.bits) ≡ means.Word result.width result.bits }
    ensures width { result.width ≡ a.width }
{
    match op {
        UnaryOp::Negate => a.neg(),
        UnaryOp::Not => a.not(),
    }
}

/// A word in another width.
pub fn cast(kind: CastKind, to: Width, a: Word) -> Word
    requires { cast_fits (cast_of kind) to.bits a.width ≡ true }
    ensures value { means.cast_to (cast_of kind) to.bits (means.Word a.width a.bits) ≡ means.Word result.width result.bits }
    ensures width { result.width ≡ to.bits }
{
    match kind {
        CastKind::Low => a.low(to.bits),
        CastKind::High => a.high(to.bits),
        CastKind::Signed => a.signed(to.bits),
        CastKind::Unsigned => a.unsigned(to.bits),
    }
}
