//! What lines of notes cost.
ghost use Rattle.std.specs.Prelude.{◌≡◌, ◌≤◌};
ghost use Rattle.bilv_spec.specs.Points.{is_product};
ghost use Rattle.notes_value.specs.Views.{bytes_of, expr_of, op_of};
ghost use Rattle.unroller.specs.LineCosts.{HasParts, IsLineCost, IsJoined, IsRepeated, parts_price};

use notes_value::{Expr, Operator, Size};

/// What an expression has with each `all` written out, each number at most 2^128 - 1: products, other operators of the text, the values of its `all`s, and
/// bytes that it loads.
#[derive(Clone, Copy)]
pub struct Parts {
    pub products: u128,
    pub others: u128,
    pub values: u128,
    pub loads: u128,
}

/// What lines cost, each number at most 2^128 - 1: their price, and the bytes that they load.
#[derive(Clone, Copy)]
pub struct LineCost {
    pub price: u128,
    pub loads: u128,
}

/// How many bytes a load has.
fn bytes(size: Size) -> u128
    ensures { result ≡ bytes_of size }
{
    match size {
        Size::Byte => 1,
        Size::Half => 2,
        Size::Word => 4,
    }
}

/// 1 for the product.
fn product(op: Operator) -> u128
    ensures { result ≡ is_product (op_of op) }
{
    match op {
        Operator::Times => 1,
        Operator::Or
        | Operator::And
        | Operator::Equal
        | Operator::NotEqual
        | Operator::Below
        | Operator::AtMost
        | Operator::Above
        | Operator::AtLeast
        | Operator::SignedBelow
        | Operator::SignedAtMost
        | Operator::SignedAbove
        | Operator::SignedAtLeast
        | Operator::BitOr
        | Operator::BitXor
        | Operator::BitAnd
        | Operator::ShiftLeft
        | Operator::ShiftRight
        | Operator::ShiftSigned
        | Operator::Plus
        | Operator::Minus => 0,
    }
}

/// The parts of two expressions under an operator, which is a product or another one.
fn joined(product: u128, a: Parts, b: Parts) -> Parts
    requires { product ≤ 1 }
    ensures { IsJoined product a b result }
{
    Parts {
        products: a
            .products
            .saturating_add(b.products)
            .saturating_add(product),
        others: a
            .others
            .saturating_add(b.others)
            .saturating_add(1 - product),
        values: a.values.saturating_add(b.values),
        loads: a.loads.saturating_add(b.loads),
    }
}

/// The parts of an `all` of so many values, from those of its expression.
fn repeated(inner: Parts, count: u128) -> Parts
    ensures { IsRepeated count inner result }
{
    Parts {
        products: inner.products.saturating_mul(count),
        others: inner.others.saturating_mul(count),
        values: inner.values.saturating_add(1).saturating_mul(count),
        loads: inner.loads.saturating_mul(count),
    }
}

/// What an expression has.
fn parts_of(expr: &Expr) -> Parts
    ensures { HasParts result (expr_of expr.now) }
{
    match expr {
        Expr::Number(_) | Expr::Register(_) | Expr::Flag(_) | Expr::Pc | Expr::Bound => Parts {
            products: 0,
            others: 0,
            values: 0,
            loads: 0,
        },
        Expr::Memory(size, address) => {
            let inner = parts_of(address);
            Parts {
                products: inner.products,
                others: inner.others,
                values: inner.values,
                loads: inner.loads.saturating_add(bytes(*size)),
            }
        }
        Expr::Old(inner) => parts_of(inner),
        Expr::Not(inner) => {
            let inner = parts_of(inner);
            Parts {
                products: inner.products,
                others: inner.others.saturating_add(1),
                values: inner.values,
                loads: inner.loads,
            }
        }
        Expr::Binary(op, a, b) => joined(product(*op), parts_of(a), parts_of(b)),
        Expr::All(low, high, inner) => {
            repeated(parts_of(inner), high.saturating_sub(*low) as u128 + 1)
        }
    }
}

/// The price of parts; without an operator they count as one, and each value of an `all` counts as one more.
fn priced(parts: Parts) -> LineCost
    ensures price { result.price ≡ parts_price parts.products parts.others parts.values }
    ensures loads { result.loads ≡ parts.loads }
{
    let others = if parts.products == 0 && parts.others == 0 {
        1
    } else {
        parts.others
    };
    LineCost {
        price: parts
            .products
            .saturating_mul(8192)
            .saturating_add(others.saturating_add(parts.values).saturating_mul(512)),
        loads: parts.loads,
    }
}

/// What a line costs.
pub fn line_cost(expr: &Expr) -> LineCost
    ensures { IsLineCost result (expr_of expr.now) }
{
    priced(parts_of(expr))
}
