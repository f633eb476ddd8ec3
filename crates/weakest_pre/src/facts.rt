//! What the lines that an entry state meets say of registers, each by itself.

ghost use Rattle.std.specs.Prelude.{◌≡◌, ℕ, ◌<◌, ◌≤◌, ◌-◌, ◌/◌, ◌%◌, ◌^◌, bit_and, true, IfOk, IfSome, IsTrue};
ghost use Rattle.bilv_spec.specs.Notes.{BitAnd, Equal, Number, Binary, apply, is_true};
ghost use Rattle.std.specs.List.{list_any};
ghost use Rattle.notes_value.specs.Views.{expr_of, op_of};
ghost use Rattle.question_form.specs.Views.{unrolled_of};
ghost use Rattle.weakest_pre.specs.Entry.{said};
ghost use Rattle.weakest_pre.specs.Known.{AreFactsOf, AreNoted, IsLearnt, IsMet, IsNoted, IsRuns, IsSaid, has_load, known_of, nothing};

use notes_value::{Expr, NoteLine, Operator};
use question_form::Unrolled;
use std::alloc::{AllocError, Global};

/// What is known of a word of 32 bits.
#[derive(Clone, Copy)]
pub struct Known {
    /// The bits that are known.
    mask: u32,
    /// What they are; the others are 0.
    bits: u32,
    /// The least that the word can be.
    low: u32,
    /// The most that the word can be.
    high: u32,
}

/// What is known of a word of 32 bits: its bits from a place on, which is 32 where none are, and so many of its lowest bits.
#[derive(Clone, Copy)]
pub struct Runs {
    pub place: u8,
    pub above: u32,
    pub count: u8,
    pub below: u32,
}

/// A register, by its number, and what a line says of it.
#[derive(Clone, Copy)]
struct Fact {
    register: u8,
    known: Known,
}

/// What is known of registers, by their numbers.
#[derive(Drop)]
pub struct Facts {
    registers: Vec<Known>,
    /// Whether a line loads memory.
    loads: bool,
}

/// Nothing is known of a word.
fn nothing() -> Known
    ensures { result ≡ nothing }
{
    Known {
        mask: 0,
        bits: 0,
        low: 0,
        high: u32::MAX,
    }
}

/// What is known of a word between two numbers, both included.
fn between(low: u32, high: u32) -> Known
    ensures { (w : ℕ) → low ≤ w → w ≤ high → IsMet result w }
{
    Known {
        mask: 0,
        bits: 0,
        low,
        high,
    }
}

/// What is known of a word by two things that are.
fn both(one: Known, other: Known) -> Known
    ensures { (w : ℕ) → IsMet one w → IsMet other w → IsMet result w }
{
    Known {
        mask: one.mask | other.mask,
        bits: one.bits | other.bits,
        low: one.low.max(other.low),
        high: one.high.min(other.high),
    }
}

/// The operator for operands that have changed places, of the comparisons that bound a word.
fn turned(op: Operator) -> Option<Operator>
    ensures { IfSome result (λ o. (a b : ℕ) → apply (op_of o) b a ≡ apply (op_of op) a b) }
{
    match op {
        Operator::Equal => Some(Operator::Equal),
        Operator::Below => Some(Operator::Above),
        Operator::AtMost => Some(Operator::AtLeast),
        Operator::Above => Some(Operator::Below),
        Operator::AtLeast => Some(Operator::AtMost),
        _ => None,
    }
}

/// What is known of a word by a comparison with a number, where that is true.
fn compared(op: Operator, number: u32) -> Option<Known>
    ensures { IfSome result (λ k. (w : ℕ) → w < 2 ^ 32 → is_true (apply (op_of op) w number) ≡ true → IsMet k w) }
{
    match op {
        Operator::Equal => Some(between(number, number)),
        Operator::Below => Some(between(0, number.checked_sub(1)?)),
        Operator::AtMost => Some(between(0, number)),
        Operator::Above => Some(between(number.checked_add(1)?, u32::MAX)),
        Operator::AtLeast => Some(between(number, u32::MAX)),
        _ => None,
    }
}

/// What is said of a register by the value of its bits of a mask.
fn masked(register: u8, mask: u32, bits: u32) -> Fact
    ensures register { result.register ≡ register }
    ensures known { (w : ℕ) → w < 2 ^ 32 → bit_and w mask ≡ bits → IsMet result.known w }
{
    Fact {
        register,
        known: Known {
            mask,
            bits,
            low: 0,
            high: u32::MAX,
        },
    }
}

/// What is said of a register by the value of `&` between two expressions.
fn picked(left: &Expr, right: &Expr, bits: u32) -> Option<Fact>
    ensures { IfSome result (λ f. IsSaid (Binary Equal (Binary BitAnd (expr_of left.now) (expr_of right.now)) (Number bits)) f) }
{
    match (left, right) {
        (Expr::Register(register), Expr::Number(mask)) => Some(masked(*register, *mask, bits)),
        (Expr::Number(mask), Expr::Register(register)) => Some(masked(*register, *mask, bits)),
        _ => None,
    }
}

/// What is said of a register by a comparison between a word and a number.
fn word_fact(op: Operator, word: &Expr, number: u32) -> Option<Fact>
    ensures { IfSome result (λ f. IsSaid (Binary (op_of op) (expr_of word.now) (Number number)) f) }
{
    match (op, word) {
        (_, Expr::Register(register)) => Some(Fact {
            register: *register,
            known: compared(op, number)?,
        }),
        (Operator::Equal, Expr::Binary(Operator::BitAnd, left, right)) => picked(
            left, right, number,
        ),
        _ => None,
    }
}

/// What is said of a register by an operator between two expressions.
fn fact_of(op: Operator, left: &Expr, right: &Expr) -> Option<Fact>
    ensures { IfSome result (λ f. IsSaid (Binary (op_of op) (expr_of left.now) (expr_of right.now)) f) }
{
    match (left, right) {
        (_, Expr::Number(number)) => word_fact(op, left, *number),
        (Expr::Number(number), _) => word_fact(turned(op)?, right, *number),
        _ => None,
    }
}

/// Notes what is said of a register.
fn learn(registers: &mut [Known], fact: Fact)
    ensures { IsLearnt registers.old registers.new fact }
{
    let number = fact.register as usize;
    if number < registers.len() {
        registers[number] = both(registers[number], fact.known);
    }
}

/// Notes what an expression that is true says of registers, and what each of two that are joined by `and` says.
fn note(says: &Expr, registers: &mut [Known])
    ensures { IsNoted registers.old registers.new (expr_of says.now) }
{
    if let Expr::Binary(op, left, right) = says {
        if let Operator::And = *op {
            note(left, registers);
            note(right, registers);
            return;
        }
        if let Some(fact) = fact_of(*op, left, right) {
            learn(registers, fact);
        }
    }
}

/// Notes what lines say of registers.
fn note_all(lines: &[NoteLine], registers: &mut [Known])
    ensures { AreNoted registers.old registers.new (said lines.now) }
{
    for each in lines {
        note(&each.says, registers);
    }
}

/// Whether an expression loads memory.
fn has_load(says: &Expr) -> bool
    ensures { result ≡ has_load says.now }
{
    match says {
        Expr::Memory(_, _) => true,
        Expr::Old(inner) | Expr::Not(inner) | Expr::All(_, _, inner) => has_load(inner),
        Expr::Binary(_, left, right) => has_load(left) || has_load(right),
        _ => false,
    }
}

/// Whether one of some lines loads memory.
fn have_load(lines: &[NoteLine]) -> bool
    ensures { result ≡ list_any (λ l. has_load l.says) lines.now }
{
    lines.iter().any(|each| has_load(&each.says))
}

/// The place from which on two numbers, and so all between them, have the same bits: 32 where they differ in the highest.
fn common_place(low: u32, high: u32) -> u8
    ensures few { result ≤ 32 }
    ensures same { low / 2 ^ result ≡ high / 2 ^ result }
{
    32 - (low ^ high).leading_zeros() as u8
}

/// The place from which on all bits of a mask are 1: 32 where the highest is not.
fn high_place(mask: u32) -> u8
    ensures few { result ≤ 32 }
    ensures ones { mask / 2 ^ result ≡ 2 ^ (32 - result) - 1 }
{
    32 - mask.leading_ones() as u8
}

/// How many of the lowest bits of a mask are 1.
fn low_count(mask: u32) -> u8
    ensures few { result ≤ 32 }
    ensures ones { mask % 2 ^ result ≡ 2 ^ result - 1 }
{
    mask.trailing_ones() as u8
}

/// The bits of a word from a place on.
fn from_place(word: u32, place: u8) -> u32
    requires { place ≤ 32 }
    ensures bits { result ≡ word / 2 ^ place }
    ensures below { result < 2 ^ (32 - place) }
{
    ((word as u64) >> place) as u32
}

/// The lowest bits of a word.
fn lowest(word: u32, count: u8) -> u32
    requires { count ≤ 32 }
    ensures bits { result ≡ word % 2 ^ count }
    ensures below { result < 2 ^ count }
{
    (word as u64 % (1u64 << count)) as u32
}

/// Which bits of a word are known at its ends.
pub fn runs_of(known: Known) -> Runs
    ensures place { result.place ≤ 32 }
    ensures above { result.above < 2 ^ (32 - result.place) }
    ensures count { result.count ≤ 32 }
    ensures below { result.below < 2 ^ result.count }
    ensures met { (w : ℕ) → w < 2 ^ 32 → IsMet known w → IsRuns result w }
{
    let bounded = common_place(known.low, known.high);
    let masked = high_place(known.mask);
    let count = low_count(known.mask);
    let below = lowest(known.bits, count);
    if bounded <= masked {
        return Runs {
            place: bounded,
            above: from_place(known.low, bounded),
            count,
            below,
        };
    }
    Runs {
        place: masked,
        above: from_place(known.bits, masked),
        count,
        below,
    }
}

impl Facts {
    /// What the lines that are required of the entry state say of registers. The error is want of memory.
    pub fn of_entry(alloc: Global, unrolled: &Unrolled) -> Result<Facts, AllocError>
        ensures { IfOk result (λ f. AreFactsOf (unrolled_of unrolled.now) f.registers.items) }
    {
        let (first, count) = unrolled.form.registers();
        let mut registers = vec![in alloc; nothing(); first as usize + count as usize]?;
        note_all(&unrolled.notes.required, &mut registers);
        let loads = have_load(&unrolled.notes.required);
        Ok(Facts { registers, loads })
    }

    /// What is known of a register.
    pub fn of(&self, register: u8) -> Known
        ensures { result ≡ known_of self.now.registers.items register }
    {
        if (register as usize) < self.registers.len() {
            return self.registers[register as usize];
        }
        nothing()
    }

    /// Whether a line loads memory, so that terms of its own name the registers as they are.
    pub fn has_loads(&self) -> bool
        ensures { result ≡ self.now.loads }
    {
        self.loads
    }

    /// Whether nothing is known of any register.
    pub fn are_none(&self) -> bool
        ensures { IsTrue result → (r : ℕ) → known_of self.now.registers.items r ≡ nothing }
    {
        for known in &self.registers {
            if known.mask != 0 || known.bits != 0 || known.low != 0 || known.high != u32::MAX {
                return false;
            }
        }
        true
    }
}
