//! Two functions, and both of them unrolled.
use links_lang::Link;
use pair_sides::Sided;
use question_form::Unrolled;
use verdict::Budget;

/// Two functions that are compared, with the links between them and the budgets.
#[derive(Clone, Copy)]
pub struct Pair<'a> {
    pub first: &'a Sided<'a>,
    pub second: &'a Sided<'a>,
    pub links: &'a [Link],
    pub budget: &'a Budget,
}

/// The unrolled programs of both.
#[derive(Drop)]
pub struct Both<'a> {
    pub first: Unrolled<'a>,
    pub second: Unrolled<'a>,
}
