//! The frames of a program, measured by the budgets, which are over all of them together.
ghost use Rattle.std.specs.Prelude.{◌≡◌, ◌≤◌, ◌<◌, ◌+◌, ℕ, ◌-◌, ◌^◌, IfOk, MatchOption, length, min};
ghost use Rattle.call_form.specs.Views.{budget_of};
ghost use Rattle.frame_laws.specs.FramePrices.{unrolled_price};
ghost use Rattle.frame_spec.specs.FrameReports.{HasMore, IsWithin, last_rank};
ghost use Rattle.frame_spec.specs.FrameVerdict.{Whole, frame_of};
ghost use Rattle.machine_spec.specs.StateText.{Layout};
ghost use Rattle.notes_value.specs.NoteViews.{notes_of};
ghost use Rattle.question_form.specs.Forms.{AreRootsFormed, AreStepsFormed, IsFormed};
ghost use Rattle.question_form.specs.FrameViews.{frame_unrolled_of};
ghost use Rattle.frame_verdict.specs.FrameFunctions.{AreNotesTo, CanUnroll, IsNotesAt, whole_of_framed};
ghost use Rattle.frame_verdict.specs.FrameMeasures.{AreAllUnrolled, AreContractsMeasured, AreMeasured, AreUnrolledTo, IsFrameUnrolled, IsMeasuredTo, IsWeighed};

use crate::framed::Framed;
use crate::ranks::unroll_rank;
use call_form::Budget;
use frame_price::frame_price;
use machine_law::Machine;
use notes_value::Notes;
use program_points::PointsFault;
use question_form::Unrolled;
use std::alloc::{AllocError, Global};
use verdict::Exceeded;

/// What is left of the points behind some frames, and what those cost together, where 2^128 - 1 stands for all that is greater.
#[derive(Clone, Copy)]
pub struct Left {
    points: u64,
    price: u128,
}

/// An unrolled frame, and what is left behind it.
#[derive(Drop)]
pub struct Measured<'a> {
    unrolled: Unrolled<'a>,
    left: Left,
}

/// The unrolled frames of all contracts, and what is left behind them.
#[derive(Drop)]
pub struct MeasuredContracts<'a> {
    frames: Vec<Unrolled<'a>>,
    left: Left,
}

/// The unrolled frames of a function: those of its contracts in the order of their ranks, and its own.
#[derive(Drop)]
pub struct Frames<'a> {
    pub contracts: Vec<Unrolled<'a>>,
    pub own: Unrolled<'a>,
}

impl<'a> Frames<'a> {
    /// The frame of a rank: the function's own is behind those of all contracts.
    pub fn of_rank(&self, rank: usize) -> &Unrolled<'a>
        ensures { (w : Whole) (k : ℕ) (layout : Layout) → AreAllUnrolled w k layout self.now → rank ≤ last_rank w →
            IsFrameUnrolled (frame_of w rank) w.contracts k layout result.now }
    {
        if rank < self.contracts.len() {
            return &self.contracts[rank];
        }
        &self.own
    }
}

/// What the budgets say of all frames.
#[derive(Drop)]
pub enum Weighed<'a> {
    /// They are within the budgets.
    Within(Frames<'a>),
    /// There are too many points, or the price is too high.
    Exceeded(Exceeded),
}

/// What is left behind one more frame.
fn left_behind(left: Left, unrolled: &Unrolled) -> Left
    requires formed { IsFormed unrolled.now }
    requires roots { AreRootsFormed unrolled.now }
    requires steps { AreStepsFormed unrolled.now }
    requires few { length unrolled.now.points.items ≤ left.points }
    ensures points { result.points + length unrolled.now.points.items ≡ left.points }
    ensures price { result.price ≡ min (left.price + min (unrolled_price (frame_unrolled_of unrolled.now) unrolled.now.heads) (2 ^ 128 - 1)) (2 ^ 128 - 1) }
{
    Left {
        points: left.points - unrolled.points.len() as u64,
        price: left.price.saturating_add(frame_price(unrolled)),
    }
}

/// The frame of a rank, unrolled and measured behind those of lower ranks; none where all together have too many points. The error is want of memory.
fn measure_frame<'a, M: Machine>(
    alloc: Global,
    framed: &Framed<'a, M>,
    notes: &'a Notes,
    rank: usize,
    budget: &Budget,
    left: Left,
) -> Result<Option<Measured<'a>>, AllocError>
    requires runs { CanUnroll framed.now }
    requires rank { rank ≤ length framed.now.contracts.now }
    requires notes { IsNotesAt framed.now rank (notes_of notes.now) }
    requires left { AreMeasured (whole_of_framed framed.now) budget.now.unroll budget.now.points rank left }
    ensures { IfOk result (λ o. MatchOption o (HasMore (whole_of_framed framed.now) budget.now.unroll budget.now.points)
        (IsMeasuredTo (whole_of_framed framed.now) rank M.form (budget_of budget.now))) }
{
    match unroll_rank::<M>(alloc, framed, notes, rank, budget.unroll, left.points) {
        Ok(unrolled) => {
            let left = left_behind(left, &unrolled);
            Ok(Some(Measured { unrolled, left }))
        }
        Err(PointsFault::TooMany { .. }) => Ok(None),
        Err(PointsFault::Memory) => Err(AllocError),
    }
}

/// The frames of all contracts, unrolled and measured one by one in the order of their ranks, by their notes; none where they have too many points. The error is
/// want of memory.
fn measure_contracts<'a, M: Machine>(
    alloc: Global,
    framed: &Framed<'a, M>,
    notes: &'a [Notes],
    budget: &Budget,
) -> Result<Option<MeasuredContracts<'a>>, AllocError>
    requires runs { CanUnroll framed.now }
    requires notes { AreNotesTo framed.now (length framed.now.contracts.now) notes.now }
    ensures { IfOk result (λ o. MatchOption o (HasMore (whole_of_framed framed.now) budget.now.unroll budget.now.points)
        (AreContractsMeasured (whole_of_framed framed.now) (length framed.now.contracts.now) M.form (budget_of budget.now))) }
{
    let mut frames = Vec::new(alloc);
    let mut left = Left {
        points: budget.points,
        price: 0,
    };
    for rank in 0..framed.contracts.len() {
        match measure_frame::<M>(alloc, framed, &notes[rank], rank, budget, left)? {
            None => return Ok(None),
            Some(measured) => {
                left = measured.left;
                frames.push(measured.unrolled)?;
            }
        }
    }
    Ok(Some(MeasuredContracts { frames, left }))
}

/// There are more points than the budget.
fn too_many<'a>(budget: &Budget) -> Weighed<'a>
    ensures { result ≡ Weighed.Exceeded (Exceeded.Points (budget.now.points + 1)) }
{
    Weighed::Exceeded(Exceeded::Points {
        count: budget.points + 1,
    })
}

/// What the budgets say where the frames have not too many points: those of the contracts, and this, the last. The error is a price of 2^128 - 1 or more, which
/// counts as want of memory.
fn weigh<'a>(
    budget: &Budget,
    contracts: Vec<Unrolled<'a>>,
    measured: Measured<'a>,
) -> Result<Weighed<'a>, AllocError>
    ensures { (w : Whole) (layout : Layout) → AreUnrolledTo w budget.now.unroll (last_rank w) layout contracts.entry.items →
        IsMeasuredTo w (last_rank w) layout (budget_of budget.now) measured.entry → IfOk result (IsWeighed w layout (budget_of budget.now)) }
{
    let Measured { unrolled, left } = measured;
    if left.price == u128::MAX {
        return Err(AllocError);
    }
    if left.price > budget.size as u128 {
        return Ok(Weighed::Exceeded(Exceeded::Size { price: left.price }));
    }
    Ok(Weighed::Within(Frames {
        contracts,
        own: unrolled,
    }))
}

/// All frames of a function, unrolled and measured one by one in the order of their ranks, those of contracts by their notes: more points than the budget, then a
/// price above the budget; where they are within both, the frames. A price of 2^128 - 1 or more counts as want of memory, which is the error.
pub fn measure<'a, M: Machine>(
    alloc: Global,
    framed: &Framed<'a, M>,
    notes: &'a [Notes],
    budget: &Budget,
) -> Result<Weighed<'a>, AllocError>
    requires runs { CanUnroll framed.now }
    requires notes { AreNotesTo framed.now (length framed.now.contracts.now) notes.now }
    ensures { IfOk result (IsWeighed (whole_of_framed framed.now) M.form (budget_of budget.now)) }
{
    let Some(contracts) = measure_contracts::<M>(alloc, framed, notes, budget)? else {
        return Ok(too_many(budget));
    };
    let MeasuredContracts { frames, left } = contracts;
    let last = framed.contracts.len();
    match measure_frame::<M>(alloc, framed, framed.program.notes, last, budget, left)? {
        None => Ok(too_many(budget)),
        Some(measured) => {
            let weighed = weigh(budget, frames, measured)?;
            Ok(weighed)
        }
    }
}
