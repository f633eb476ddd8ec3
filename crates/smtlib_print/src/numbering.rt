//! The numbers of points: their places in the order of scripts.
ghost use Rattle.std.specs.Prelude.{◌≡◌, ◌<◌, ◌^◌, ◌&&◌, ℕ, [], length, map, slice_index_or, IfOk};
ghost use Rattle.question_form.specs.FrameViews.{frame_unrolled_of, is_contract, no_root};
ghost use Rattle.question_form.specs.Views.{no_code, unrolled_of};
ghost use Rattle.smtlib_print.specs.Numbered.{AreApart, AreNumbersOf, AreOnce, AreRanks};
ghost use Rattle.smtlib_print.specs.Orders.{AreInverse, ArePlaced, IsPlacedAt, points_by};
ghost use Rattle.smtlib_print.specs.declared.ordering.Placed.{Placed as PlacedPoint};

use crate::ordering::{Placed, all_depths, sort};
use question_form::{Deed, Root, Unrolled};
use std::alloc::{AllocError, Global};

/// The most points whose numbers have 32 bits.
const MOST: usize = 4294967295;

/// The address of a code; there is nothing behind the last code.
fn address(unrolled: &Unrolled, code: u32) -> u32
    ensures { result ≡ (slice_index_or unrolled.now.codes.items code no_code).at }
{
    let place = code as usize;
    if place < unrolled.codes.len() {
        unrolled.codes[place].at
    } else {
        0
    }
}

/// Where the segments of a root begin, if not at the entry; those of a root that is not listed begin there.
fn beginning(roots: &[Root], root: u32) -> Option<program_points::Root>
    ensures { result ≡ (slice_index_or roots.now root no_root).head }
{
    let number = root as usize;
    if number < roots.len() {
        roots[number].head
    } else {
        None
    }
}

/// Whether a contract step is made, where it is told from a row.
fn is_step(steps: bool, deed: Deed) -> bool
    ensures { result ≡ (steps && is_contract deed) }
{
    if !steps {
        return false;
    }
    match deed {
        Deed::Row => false,
        Deed::Arrival => false,
        Deed::Contract(_) => true,
    }
}

/// The point at a place, whose segment begins at one of some roots.
fn placed_at(unrolled: &Unrolled, steps: bool, roots: &[Root], place: u32) -> Placed
    requires { place < length unrolled.now.points.items }
    ensures { IsPlacedAt (points_by unrolled.now steps roots.now) unrolled.now.frames.items place result }
{
    let point = unrolled.points[place as usize];
    Placed {
        root: beginning(roots, point.root),
        turns: point.turns,
        stack: point.stack,
        at: address(unrolled, point.code),
        contract: is_step(steps, point.deed),
        place,
    }
}

/// All points, in the order of their places. The error is want of memory.
fn all_placed(
    alloc: Global,
    unrolled: &Unrolled,
    steps: bool,
    roots: &[Root],
    count: u32,
) -> Result<Vec<Placed>, AllocError>
    requires { count ≡ length unrolled.now.points.items }
    ensures { IfOk result (λ v. ArePlaced (points_by unrolled.now steps roots.now) unrolled.now.frames.items v.items) }
{
    let mut found: Vec<Placed> = Vec::new(alloc);
    for place in 0..count {
        found.push(placed_at(unrolled, steps, roots, place))?;
    }
    Ok(found)
}

/// For each place of a point its number in an order of the points. The error is want of memory.
fn numbers_in(alloc: Global, order: &[Placed]) -> Result<Vec<u32>, AllocError>
    requires few { length order.now < 2 ^ 32 }
    requires within { (i : ℕ) (d : PlacedPoint) → i < length order.now → (slice_index_or order.now i d).place < length order.now }
    ensures count { IfOk result (λ v. length v.items ≡ length order.now) }
    ensures inverse { IfOk result (λ v. AreInverse order.now v.items) }
{
    let mut numbers = vec![in alloc; 0u32; order.len()]?;
    for number in 0..order.len() {
        numbers[order[number].place as usize] = number as u32;
    }
    Ok(numbers)
}

/// The number of each point, by its place, in the order of scripts, where segments begin at these roots, and contract steps are told from rows or are not. The
/// error is want of memory, or of numbers for points.
fn numbers_by(
    alloc: Global,
    unrolled: &Unrolled,
    steps: bool,
    roots: &[Root],
) -> Result<Vec<u32>, AllocError>
    ensures count { IfOk result (λ v. length v.items ≡ length unrolled.now.points.items) }
    ensures ranks { AreOnce (points_by unrolled.now steps roots.now) →
        IfOk result (λ v. AreRanks (points_by unrolled.now steps roots.now) v.items) }
{
    let count = unrolled.points.len();
    if count > MOST {
        return Err(AllocError);
    }
    let mut order = all_placed(alloc, unrolled, steps, roots, count as u32)?;
    let depths = all_depths(alloc, &unrolled.frames)?;
    sort(&mut order, &unrolled.frames, &depths)?;
    let numbers = numbers_in(alloc, &order)?;
    Ok(numbers)
}

/// The number of each point of a program, by its place, in the order of scripts. The error is want of memory, or of numbers for points.
pub fn numbers(alloc: Global, unrolled: &Unrolled) -> Result<Vec<u32>, AllocError>
    ensures count { IfOk result (λ v. length v.items ≡ length unrolled.now.points.items) }
    ensures numbers { AreApart (unrolled_of unrolled.now) → IfOk result (λ v. AreNumbersOf (unrolled_of unrolled.now) v.items) }
{
    let numbers = numbers_by(alloc, unrolled, false, &[])?;
    Ok(numbers)
}

/// The number of each point of a frame, by its place, in the order of scripts. The error is want of memory, or of numbers for points.
pub fn frame_numbers(alloc: Global, unrolled: &Unrolled) -> Result<Vec<u32>, AllocError>
    ensures count { IfOk result (λ v. length v.items ≡ length unrolled.now.points.items) }
    ensures ranks { AreOnce (map (λ q. q.point) (frame_unrolled_of unrolled.now).points) →
        IfOk result (λ v. AreRanks (map (λ q. q.point) (frame_unrolled_of unrolled.now).points) v.items) }
{
    let numbers = numbers_by(alloc, unrolled, true, &unrolled.roots)?;
    Ok(numbers)
}
