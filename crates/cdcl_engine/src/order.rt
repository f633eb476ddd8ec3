//! The order in which variables are decided: those first that conflicts met most, lately counting more.
use crate::cells::{at, count_of, put};
use std::alloc::{AllocError, Global};

/// A score above this lowers all.
const GREATEST_SCORE: f64 = 1e150;

/// By this much a conflict counts less than the next one.
const DECAY: f64 = 0.95;

/// A heap of variables by their scores, with the signs that they had last.
#[derive(Drop)]
pub struct Order {
    heap: Vec<u32>,
    /// For each variable 1 more than its place in the heap, or 0.
    places: Vec<u32>,
    scores: Vec<f64>,
    /// By so much a score rises.
    rise: f64,
    /// For each variable whether it was true last.
    signs: Vec<bool>,
    /// For each variable whether it needs no decision.
    retired: Vec<bool>,
}

impl Order {
    /// All variables with the same score; the greatest comes first, and as false.
    pub fn new(alloc: Global, variables: usize) -> Result<Order, AllocError> {
        let mut order = Order {
            heap: Vec::with_capacity(alloc, variables)?,
            places: vec![in alloc; 0; variables]?,
            scores: vec![in alloc; 0.0; variables]?,
            rise: 1.0,
            signs: vec![in alloc; false; variables]?,
            retired: vec![in alloc; false; variables]?,
        };
        for variable in (0..variables).rev() {
            order.insert(count_of(variable))?;
        }
        Ok(order)
    }

    fn score(&self, variable: u32) -> f64 {
        let place = variable as usize;
        if place < self.scores.len() {
            self.scores[place]
        } else {
            0.0
        }
    }

    /// Whether a variable comes before another one.
    pub fn is_before(&self, one: u32, other: u32) -> bool {
        let (first, second) = (self.score(one), self.score(other));
        first > second || first == second && one > other
    }

    fn set(&mut self, place: usize, variable: u32) {
        put(self.heap.as_mut_slice(), place, variable);
        let next = count_of(place.saturating_add(1));
        put(self.places.as_mut_slice(), variable as usize, next);
    }

    /// Moves the variable at a place up to where it belongs.
    fn rise_from(&mut self, place: usize) {
        let variable = at(&self.heap, place);
        let mut here = place;
        for _ in 0..64 {
            if here == 0 {
                break;
            }
            let above = (here - 1) / 2;
            let other = at(&self.heap, above);
            if !self.is_before(variable, other) {
                break;
            }
            self.set(here, other);
            here = above;
        }
        self.set(here, variable);
    }

    /// Moves the variable at a place down to where it belongs.
    fn sink_from(&mut self, place: usize) {
        let variable = at(&self.heap, place);
        let mut here = place;
        for _ in 0..64 {
            let mut below = here.saturating_mul(2).saturating_add(1);
            if below >= self.heap.len() {
                break;
            }
            let next = below.saturating_add(1);
            if next < self.heap.len()
                && self.is_before(at(&self.heap, next), at(&self.heap, below))
            {
                below = next;
            }
            let other = at(&self.heap, below);
            if !self.is_before(other, variable) {
                break;
            }
            self.set(here, other);
            here = below;
        }
        self.set(here, variable);
    }

    /// Puts a variable into the heap, unless it is there.
    pub fn insert(&mut self, variable: u32) -> Result<(), AllocError> {
        if at(&self.places, variable as usize) != 0 || self.is_retired(variable) {
            return Ok(());
        }
        let place = self.heap.len();
        self.heap.push(variable)?;
        self.rise_from(place);
        Ok(())
    }

    /// Takes the first variable out of the heap.
    pub fn pop(&mut self) -> Option<u32> {
        let last = self.heap.pop()?;
        if self.heap.is_empty() {
            put(self.places.as_mut_slice(), last as usize, 0);
            return Some(last);
        }
        let first = at(&self.heap, 0);
        put(self.places.as_mut_slice(), first as usize, 0);
        self.set(0, last);
        self.sink_from(0);
        Some(first)
    }

    fn lower_all(&mut self) {
        for score in &mut self.scores {
            *score /= GREATEST_SCORE;
        }
        self.rise /= GREATEST_SCORE;
    }

    /// A conflict met the variable.
    pub fn raise(&mut self, variable: u32) {
        let place = variable as usize;
        if place >= self.scores.len() {
            return;
        }
        let score = self.scores[place] + self.rise;
        self.scores[place] = score;
        if score > GREATEST_SCORE {
            self.lower_all();
        }
        let there = at(&self.places, place) as usize;
        if there > 0 {
            self.rise_from(there - 1);
        }
    }

    /// Another conflict: it counts more than those before.
    pub fn age(&mut self) {
        self.rise /= DECAY;
    }

    /// Whether a variable needs no decision.
    pub fn is_retired(&self, variable: u32) -> bool {
        let place = variable as usize;
        place < self.retired.len() && self.retired[place]
    }

    /// From now on a variable needs no decision.
    pub fn retire(&mut self, variable: u32) {
        let place = variable as usize;
        if place < self.retired.len() {
            self.retired[place] = true;
        }
    }

    /// The signs that the variables had last.
    pub fn signs(&self, alloc: Global) -> Result<Vec<bool>, AllocError> {
        Vec::from_slice(alloc, &self.signs)
    }

    /// Takes signs that were kept before.
    pub fn set_signs(&mut self, signs: Vec<bool>) {
        self.signs = signs;
    }

    /// The sign that a variable had last.
    pub fn sign(&self, variable: u32) -> bool {
        let place = variable as usize;
        place < self.signs.len() && self.signs[place]
    }

    /// Keeps the sign of a variable.
    pub fn keep_sign(&mut self, variable: u32, sign: bool) {
        let place = variable as usize;
        if place < self.signs.len() {
            self.signs[place] = sign;
        }
    }
}
