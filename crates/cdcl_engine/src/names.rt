//! The variables that clauses use, by numbers without gaps.
use crate::cells::{count_of, variable_of};
use cnf_form::{Clause, Lit};
use std::alloc::{AllocError, Global};

/// How many variables are listed before they are sorted for the first time.
const FIRST_LIMIT: usize = 1 << 20;

/// The variables that are used, rising. The place of each is its number.
#[derive(Drop)]
pub struct Names {
    variables: Vec<u64>,
    /// Each from 1 to the last is used, so that the place of one is known without a search.
    is_gapless: bool,
}

/// Leaves each number once, rising.
fn order(numbers: &mut Vec<u64>) {
    numbers.sort_unstable();
    numbers.dedup();
}

/// Whether rising numbers are those from 1 to the last.
fn has_no_gap(rising: &[u64]) -> bool {
    match rising.last() {
        None => true,
        Some(last) => *last == rising.len() as u64,
    }
}

impl Names {
    /// The variables of clauses. Their list is sorted when it has twice as many as were left of it, so that it takes memory in proportion to the variables.
    pub fn new(alloc: Global, clauses: &[Clause]) -> Result<Names, AllocError> {
        let mut variables = Vec::new(alloc);
        let mut limit = FIRST_LIMIT;
        for clause in clauses {
            for lit in clause.lits() {
                variables.push(lit.variable())?;
            }
            if variables.len() > limit {
                order(&mut variables);
                limit = variables.len().saturating_mul(2).max(FIRST_LIMIT);
            }
        }
        order(&mut variables);
        let is_gapless = has_no_gap(&variables);
        Ok(Names {
            variables,
            is_gapless,
        })
    }

    /// How many variables there are.
    pub fn len(&self) -> usize {
        self.variables.len()
    }

    /// The place of a variable, or where it would stand.
    fn place(&self, variable: u64) -> usize {
        if self.is_gapless {
            return variable.saturating_sub(1) as usize;
        }
        match self.variables.binary_search(&variable) {
            Ok(place) => place,
            Err(place) => place,
        }
    }

    /// The number of a literal: twice its variable's, and 1 more for a negation.
    pub fn code(&self, lit: Lit) -> u32 {
        let even = count_of(self.place(lit.variable())).saturating_mul(2);
        if lit.is_positive() { even } else { even | 1 }
    }

    /// The variable of a number.
    pub fn variable(&self, number: usize) -> u64 {
        if number < self.variables.len() {
            self.variables[number]
        } else {
            0
        }
    }

    /// The literal of a number.
    pub fn lit(&self, code: u32) -> Lit {
        let variable = self.variable(variable_of(code));
        if 1 <= variable && variable <= 1 << 62 {
            Lit::new(variable, code % 2 == 0)
        } else {
            Lit::default()
        }
    }
}
