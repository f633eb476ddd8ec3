//! Tables of the variables' values, some of which are open.
//!
//! A table has a place for each variable, and one for the number 0, which is no variable.
ghost use Rattle.std.specs.Prelude.{◌≡◌, ◌+◌, ◌<◌, ◌≤◌, false, length, map, drop, slice_index_or, IfOk};
ghost use Rattle.clause_spec.specs.Clauses.{Literal, opposite};
ghost use Rattle.clause_spec.specs.Refutation.{added};
ghost use Rattle.sat_core.specs.Tables.{true_in, open_count, is_set};

use cnf_form::Lit;
use refutation_checker::Assignment;
use std::alloc::{AllocError, Global};

/// Whether the table makes the literal true.
pub fn is_true(table: &[Option<bool>], lit: Lit) -> bool
    requires { lit.variable < length table.now }
    ensures { result ≡ true_in table.now lit }
{
    match table[lit.variable() as usize] {
        Some(value) => value == lit.is_positive(),
        None => false,
    }
}

/// The values of a table.
#[derive(Clone, Copy)]
pub struct ByTable<'a> {
    pub table: &'a [Option<bool>],
}

impl<'a> Assignment for ByTable<'a> {
    ghost true_in = { λ it. true_in it.table.now };

    ghost covers = { λ it v. v < length it.table.now };

    fn is_true(&self, lit: Lit) -> bool {
        is_true(self.table, lit)
    }
}

/// Makes a literal true that is not false.
pub fn assign(table: &mut [Option<bool>], lit: Lit)
    requires within { lit.variable < length table.old }
    requires not_false { true_in table.old (opposite lit) ≡ false }
    ensures values { (m : Literal) → true_in table.new m ≡ added lit (true_in table.old) m }
    ensures fewer { true_in table.old lit ≡ false → open_count table.new + 1 ≡ open_count table.old }
{
    table[lit.variable() as usize] = Some(lit.is_positive());
}

/// The values of the variables from 1 on. One that is open is taken as false.
pub fn values(alloc: Global, table: &[Option<bool>]) -> Result<Vec<bool>, AllocError>
    requires { 1 ≤ length table.now }
    ensures { IfOk result (λ v. v.items ≡ map is_set (drop 1 table.now)) }
{
    let mut list = Vec::new(alloc);
    for slot in &table[1..] {
        list.push(match *slot {
            Some(value) => value,
            None => false,
        })?;
    }
    Ok(list)
}
