//! The clauses of a circuit.
ghost use Rattle.std.specs.Prelude.{◌<◌, IfOk};
ghost use Rattle.clause_spec.specs.Clauses.{AreOnVariables};
ghost use Rattle.cnf_form.specs.Views.{cnf_of};
ghost use Rattle.gates.specs.Circuits.{next, variable_of};
ghost use Rattle.gates.specs.Defined.{IsDefined};

use crate::bit::Bit;
use crate::circuit::Circuit;
use crate::clauses::{push_clause, push_gate};
use cnf_form::{Clause, Cnf};
use std::alloc::AllocError;

impl Circuit {
    /// The clauses that every gate has its value, that the ties are true, and that the root is. They define each gate in both directions, so the inputs fix all
    /// other variables. The ties come first.
    pub fn cnf(&self, ties: Vec<Clause>, root: Bit) -> Result<Cnf, AllocError>
        requires root { variable_of root < next self.now }
        requires ties { AreOnVariables (next self.now) ties.items }
        ensures { IfOk result (λ f. IsDefined self.now ties.items root (cnf_of f)) }
    {
        let mut clauses = ties;
        push_clause(&mut clauses, &[Bit::new(self.inputs)])?;
        let gates = self.gates.as_slice();
        for i in 0..gates.len() {
            push_gate(&mut clauses, Bit::new(self.inputs + 1 + i as u32), gates[i])?;
        }
        push_clause(&mut clauses, &[root])?;
        Ok(Cnf {
            variables: self.inputs as u64 + 1 + gates.len() as u64,
            clauses,
        })
    }
}
