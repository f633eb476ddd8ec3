//! Circuits.
ghost use Rattle.std.specs.Prelude.{◌≡◌, ℕ, suc, ◌+◌, ◌<◌, ◌≤◌, ◌^◌, Bool, [], IfOk};
ghost use Rattle.gates.specs.Circuits.{Netlist, next, Holds, IsBit, IsGateBelow, variable_of, bit_value, gate_value};

use crate::bit::Bit;
use crate::gate::Gate;
use crate::index::GateIndex;
use std::alloc::{AllocError, Global};
use std::marker::Model;

/// How many variables a circuit has at most.
const MOST_VARIABLES: u32 = 1 << 31;

/// Gates over inputs. The inputs are the first variables, the next is true, and each gate has one behind it. Want of memory is the only error, and more than
/// 2^31 variables are want of memory; after an error a circuit is of no use but to be dropped.
#[derive(Drop)]
pub struct Circuit {
    pub(crate) inputs: u32,
    pub(crate) gates: Vec<Gate>,
    index: GateIndex,
}

impl Model for Circuit {
    ghost use Rattle.std.specs.Prelude.{◌+◌, ◌≤◌, ◌^◌, length};
    ghost use Rattle.gates.specs.Circuits.{Netlist, InOrder};

    ghost Value = { Netlist };

    ghost view = { λ c. record { inputs = c.inputs; gates = c.gates.items } };

    ghost invariant = { λ c. InOrder (c.inputs + 1) c.gates.items × (c.inputs + 1 + length c.gates.items ≤ 2 ^ 31) };
}

impl Circuit {
    /// A circuit of inputs alone.
    pub fn new(alloc: Global, inputs: u32) -> Result<Circuit, AllocError>
        ensures { IfOk result (λ c. c ≡ record { inputs = inputs; gates = [] }) }
    {
        if MOST_VARIABLES <= inputs {
            return Err(AllocError);
        }
        Ok(Circuit {
            inputs,
            gates: Vec::new(alloc),
            index: GateIndex::new(alloc),
        })
    }

    /// How many inputs there are.
    pub fn inputs(&self) -> u32
        ensures { result ≡ self.now.inputs }
    {
        self.inputs
    }

    /// An input, counted from 0.
    pub fn input(&self, number: u32) -> Bit
        requires { number < self.now.inputs }
        ensures within { variable_of result < next self.now }
        ensures value { (v : ℕ → Bool) → bit_value v result ≡ v (suc number) }
    {
        let _inputs = self.inputs;
        Bit::new(number)
    }

    /// The bit that has the value under every valuation.
    pub fn constant(&self, value: bool) -> Bit
        ensures within { variable_of result < next self.now }
        ensures value { (v : ℕ → Bool) → Holds v self.now → bit_value v result ≡ value }
    {
        let one = Bit::new(self.inputs);
        if value { one } else { one.negation() }
    }

    /// The bit of a gate, which is added if it is not found.
    pub(crate) fn gate(&mut self, gate: Gate) -> Result<Bit, AllocError>
        requires { IsGateBelow (next self.old) gate }
        ensures made { IfOk result (IsBit self.old self.new 1) }
        ensures value { IfOk result (λ b. (v : ℕ → Bool) → Holds v self.new → bit_value v b ≡ gate_value v gate) }
    {
        if let Some(place) = self.index.find(&self.gates, gate) {
            return Ok(Bit::new(self.inputs + 1 + place as u32));
        }
        let variable = self.inputs as usize + 1 + self.gates.len();
        if MOST_VARIABLES as usize <= variable {
            return Err(AllocError);
        }
        self.index.add(&self.gates, gate)?;
        self.gates.push(gate)?;
        Ok(Bit::new(variable as u32))
    }
}
