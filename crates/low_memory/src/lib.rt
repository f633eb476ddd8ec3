//! What points do hangs on no more of the memory than machines see, whose addresses have 32 bits.
//!
//! A law about definitions alone is a public function without a body to speak of: its contract is the law.
#![tactic(auto)]

ghost use Rattle.std.specs.Prelude.{ℕ};
ghost use Rattle.machine_spec.specs.Bil.{Statements};
ghost use Rattle.machine_spec.specs.BilMeaning.{Position};
ghost use Rattle.low_memory.specs.LowMemory.{ListsSeeLow};
ghost use Rattle.low_memory.specs.LowWalks.{SweepsSeeLow};

/// Lists of statements see no more of the memory than machines.
pub fn lists_see_low()
    ensures { (list : Statements) (choice : ℕ) (s : Position) → ListsSeeLow list choice s }
{}

/// Nor does the sweep over the places of an unrolled frame.
pub fn sweeps_see_low()
    ensures { SweepsSeeLow }
{}
