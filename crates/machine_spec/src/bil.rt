//! Laws of the meaning of BIL.
ghost use Rattle.machine_spec.specs.BilLaws.{NoLoopNoTurns, TypedIsSound, WellTypedIsSound};

/// What has a type has a value of that type, over an environment that holds its variables.
#[tactic(auto, using(crate::proofs::BilSound::typed_is_sound))]
pub fn typed_is_sound()
    ensures { TypedIsSound }
{}

/// A well typed list is never stuck, and keeps its variables' values in their types.
#[tactic(auto, using(crate::proofs::BilSound::well_typed_is_sound))]
pub fn well_typed_is_sound()
    ensures { WellTypedIsSound }
{}

/// A list without loops has one end, whatever the number of turns.
pub fn no_loop_no_turns()
    ensures { NoLoopNoTurns }
{}
