//! What the profile of a number has.
ghost use Rattle.std.specs.Prelude.{◌≡◌};
ghost use Rattle.machine_spec.specs.Arm as rows;

/// Whether BX has a row in the profile of a number.
#[tactic(auto, using(crate::proofs::Profiles::exchange_is))]
pub(crate) fn has_exchange(profile: u8) -> bool
    ensures { result ≡ rows.has_exchange (rows.profile_of profile) }
{
    profile != 0
}

/// Whether the profile of a number is version 5.
#[tactic(auto, using(crate::proofs::Profiles::fifth_is))]
pub(crate) fn is_fifth(profile: u8) -> bool
    ensures { result ≡ rows.is_fifth (rows.profile_of profile) }
{
    profile != 0 && profile != 1
}
