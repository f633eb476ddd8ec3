//! The byte order and the form of state texts that numbers say.
ghost use Rattle.std.specs.Prelude.{◌≡◌};
ghost use Rattle.machine_spec.specs.Arm.{profile_of};
ghost use Rattle.machine_spec.specs.StateText.{arm_layout};
ghost use Rattle.byte_mem.specs.Views.{endian_of};
ghost use Rattle.start_value.specs.Starts.{layout_of};
ghost use Rattle.arm_lift.specs.Orders.{order_of};

use byte_mem::Endian;
use start_value::{Layout, Profile};

/// The byte order of a number: 0 is little, any other big.
pub(crate) fn order(big: u8) -> Endian
    ensures { endian_of result ≡ order_of big }
{
    if big == 0 {
        Endian::Little
    } else {
        Endian::Big
    }
}

/// The form of state texts in the byte order and the profile of numbers.
pub(crate) fn layout(big: u8, profile: u8) -> Layout
    ensures { layout_of result ≡ arm_layout (order_of big) (profile_of profile) }
{
    Layout::Arm {
        big: big != 0,
        profile: Profile::of(profile),
    }
}
