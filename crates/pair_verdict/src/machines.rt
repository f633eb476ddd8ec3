//! The machine of a form of states.

/// Calls a function that is generic over machines with the machine of a form of states.
macro_rules! on_machine {
    ($layout:expr, $call:ident ($($argument:expr),*)) => {
        match $layout {
            Layout::Rv32 { compressed: false } => $call::<Rv32<0>>($($argument),*),
            Layout::Rv32 { compressed: true } => $call::<Rv32<1>>($($argument),*),
            Layout::Arm { big: false, profile: Profile::V4 } => $call::<Arm<0, 0>>($($argument),*),
            Layout::Arm { big: false, profile: Profile::V4T } => $call::<Arm<0, 1>>($($argument),*),
            Layout::Arm { big: false, profile: Profile::V5 } => $call::<Arm<0, 2>>($($argument),*),
            Layout::Arm { big: true, profile: Profile::V4 } => $call::<Arm<1, 0>>($($argument),*),
            Layout::Arm { big: true, profile: Profile::V4T } => $call::<Arm<1, 1>>($($argument),*),
            Layout::Arm { big: true, profile: Profile::V5 } => $call::<Arm<1, 2>>($($argument),*),
        }
    };
}

pub(crate) use on_machine;
