//! SWI (section A3.14).
use crate::class::Step;
use crate::facts::Facts;
use crate::state::State;
use arm_decode::{Class, SoftwareInterrupt};
use byte_mem::{Endian, StepOut};
use machine_law::Succ;

impl Step for SoftwareInterrupt {
    fn act(self, state: &mut State, endian: Endian, choice: u8) -> StepOut {
        StepOut::Trap
    }

    fn stored(self, state: &State) -> Option<(u32, u8)> {
        None
    }

    fn loaded(self, state: &State) -> Option<(u32, u8)> {
        None
    }

    fn facts(self, at: u32) -> Facts {
        let condition = self.condition();
        Facts {
            successors: Succ {
                next: !condition.is_always(),
                direct: None,
                indirect: false,
                call: false,
            },
            ..Facts::plain(condition)
        }
    }
}
