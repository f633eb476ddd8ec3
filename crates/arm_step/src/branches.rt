//! B and BL (section A3.3).
use crate::class::Step;
use crate::facts::Facts;
use crate::state::State;
use arm_decode::{Branch, Class, Register};
use byte_mem::{Endian, How, StepOut, View};
use machine_law::Succ;

impl Step for Branch {
    fn act(self, state: &mut State, endian: Endian, choice: u8) -> StepOut {
        let at = state.pc();
        let to = self.target(at);
        if self.fields().is_linked {
            state.set(Register::new(14), at.wrapping_add(4));
            state.jump(to, How::DirectCall)
        } else {
            state.jump(to, How::Direct)
        }
    }

    fn stored(self, state: &State) -> Option<(u32, u8)> {
        None
    }

    fn loaded(self, state: &State) -> Option<(u32, u8)> {
        None
    }

    fn facts(self, at: u32) -> Facts {
        let condition = self.condition();
        let is_linked = self.fields().is_linked;
        Facts {
            successors: Succ {
                next: !condition.is_always(),
                direct: Some(self.target(at)),
                indirect: false,
                call: is_linked,
            },
            links: is_linked,
            ..Facts::plain(condition)
        }
    }
}
