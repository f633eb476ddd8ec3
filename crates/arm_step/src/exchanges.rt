//! BX (section A4.1.10): the register is the address with its low bits, and there is no link.
use crate::class::Step;
use crate::facts::{Facts, may_jump};
use crate::state::State;
use arm_decode::{Class, Exchange};
use byte_mem::{Endian, How, StepOut};

impl Step for Exchange {
    fn act(self, state: &mut State, endian: Endian, choice: u8) -> StepOut {
        let to = state.read(self.rm());
        state.jump(to, How::Indirect)
    }

    fn stored(self, state: &State) -> Option<(u32, u8)> {
        None
    }

    fn loaded(self, state: &State) -> Option<(u32, u8)> {
        None
    }

    fn facts(self, at: u32) -> Facts {
        let condition = self.condition();
        Facts {
            successors: may_jump(true, condition.is_always()),
            ..Facts::plain(condition)
        }
    }
}
