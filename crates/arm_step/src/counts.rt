//! CLZ (section A4.1.13).
use crate::class::Step;
use crate::facts::Facts;
use crate::state::State;
use arm_decode::{Class, Count};
use byte_mem::{Endian, StepOut};

impl Step for Count {
    fn act(self, state: &mut State, endian: Endian, choice: u8) -> StepOut {
        let fields = self.fields();
        let value = state.read(fields.rm);
        state.set(fields.rd, value.leading_zeros());
        state.go_on()
    }

    fn stored(self, state: &State) -> Option<(u32, u8)> {
        None
    }

    fn loaded(self, state: &State) -> Option<(u32, u8)> {
        None
    }

    fn facts(self, at: u32) -> Facts {
        Facts::plain(self.condition())
    }
}
