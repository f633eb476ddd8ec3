//! SWP and SWPB (section A3.13).
use crate::access::{access_of, load_by, store_by};
use crate::class::Step;
use crate::facts::{Facts, bytes_of};
use crate::state::State;
use arm_decode::{Class, Swap};
use byte_mem::{Endian, StepOut};
use machine_law::Cost;

impl Step for Swap {
    fn act(self, state: &mut State, endian: Endian, choice: u8) -> StepOut {
        let fields = self.fields();
        let a = state.read(fields.rn);
        let stored = state.read(fields.rm);
        let loaded = load_by(fields.is_byte, endian, state, a);
        store_by(fields.is_byte, endian, state, a, stored);
        state.set(fields.rd, loaded);
        state.go_on()
    }

    fn stored(self, state: &State) -> Option<(u32, u8)> {
        let fields = self.fields();
        Some(access_of(fields.is_byte, state.read(fields.rn)))
    }

    fn loaded(self, state: &State) -> Option<(u32, u8)> {
        let fields = self.fields();
        Some(access_of(fields.is_byte, state.read(fields.rn)))
    }

    fn facts(self, at: u32) -> Facts {
        let fields = self.fields();
        let bytes = bytes_of(fields.is_byte);
        let is_same = fields.rd.number() == fields.rm.number();
        Facts {
            cost: Cost {
                row: 4096,
                loads: if is_same { 3 * bytes } else { bytes },
                stores: bytes,
            },
            ..Facts::plain(self.condition())
        }
    }
}
