//! The registers r0 to r14.
ghost use Rattle.std.specs.Prelude.{◌≡◌, ℕ, ◌<◌, ◌^◌, length};
ghost use Rattle.word_spec.specs.State.{put};
ghost use Rattle.arm_step.specs.RegisterFile.{registers_of};

use arm_decode::Register;

/// The words of r0 to r14, by number.
#[derive(Clone, Copy)]
pub struct Registers {
    words: [u32; 15],
    ghost in_range: { (r : ℕ) → registers_of words r < 2 ^ 32 },
}

impl Registers {
    /// The registers whose words are given in order.
    pub fn of(words: &[u32]) -> Registers
        requires { length words.now ≡ 15 }
        ensures { result.words ≡ words.now }
    {
        let mut all = [0; 15];
        all.copy_from_slice(words);
        Registers { words: all }
    }

    /// A register.
    pub fn read(&self, number: u8) -> u32
        requires { number < 15 }
        ensures { result ≡ registers_of self.now.words number }
    {
        self.words[number as usize]
    }

    /// Changes a register.
    pub fn write(&mut self, rd: Register, value: u32)
        ensures { registers_of self.new.words ≡ put (registers_of self.old.words) rd.number value }
    {
        self.words[rd.number() as usize] = value;
    }
}
