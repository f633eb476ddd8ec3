//! The registers x0 to x31.
ghost use Rattle.std.specs.Prelude.{◌≡◌, ℕ, ◌<◌, ◌^◌, ◌∷◌, get_or, length};
ghost use Rattle.machine_spec.specs.Rv.{put_reg};
ghost use Rattle.rv_step.specs.RegisterFile.{registers_of};

use rv_decode::Register;

/// The words of x0 to x31, by number. That of x0 is 0 (section 2.1).
#[derive(Clone, Copy)]
pub struct Registers {
    words: [u32; 32],
    ghost zero: { get_or words 0 0 ≡ 0 },
    ghost in_range: { (r : ℕ) → registers_of words r < 2 ^ 32 },
}

impl Registers {
    /// All registers 0.
    pub fn new() -> Registers
        ensures { registers_of result.words ≡ (λ r. 0) }
    {
        Registers { words: [0; 32] }
    }

    /// The registers whose words x1 to x31 are given in order.
    pub fn of(words: &[u32]) -> Registers
        requires { length words.now ≡ 31 }
        ensures { result.words ≡ 0 ∷ words.now }
    {
        let mut all = [0; 32];
        all[1..].copy_from_slice(words);
        Registers { words: all }
    }

    /// A register.
    pub fn read(&self, number: u8) -> u32
        requires { number < 32 }
        ensures value { result ≡ registers_of self.now.words number }
        ensures zero { registers_of self.now.words 0 ≡ 0 }
    {
        self.words[number as usize]
    }

    /// Changes a register; x0 keeps its value.
    pub fn write(&mut self, rd: Register, value: u32)
        ensures { registers_of self.new.words ≡ put_reg (registers_of self.old.words) rd.number value }
    {
        let number = rd.number();
        if number != 0 {
            self.words[number as usize] = value;
        }
    }
}
