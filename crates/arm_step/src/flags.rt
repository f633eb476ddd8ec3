//! The flags (section A2.5), and the conditions (section A3.2).
ghost use Rattle.std.specs.Prelude.{◌≡◌, ℕ, ◌≤◌, ◌<◌, ◌^◌, ◌==◌};
ghost use Rattle.word_spec.specs.Words.{bit_at};
ghost use Rattle.machine_spec.specs.Arm as rows;
ghost use Rattle.word_spec.specs.State.{State};
ghost use Rattle.arm_decode.specs.Parts.{condition_number};
ghost use Rattle.arm_step.specs.Parts.{flags_of};

use arm_decode::Condition;

/// Negative, zero, carry and overflow.
#[derive(Clone, Copy)]
pub struct Flags {
    pub n: bool,
    pub z: bool,
    pub c: bool,
    pub v: bool,
}

impl Flags {
    /// The flags of a number, as N 8, Z 4, C 2 and V 1.
    pub fn of(bits: u8) -> Flags
        requires { bits < 16 }
        ensures { flags_of result ≡ (λ f. bit_at f bits) }
    {
        Flags {
            n: bits / 8 % 2 == 1,
            z: bits / 4 % 2 == 1,
            c: bits / 2 % 2 == 1,
            v: bits % 2 == 1,
        }
    }

    /// Whether a flag is set, N being 3, Z 2, C 1 and V 0.
    pub fn get(self, number: u8) -> bool
        requires { number ≤ 3 }
        ensures set { result ≡ (flags_of self number == 1) }
    {
        match number {
            0 => self.v,
            1 => self.c,
            2 => self.z,
            _ => self.n,
        }
    }

    /// Whether a condition holds of them.
    #[tactic(auto, using(crate::proofs::Conditions::held))]
    pub fn hold(self, condition: Condition) -> bool
        ensures { (s : State) (w : ℕ) → s.flags ≡ flags_of self → rows.condition_code w ≡ condition_number condition → result ≡ rows.holds w s }
    {
        match condition {
            Condition::Eq => self.z,
            Condition::Ne => !self.z,
            Condition::Cs => self.c,
            Condition::Cc => !self.c,
            Condition::Mi => self.n,
            Condition::Pl => !self.n,
            Condition::Vs => self.v,
            Condition::Vc => !self.v,
            Condition::Hi => self.c && !self.z,
            Condition::Ls => !self.c || self.z,
            Condition::Ge => self.n == self.v,
            Condition::Lt => self.n != self.v,
            Condition::Gt => !self.z && self.n == self.v,
            Condition::Le => self.z || self.n != self.v,
            Condition::Al => true,
        }
    }
}
