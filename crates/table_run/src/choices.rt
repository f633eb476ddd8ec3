//! The choice of a step.
ghost use Rattle.std.specs.Prelude.{◌≡◌, ℕ, ◌≤◌, ◌<◌, length, get_or};
ghost use Rattle.word_spec.specs.Memory.{byte_in};
ghost use Rattle.machine_spec.specs.StateText.{AreRising};

/// The place of the first choice whose step is not below this one.
fn place(choices: &[(u64, u8)], step: u64) -> usize
    requires { AreRising choices.now }
    ensures within { result ≤ length choices.now }
    ensures below { (i : ℕ) (d : ℕ × ℕ) → i < result → (get_or choices.now i d).0 < step }
    ensures from { (i : ℕ) (d : ℕ × ℕ) → result ≤ i → i < length choices.now → step ≤ (get_or choices.now i d).0 }
{
    let mut low = 0usize;
    let mut high = choices.len();
    while low < high {
        let middle = low + (high - low) / 2;
        if choices[middle].0 < step {
            low = middle + 1;
        } else {
            high = middle;
        }
    }
    low
}

/// The choice of a step, 0 where there is none.
pub(crate) fn choice_at(choices: &[(u64, u8)], step: u64) -> u8
    requires { AreRising choices.now }
    ensures { result ≡ byte_in choices.now step }
{
    let i = place(choices, step);
    if i == choices.len() {
        return 0;
    }
    if choices[i].0 != step {
        return 0;
    }
    choices[i].1
}
