//! Where the reading of a state text stands, and whether a line may follow.
ghost use Rattle.std.specs.Prelude.{◌≡◌, ℕ, ◌+◌, ◌<◌, ◌^◌, ◌∷◌, List, [], None, false, ◌&&◌, not, nat_le, nat_lt};
ghost use Rattle.std.specs.Option.{option_map};
ghost use Rattle.machine_spec.specs.StateText as texts;
ghost use Rattle.machine_spec.specs.StateText.{NamedLine, RegisterLine, ByteLine, ChoiceLine, missed, line_refusal, end_refusal};
ghost use Rattle.machine_spec.specs.Endings as reports;
ghost use Rattle.start_value.specs.Starts.{layout_of};
ghost use Rattle.state_text.specs.Lines.{line_said};
ghost use Rattle.state_text.specs.Readings.{fault_of, IsBehind};

use crate::state_fault::StateFault;
use crate::state_line::StateLine;
use start_value::Layout;

/// Where the reading stands behind some lines of a text.
#[derive(Clone, Copy)]
pub(crate) struct Progress {
    /// How many lines were read.
    count: u64,
    /// The least address that a byte may have.
    next_byte: u64,
    /// The least step that a choice may have.
    next_step: u64,
    /// Whether a choice or the end was read.
    behind_bytes: bool,
    /// Whether the end was read.
    ended: bool,
}

/// A fault where a test fails.
fn unless(holds: bool, fault: StateFault) -> Option<StateFault>
    ensures { option_map fault_of result ≡ texts.unless holds (fault_of fault) }
{
    if holds { None } else { Some(fault) }
}

/// A fault, or else another.
fn or_else(first: Option<StateFault>, other: Option<StateFault>) -> Option<StateFault>
    ensures { option_map fault_of result ≡ texts.or_else (option_map fault_of first) (option_map fault_of other) }
{
    first.or(other)
}

/// What is missed by a line that stands behind all registers and flags.
fn missed(layout: Layout, count: u64) -> Option<StateFault>
    ensures { option_map fault_of result ≡ missed (layout_of layout) count }
{
    or_else(
        unless(count >= 2, StateFault::Line),
        unless(count >= layout.head_lines(), StateFault::Register),
    )
}

impl Progress {
    /// Behind the line of the ending.
    pub(crate) fn behind_ending() -> Progress
        ensures start { (n : reports.NamedEnding) → IsBehind (NamedLine n ∷ []) result }
        ensures count { result.count ≡ 1 }
    {
        Progress {
            count: 1,
            next_byte: 0,
            next_step: 0,
            behind_bytes: false,
            ended: false,
        }
    }

    /// The number of the next line.
    pub(crate) fn next_line(self) -> u64
        requires { self.count + 1 < 2 ^ 64 }
        ensures { result ≡ self.count + 1 }
    {
        self.count + 1
    }

    /// Whether a byte may follow.
    fn takes_byte(self, at: u32, value: u8) -> bool
        ensures { result ≡ (not self.behind_bytes && nat_le self.next_byte at && nat_lt 0 value) }
    {
        !self.behind_bytes && self.next_byte <= at as u64 && 0 < value
    }

    /// Whether a choice may follow.
    fn takes_choice(self, step: u32, choice: u8) -> bool
        ensures { result ≡ (not self.ended && nat_le self.next_step step && nat_lt 0 choice && nat_lt choice 4) }
    {
        !self.ended && self.next_step <= step as u64 && 0 < choice && choice < 4
    }

    /// Why the line of a register or a flag is refused, if it is.
    fn register_refusal(self, place: usize) -> Option<StateFault>
        ensures { (layout : texts.Layout) (before : List texts.StateLine) (v : ℕ) → IsBehind before self →
            option_map fault_of result ≡ line_refusal layout (λ a. false) before (RegisterLine place v) }
    {
        if self.count < 2 {
            return Some(StateFault::Line);
        }
        unless(self.count - 2 == place as u64, StateFault::Register)
    }

    /// Why a line is refused, if it is.
    pub(crate) fn refusal(self, layout: Layout, line: StateLine) -> Option<StateFault>
        ensures { (before : List texts.StateLine) → IsBehind before self →
            option_map fault_of result ≡ line_refusal (layout_of layout) (λ a. false) before (line_said line) }
    {
        match line {
            StateLine::Named(_) => unless(self.count == 0, StateFault::Line),
            StateLine::Machine => unless(self.count == 1, StateFault::Line),
            StateLine::Register { place, .. } => self.register_refusal(place),
            StateLine::Byte { at, value } => or_else(
                missed(layout, self.count),
                unless(self.takes_byte(at, value), StateFault::Byte),
            ),
            StateLine::Choice { step, choice } => or_else(
                missed(layout, self.count),
                unless(self.takes_choice(step, choice), StateFault::Choice),
            ),
            StateLine::End => or_else(
                missed(layout, self.count),
                unless(!self.ended, StateFault::End),
            ),
        }
    }

    /// Why a text is refused that ends here, if it is.
    pub(crate) fn end_refusal(self, layout: Layout) -> Option<StateFault>
        ensures { (before : List texts.StateLine) → IsBehind before self →
            option_map fault_of result ≡ end_refusal (layout_of layout) before }
    {
        or_else(
            unless(self.count >= layout.head_lines(), StateFault::Register),
            unless(self.ended, StateFault::End),
        )
    }

    /// Behind a line that is not refused.
    pub(crate) fn after(self, line: StateLine) -> Progress
        requires { self.count + 1 < 2 ^ 64 }
        ensures count { result.count ≡ self.count + 1 }
        ensures behind { (layout : texts.Layout) (before : List texts.StateLine) → IsBehind before self →
            line_refusal layout (λ a. false) before (line_said line) ≡ None → IsBehind (line_said line ∷ before) result }
    {
        let count = self.count + 1;
        match line {
            StateLine::Byte { at, .. } => Progress {
                count,
                next_byte: at as u64 + 1,
                ..self
            },
            StateLine::Choice { step, .. } => Progress {
                count,
                next_step: step as u64 + 1,
                behind_bytes: true,
                ..self
            },
            StateLine::End => Progress {
                count,
                behind_bytes: true,
                ended: true,
                ..self
            },
            _ => Progress { count, ..self },
        }
    }
}
