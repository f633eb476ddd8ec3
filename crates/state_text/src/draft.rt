//! What is kept of the lines of a state text.
ghost use Rattle.std.specs.Prelude.{◌≡◌, ℕ, ◌+◌, ◌-◌, ◌++◌, ◌%◌, Bool, List, [], ◌∷◌, Option, Some, OnOk, length, take, drop};
ghost use Rattle.machine_spec.specs.StateText.{values_in, bytes_in, choices_in, number_of_bits, lines_of_head, StateRefused};
ghost use Rattle.machine_spec.specs.StateText as texts;
ghost use Rattle.start_value.specs.Starts.{layout_of};
ghost use Rattle.state_text.specs.Starts.{named_of, text_of};
ghost use Rattle.state_text.specs.Lines.{line_said};
ghost use Rattle.state_text.specs.Readings.{fault_of, told_but, HasBytes, IsRefusedBy};

use crate::start::{NamedEnding, StateText};
use crate::state_fault::{ParseFault, StateFault};
use crate::state_line::StateLine;
use start_value::{Layout, Start};
use std::alloc::{AllocError, Global};

/// What is kept of lines: the values of registers and then of flags, bytes by their addresses and choices by their steps.
#[derive(Drop)]
pub(crate) struct Draft {
    values: Vec<u32>,
    bytes: Vec<(u32, u8)>,
    choices: Vec<(u64, u8)>,
}

/// The number of bits, the first the highest; of more than eight bits that of the last eight.
fn flags_of(bits: &[u32]) -> u8
    ensures { result ≡ number_of_bits bits.now % 256 }
{
    let mut flags = 0u8;
    for bit in bits {
        flags = ((flags as u64 * 2 + *bit as u64) % 256) as u8;
    }
    flags
}

impl Draft {
    /// Nothing is kept.
    pub(crate) fn new(alloc: Global) -> Draft
        ensures values { result.values.items ≡ [] }
        ensures bytes { result.bytes.items ≡ [] }
        ensures choices { result.choices.items ≡ [] }
    {
        Draft {
            values: Vec::new(alloc),
            bytes: Vec::new(alloc),
            choices: Vec::new(alloc),
        }
    }

    /// Keeps what a line says.
    pub(crate) fn add(&mut self, line: StateLine) -> Result<(), AllocError>
        ensures values { OnOk result (self.new.values.items ≡ self.old.values.items ++ values_in (Some (line_said line) ∷ [])) }
        ensures bytes { OnOk result (self.new.bytes.items ≡ self.old.bytes.items ++ bytes_in (Some (line_said line) ∷ [])) }
        ensures choices { OnOk result (self.new.choices.items ≡ self.old.choices.items ++ choices_in (Some (line_said line) ∷ [])) }
    {
        match line {
            StateLine::Register { value, .. } => self.values.push(value)?,
            StateLine::Byte { at, value } => self.bytes.push((at, value))?,
            StateLine::Choice { step, choice } => self.choices.push((step as u64, choice))?,
            _ => {}
        }
        Ok(())
    }

    /// The fault of a line behind those that were kept.
    pub(crate) fn refused(self, line: u64, kind: StateFault) -> ParseFault
        ensures bytes { (ls : List (Option texts.StateLine)) → self.bytes.items ≡ bytes_in (take (line - 1) ls) → HasBytes ls result }
        ensures told { (known : ℕ → Bool) (layout : texts.Layout) (told : texts.Told) →
            told ≡ told_but known (lines_of_head layout + 1) self.bytes.items (StateRefused line (fault_of kind)) → IsRefusedBy known layout told result }
    {
        ParseFault::Refused {
            line,
            kind,
            bytes: self.bytes,
        }
    }

    /// The text's start, with its ending.
    pub(crate) fn into_text(self, layout: Layout, named: NamedEnding) -> StateText
        ensures named { (text_of result).named ≡ named_of named }
        ensures regs { result.start.regs.items ≡ take (length (layout_of layout).registers) self.values.items }
        ensures flags { result.start.flags ≡ number_of_bits (drop (length (layout_of layout).registers) self.values.items) % 256 }
        ensures bytes { result.start.bytes.items ≡ self.bytes.items }
        ensures choices { result.start.choices.items ≡ self.choices.items }
    {
        let Draft {
            values: mut regs,
            bytes,
            choices,
        } = self;
        let count = layout.register_count();
        let first_flag = count.min(regs.len());
        let flags = flags_of(&regs[first_flag..]);
        regs.truncate(count);
        StateText {
            named,
            start: Start {
                regs,
                flags,
                bytes,
                choices,
            },
        }
    }
}
