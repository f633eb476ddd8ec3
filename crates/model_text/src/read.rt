//! Reads answers.
ghost use Rattle.std.specs.Prelude.{◌≡◌, ◌≤◌, ◌%◌, ℕ, List, Option, None, length, map, take, drop, IfOk, IfErr, IfSome};
ghost use Rattle.machine_spec.specs.StateText.{value_names};
ghost use Rattle.model_spec.specs.ModelText.{Declared, Definition, IsAnswer, Value, line_after};
ghost use Rattle.start_value.specs.Starts.{layout_of};
ghost use Rattle.model_text.specs.Answers.{IsModelOf, IsMemoryIf};
ghost use Rattle.model_text.specs.Drafts.{AreFindings, AreFlags, IsMemoryOf, or_zero};
ghost use Rattle.model_text.specs.Faults.{IsRefusal, kept_of};
ghost use Rattle.model_text.specs.Judgements.{answer_to, IsRefused};
ghost use Rattle.model_text.specs.Stores.{AreBytes};
ghost use Rattle.model_text.specs.Symbols.{AreFrameSymbols, AreSymbols, count_of};
ghost use Rattle.model_text.specs.Traces.{Outcome, Whole, Refused};

use crate::fault::ModelFault;
use crate::findings::Findings;
use crate::kept::Kept;
use crate::model::{Model, ModelMemory};
use crate::place::Place;
use crate::reading::Reading;
use crate::scanner::next_token;
use crate::stores::Stored;
use crate::symbol::Others;
use start_value::Layout;
use std::alloc::{AllocError, Global};

/// The number of the line behind the last line of a text.
fn line_after(text: &[u8]) -> u64
    ensures { result ≡ line_after text.now }
{
    let mut line = 1u64;
    let mut ended = true;
    for byte in text {
        if ended {
            line += 1;
        }
        ended = *byte == b'\n';
    }
    line
}

/// The refusal of a fault.
fn refused(fault: Kept) -> ModelFault
    ensures { (o : Outcome) → o ≡ Refused (kept_of fault) → IsRefused o result }
{
    ModelFault::Text {
        line: fault.line,
        kind: fault.kind,
    }
}

/// The findings of a whole answer, or its first fault.
fn read_findings(
    alloc: Global,
    text: &[u8],
    layout: Layout,
    drawn: &[bool],
    others: &Others,
) -> Result<Findings, ModelFault>
    ensures read { IfOk result (λ f. (ds : List Definition) × (answer_to (layout_of layout) drawn.now others.now text.now ≡ Whole ds)
        × AreFindings (layout_of layout) (count_of (layout_of layout) drawn.now) None f ds) }
    ensures refused { IfErr result (IsRefused (answer_to (layout_of layout) drawn.now others.now text.now)) }
{
    let mut reading = Reading::new(alloc, layout, drawn)?;
    let mut rest = text;
    let mut line = 1;
    while let Some((placed, tail)) = next_token(rest, line) {
        if !reading.take(alloc, layout, drawn, others, placed)? {
            return Err(refused(reading.refusal(placed.line)));
        }
        rest = tail.text;
        line = tail.line;
    }
    let Place::Done = reading.place else {
        return Err(refused(reading.refusal(line_after(text))));
    };
    match reading.kept {
        None => Ok(reading.findings),
        Some(fault) => Err(refused(fault)),
    }
}

/// A word that is not given is 0.
fn or_zero(word: Option<u32>) -> u32
    ensures { result ≡ or_zero word }
{
    word.unwrap_or(0)
}

/// The values of words. The error is want of memory.
fn registers(alloc: Global, words: &[Option<u32>]) -> Result<Vec<u32>, AllocError>
    ensures { IfOk result (λ v. v.items ≡ map or_zero words.now) }
{
    let mut found: Vec<u32> = Vec::new(alloc);
    for word in words {
        found.push(or_zero(*word))?;
    }
    Ok(found)
}

/// The last bits of words, of which the last is flag 0.
fn flags(words: &[Option<u32>]) -> u8
    requires { length words.now ≤ 4 }
    ensures { AreFlags words.now result }
{
    let mut flags = 0u8;
    for word in words {
        flags = flags * 2 + (or_zero(*word) % 2) as u8;
    }
    flags
}

/// The last two bits of words. The error is want of memory.
fn choices(alloc: Global, words: &[Option<u32>]) -> Result<Vec<u8>, AllocError>
    ensures { IfOk result (λ v. v.items ≡ map (λ o. or_zero o % 4) words.now) }
{
    let mut found: Vec<u8> = Vec::new(alloc);
    for word in words {
        found.push((or_zero(*word) % 4) as u8)?;
    }
    Ok(found)
}

/// The array of the memory by rising addresses, if there is one. The error is want of memory.
fn settled(alloc: Global, stored: Option<Stored>) -> Result<Option<ModelMemory>, AllocError>
    requires { IfSome stored (λ s. AreBytes s.stores.items) }
    ensures { (v : Option Value) → IsMemoryOf None stored v → IfOk result (λ m. IsMemoryIf v m) }
{
    let Some(stored) = stored else {
        return Ok(None);
    };
    let memory = stored.settle(alloc)?;
    Ok(Some(memory))
}

/// The model of words by the places of symbols. The error is want of memory.
fn model_of(
    alloc: Global,
    layout: Layout,
    words: &[Option<u32>],
    memory: Option<ModelMemory>,
) -> Result<Model, AllocError>
    requires { length (value_names (layout_of layout)) ≤ length words.now }
    ensures registers { IfOk result (λ m. m.registers.items ≡ map or_zero (take (length (layout_of layout).registers) words.now)) }
    ensures flags { IfOk result (λ m. AreFlags (take (length (layout_of layout).flags) (drop (length (layout_of layout).registers) words.now)) m.flags) }
    ensures choices { IfOk result (λ m. m.choices.items ≡ map (λ o. or_zero o % 4) (drop (length (value_names (layout_of layout))) words.now)) }
    ensures memory { IfOk result (λ m. m.memory ≡ memory) }
{
    let count = layout.register_count();
    let names = layout.names().len();
    let registers = registers(alloc, &words[..count])?;
    let flags = flags(&words[count..names]);
    let choices = choices(alloc, &words[names..])?;
    Ok(Model {
        registers,
        flags,
        choices,
        memory,
    })
}

/// The values that an answer gives to the script of a question of a frame: what a solver prints after `sat`.
///
/// The script declares the registers and flags of `layout`, the memory, and a choice for each point whose row reads it: `drawn` says so of each point, by its
/// number in the script. Of a head state and of contract steps it declares `others`, whose values are not kept. The time is that of the text, and the square of
/// the number of others that it gives.
///
/// # Errors
///
/// `Text` with the first line that is refused, and its first fault in the order of [`ModelFaultKind`](crate::ModelFaultKind); `Memory` where memory ran out.
pub fn read_frame_model(
    alloc: Global,
    text: &[u8],
    layout: Layout,
    drawn: &[bool],
    others: &Others,
) -> Result<Model, ModelFault>
    ensures read { (declared : List Declared) → AreFrameSymbols (layout_of layout) drawn.now others.now declared → IfOk result (λ m.
        (ds : List Definition) × IsAnswer declared text.now ds × IsModelOf (layout_of layout) (length drawn.now) ds m) }
    ensures refused { (declared : List Declared) → AreFrameSymbols (layout_of layout) drawn.now others.now declared →
        IfErr result (IsRefusal declared text.now) }
{
    let Findings { words, memory, .. } = read_findings(alloc, text, layout, drawn, others)?;
    let memory = settled(alloc, memory)?;
    let model = model_of(alloc, layout, &words, memory)?;
    Ok(model)
}

/// The same of the script of a question of a program, which declares no others.
///
/// # Errors
///
/// As those of `read_frame_model`.
pub fn read_model(
    alloc: Global,
    text: &[u8],
    layout: Layout,
    drawn: &[bool],
) -> Result<Model, ModelFault>
    ensures read { (declared : List Declared) → AreSymbols (layout_of layout) drawn.now declared → IfOk result (λ m.
        (ds : List Definition) × IsAnswer declared text.now ds × IsModelOf (layout_of layout) (length drawn.now) ds m) }
    ensures refused { (declared : List Declared) → AreSymbols (layout_of layout) drawn.now declared → IfErr result (IsRefusal declared text.now) }
{
    let none = Others {
        head: None,
        given: Vec::new(alloc),
    };
    let model = read_frame_model(alloc, text, layout, drawn, &none)?;
    Ok(model)
}
