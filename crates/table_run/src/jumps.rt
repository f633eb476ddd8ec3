//! The targets that an indirect jump may have whatever the stack is.
ghost use Rattle.std.specs.Prelude.{◌≡◌, ◌++◌, map, nat_eq, Some};
ghost use Rattle.std.specs.List.{list_any};
ghost use Rattle.word_spec.specs.Words.{sub};
ghost use Rattle.machine_spec.specs.Machine.{pair_of};
ghost use Rattle.bilv_spec.specs.Run.{some_of, row_at, targets_at, literal_target};
ghost use Rattle.notes_value.specs.NoteViews.{targets_of};
ghost use Rattle.program_value.specs.Programs.{program_of};
ghost use Rattle.table_run.specs.Steps.{IsBefore};
ghost use Rattle.notes_index.specs.Indexed.{targets_places, IsIndex};

use crate::words::decoded_at;
use byte_mem::View;
use file_words::{all_kept, fetchable};
use machine_law::{Machine, length};
use notes_index::group;
use notes_value::Targets;
use program_value::Program;

/// What is known of a step before it is made: its address, how many bytes its row has, and the targets of its row's pair and of its literal, which are sought
/// only where the row may jump to an address that the state gives.
#[derive(Clone, Copy)]
pub(crate) struct Before {
    pub(crate) at: u32,
    pub(crate) length: u8,
    pub(crate) pair: Option<u32>,
    pub(crate) literal: Option<u32>,
}

/// The target of the pair of an instruction with the one before it, where that may be fetched.
fn pair_target<M: Machine>(p: &Program<M>, insn: &M::Insn, state: &M::State) -> Option<u32>
    ensures { pair_of (row_at (program_of p.now) ((program_of p.now).word (M.State.view state.now)) (sub 32 (M.State.view state.now).pc 4))
        (Some (M.Machine.row insn.now)) (M.State.view state.now).pc ≡ result }
{
    let at = state.pc();
    let behind = at.wrapping_sub(4);
    let word = decoded_at::<M>(p, state, behind);
    if !fetchable(p.image, behind, length::<M>(word)) {
        return None;
    }
    match M::decode(word) {
        None => None,
        Some(before) => M::pair(&before, insn, at),
    }
}

/// The literal of an instruction, where its bytes are kept.
fn literal_word<M: Machine>(p: &Program<M>, insn: &M::Insn, state: &M::State) -> Option<u32>
    ensures { literal_target (program_of p.now) ((program_of p.now).word (M.State.view state.now))
        ((M.Machine.row insn.now).literal (M.State.view state.now).pc) ≡ some_of result }
{
    match M::literal(insn, state.pc()) {
        None => None,
        Some(a) => {
            if !all_kept(p.image, a) {
                return None;
            }
            Some(decoded_at::<M>(p, state, a))
        }
    }
}

/// What is known of the step of an instruction, of so many bytes, in a state.
pub(crate) fn look<M: Machine>(
    p: &Program<M>,
    insn: &M::Insn,
    length: u8,
    state: &M::State,
) -> Before
    requires length { length ≡ (M.Machine.row insn.now).length }
    ensures { IsBefore (program_of p.now) (M.Machine.row insn.now) (M.State.view state.now) result }
{
    let at = state.pc();
    if !M::successors(insn, at).indirect {
        return Before {
            at,
            length,
            pair: None,
            literal: None,
        };
    }
    Before {
        at,
        length,
        pair: pair_target::<M>(p, insn, state),
        literal: literal_word::<M>(p, insn, state),
    }
}

/// An address is one of these.
fn is_among(to: u32, places: &[u32]) -> bool
    ensures { result ≡ list_any (nat_eq to) places.now }
{
    for place in places {
        if to == *place {
            return true;
        }
    }
    false
}

/// The notes list the address as a target of the jump at another.
fn is_listed(targets: &[Targets], index: &[(u32, usize)], at: u32, to: u32) -> bool
    requires { IsIndex (targets_places targets.now) index.now }
    ensures { result ≡ list_any (nat_eq to) (targets_at (map targets_of targets.now) at) }
{
    let (low, high) = group(index, at);
    for i in low..high {
        if is_among(to, &targets[index[i].1].to) {
            return true;
        }
    }
    false
}

/// The address is a target of the step's jump whatever the stack is.
pub(crate) fn is_named(targets: &[Targets], index: &[(u32, usize)], before: Before, to: u32) -> bool
    requires { IsIndex (targets_places targets.now) index.now }
    ensures { result ≡ list_any (nat_eq to) (targets_at (map targets_of targets.now) before.at ++ some_of before.pair ++ some_of before.literal) }
{
    if is_listed(targets, index, before.at, to) {
        return true;
    }
    if before.pair == Some(to) {
        return true;
    }
    before.literal == Some(to)
}
