//! What a contract's frame may have changed where it is left.

ghost use Rattle.std.specs.Prelude.{◌≡◌, ◌≤◌, ◌<◌, ◌+◌, ◌-◌, ◌*◌, ◌&&◌, ◌||◌, ◌==◌, not, IfOk, length};
ghost use Rattle.term_spec.specs.Terms.{HasWidth, term_word};
ghost use Rattle.term_spec.specs.Passive.{AreNames, Tells};
ghost use Rattle.notes_value.specs.FrameViews.{contract_of};
ghost use Rattle.term_names.specs.Choices.{AreWide, places};
ghost use Rattle.term_names.specs.Gifts.{is_in};
ghost use Rattle.term_names.specs.Chosen.{HaveSameForm};
ghost use Rattle.term_names.specs.Views.{form_of, names_of};
ghost use Rattle.passify.specs.Bits.{Makes};
ghost use Rattle.passify.specs.Changes.{TellsAmong, TellsChanged};
ghost use Rattle.passify.specs.Sweeps.{bits_of, terms_of};

use crate::bits::{constant, either};
use bil_ast::BinaryOp;
use notes_value::Contract;
use std::alloc::AllocError;
use term_dag::{Dag, Node, Term};
use term_names::Names;

/// Whether a number below 32 is in a set that has a bit for each.
fn is_in(set: u32, number: u8) -> bool
    requires { number < 32 }
    ensures { result ≡ is_in set number }
{
    (set >> number) % 2 == 1
}

/// Whether a bit is 1, or two words of a width differ.
fn differs(
    dag: &mut Dag,
    width: u8,
    left: Term,
    right: Term,
    before: Term,
) -> Result<Term, AllocError>
    requires some { 1 ≤ width }
    requires few { width ≤ 64 }
    requires left { HasWidth dag.old width left.0 }
    requires right { HasWidth dag.old width right.0 }
    requires before { HasWidth dag.old 1 before.0 }
    ensures { IfOk result (λ t. Makes dag.old dag.new (width + 1) 4 1 t.0 (λ x. (p : _) → Tells dag.old x before.0 p →
        Tells dag.new x t.0 (p || not (term_word x dag.old left.0 == term_word x dag.old right.0)))) }
{
    let bit = dag.mk(Node::Binary {
        op: BinaryOp::NotEqual,
        width,
        left,
        right,
    })?;
    let some = either(dag, before, bit)?;
    Ok(some)
}

/// Whether a bit is 1, or some of two rows of terms of a width differ, whose numbers from a first one on are not in a set.
fn changed_among(
    dag: &mut Dag,
    width: u8,
    set: u32,
    first: u8,
    entry: &[Term],
    next: &[Term],
    before: Term,
) -> Result<Term, AllocError>
    requires some { 1 ≤ width }
    requires wide { width ≤ 64 }
    requires few { first + length entry.now ≤ 32 }
    requires count { length next.now ≡ length entry.now }
    requires entry { AreWide dag.old width (places entry.now) }
    requires next { AreWide dag.old width (places next.now) }
    requires before { HasWidth dag.old 1 before.0 }
    ensures { IfOk result (λ t. Makes dag.old dag.new ((width + 1) * length entry.now) (4 * length entry.now) 1 t.0
        (TellsAmong dag.old dag.new set first (places entry.now) (places next.now) (length entry.now) before.0 t.0)) }
{
    let _typed = dag.nodes();
    let mut some = before;
    for i in 0..entry.len() {
        if is_in(set, first + i as u8) {
            continue;
        }
        some = differs(dag, width, next[i], entry[i], some)?;
    }
    Ok(some)
}

/// Whether a register or a flag differs from what it was at entry, and is none that a contract may change.
pub fn changed(
    dag: &mut Dag,
    contract: &Contract,
    entry: &Names,
    next: &Names,
) -> Result<Term, AllocError>
    requires registers { entry.now.first + length entry.now.registers.items ≤ 32 }
    requires flags { length entry.now.flags.items ≤ 4 }
    requires same { HaveSameForm entry.now next.now }
    requires entry { AreNames (form_of entry.now) dag.old (names_of entry.now) }
    requires next { AreNames (form_of next.now) dag.old (names_of next.now) }
    ensures { IfOk result (λ t. Makes dag.old dag.new (bits_of next.now + terms_of next.now - 1) (4 * terms_of next.now - 3) 1 t.0
        (TellsChanged dag.old dag.new (contract_of contract.now) entry.now next.now t.0)) }
{
    let never = constant(dag, false)?;
    let words = changed_among(
        dag,
        32,
        contract.registers,
        next.first,
        &entry.registers,
        &next.registers,
        never,
    )?;
    let all = changed_among(
        dag,
        1,
        u32::from(contract.flags),
        0,
        &entry.flags,
        &next.flags,
        words,
    )?;
    Ok(all)
}
