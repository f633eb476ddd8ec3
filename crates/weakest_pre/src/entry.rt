//! The entry condition as a term.

ghost use Rattle.std.specs.Prelude.{◌≡◌, ◌<◌, true, IfOk, Contains};
ghost use Rattle.word_spec.specs.Words.{bit};
ghost use Rattle.machine_spec.specs.Machine.{is_place};
ghost use Rattle.machine_spec.specs.Bil.{And};
ghost use Rattle.term_spec.specs.Terms.{BinaryNode, HasWidth, term_word};
ghost use Rattle.term_dag.specs.Made.{IsMade};
ghost use Rattle.walk_spec.specs.Unrolled.{is_register_of};
ghost use Rattle.walk_spec.specs.Unrolling.{IsReadable};
ghost use Rattle.notes_value.specs.Views.{expr_of};
ghost use Rattle.notes_value.specs.declared.notes.NoteLine as declared;
ghost use Rattle.question_form.specs.Views.{unrolled_of};
ghost use Rattle.term_names.specs.Views.{form_of};
ghost use Rattle.term_names.specs.Chosen.{HaveSameForm};
ghost use Rattle.note_terms.specs.Steps.{IsStep};
ghost use Rattle.note_terms.specs.Lines.{AreStateTerms};
ghost use Rattle.weakest_pre.specs.Entry.{AreTrue, HasReadableLines, IsEntryBit, said};

use bil_ast::BinaryOp;
use note_terms::{Now, line};
use notes_value::NoteLine;
use question_form::Unrolled;
use std::alloc::{AllocError, Global};
use term_dag::{Dag, Node, Term};
use term_names::entry_names;

/// Whether both bits are 1.
pub fn both(dag: &mut Dag, left: Term, right: Term) -> Result<Term, AllocError>
    requires left { HasWidth dag.old 1 left.0 }
    requires right { HasWidth dag.old 1 right.0 }
    ensures { IfOk result (λ t. IsMade dag.old dag.new (BinaryNode And 1 left.0 right.0) t.0) }
{
    let bit = dag.mk(Node::Binary {
        op: BinaryOp::And,
        width: 1,
        left,
        right,
    })?;
    Ok(bit)
}

/// Whether a row can stand at the address that a word is: it is even where some rows have 2 bytes, and else a multiple of 4.
fn is_at_place(dag: &mut Dag, narrow: bool, word: Term) -> Result<Term, AllocError>
    requires word { HasWidth dag.old 32 word.0 }
    ensures { IfOk result (λ t. IsStep dag.old dag.new 2 0 5 (λ w. w ≡ 1) (λ x. bit (is_place narrow (term_word x dag.old word.0))) t.0) }
{
    let hi = u8::from(!narrow);
    let low = dag.mk(Node::Extract {
        hi,
        lo: 0,
        term: word,
    })?;
    let zero = dag.keep(Node::Constant {
        width: hi + 1,
        value: 0,
    })?;
    let bit = dag.mk(Node::Binary {
        op: BinaryOp::Equal,
        width: hi + 1,
        left: low,
        right: zero,
    })?;
    Ok(bit)
}

/// Whether a bit is 1 and all lines are true in the state now, with the state at entry. The error is want of memory.
pub fn all_true<'a>(
    dag: &mut Dag,
    lines: &[NoteLine],
    now: &Now<'a>,
    entry: &Now<'a>,
    big: bool,
    first: Term,
) -> Result<Term, AllocError>
    requires reads { (l : declared.NoteLine) → Contains lines.now l → IsReadable (form_of now.now.names.now) (expr_of l.says) }
    requires same { HaveSameForm now.now.names.now entry.now.names.now }
    requires now { AreStateTerms dag.old now.now }
    requires entry { AreStateTerms dag.old entry.now }
    requires first { HasWidth dag.old 1 first.0 }
    ensures { IfOk result (λ t. AreTrue dag.old dag.new big now.now entry.now first.0 (said lines.now) t.0) }
{
    let _typed = dag.nodes();
    let mut all = first;
    for each in lines {
        let bit = line(dag, &each.says, now, entry, big)?;
        all = both(dag, all, bit)?;
    }
    Ok(all)
}

/// Whether the entry condition is met, but for the bytes of the file. The error is want of memory.
pub fn entry_bit(alloc: Global, dag: &mut Dag, unrolled: &Unrolled) -> Result<Term, AllocError>
    requires link { is_register_of (unrolled_of unrolled.now) unrolled.now.link ≡ true }
    requires lines { HasReadableLines (unrolled_of unrolled.now) }
    ensures { IfOk result (λ t. IsEntryBit (unrolled_of unrolled.now) dag.old dag.new t.0) }
{
    let (first, count) = unrolled.form.registers();
    let names = entry_names(alloc, dag, first, count, unrolled.form.flag_count())?;
    let pc = dag.keep(Node::Constant {
        width: 32,
        value: unrolled.entry as u64,
    })?;
    let link = names.registers[(unrolled.link - first) as usize];
    let aligned = is_at_place(dag, unrolled.narrow, link)?;
    let now = Now { names: &names, pc };
    let bit = all_true(
        dag,
        &unrolled.notes.required,
        &now,
        &now,
        unrolled.big,
        aligned,
    )?;
    Ok(bit)
}
