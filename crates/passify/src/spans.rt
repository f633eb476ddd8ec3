//! Bytes from addresses on: those that are stored, and those that a contract's function may write.

ghost use Rattle.std.specs.Prelude.{◌≡◌, ◌≤◌, ◌<◌, ◌^◌, IfOk, Contains, length, map};
ghost use Rattle.term_spec.specs.Terms.{HasMemory, HasWidth};
ghost use Rattle.walk_spec.specs.Unrolling.{IsReadable};
ghost use Rattle.notes_value.specs.FrameViews.{writes_of};
ghost use Rattle.notes_value.specs.Views.{expr_of};
ghost use Rattle.notes_value.specs.declared.notes.Writes as declared;
ghost use Rattle.note_terms.specs.Lines.{AreStateTerms};
ghost use Rattle.term_names.specs.Views.{form_of};
ghost use Rattle.passify.specs.Spans.{AreSpans, IsSpan, IsTaken, span_of};

use bil_terms::Stored;
use note_terms::{Now, word};
use notes_value::Writes;
use std::alloc::{AllocError, Global};
use term_dag::{Dag, Node, Term};

/// Bytes from an address on, 1 at least, under a guard of 1 bit. The address has 32 bits, and wraps.
#[derive(Clone, Copy)]
pub struct Span {
    pub guard: Term,
    pub address: Term,
    pub bytes: u32,
}

/// So many bytes from an address on, under a guard.
fn span_from(guard: Term, address: Term, bytes: u32) -> Span
    ensures span { result ≡ record { guard = guard; address = address; bytes = bytes } }
    ensures few { bytes < 2 ^ 32 }
{
    Span {
        guard,
        address,
        bytes,
    }
}

/// The bytes that lines of a contract say in a state, where a bit is 1.
pub fn spans(
    alloc: Global,
    dag: &mut Dag,
    writes: &[Writes],
    now: &Now,
    yes: Term,
    big: bool,
) -> Result<Vec<Span>, AllocError>
    requires reads { (w : declared.Writes) → Contains writes.now w → IsReadable (form_of now.now.names.now) (expr_of w.says) }
    requires some { (w : declared.Writes) → Contains writes.now w → 1 ≤ w.count }
    requires now { AreStateTerms dag.old now.now }
    requires yes { HasWidth dag.old 1 yes.0 }
    ensures { IfOk result (λ spans. AreSpans dag.old dag.new big now.now yes.0 (map writes_of writes.now) spans.items) }
{
    let _before = dag.nodes();
    let mut spans = Vec::with_capacity(alloc, writes.len())?;
    for i in 0..writes.len() {
        let address = word(dag, &writes[i].says, now, now, big)?;
        let _typed = dag.nodes();
        spans.push(span_from(yes, address, writes[i].count))?;
    }
    Ok(spans)
}

/// A memory with the bytes of spans as a part has them.
pub fn taken(dag: &mut Dag, spans: &[Span], part: u32, memory: Term) -> Result<Term, AllocError>
    requires spans { (s : _) → Contains spans.now s → IsSpan dag.old s }
    requires memory { HasMemory dag.old memory.0 }
    ensures { IfOk result (λ t. IsTaken dag.old dag.new spans.now part memory.0 t.0) }
{
    let _typed = dag.nodes();
    let mut memory = memory;
    for i in 0..spans.len() {
        memory = dag.mk(Node::Take {
            bytes: spans[i].bytes,
            memory,
            address: spans[i].address,
            part,
        })?;
    }
    Ok(memory)
}

/// The bytes of stores.
pub fn stored_spans(alloc: Global, stored: &[Stored]) -> Result<Vec<Span>, AllocError>
    ensures { IfOk result (λ spans. spans.items ≡ map span_of stored.now) }
{
    let mut spans = Vec::with_capacity(alloc, stored.len())?;
    for i in 0..stored.len() {
        let store = stored[i];
        spans.push(Span {
            guard: store.guard,
            address: store.address,
            bytes: u32::from(store.bytes),
        })?;
    }
    Ok(spans)
}
