//! Bytes that a contract may write.
ghost use Rattle.std.specs.Prelude.{◌≡◌, ◌++◌, IfOk, OnOk, All, map, not, nat_eq};
ghost use Rattle.std.specs.List.{list_any};
ghost use Rattle.word_spec.specs.Memory as memory;
ghost use Rattle.bilv_spec.specs.Elf.{loaded, is_kept};
ghost use Rattle.frame_spec.specs.Frames.{written};
ghost use Rattle.notes_value.specs.Views.{expr_of};
ghost use Rattle.notes_value.specs.FrameViews.{writes_of};
ghost use Rattle.notes_value.specs.Reads.{IsReadable};
ghost use Rattle.table_run.specs.Spans.{bytes_at, bytes_of, has_other};

use crate::words::any_kept;
use byte_mem::View;
use elf32_reader::Image;
use notes_value::{Writes, value};
use std::alloc::{AllocError, Global};

/// So many bytes from an address on; addresses wrap.
#[derive(Clone, Copy)]
pub(crate) struct Span {
    pub(crate) first: u32,
    pub(crate) count: u32,
}

/// The bytes that a contract may write whose function begins in a state. The error is want of memory.
pub(crate) fn writable<V: View>(
    alloc: Global,
    writes: &[Writes],
    state: &V,
    big: bool,
) -> Result<Vec<Span>, AllocError>
    requires { All (λ w. IsReadable V.has_register (expr_of w.says)) writes.now }
    ensures { IfOk result (λ spans. bytes_of spans.items ≡ written (memory.endian big) (map writes_of writes.now) (V.view state.now)) }
{
    let mut spans = Vec::new(alloc);
    for line in writes {
        spans.push(Span {
            first: value(&line.says, state, state, big),
            count: line.count,
        })?;
    }
    Ok(spans)
}

/// The byte at an address is one of so many from another one on.
fn is_within(first: u32, count: u32, at: u32) -> bool
    ensures { result ≡ list_any (nat_eq at) (memory.span first count) }
{
    at.wrapping_sub(first) < count
}

/// The byte at an address is one of these.
pub(crate) fn covers(spans: &[Span], at: u32) -> bool
    ensures { result ≡ list_any (nat_eq at) (bytes_of spans.now) }
{
    for span in spans {
        if is_within(span.first, span.count, at) {
            return true;
        }
    }
    false
}

/// One of these bytes is kept.
pub(crate) fn any_kept_of(image: &Image, spans: &[Span]) -> bool
    ensures { result ≡ list_any (λ a. is_kept (loaded image.now a)) (bytes_of spans.now) }
{
    for span in spans {
        if any_kept(image, span.first, span.count) {
            return true;
        }
    }
    false
}

/// One of the bytes of a span is none of these.
pub(crate) fn is_outside(own: &[Span], span: Span) -> bool
    ensures { result ≡ has_other own.now (bytes_at span) }
{
    let mut at = span.first;
    for _ in 0..span.count {
        if !covers(own, at) {
            return true;
        }
        at = at.wrapping_add(1);
    }
    false
}

/// One of some bytes is none of these.
pub(crate) fn any_outside(own: &[Span], spans: &[Span]) -> bool
    ensures { result ≡ has_other own.now (bytes_of spans.now) }
{
    for span in spans {
        if is_outside(own, *span) {
            return true;
        }
    }
    false
}
