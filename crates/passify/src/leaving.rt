//! How a point is left.

ghost use Rattle.std.specs.Prelude.{◌≡◌, ℕ, ◌+◌, ◌%◌, ◌^◌, ◌<◌, ◌==◌, not, Bool, if◌then◌else◌, IfOk};
ghost use Rattle.word_spec.specs.Words.{add};
ghost use Rattle.machine_spec.specs.Machine.{is_place};
ghost use Rattle.term_spec.specs.Terms.{HasWidth, term_word};
ghost use Rattle.term_spec.specs.Passive.{Tells};
ghost use Rattle.passify.specs.Bits.{Makes};

use bil_ast::BinaryOp;
use std::alloc::AllocError;
use term_dag::{Dag, Node, Term};

/// The address that a point goes on to: that of its jump where the bit is 1, and else the one behind its row, which has so many bytes.
pub fn next_address(
    dag: &mut Dag,
    at: u32,
    bytes: u8,
    jumped: Term,
    target: Term,
) -> Result<Term, AllocError>
    requires jumped { HasWidth dag.old 1 jumped.0 }
    requires target { HasWidth dag.old 32 target.0 }
    ensures { IfOk result (λ t. Makes dag.old dag.new 32 3 32 t.0 (λ x. (j : Bool) → Tells dag.old x jumped.0 j →
        term_word x dag.new t.0 ≡ (if j then term_word x dag.old target.0 else add 32 at bytes))) }
{
    let behind = dag.keep(Node::Constant {
        width: 32,
        value: u64::from(at.wrapping_add(u32::from(bytes))),
    })?;
    let next = dag.mk(Node::Select {
        width: 32,
        condition: jumped,
        when_true: target,
        when_false: behind,
    })?;
    Ok(next)
}

/// Whether no row can stand at an address: it is odd where some rows have 2 bytes, and else no multiple of 4.
pub fn unaligned(dag: &mut Dag, narrow: bool, address: Term) -> Result<Term, AllocError>
    requires { HasWidth dag.old 32 address.0 }
    ensures { IfOk result (λ t. Makes dag.old dag.new 2 5 1 t.0 (λ x. Tells dag.new x t.0 (not (is_place narrow (term_word x dag.old address.0))))) }
{
    let hi = u8::from(!narrow);
    let low = dag.mk(Node::Extract {
        hi,
        lo: 0,
        term: address,
    })?;
    let zero = dag.keep(Node::Constant {
        width: hi + 1,
        value: 0,
    })?;
    let bit = dag.mk(Node::Binary {
        op: BinaryOp::NotEqual,
        width: hi + 1,
        left: low,
        right: zero,
    })?;
    Ok(bit)
}
