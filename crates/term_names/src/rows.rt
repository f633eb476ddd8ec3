//! Choices between words.

ghost use Rattle.std.specs.Prelude.{◌≡◌, IfOk, length};
ghost use Rattle.term_spec.specs.Terms.{HasWidth, IsWidth};
ghost use Rattle.term_names.specs.Choices.{AreChosen, AreWide, IsChosen, places};

use std::alloc::{AllocError, Global};
use term_dag::{Dag, Node, Term};

/// One of two words of a width, by a condition of 1 bit. A selection is made only where the two differ. The error is want of memory.
pub fn selected_word(
    dag: &mut Dag,
    width: u8,
    condition: Term,
    when_true: Term,
    when_false: Term,
) -> Result<Term, AllocError>
    requires width { IsWidth width }
    requires condition { HasWidth dag.old 1 condition.0 }
    requires when_true { HasWidth dag.old width when_true.0 }
    requires when_false { HasWidth dag.old width when_false.0 }
    ensures { IfOk result (λ t. IsChosen dag.old dag.new width condition.0 when_true.0 when_false.0 t.0) }
{
    if when_true.0 == when_false.0 {
        return Ok(when_true);
    }
    let term = dag.mk(Node::Select {
        width,
        condition,
        when_true,
        when_false,
    })?;
    Ok(term)
}

/// The same for each word of two rows of one length.
pub fn selected_words(
    alloc: Global,
    dag: &mut Dag,
    width: u8,
    condition: Term,
    when_true: &[Term],
    when_false: &[Term],
) -> Result<Vec<Term>, AllocError>
    requires width { IsWidth width }
    requires condition { HasWidth dag.old 1 condition.0 }
    requires same { length when_true.now ≡ length when_false.now }
    requires when_true { AreWide dag.old width (places when_true.now) }
    requires when_false { AreWide dag.old width (places when_false.now) }
    ensures { IfOk result (λ ts. AreChosen dag.old dag.new width condition.0 (places when_true.now) (places when_false.now) (places ts.items)) }
{
    let mut terms = Vec::with_capacity(alloc, when_true.len())?;
    for i in 0..when_true.len() {
        let term = selected_word(dag, width, condition, when_true[i], when_false[i])?;
        terms.push(term)?;
    }
    Ok(terms)
}
