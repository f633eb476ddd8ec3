//! The first fault of an answer.
ghost use Rattle.std.specs.Prelude.{◌≡◌, Some};
ghost use Rattle.std.specs.Option.{option_map};
ghost use Rattle.model_spec.specs.ModelText.{fault_rank};
ghost use Rattle.model_text.specs.Faults.{fault_of, kept_of, sooner, first_fault};

use crate::fault::ModelFaultKind;

/// A fault at a line.
#[derive(Clone, Copy)]
pub(crate) struct Kept {
    pub(crate) line: u64,
    pub(crate) kind: ModelFaultKind,
}

/// The place of a kind in the order of faults of a line.
fn rank(kind: ModelFaultKind) -> u8
    ensures { result ≡ fault_rank (fault_of kind) }
{
    match kind {
        ModelFaultKind::Answer => 1,
        ModelFaultKind::Syntax => 2,
        ModelFaultKind::Sort => 3,
        ModelFaultKind::Twice => 4,
    }
}

impl Kept {
    /// The first of two faults: the earlier line, and on one line the lesser kind.
    fn sooner(self, other: Kept) -> Kept
        ensures { kept_of result ≡ sooner (kept_of self) (kept_of other) }
    {
        if other.line < self.line
            || (other.line == self.line && rank(other.kind) < rank(self.kind))
        {
            other
        } else {
            self
        }
    }

    /// The first of a fault that was kept, if there is one, and a further one.
    pub(crate) fn first(kept: Option<Kept>, other: Kept) -> Kept
        ensures { kept_of result ≡ first_fault (option_map kept_of kept) (kept_of other) }
    {
        match kept {
            None => other,
            Some(kept) => kept.sooner(other),
        }
    }
}
