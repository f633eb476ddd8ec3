//! What a check came to, and what verifies notes.
ghost use Rattle.std.specs.Prelude.{ℕ, List, IfOk, map, string_bytes};
ghost use Rattle.note_check.specs.declared.warning.Warning.{Warning as Warned};

use note_check::Warning;
use std::alloc::{AllocError, Global};

/// What a check came to: a status of `exit_status`, the text of its report, and warnings of what makes the report mean less than it seems.
#[derive(Drop)]
pub struct Came {
    pub status: u8,
    pub report: Vec<u8>,
    pub warnings: Vec<Warning>,
}

/// What verifies notes over an ELF file.
pub trait Verifier {
    /// To the words of options, an ELF file and notes the answer may be this status and this report, with these warnings.
    ghost is_answer: { Self → List (List ℕ) → List ℕ → List ℕ → ℕ → List ℕ → List Warned → Type 0 };

    /// Verifies notes over an ELF file, by the words of options. The error is out of memory.
    fn verify(
        &self,
        alloc: Global,
        options: &[String],
        file: Vec<u8>,
        notes: Vec<u8>,
    ) -> Result<Came, AllocError>
        ensures { IfOk result (λ a. is_answer self.now (map string_bytes options.now) file.items notes.items a.status a.report.items a.warnings.items) };
}
