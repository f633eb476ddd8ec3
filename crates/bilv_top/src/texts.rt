//! The texts of refusals and of budgets that are exceeded.
ghost use Rattle.std.specs.Prelude.{◌≡◌, ◌++◌, ◌∷◌, [], IfOk, MatchOption};
ghost use Rattle.bilv_spec.specs.Answers.{budget_text};
ghost use Rattle.word_spec.specs.Texts.{line, spaced, number_text};
ghost use Rattle.clause_spec.specs.Certificates.{cause_words};
ghost use Rattle.clause_spec.specs.Checks.{cnf_fault_words};
ghost use Rattle.cnf_form.specs.Faults.{fault_of as cnf_fault_of};
ghost use Rattle.notes_spec.specs.Verified as verified;
ghost use Rattle.model_spec.specs.Models.{model_fault_words};
ghost use Rattle.model_text.specs.Faults.{fault_of as model_fault_of};
ghost use Rattle.notes_lang.specs.Judging.{fault_of as note_fault_of};
ghost use Rattle.links_lang.specs.Telling.{fault_of as link_fault_of};
ghost use Rattle.pair_spec.specs.Equals.{link_fault_words};
ghost use Rattle.bilv_top.specs.Answers.{IsOfFile, elf_text_of};
ghost use Rattle.refutation_checker.specs.Answers.{cause_of};

use cnf_form::CnfFault;
use cnf_form::print::print_number;
use elf32_reader::ElfFault;
use links_lang::LinkFault;
use model_text::ModelFaultKind;
use notes_lang::FaultKind;
use refutation_checker::Cause;
use state_text::push_word;
use std::alloc::{AllocError, Global};

/// The line of a refused ELF file, or none where no memory was left.
pub fn elf_fault_line(fault: ElfFault) -> Option<&'static [u8]>
    ensures { MatchOption result (fault ≡ ElfFault.Memory) (λ text. IsOfFile fault × (text.now ≡ elf_text_of fault)) }
{
    match fault {
        ElfFault::Short => Some(b"elf: E1 Short\n"),
        ElfFault::Magic => Some(b"elf: E2 Magic\n"),
        ElfFault::Class => Some(b"elf: E3 Class\n"),
        ElfFault::Data => Some(b"elf: E4 Data\n"),
        ElfFault::Version => Some(b"elf: E5 Version\n"),
        ElfFault::Type => Some(b"elf: E6 Type\n"),
        ElfFault::Machine => Some(b"elf: E7 Machine\n"),
        ElfFault::HeaderTable => Some(b"elf: E8 HeaderTable\n"),
        ElfFault::SegmentRange => Some(b"elf: E9 SegmentRange\n"),
        ElfFault::FileSize => Some(b"elf: E10 FileSize\n"),
        ElfFault::Overlap => Some(b"elf: E11 Overlap\n"),
        ElfFault::SymbolTable => Some(b"elf: E12 SymbolTable\n"),
        ElfFault::Memory => None,
    }
}

/// The words of a cause for which a line of a proof is refused.
pub fn cause_text(cause: Cause) -> &'static [u8]
    ensures { result.now ≡ cause_words (cause_of cause) }
{
    match cause {
        Cause::NotOfGrammar => b"L1 Line",
        Cause::IdNotAbove => b"L2 Id",
        Cause::VariableAbove => b"L3 Variable",
        Cause::Tautology => b"L4 Tautology",
        Cause::NegativeHint => b"L5 NegativeHint",
        Cause::UnknownHint => b"L6 UnknownHint",
        Cause::NotUnit => b"L7 NotUnit",
        Cause::NoConflict => b"L8 NoConflict",
        Cause::NoEmptyClause => b"L9 End",
    }
}

/// A line that names another line by its number, and says why it is refused. The error is want of memory.
pub fn refused_line(
    alloc: Global,
    front: &[u8],
    number: u64,
    words: &[u8],
) -> Result<Vec<u8>, AllocError>
    ensures { IfOk result (λ v. v.items ≡ line (front.now ++ spaced (number_text number ∷ words.now ∷ []))) }
{
    let mut text = front.to_vec(alloc)?;
    text.extend_from_slice(b" ")?;
    print_number(&mut text, number)?;
    text.extend_from_slice(b" ")?;
    text.extend_from_slice(words)?;
    text.extend_from_slice(b"\n")?;
    Ok(text)
}

/// The line that says that the budget of a name, which allows so much, is exceeded. The error is want of memory.
pub fn budget_line(alloc: Global, name: &[u8], most: u64) -> Result<Vec<u8>, AllocError>
    ensures { IfOk result (λ v. v.items ≡ budget_text name.now most) }
{
    let mut text = b"unknown ".to_vec(alloc)?;
    text.extend_from_slice(name)?;
    text.extend_from_slice(b" ")?;
    print_number(&mut text, most)?;
    text.extend_from_slice(b"\n")?;
    Ok(text)
}

/// The words of a fault of clauses.
pub fn cnf_fault_text(fault: CnfFault) -> &'static [u8]
    ensures { result.now ≡ cnf_fault_words (cnf_fault_of fault) }
{
    match fault {
        CnfFault::Token => b"K1 Token",
        CnfFault::Header => b"K2 Header",
        CnfFault::Variable => b"K3 Variable",
        CnfFault::Count => b"K4 Count",
        CnfFault::Proof => b"K5 Proof",
    }
}

/// The words of a fault of links.
pub fn link_fault_text(fault: LinkFault) -> &'static [u8]
    ensures { result.now ≡ link_fault_words (link_fault_of fault) }
{
    match fault {
        LinkFault::Limit => b"M1 Limit",
        LinkFault::Syntax => b"M2 Syntax",
        LinkFault::Name => b"M3 Name",
        LinkFault::Range => b"M4 Range",
    }
}

/// The words of a fault of an outside solver's answer.
pub fn model_fault_text(kind: ModelFaultKind) -> &'static [u8]
    ensures { result.now ≡ model_fault_words (model_fault_of kind) }
{
    match kind {
        ModelFaultKind::Answer => b"A1 Answer",
        ModelFaultKind::Syntax => b"A2 Syntax",
        ModelFaultKind::Sort => b"A3 Sort",
        ModelFaultKind::Twice => b"A4 Twice",
    }
}

/// The words of a fault of notes.
pub fn note_fault_words(kind: FaultKind) -> &'static [u8]
    ensures { result.now ≡ verified.note_fault_words (note_fault_of kind) }
{
    match kind {
        FaultKind::Limit => b"N1 Limit",
        FaultKind::Byte => b"N2 Byte",
        FaultKind::Token => b"N3 Token",
        FaultKind::Number => b"N4 Number",
        FaultKind::Depth => b"N5 Depth",
        FaultKind::Word => b"N6 Word",
        FaultKind::Syntax => b"N7 Syntax",
        FaultKind::Name => b"N8 Name",
        FaultKind::Align => b"N9 Align",
        FaultKind::Range => b"N10 Range",
        FaultKind::Entry => b"N11 Entry",
        FaultKind::Version => b"N12 Version",
        FaultKind::Const => b"N13 Const",
        FaultKind::All => b"N14 All",
        FaultKind::Mixed => b"N15 Mixed",
        FaultKind::Pair => b"N16 Pair",
    }
}

/// The line of a name with several addresses, of which these are the two least. The error is want of memory.
pub fn ambiguous_line(alloc: Global, a: u32, b: u32) -> Result<Vec<u8>, AllocError>
    ensures { IfOk result (λ v. v.items ≡ verified.ambiguous_text a b) }
{
    let mut text = b"notes: Ambiguous ".to_vec(alloc)?;
    push_word(&mut text, a)?;
    text.extend_from_slice(b" ")?;
    push_word(&mut text, b)?;
    text.extend_from_slice(b"\n")?;
    Ok(text)
}
