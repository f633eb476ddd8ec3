//! Notes as far as their lines were read.
ghost use Rattle.std.specs.Prelude.{◌≡◌, ◌+◌, ◌++◌, ◌∷◌, ◌↔◌, [], List, None, length, OnOk, IsTrue, IfNone, IfSome};
ghost use Rattle.notes_spec.specs.NotesGrammar as grammar;
ghost use Rattle.notes_spec.specs.NotesFaults.{Repeats};
ghost use Rattle.notes_lang.specs.Saying.{says_of};
ghost use Rattle.notes_value.specs.Views.{expr_of};
ghost use Rattle.notes_lang.specs.Drafting.{HasTargets, IsDraft, IsFinished};
ghost use Rattle.notes_lang.specs.Judging.{IsLateFault};
ghost use Rattle.notes_lang.specs.Scoping.{scope_of};

use crate::contracts::join;
use crate::faults::{FaultKind, is_alone};
use crate::notes::{Assert, Contract, FixedRange, FrameNotes, Function, NoteLine, Notes, Targets};
use crate::sayings::Says;
use crate::scopes::Scope;
use notes_value::Expr;
use std::alloc::{AllocError, Global};
use std::collections::BTreeSet;

/// What the lines so far said.
#[derive(Drop)]
pub(crate) struct Draft {
    pub(crate) entry: Option<Function>,
    pub(crate) required: Vec<NoteLine>,
    pub(crate) ensured: Vec<NoteLine>,
    pub(crate) asserts: Vec<Assert>,
    pub(crate) targets: Vec<Targets>,
    pub(crate) fixed: Vec<FixedRange>,
    /// The numbers of the invariants.
    pub(crate) invariants: Vec<u32>,
    pub(crate) contracts: Vec<Contract>,
    /// The addresses of the targets.
    pub(crate) addresses: BTreeSet<u32>,
    /// Some line is an invariant, or an `assert` line with a value at entry.
    pub(crate) is_of_entry: bool,
    /// Some line is of a contract.
    pub(crate) has_contract: bool,
}

/// Whether an expression has a value at entry.
fn has_old(expr: &Expr) -> bool
    ensures { result ≡ grammar.has_old (expr_of expr.now) }
{
    match expr {
        Expr::Memory(_, a) => has_old(a),
        Expr::Old(_) => true,
        Expr::Not(a) => has_old(a),
        Expr::Binary(_, a, b) => has_old(a) || has_old(b),
        Expr::All(_, _, a) => has_old(a),
        _ => false,
    }
}

/// Whether a line is an invariant, or an `assert` line with a value at entry.
fn is_of_entry(says: &Says) -> bool
    ensures { result ≡ grammar.is_of_entry (says_of says.now) }
{
    match says {
        Says::Invariant(_, _) => true,
        Says::Assert(_, says) => has_old(says),
        _ => false,
    }
}

/// Whether a line is of a contract.
fn is_of_contract(says: &Says) -> bool
    ensures { result ≡ grammar.is_of_contract (says_of says.now) }
{
    match says {
        Says::Contract(_, _) => true,
        _ => false,
    }
}

impl Draft {
    /// Nothing so far.
    pub(crate) fn new(alloc: Global) -> Draft
        ensures { IsDraft [] result }
    {
        Draft {
            entry: None,
            required: Vec::new(alloc),
            ensured: Vec::new(alloc),
            asserts: Vec::new(alloc),
            targets: Vec::new(alloc),
            fixed: Vec::new(alloc),
            invariants: Vec::new(alloc),
            contracts: Vec::new(alloc),
            addresses: BTreeSet::new(alloc),
            is_of_entry: false,
            has_contract: false,
        }
    }

    /// Whether some `targets` line names this address.
    fn has_targets(&self, at: u32) -> bool
        ensures { (says : List grammar.Says) → IsDraft says self.now → IsTrue result ↔ HasTargets says at }
    {
        self.addresses.contains(&at)
    }

    /// Whether a line repeats what the lines so far said: the function's place, or the targets of an address.
    fn repeats(&self, says: &Says) -> bool
        ensures { (earlier : List grammar.Says) → IsDraft earlier self.now → IsTrue result ↔ Repeats earlier (says_of says.now) }
    {
        match says {
            Says::Entry(_) => self.entry.is_some(),
            Says::Targets(at, _) => self.has_targets(*at),
            _ => false,
        }
    }

    /// Whether a line and the lines so far are of contracts and speak of the entry.
    fn mixes(&self, says: &Says) -> bool
        ensures { (earlier : List grammar.Says) → IsDraft earlier self.now → result ≡ grammar.is_mixed (earlier ++ says_of says.now ∷ []) }
    {
        let has_contract = self.has_contract | is_of_contract(says);
        let is_of_entry = self.is_of_entry | is_of_entry(says);
        has_contract && is_of_entry
    }

    /// The least fault of a line that has none of its own, by the lines so far and the kind of its text.
    pub(crate) fn fault(&self, scope: Scope, says: &Says) -> Option<FaultKind>
        ensures { (earlier : List grammar.Says) → IsDraft earlier self.now → IsLateFault (scope_of scope.entry) earlier (says_of says.now) result }
    {
        if self.repeats(says) {
            return Some(FaultKind::Entry);
        }
        if self.mixes(says) {
            return Some(FaultKind::Mixed);
        }
        if !is_alone(scope, says) {
            return Some(FaultKind::Pair);
        }
        None
    }

    /// Adds what one more line says, by its number. The error is want of memory.
    pub(crate) fn add(&mut self, alloc: Global, line: u32, says: Says) -> Result<(), AllocError>
        ensures { OnOk result ((earlier : List grammar.Says) → line ≡ length earlier + 1 → (Repeats earlier (says_of says.entry) → ⊥) →
            IsDraft earlier self.old → IsDraft (earlier ++ says_of says.entry ∷ []) self.new) }
    {
        match says {
            Says::Nothing => {}
            Says::Entry(function) => self.entry = Some(function),
            Says::Require(says) => self.required.push(NoteLine { line, says })?,
            Says::Ensure(says) => self.ensured.push(NoteLine { line, says })?,
            Says::Assert(at, says) => {
                self.is_of_entry |= has_old(&says);
                self.asserts.push(Assert { line, at, says })?;
            }
            Says::Targets(at, to) => {
                self.targets.push(Targets { at, to })?;
                self.addresses.insert(at)?;
            }
            Says::Fixed(low, high) => self.fixed.push(FixedRange { low, high })?,
            Says::Loaded => self.fixed.push(FixedRange {
                low: 0,
                high: 0xFFFF_FFFF,
            })?,
            Says::Version(_) => {}
            Says::Const(_, _) => {}
            Says::Invariant(at, says) => {
                self.is_of_entry = true;
                self.invariants.push(line)?;
                self.asserts.push(Assert { line, at, says })?;
            }
            Says::Contract(at, told) => {
                self.has_contract = true;
                join(alloc, &mut self.contracts, line, at, told)?;
            }
        }
        Ok(())
    }

    /// The notes of the lines that were read, or `None` where no line names the function.
    pub(crate) fn finish(self) -> Option<FrameNotes>
        ensures none { IfNone result (self.entry ≡ None) }
        ensures some { IfSome result (λ notes. IsFinished self notes) }
    {
        let Draft {
            entry,
            required,
            ensured,
            asserts,
            targets,
            fixed,
            invariants,
            contracts,
            ..
        } = self;
        let Some(entry) = entry else {
            return None;
        };
        Some(FrameNotes {
            notes: Notes {
                entry,
                required,
                ensured,
                asserts,
                targets,
                fixed,
            },
            invariants,
            contracts,
        })
    }
}
