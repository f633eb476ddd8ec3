//! Where the reading of an answer stands, and what its tokens say.
ghost use Rattle.std.specs.Prelude.{◌≡◌, ◌<◌, ◌≤◌, ◌+◌, ◌^◌, ℕ, List, Option, Some, None, true, false, is_some, IfOk, IsSomeAnd, OnOk, MatchBool};
ghost use Rattle.std.specs.Option.{option_map};
ghost use Rattle.machine_spec.specs.StateText as texts;
ghost use Rattle.start_value.specs.Starts.{layout_of};
ghost use Rattle.model_spec.specs.ModelText.{ModelToken};
ghost use Rattle.model_text.specs.declared.place.Place.TheVariants.{Closing};
ghost use Rattle.model_text.specs.Drafts.{IsLearnt, Keeps};
ghost use Rattle.model_text.specs.Faults.{fault_of, kept_of, with_fault, first_fault, found, Found};
ghost use Rattle.model_text.specs.Places.{place_depth, is_closing};
ghost use Rattle.model_text.specs.Symbols.{symbol_in, IsNamedIf, count_of};
ghost use Rattle.model_text.specs.Tokens.{token_of, placed_of, name_text};
ghost use Rattle.model_text.specs.Traces.{Trace, At, start, next_at, symbol_at, traced, begun_at, fault_at, fault_before};

use crate::draft::Draft;
use crate::fault::ModelFaultKind;
use crate::findings::Findings;
use crate::kept::Kept;
use crate::piece::is_done;
use crate::place::Place;
use crate::symbol::{Others, Symbol, symbol_of};
use crate::token::{Placed, Token};
use start_value::Layout;
use std::alloc::{AllocError, Global};

/// What the tokens so far say.
#[derive(Drop)]
pub(crate) struct Reading {
    pub(crate) place: Place,
    /// The line on which the last name, sort or value of a definition begins.
    pub(crate) begun: u64,
    /// The first fault of those that leave the form of an answer.
    pub(crate) kept: Option<Kept>,
    pub(crate) draft: Draft,
    pub(crate) findings: Findings,
}

/// Keeps what the definition of a declared symbol gives, whose closing bracket is read. The error is want of memory.
fn close(alloc: Global, draft: &mut Draft, findings: &mut Findings) -> Result<(), AllocError>
    ensures { (layout : texts.Layout) (count : ℕ) (kept : Option Found) (tr : Trace) (token : ModelToken) →
        (kept ≡ None → draft.old.good ≡ true) → IsLearnt layout count kept draft.old findings.old tr →
        OnOk result (IsLearnt layout count kept draft.new findings.new (traced Closing None token tr)) }
{
    draft.good = false;
    match draft.symbol {
        Symbol::Register { place } => findings.take_word(place, draft.number),
        Symbol::Flag { place } => findings.take_word(place, draft.number),
        Symbol::Choice { place } => findings.take_word(place, draft.number),
        Symbol::Memory => findings.take_memory(draft.take_stored(alloc)),
        Symbol::OtherRegister => findings.take_other(alloc, &draft.name)?,
        Symbol::OtherFlag => findings.take_other(alloc, &draft.name)?,
        Symbol::OtherMemory => findings.take_other(alloc, &draft.name)?,
    }
    Ok(())
}

/// Takes a token, which can stand at a place; the symbol is the declared one that a definition names there. The error is want of memory.
fn learn(
    alloc: Global,
    draft: &mut Draft,
    findings: &mut Findings,
    place: Place,
    symbol: Option<Symbol>,
    token: Token<'_>,
) -> Result<(), AllocError>
    ensures { (layout : texts.Layout) (count : ℕ) (kept : Option Found) (tr : Trace) → IsNamedIf layout count symbol (name_text (token_of token.entry)) →
        (is_closing place ≡ true → kept ≡ None → draft.old.good ≡ true) → IsLearnt layout count kept draft.old findings.old tr →
        OnOk result (IsLearnt layout count kept draft.new findings.new (traced place symbol (token_of token.entry) tr)) }
{
    match place {
        Place::Name => {
            if let Some(symbol) = symbol {
                draft.begin(symbol, token.name())?;
            }
        }
        Place::Passing { .. } => (),
        Place::Closing => close(alloc, draft, findings)?,
        _ => draft.take(place, token)?,
    }
    Ok(())
}

/// The fault that a token shows, by the place before it and the place behind it, and what was read behind it.
fn fault(
    draft: &Draft,
    findings: &Findings,
    place: Place,
    symbol: Option<Symbol>,
    next: Place,
) -> Option<ModelFaultKind>
    ensures { (layout : texts.Layout) (count : ℕ) (kept : Option Found) (tr : Trace) → IsLearnt layout count kept draft.now findings.now tr →
        option_map fault_of result ≡ fault_at place symbol next tr }
{
    match place {
        Place::Name => {
            if symbol.is_none() {
                return None;
            }
            findings
                .is_given(draft.symbol, &draft.name)
                .then_some(ModelFaultKind::Twice)
        }
        Place::Sort { .. } => {
            (next.is_value() && !is_done(draft.sort_left)).then_some(ModelFaultKind::Sort)
        }
        _ => (next.is_closing() && !draft.good).then_some(ModelFaultKind::Sort),
    }
}

/// What is kept with a further fault at a line, if there is one.
fn with_fault(kept: Option<Kept>, line: u64, fault: Option<ModelFaultKind>) -> Option<Kept>
    ensures { option_map kept_of result ≡ with_fault (option_map fault_of fault) line (option_map kept_of kept) }
{
    match fault {
        None => kept,
        Some(kind) => Some(Kept::first(kept, Kept { line, kind })),
    }
}

/// The line on which the last name, sort or value begins: the line of a token that begins one, or else the line before.
fn begun_at(begins: bool, line: u64, before: u64) -> u64
    ensures { result ≡ begun_at begins line before }
{
    if begins { line } else { before }
}

impl Reading {
    /// Before the first token. The error is want of memory.
    pub(crate) fn new(alloc: Global, layout: Layout, drawn: &[bool]) -> Result<Reading, AllocError>
        ensures keeps { IfOk result (λ r. Keeps (layout_of layout) (count_of (layout_of layout) drawn.now) r start) }
        ensures depth { IfOk result (λ r. place_depth r.place ≡ 0) }
    {
        let findings = Findings::new(alloc, layout.names().len() + drawn.len())?;
        Ok(Reading {
            place: Place::Start,
            begun: 0,
            kept: None,
            draft: Draft::new(alloc),
            findings,
        })
    }

    /// The declared symbol that a token names, where a definition is named.
    fn symbol_at(
        &self,
        layout: Layout,
        drawn: &[bool],
        others: &Others,
        token: Token<'_>,
    ) -> Option<Symbol>
        ensures symbol { result ≡ symbol_at (symbol_in (layout_of layout) drawn.now others.now) self.now.place (token_of token.entry) }
        ensures named { IsNamedIf (layout_of layout) (count_of (layout_of layout) drawn.now) result (name_text (token_of token.entry)) }
    {
        match self.place {
            Place::Name => symbol_of(layout, drawn, others, token.name()),
            _ => None,
        }
    }

    /// Takes a token; false where no answer goes on with it. The error is want of memory.
    pub(crate) fn take(
        &mut self,
        alloc: Global,
        layout: Layout,
        drawn: &[bool],
        others: &Others,
        placed: Placed<'_>,
    ) -> Result<bool, AllocError>
        requires { place_depth self.old.place < 2 ^ 63 }
        ensures keeps { (s : At) → Keeps (layout_of layout) (count_of (layout_of layout) drawn.now) self.old s → IfOk result (λ b. MatchBool b
            (IsSomeAnd (next_at (symbol_in (layout_of layout) drawn.now others.now) s (placed_of placed.entry)) (λ next.
            Keeps (layout_of layout) (count_of (layout_of layout) drawn.now) self.new next))
            ((next_at (symbol_in (layout_of layout) drawn.now others.now) s (placed_of placed.entry) ≡ None)
            × (Keeps (layout_of layout) (count_of (layout_of layout) drawn.now) self.new s))) }
        ensures depth { OnOk result (place_depth self.new.place ≤ place_depth self.old.place + 1) }
    {
        let place = self.place;
        let symbol = self.symbol_at(layout, drawn, others, placed.token);
        let Some(next) = place.next(placed.token, symbol.is_some()) else {
            return Ok(false);
        };
        let begun = begun_at(place.begins(), placed.line, self.begun);
        learn(
            alloc,
            &mut self.draft,
            &mut self.findings,
            place,
            symbol,
            placed.token,
        )?;
        let fault = fault(&self.draft, &self.findings, place, symbol, next);
        self.kept = with_fault(self.kept, begun, fault);
        self.begun = begun;
        self.place = next;
        Ok(true)
    }

    /// The first fault of a text in which no answer goes on with a token of a line, or whose end on a line is none of an answer.
    pub(crate) fn refusal(&self, line: u64) -> Kept
        ensures { (layout : texts.Layout) (count : ℕ) (s : At) → Keeps layout count self.now s →
            kept_of result ≡ first_fault s.kept (found line (fault_before s.place)) }
    {
        let kind = match self.place {
            Place::Start => ModelFaultKind::Answer,
            _ => ModelFaultKind::Syntax,
        };
        Kept::first(self.kept, Kept { line, kind })
    }
}
