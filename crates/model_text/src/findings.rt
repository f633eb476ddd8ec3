//! The values that were read.
ghost use Rattle.std.specs.Prelude.{◌≡◌, ◌<◌, ◌∷◌, ◌++◌, [], ℕ, List, Option, Some, None, true, is_some, codes, IfOk, OnOk};
ghost use Rattle.std.specs.List.{list_any};
ghost use Rattle.std.specs.Str.{bytes_eq};
ghost use Rattle.machine_spec.specs.StateText as texts;
ghost use Rattle.model_spec.specs.ModelText.{Definition, Gives, ModelToken, Value};
ghost use Rattle.model_spec.specs.Models.{given, word_of};
ghost use Rattle.model_text.specs.Drafts.{AreApart, AreFindings, IsStored};
ghost use Rattle.model_text.specs.Faults.{Found};
ghost use Rattle.model_text.specs.Symbols.{is_other, name_at, IsNamed, IsOtherName};

use crate::stores::Stored;
use crate::symbol::Symbol;
use std::alloc::{AllocError, Global};

/// The values that whole definitions give: the words by the places of symbols, and the array of the memory; and the names of the other symbols that have one.
#[derive(Drop)]
pub(crate) struct Findings {
    pub(crate) words: Vec<Option<u32>>,
    pub(crate) memory: Option<Stored>,
    pub(crate) others: Vec<Vec<u8>>,
}

impl Findings {
    /// No values, of so many words. The error is want of memory.
    pub(crate) fn new(alloc: Global, count: usize) -> Result<Findings, AllocError>
        ensures { (layout : texts.Layout) (kept : Option Found) → AreApart layout count → IfOk result (λ f. AreFindings layout count kept f []) }
    {
        let mut words: Vec<Option<u32>> = Vec::new(alloc);
        for _ in 0..count {
            words.push(None)?;
        }
        Ok(Findings {
            words,
            memory: None,
            others: Vec::new(alloc),
        })
    }

    /// Takes the word of a symbol by its place, if none was given before.
    pub(crate) fn take_word(&mut self, place: usize, number: u32)
        ensures { (layout : texts.Layout) (count : ℕ) (kept : Option Found) (ds : List Definition) (sort : List ModelToken) (v : Value) →
            place < count → (kept ≡ None → number ≡ word_of (Some v)) → AreFindings layout count kept self.old ds →
            AreFindings layout count kept self.new (ds ++ Gives (name_at layout place) sort v ∷ []) }
    {
        if place < self.words.len() && self.words[place].is_none() {
            self.words[place] = Some(number);
        }
    }

    /// Takes the array of the memory, if none was given before.
    pub(crate) fn take_memory(&mut self, stored: Stored)
        ensures { (layout : texts.Layout) (count : ℕ) (kept : Option Found) (ds : List Definition) (sort : List ModelToken) (v : Value) →
            (kept ≡ None → IsStored stored v) → AreFindings layout count kept self.old ds →
            AreFindings layout count kept self.new (ds ++ Gives (codes "mem") sort v ∷ []) }
    {
        if self.memory.is_none() {
            self.memory = Some(stored);
        }
    }

    /// Takes the name of another symbol. The error is want of memory.
    pub(crate) fn take_other(&mut self, alloc: Global, name: &[u8]) -> Result<(), AllocError>
        ensures { (layout : texts.Layout) (count : ℕ) (kept : Option Found) (ds : List Definition) (sort : List ModelToken) (v : Value) →
            IsOtherName layout count name.now → AreFindings layout count kept self.old ds →
            OnOk result (AreFindings layout count kept self.new (ds ++ Gives name.now sort v ∷ [])) }
    {
        let name = name.to_vec(alloc)?;
        self.others.push(name)?;
        Ok(())
    }

    /// Whether a value was given to a symbol of a name.
    pub(crate) fn is_given(&self, symbol: Symbol, name: &[u8]) -> bool
        ensures { (layout : texts.Layout) (count : ℕ) (kept : Option Found) (ds : List Definition) (w : List ℕ) →
            IsNamed layout count symbol w → (is_other symbol ≡ true → name.now ≡ w) → AreFindings layout count kept self.now ds →
            result ≡ is_some (given ds w) }
    {
        match symbol {
            Symbol::Register { place } => self.has_word(place),
            Symbol::Flag { place } => self.has_word(place),
            Symbol::Choice { place } => self.has_word(place),
            Symbol::Memory => self.memory.is_some(),
            Symbol::OtherRegister => self.has_other(name),
            Symbol::OtherFlag => self.has_other(name),
            Symbol::OtherMemory => self.has_other(name),
        }
    }

    /// Whether a value was given to another symbol.
    fn has_other(&self, name: &[u8]) -> bool
        ensures { result ≡ list_any (λ n. bytes_eq n.items name.now) self.now.others.items }
    {
        self.others.iter().any(|other| other.as_slice() == name)
    }

    /// Whether the word at a place was given.
    fn has_word(&self, place: usize) -> bool
        ensures { (layout : texts.Layout) (count : ℕ) (kept : Option Found) (ds : List Definition) →
            place < count → AreFindings layout count kept self.now ds → result ≡ is_some (given ds (name_at layout place)) }
    {
        place < self.words.len() && self.words[place].is_some()
    }
}
