//! Strings by number (an interner): each that comes has the number of an equal one before it, if that one is
//! remembered.
//!
//! What is forgotten gets a second number, which costs a little memory. In return the registry has a fixed size, and a
//! string is compared with at most two others. The contract says only that a string's number gives that string.
ghost use Rattle.std.specs.Prelude.{◌≡◌, ◌++◌, ◌∷◌, [], ◌+◌, ◌^◌, ◌≤◌, ◌<◌, length, IfOk, OnOk, IfSome};
ghost use Rattle.std.specs.Bool.{OnTrue};
ghost use Rattle.hwdb_writer.specs.Internal.Membership.{SameMembers};
ghost use Rattle.hwdb_writer.specs.Internal.Stored.{Grows, IsUnder};
ghost use Rattle.hwdb_writer.specs.Internal.Numbered.{texts, IsNumbered};

use crate::keyed::KeyedStr;
use crate::registry::Registry;
use std::alloc::{AllocError, Global};
use std::marker::Model;

/// The strings so far, each at its number. A string can be there more than once.
#[derive(Drop)]
pub struct Interner<'t> {
    words: Vec<KeyedStr<'t>>,
    registry: Registry,
}

impl<'t> Model for Interner<'t> {
    ghost use Rattle.std.specs.Prelude.{List, ℕ};
    ghost use Rattle.hwdb_writer.specs.Internal.Codes.{coded_texts};
    ghost use Rattle.hwdb_writer.specs.Internal.Numbered.{texts, IsNumbered};

    ghost Value = { List (List ℕ) };

    ghost coded = { coded_texts };

    ghost view = { λ i. texts i.words.items };

    ghost invariant = { λ i. IsNumbered i.words.items };
}

impl<'t> Interner<'t> {
    /// The empty string alone, and room for so many more. The registry has so many entries.
    pub fn new(alloc: Global, strings: usize, entries: usize) -> Result<Interner<'t>, AllocError>
        ensures { IfOk result (λ interner. interner ≡ [] ∷ []) }
    {
        let mut words = Vec::with_capacity(alloc, strings.saturating_add(1))?;
        words.push(KeyedStr::new(&[]))?;
        Ok(Interner {
            words,
            registry: Registry::new(alloc, entries)?,
        })
    }

    /// How many strings there are.
    pub fn len(&self) -> usize
        ensures { result ≡ length self.now }
    {
        self.words.as_slice().len()
    }

    /// Whether the string has the number.
    #[inline(always)]
    fn is_under(&self, number: u32, word: &KeyedStr<'t>) -> bool
        ensures { OnTrue result (IsUnder self.now number word.now.word) }
    {
        let known: &[KeyedStr<'_>] = &self.words;
        let at = number as usize;
        if at < known.len() && known[at].is(word) {
            return true;
        }
        false
    }

    /// The number of an equal string, if one is remembered.
    fn remembered(&self, word: &KeyedStr<'t>) -> Option<u32>
        ensures { IfSome result (λ n. IsUnder self.now n word.now.word) }
    {
        let number = self.registry.lookup(word);
        if self.is_under(number, word) {
            return Some(number);
        }
        None
    }

    /// Adds the string, and remembers it. Returns its number.
    fn add(&mut self, word: KeyedStr<'t>) -> Result<u32, AllocError>
        requires few { length self.old < 2 ^ 32 }
        ensures few { OnOk result (length self.new ≤ length self.old + 1) }
        ensures grows { OnOk result (Grows self.old self.new) }
        ensures members { OnOk result (SameMembers self.new
            (self.old ++ word.entry.word ∷ [])) }
        ensures number { IfOk result (λ n. IsUnder self.new n word.entry.word) }
    {
        let number = self.words.as_slice().len() as u32;
        self.registry.remember(&word, number);
        self.words.push(word.numbered(number))?;
        Ok(number)
    }

    /// The number of the string, which is added if none like it is remembered.
    pub fn intern(&mut self, word: KeyedStr<'t>) -> Result<u32, AllocError>
        requires few { length self.old < 2 ^ 32 }
        ensures few { OnOk result (length self.new ≤ length self.old + 1) }
        ensures grows { OnOk result (Grows self.old self.new) }
        ensures members { OnOk result (SameMembers self.new
            (self.old ++ word.entry.word ∷ [])) }
        ensures number { IfOk result (λ n. IsUnder self.new n word.entry.word) }
    {
        match self.remembered(&word) {
            Some(number) => Ok(number),
            None => self.add(word),
        }
    }

    /// The number of the string, as [`Interner::intern`] gives one. The string with the number `near` is compared first,
    /// without a look-up.
    #[inline(always)]
    pub fn intern_near(&mut self, word: KeyedStr<'t>, near: u32) -> Result<u32, AllocError>
        requires few { length self.old < 2 ^ 32 }
        ensures few { OnOk result (length self.new ≤ length self.old + 1) }
        ensures grows { OnOk result (Grows self.old self.new) }
        ensures members { OnOk result (SameMembers self.new
            (self.old ++ word.entry.word ∷ [])) }
        ensures number { IfOk result (λ n. IsUnder self.new n word.entry.word) }
    {
        if self.is_under(near, &word) {
            Ok(near)
        } else {
            self.intern(word)
        }
    }

    /// The strings, each with its number.
    pub fn into_words(self) -> Vec<KeyedStr<'t>>
        ensures texts { texts result.items ≡ self.entry }
        ensures numbered { IsNumbered result.items }
    {
        self.words
    }
}
