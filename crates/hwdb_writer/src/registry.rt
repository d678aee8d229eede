//! A registry of the places of strings in a list: a cache that forgets, as fst's.
//!
//! A lookup promises nothing. Who asks looks at that place, and searches if another string is there. So no contract
//! speaks of this module, and its numbers can change without a proof.
use crate::keyed::KeyedStr;
use std::alloc::{AllocError, Global};

/// The places that were remembered, by the strings' numbers. Two strings can have one entry.
#[derive(Drop)]
pub struct Registry {
    places: Vec<u32>,
}

impl Registry {
    /// So many entries, none of them used.
    pub fn new(alloc: Global, entries: usize) -> Result<Registry, AllocError> {
        Ok(Registry {
            places: Vec::from_elem(alloc, 0, entries)?,
        })
    }

    /// Which entry a string has.
    fn entry_of(&self, word: &KeyedStr<'_>) -> usize {
        let entries = self.places.len() as u64;
        ((word.hash() >> 32).wrapping_mul(entries) >> 32) as usize
    }

    /// The place at which the string may be.
    pub fn lookup(&self, word: &KeyedStr<'_>) -> u32 {
        match self.places.get(self.entry_of(word)) {
            Some(place) => *place,
            None => 0,
        }
    }

    /// Remembers the place of the string.
    pub fn remember(&mut self, word: &KeyedStr<'_>, place: u32) {
        let entry = self.entry_of(word);
        if let Some(remembered) = self.places.get_mut(entry) {
            *remembered = place;
        }
    }
}
