//! The string section: the distinct strings in order, and the offset of each.
ghost use Rattle.std.specs.Prelude.{◌≡◌, ◌<◌, ◌++◌, List, IfOk, OnOk, length, set};
ghost use Rattle.std.specs.Bool.{OnTrue, OnFalse};
ghost use Rattle.std.specs.Ordering.{nat_cmp, on};
ghost use Rattle.std.specs.Cmp.Lexicographic.{slice_cmp};
ghost use Rattle.std.specs.List.Sorted.{IsPermutation, IsSorted};
ghost use Rattle.hwdb_spec.specs.Written.{ended, section_of};
ghost use Rattle.hwdb_writer.specs.Internal.Word.{Word, word_of};
ghost use Rattle.hwdb_writer.specs.Internal.Numbered.{texts, distinct, IsNumbered, IsNew, IsOld, IsFilled, IsTable};

use crate::interner::Interner;
use crate::keyed::KeyedStr;
use std::alloc::{AllocError, Global};

/// The bytes of the section: the strings in order, each once, and each with the byte 0 after it. Beside it are the offset of
/// each string by its number, and the offset at which they end. An offset above the greatest number is that number.
#[derive(Drop)]
pub struct StringTable {
    pub section: Vec<u8>,
    pub places: Vec<usize>,
    pub end: usize,
}

/// Whether no string like this one is before it. The strings are in order.
#[inline(always)]
fn is_new(ordered: &[KeyedStr<'_>], i: usize) -> bool
    requires { i < length ordered.now }
    ensures yes { OnTrue result (IsNew (texts ordered.now) i) }
    ensures no { OnFalse result (IsOld (texts ordered.now) i) }
{
    if i == 0 {
        return true;
    }
    if ordered[i - 1] == ordered[i] {
        return false;
    }
    true
}

/// Puts a value at a place.
#[inline(always)]
fn put(places: &mut [usize], at: usize, value: usize)
    requires { at < length places.old }
    ensures { places.new ≡ set places.old at value }
{
    places[at] = value;
}

/// Appends a string, and the byte 0 after it.
#[inline(always)]
fn push_ended(out: &mut Vec<u8>, word: &KeyedStr<'_>) -> Result<(), AllocError>
    ensures { OnOk result (out.new.items ≡ out.old.items ++ ended word.now.word) }
{
    word.push_on(out)?;
    out.push(0)?;
    Ok(())
}

/// Fills in the offset of each string by its number, the first of them at `first`. Appends each once to the section. Returns
/// the offset at which they end.
///
/// A string is compared with the one before it and copied at once, as its text is in the cache then.
fn fill(
    ordered: &[KeyedStr<'_>],
    first: usize,
    places: &mut [usize],
    section: &mut Vec<u8>,
) -> Result<usize, AllocError>
    requires room { length places.old ≡ length ordered.now }
    requires sorted { IsSorted (on word_of (slice_cmp nat_cmp)) ordered.now }
    requires numbered { (words : List Word) × IsNumbered words × IsPermutation words ordered.now }
    ensures filled { IfOk result (λ end. (words : List Word) → IsNumbered words
        → IsPermutation words ordered.now → IsFilled first words ordered.now places.new end) }
    ensures section { OnOk result (section.new.items
        ≡ section.old.items ++ section_of (distinct (texts ordered.now))) }
{
    let mut start = first;
    let mut end = first;
    for (i, word) in ordered.iter().enumerate() {
        if is_new(ordered, i) {
            start = end;
            end = end.saturating_add(word.len()).saturating_add(1);
            push_ended(section, word)?;
        }
        put(places, word.number() as usize, start);
    }
    Ok(end)
}

/// How many bytes the strings have with a byte after each, or the greatest number if they have more.
fn room_for(words: &[KeyedStr<'_>]) -> usize {
    let mut room = 0usize;
    for word in words {
        room = room.saturating_add(word.len()).saturating_add(1);
    }
    room
}

/// The table of the strings of an interner, the first of them at `first`.
///
/// A string can have several numbers, and each of these gets its offset. The strings are let go of.
pub fn table_of(
    alloc: Global,
    interner: Interner<'_>,
    first: usize,
) -> Result<StringTable, AllocError>
    ensures { IfOk result (IsTable first interner.entry) }
{
    let mut ordered = interner.into_words();
    ordered.sort_unstable();
    let mut places = Vec::from_elem(alloc, 0, ordered.len())?;
    let mut section = Vec::with_capacity(alloc, room_for(&ordered))?;
    let end = fill(&ordered, first, &mut places, &mut section)?;
    Ok(StringTable {
        section,
        places,
        end,
    })
}
