//! A string that is ordered by its bytes, with its first eight bytes as one number that is compared first. It takes its number
//! among strings along through a sort.
//!
//! Most comparisons of a sort are decided by that number, without a look at the text, which is elsewhere in memory. A
//! key is stored with a space before it. It is kept as the text and a mark, so that no copy with a space is made.
ghost use Rattle.std.specs.Prelude.{◌≡◌, ◌∷◌, ◌++◌, ◌-◌, ◌^◌, ◌<◌, List, ℕ, Some, drop, get_or, OnOk, length, min, nat_eq, refl};
ghost use Rattle.std.specs.Bool.{OnTrue};
ghost use Rattle.std.specs.Ordering.{nat_cmp, on};
ghost use Rattle.std.specs.Cmp.{on_equiv, on_po, on_total, partial_equiv_from_equiv};
ghost use Rattle.std.specs.Cmp.Lexicographic.{slice_cmp, pointwise, nat_list_eq_equiv, nat_list_cmp_total, texts_po, texts_ties};
ghost use Rattle.byteorder.specs.Endian.{big_number};
ghost use Rattle.hwdb_writer.specs.Internal.Keyed.{IsHeaded, spaced_text};
ghost use Rattle.hwdb_writer.specs.Internal.Word.{Word, word_of, coded_word};

use byteorder::{BigEndian, ByteOrder};
use std::alloc::AllocError;
use std::cmp::Ordering;
use std::marker::Model;

/// How many of a string's first bytes are kept beside it as a number.
const HEAD: usize = 8;

/// A string, and its number among strings. The string is a text, or a space and a text. Its first eight bytes are beside it
/// as a number, so that few comparisons look at the text.
#[derive(Drop)]
pub struct KeyedStr<'t> {
    head: u64,
    is_spaced: bool,
    number: u32,
    text: &'t [u8],
}

impl<'t> Model for KeyedStr<'t> {
    ghost Value = { Word };

    ghost coded = { coded_word };

    ghost view = { λ w. record { word = spaced_text w.is_spaced w.text.now; number = w.number } };

    ghost invariant = { λ w. IsHeaded w.head (spaced_text w.is_spaced w.text.now) };
}

/// What spreads numbers: odd, and near 2^64 by the golden ratio.
const FACTOR: u64 = 0x9e37_79b9_7f4a_7c15;

/// The first eight bytes as a number, the highest first; those that a shorter string lacks count as 0.
pub fn head_of(text: &[u8]) -> u64
    ensures head { result ≡ big_number 8 text.now }
    ensures bytes { (i : ℕ) → get_or text.now i 0 < 256 }
{
    if text.len() >= HEAD {
        return BigEndian::read_u64(text);
    }
    let mut bytes = [0; HEAD];
    bytes[..text.len()].copy_from_slice(text);
    BigEndian::read_u64(&bytes)
}

/// As `head_of`, of what comes after the first eight bytes.
pub fn next_of(text: &[u8]) -> u64
    ensures { result ≡ big_number 8 (drop 8 text.now) }
{
    if text.len() <= HEAD {
        return 0;
    }
    head_of(&text[HEAD..])
}

/// What a space counts as the first of eight bytes.
const SPACE: u64 = 0x2000_0000_0000_0000;

/// As `head_of`, of a space and a text.
fn spaced_head_of(text: &[u8]) -> u64
    ensures { result ≡ big_number 8 (32 ∷ text.now) }
{
    SPACE + head_of(text) / 256
}

impl<'t> KeyedStr<'t> {
    /// A text, with the number 0.
    pub fn new(text: &'t [u8]) -> KeyedStr<'t>
        ensures word { result.word ≡ text.now }
        ensures number { result.number ≡ 0 }
    {
        KeyedStr {
            head: head_of(text),
            is_spaced: false,
            number: 0,
            text,
        }
    }

    /// A space and a text, with the number 0.
    pub fn spaced(text: &'t [u8]) -> KeyedStr<'t>
        ensures { result.word ≡ 32 ∷ text.now }
    {
        KeyedStr {
            head: spaced_head_of(text),
            is_spaced: true,
            number: 0,
            text,
        }
    }

    /// The same string with another number.
    pub fn numbered(self, number: u32) -> KeyedStr<'t>
        ensures word { result.word ≡ self.entry.word }
        ensures number { result.number ≡ number }
    {
        KeyedStr {
            head: self.head,
            is_spaced: self.is_spaced,
            number,
            text: self.text,
        }
    }

    /// Whether it is that string, whatever their numbers are.
    #[inline(always)]
    pub fn is(&self, other: &KeyedStr<'_>) -> bool
        ensures { OnTrue result (self.now.word ≡ other.now.word) }
    {
        if self.head == other.head && self == other {
            return true;
        }
        false
    }

    /// Its number among strings.
    pub fn number(&self) -> u32
        ensures { result ≡ self.now.number }
    {
        self.number
    }

    /// A number made of its first, middle and last bytes. Equal strings have one hash, and so can different ones.
    pub fn hash(&self) -> u64 {
        let text = self.text;
        let last = text.len().saturating_sub(8);
        if last == 0 {
            return self.head.wrapping_mul(FACTOR);
        }
        let middle = head_of(&text[last / 2..]);
        let end = head_of(&text[last..]);
        let hash = self.head.wrapping_mul(FACTOR).rotate_left(25) ^ middle;
        let hash = hash.wrapping_mul(FACTOR).rotate_left(25) ^ end;
        hash.wrapping_mul(FACTOR)
    }

    /// Its length in bytes, or the greatest number if it is longer.
    pub fn len(&self) -> usize
        ensures { result ≡ min (length self.now.word) (2 ^ 64 - 1) }
    {
        self.text.len().saturating_add(self.is_spaced as usize)
    }

    /// Appends it.
    pub fn push_on(&self, out: &mut Vec<u8>) -> Result<(), AllocError>
        ensures { OnOk result (out.new.items ≡ out.old.items ++ self.now.word) }
    {
        if self.is_spaced {
            out.push(b' ')?;
        }
        out.extend_from_slice(self.text)
    }
}

/// The order of a space and a text, and a text.
fn cmp_spaced(spaced: &[u8], text: &[u8]) -> Ordering
    ensures { result ≡ slice_cmp nat_cmp (32 ∷ spaced.now) text.now }
{
    match text {
        [] => Ordering::Greater,
        [first, rest @ ..] => match b' '.cmp(first) {
            Ordering::Equal => spaced.cmp(rest),
            unequal => unequal,
        },
    }
}

/// The order of strings.
fn cmp_texts(a: &KeyedStr<'_>, b: &KeyedStr<'_>) -> Ordering
    ensures { result ≡ slice_cmp nat_cmp a.now.word b.now.word }
{
    if a.is_spaced == b.is_spaced {
        return a.text.cmp(b.text);
    }
    if a.is_spaced {
        return cmp_spaced(a.text, b.text);
    }
    cmp_spaced(b.text, a.text).reverse()
}

/// Numbers don't count.
impl<'t> PartialEq for KeyedStr<'t> {
    ghost eq = { on word_of (pointwise nat_eq) };

    ghost laws = { partial_equiv_from_equiv (on_equiv word_of nat_list_eq_equiv) };

    fn eq(&self, other: &Self) -> bool {
        if self.head != other.head {
            return false;
        }
        if self.len() <= HEAD && other.len() <= HEAD {
            return self.len().cmp(&other.len()).is_eq();
        }
        if self.is_spaced == other.is_spaced {
            return self.text == other.text;
        }
        cmp_texts(self, other).is_eq()
    }
}

impl<'t> Eq for KeyedStr<'t> {
    ghost laws = { on_equiv word_of nat_list_eq_equiv };
}

impl<'t> PartialOrd for KeyedStr<'t> {
    ghost partial_cmp = { on word_of (λ (x y : List ℕ). Some (slice_cmp nat_cmp x y)) };

    ghost laws = { on_po word_of texts_po };

    fn partial_cmp(&self, other: &Self) -> Option<Ordering> {
        Some(self.cmp(other))
    }
}

impl<'t> Ord for KeyedStr<'t> {
    ghost cmp = { on word_of (slice_cmp nat_cmp) };

    ghost total = { on_total word_of nat_list_cmp_total };

    ghost matches_partial_cmp = { λ x y. refl };

    ghost matches_eq = { λ x y. texts_ties (word_of x) (word_of y) };

    fn cmp(&self, other: &Self) -> Ordering {
        if self.head < other.head {
            return Ordering::Less;
        }
        if self.head > other.head {
            return Ordering::Greater;
        }
        if self.len() <= HEAD && other.len() <= HEAD {
            return self.len().cmp(&other.len());
        }
        cmp_texts(self, other)
    }
}
