//! All lengths from a least one on: what a star leaves. They take no memory.
//!
//! The token that comes next keeps few of them, in most devices. So its places are looked for one after another.
ghost use Rattle.std.specs.Prelude.{ℕ, ◌≡◌, ◌≢◌, ◌<◌, ◌≤◌, ◌+◌, ◌^◌, ◌==◌, ◌↔◌, [], length, slice_index, drop, take, All, Contains, true, false, IsTrue, IfOk, IsOkAnd, IsSome, IfSome, IfNone};
ghost use Rattle.hwdb_spec.specs.Patterns.{admits_byte, token_at, literal};
ghost use Rattle.hwdb_pattern.specs.Views.{NoneTakes};
ghost use Rattle.hwdb_pattern.specs.Internal.Prefixes.{AreAdmitted, Steps};
ghost use Rattle.hwdb_pattern.specs.Internal.Places.{rest_lengths, NonePasses, IsNext, Gathers};

use crate::lengths::stands_for_itself;
use crate::places::bytes_after;
use crate::tables::{admitted_bytes, is_admitted};
use crate::tokens::single_token;
use memchr::memchr;
use std::alloc::{AllocError, Global};

/// So many lengths, one after another, from the least one on.
#[derive(Clone, Copy)]
pub(crate) struct Rest {
    pub(crate) least: usize,
    pub(crate) count: usize,
}

/// How many lengths a list has at most. Beyond that a table takes fewer steps.
const FEW: usize = 32;

/// If there are more bytes than this, a bracket is read once for each of the 256 bytes, not once for each place.
const LONG: usize = 256;

/// Which bytes the bracket at the beginning of the text admits, if so many bytes are to be looked at that it pays to
/// know.
fn admitted_by(text: &[u8], count: usize) -> Option<[bool; 256]>
    requires some { 0 < length text.now }
    requires no_star { slice_index text.now 0 ≢ 42 }
    ensures { IfSome result (λ table. AreAdmitted (token_at text.now) table 256) }
{
    if text[0] == b'[' && count > LONG {
        Some(admitted_bytes(text))
    } else {
        None
    }
}

/// Whether the token at the beginning of the text admits the byte.
fn admits(text: &[u8], byte: u8, admitted: &Option<[bool; 256]>) -> bool
    requires some { 0 < length text.now }
    requires no_star { slice_index text.now 0 ≢ 42 }
    requires admitted { IfSome admitted.now (λ table. AreAdmitted (token_at text.now) table 256) }
    ensures { result ≡ admits_byte (token_at text.now) byte }
{
    match admitted {
        Some(table) => is_admitted(table, byte, text),
        None => single_token(text, byte, true).admits,
    }
}

/// The first place from `at` on that has the byte.
fn next_byte(bytes: &[u8], at: usize, byte: u8) -> Option<usize>
    requires { at ≤ length bytes.now }
    ensures some { IfSome result (λ place. IsNext (λ b. b == byte) bytes.now at place) }
    ensures none { IfNone result (NonePasses (λ b. b == byte) bytes.now at) }
{
    match memchr(byte, &bytes[at..]) {
        Some(place) => Some(at + place),
        None => None,
    }
}

/// The first place from `at` on whose byte the token at the beginning of the text admits, by a look at each.
fn next_admitted(
    bytes: &[u8],
    at: usize,
    text: &[u8],
    admitted: &Option<[bool; 256]>,
) -> Option<usize>
    requires some { 0 < length text.now }
    requires no_star { slice_index text.now 0 ≢ 42 }
    requires admitted { IfSome admitted.now (λ table. AreAdmitted (token_at text.now) table 256) }
    ensures some { IfSome result (λ place.
        IsNext (admits_byte (token_at text.now)) bytes.now at place) }
    ensures none { IfNone result (NonePasses (admits_byte (token_at text.now)) bytes.now at) }
{
    for place in at..bytes.len() {
        if admits(text, bytes[place], admitted) {
            return Some(place);
        }
    }
    None
}

/// The first place from `at` on whose byte the token at the beginning of the text admits.
fn next_place(bytes: &[u8], at: usize, text: &[u8], admitted: &Option<[bool; 256]>) -> Option<usize>
    requires some { 0 < length text.now }
    requires no_star { slice_index text.now 0 ≢ 42 }
    requires within { at ≤ length bytes.now }
    requires admitted { IfSome admitted.now (λ table. AreAdmitted (token_at text.now) table 256) }
    ensures some { IfSome result (λ place.
        IsNext (admits_byte (token_at text.now)) bytes.now at place) }
    ensures none { IfNone result (NonePasses (admits_byte (token_at text.now)) bytes.now at) }
{
    if stands_for_itself(text[0]) {
        next_byte(bytes, at, text[0])
    } else {
        next_admitted(bytes, at, text, admitted)
    }
}

/// One more than each place whose byte the token at the beginning of the text admits, if the first place is `least`.
/// None if these are more than `FEW`.
fn gather(
    alloc: Global,
    least: usize,
    bytes: &[u8],
    text: &[u8],
) -> Result<Option<Vec<usize>>, AllocError>
    requires some { 0 < length text.now }
    requires no_star { slice_index text.now 0 ≢ 42 }
    requires room { least + length bytes.now < 2 ^ 64 }
    ensures gathered { IfOk result (λ found. IfSome found (λ lengths.
        Gathers (admits_byte (token_at text.now)) bytes.now least (length bytes.now)
        lengths.items)) }
    ensures free { NonePasses (admits_byte (token_at text.now)) bytes.now 0
        → IsOkAnd result IsSome }
{
    let admitted = admitted_by(text, bytes.len());
    let mut lengths = Vec::new(alloc);
    let mut at = 0;
    while at < bytes.len() {
        let Some(place) = next_place(bytes, at, text, &admitted) else {
            return Ok(Some(lengths));
        };
        if lengths.len() == FEW {
            return Ok(None);
        }
        at = place + 1;
        lengths.push(least + at)?;
    }
    Ok(Some(lengths))
}

impl Rest {
    /// The device's next bytes after the lengths.
    fn bytes_of<'d>(self, device: &'d [u8]) -> &'d [u8]
        ensures { result.now ≡ take self.count (drop self.least device.now) }
    {
        let bytes = bytes_after(device, self.least);
        &bytes[..self.count.min(bytes.len())]
    }

    /// Whether there is no length.
    pub(crate) fn is_empty(self) -> bool
        ensures { result ≡ (length (rest_lengths self.least self.count) == 0) }
    {
        self.count == 0
    }

    /// Whether it is one of the lengths.
    pub(crate) fn contains(self, n: usize) -> bool
        ensures { IsTrue result ↔ Contains (rest_lengths self.least self.count) n }
    {
        if n < self.least {
            return false;
        }
        n - self.least < self.count
    }

    /// The least length.
    pub(crate) fn first(self) -> Option<usize>
        ensures member { IfSome result (λ n. Contains (rest_lengths self.least self.count) n) }
        ensures least { IfSome result (λ n. All (λ m. n ≤ m) (rest_lengths self.least self.count)) }
        ensures none { IfNone result (rest_lengths self.least self.count ≡ []) }
    {
        if self.count == 0 {
            None
        } else {
            Some(self.least)
        }
    }

    /// Whether the byte is the device's next one after some of the lengths.
    pub(crate) fn is_next(self, device: &[u8], byte: u8) -> bool
        ensures { result ≡ false
            → NoneTakes (literal byte) device.now (rest_lengths self.least self.count) }
    {
        next_byte(self.bytes_of(device), 0, byte).is_some()
    }

    /// The lengths after one token that isn't a star, as a list. None if they are more than `FEW`.
    pub(crate) fn stepped(
        self,
        alloc: Global,
        device: &[u8],
        text: &[u8],
    ) -> Result<Option<Vec<usize>>, AllocError>
        requires some { 0 < length text.now }
        requires no_star { slice_index text.now 0 ≢ 42 }
        ensures steps { IfOk result (λ found. IfSome found (λ lengths.
            Steps (token_at text.now) device.now (rest_lengths self.least self.count)
            lengths.items)) }
        ensures free { NoneTakes (token_at text.now) device.now
            (rest_lengths self.least self.count) → IsOkAnd result IsSome }
    {
        gather(alloc, self.least, self.bytes_of(device), text)
    }
}
