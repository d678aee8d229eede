//! Which of a device's prefixes some tokens match, as the prefixes' lengths.
//!
//! This is the simulation of an automaton: each token turns the set of lengths before it into the set after it. A star
//! makes the set all lengths from its least one on. Each other token keeps the lengths whose next byte it takes, one
//! further.
//!
//! After a star these are all lengths from one on, which takes no memory. A token that isn't a star keeps few of them, in
//! most devices. So a list holds them, of at most `FEW` lengths (`rests`). If it keeps more, a table has a truth value
//! for each length from the least one on. A token keeps some of them in place, and the least length is then one more.
//!
//! So each token takes at most one step more than the device has bytes, and a step is a part of an instruction. The
//! memory is at most one byte for each length. A bracket is read at most 256 times a token.
ghost use Rattle.std.specs.Prelude.{ℕ, ◌≡◌, ◌≢◌, ◌<◌, ◌≤◌, ◌+◌, ◌^◌, ◌==◌, ◌↔◌, [], length, slice_index, drop, take, min, All, Contains, true, false, IsTrue, IfOk, IsOk, IsOkAnd, IfSome, IfNone};
ghost use Rattle.hwdb_spec.specs.Patterns.{tokens, token_at, literal};
ghost use Rattle.hwdb_pattern.specs.Views.{takes, NoneTakes};
ghost use Rattle.hwdb_pattern.specs.Internal.Tables.{said};
ghost use Rattle.hwdb_pattern.specs.Internal.Places.{rest_lengths};
ghost use Rattle.hwdb_pattern.specs.Internal.Prefixes.{Spread, Steps, IsAfter, Follows, Within};
ghost use Rattle.hwdb_pattern.specs.Internal.Met.{lengths_of};

use crate::lengths::run_size;
use crate::lists::{has, is_next_after, least_of, step, taken};
use crate::places::{bytes_after, is_next, takes_next};
use crate::rests::Rest;
use crate::tables::{first_place, has_admitted, has_byte, has_some, keep};
use std::alloc::{AllocError, Global};

/// Some lengths: those from the least one on at which the table says so.
#[derive(Drop)]
pub(crate) struct LengthTable {
    least: usize,
    says: Vec<bool>,
}

/// The lengths of the prefixes that are matched. A lone one, as most paths have, takes no memory.
#[derive(Drop)]
pub(crate) enum Met {
    Lone(usize),
    /// All of them.
    Few(Vec<usize>),
    /// Those after a star.
    From(Rest),
    Many(LengthTable),
}

/// No length.
#[tactic(auto, unfolding(crate::specs::Internal::Tables::said))]
fn none(alloc: Global) -> Met
    ensures { lengths_of result ≡ [] }
{
    Met::Many(LengthTable {
        least: 0,
        says: Vec::new(alloc),
    })
}

/// The lengths of the list.
fn of_list(lengths: Vec<usize>) -> Met
    ensures { lengths_of result ≡ lengths.items }
{
    if lengths.len() == 1 {
        Met::Lone(lengths[0])
    } else {
        Met::Few(lengths)
    }
}

/// All lengths of the rest, as a table.
fn all_of(alloc: Global, rest: Rest) -> Result<LengthTable, AllocError>
    ensures { IfOk result (λ table.
        said table.least table.says.items ≡ rest_lengths rest.least rest.count) }
{
    let says = vec![in alloc; true; rest.count]?;
    Ok(LengthTable {
        least: rest.least,
        says,
    })
}

/// The lengths after one token that isn't a star. None are left of a table that begins at the device's end.
fn table_stepped(alloc: Global, table: LengthTable, device: &[u8], text: &[u8]) -> Met
    requires some { 0 < length text.now }
    requires no_star { slice_index text.now 0 ≢ 42 }
    ensures { Steps (token_at text.now) device.now
        (said table.least table.says.items) (lengths_of result) }
{
    if table.least < device.len() {
        Met::Many(table.stepped(device, text))
    } else {
        none(alloc)
    }
}

/// As `table_stepped`, of a copy. If the token takes no byte, no memory is asked for.
fn table_taken(
    alloc: Global,
    table: &LengthTable,
    device: &[u8],
    text: &[u8],
) -> Result<Met, AllocError>
    requires some { 0 < length text.now }
    requires no_star { slice_index text.now 0 ≢ 42 }
    requires within { Within device.now (said table.now.least table.now.says.items) }
    ensures steps { IfOk result (λ after. Steps (token_at text.now) device.now
        (said table.now.least table.now.says.items) (lengths_of after)) }
    ensures free { NoneTakes (token_at text.now) device.now
        (said table.now.least table.now.says.items) → IsOk result }
{
    if !table.takes(device, text) {
        return Ok(none(alloc));
    }
    let copied = table.copied(alloc, device.len())?;
    Ok(table_stepped(alloc, copied, device, text))
}

/// The lengths after one token that isn't a star: a list if the token keeps few, else a table.
fn rest_stepped(alloc: Global, rest: Rest, device: &[u8], text: &[u8]) -> Result<Met, AllocError>
    requires some { 0 < length text.now }
    requires no_star { slice_index text.now 0 ≢ 42 }
    ensures steps { IfOk result (λ after. Steps (token_at text.now) device.now
        (rest_lengths rest.least rest.count) (lengths_of after)) }
    ensures free { NoneTakes (token_at text.now) device.now (rest_lengths rest.least rest.count)
        → IsOk result }
{
    if let Some(lengths) = rest.stepped(alloc, device, text)? {
        return Ok(of_list(lengths));
    }
    let table = all_of(alloc, rest)?;
    Ok(table_stepped(alloc, table, device, text))
}

impl LengthTable {
    /// Whether there is no length.
    fn is_empty(&self) -> bool
        ensures { result ≡ (length (said self.now.least self.now.says.items) == 0) }
    {
        let says: &[bool] = &self.says;
        !has_some(says)
    }

    /// Whether it is one of the lengths.
    fn contains(&self, n: usize) -> bool
        ensures { IsTrue result ↔ Contains (said self.now.least self.now.says.items) n }
    {
        if n < self.least {
            return false;
        }
        let says: &[bool] = &self.says;
        let at = n - self.least;
        if at < says.len() { says[at] } else { false }
    }

    /// The least length.
    fn first(&self, end: usize) -> Option<usize>
        requires room { end + 1 < 2 ^ 64 }
        requires within { All (λ n. n ≤ end) (said self.now.least self.now.says.items) }
        ensures member { IfSome result (λ n.
            Contains (said self.now.least self.now.says.items) n) }
        ensures least { IfSome result (λ n.
            All (λ m. n ≤ m) (said self.now.least self.now.says.items)) }
        ensures none { IfNone result (said self.now.least self.now.says.items ≡ []) }
    {
        let says: &[bool] = &self.says;
        match first_place(says) {
            Some(at) => Some(self.least + at),
            None => None,
        }
    }

    /// The same lengths, with no place before the first one.
    fn copied(&self, alloc: Global, end: usize) -> Result<LengthTable, AllocError>
        requires room { end + 1 < 2 ^ 64 }
        requires within { All (λ n. n ≤ end) (said self.now.least self.now.says.items) }
        ensures { IfOk result (λ table.
            said table.least table.says.items ≡ said self.now.least self.now.says.items) }
    {
        let says: &[bool] = &self.says;
        match first_place(says) {
            Some(at) => {
                let rest = Vec::from_slice(alloc, &says[at..])?;
                Ok(LengthTable {
                    least: self.least + at,
                    says: rest,
                })
            }
            None => Ok(LengthTable {
                least: 0,
                says: Vec::new(alloc),
            }),
        }
    }

    /// Whether the token at the beginning of the text takes the device's next byte after some of the lengths.
    fn takes(&self, device: &[u8], text: &[u8]) -> bool
        requires some { 0 < length text.now }
        requires no_star { slice_index text.now 0 ≢ 42 }
        ensures none { result ≡ false
            → NoneTakes (token_at text.now) device.now (said self.now.least self.now.says.items) }
        ensures some { result ≡ true
            → NoneTakes (token_at text.now) device.now
            (said self.now.least self.now.says.items) → ⊥ }
    {
        let bytes = bytes_after(device, self.least);
        let says: &[bool] = &self.says;
        let count = says.len().min(bytes.len());
        has_admitted(&says[..count], bytes, text)
    }

    /// Whether the byte is the device's next one after some of the lengths.
    fn is_next(&self, device: &[u8], byte: u8) -> bool
        ensures { result ≡ false
            → NoneTakes (literal byte) device.now (said self.now.least self.now.says.items) }
    {
        let bytes = bytes_after(device, self.least);
        let says: &[bool] = &self.says;
        let count = says.len().min(bytes.len());
        has_byte(&says[..count], bytes, byte)
    }

    /// The lengths after one token that isn't a star.
    fn stepped(self, device: &[u8], text: &[u8]) -> LengthTable
        requires some { 0 < length text.now }
        requires no_star { slice_index text.now 0 ≢ 42 }
        requires within { self.least < length device.now }
        ensures { Steps (token_at text.now) device.now
            (said self.least self.says.items) (said result.least result.says.items) }
    {
        let LengthTable { least, mut says } = self;
        let bytes = bytes_after(device, least);
        says.truncate(bytes.len());
        keep(&mut says, bytes, text);
        LengthTable {
            least: least + 1,
            says,
        }
    }
}

impl Met {
    /// Whether there is no length.
    pub(crate) fn is_empty(&self) -> bool
        ensures { result ≡ (length (lengths_of self.now) == 0) }
    {
        match self {
            Met::Lone(_) => false,
            Met::Few(lengths) => lengths.is_empty(),
            Met::From(rest) => rest.is_empty(),
            Met::Many(table) => table.is_empty(),
        }
    }

    /// Whether it is one of the lengths.
    pub(crate) fn contains(&self, n: usize) -> bool
        ensures { IsTrue result ↔ Contains (lengths_of self.now) n }
    {
        match self {
            Met::Lone(length) => *length == n,
            Met::Few(lengths) => has(lengths, n),
            Met::From(rest) => rest.contains(n),
            Met::Many(table) => table.contains(n),
        }
    }

    /// Whether the byte is the device's next one after some of the lengths.
    pub(crate) fn is_next(&self, device: &[u8], byte: u8) -> bool
        ensures { result ≡ false → NoneTakes (literal byte) device.now (lengths_of self.now) }
    {
        match self {
            Met::Lone(length) => is_next(byte, device, *length),
            Met::Few(lengths) => is_next_after(lengths, device, byte),
            Met::From(rest) => rest.is_next(device, byte),
            Met::Many(table) => table.is_next(device, byte),
        }
    }

    /// The least length.
    pub(crate) fn least(&self, end: usize) -> Option<usize>
        requires room { end + 1 < 2 ^ 64 }
        requires within { All (λ n. n ≤ end) (lengths_of self.now) }
        ensures member { IfSome result (λ n. Contains (lengths_of self.now) n) }
        ensures least { IfSome result (λ n. All (λ m. n ≤ m) (lengths_of self.now)) }
        ensures none { IfNone result (lengths_of self.now ≡ []) }
    {
        match self {
            Met::Lone(length) => Some(*length),
            Met::Few(lengths) => least_of(lengths),
            Met::From(rest) => rest.first(),
            Met::Many(table) => table.first(end),
        }
    }

    /// The lengths after a star.
    fn after_star(&self, alloc: Global, end: usize) -> Met
        requires room { end + 1 < 2 ^ 64 }
        requires within { All (λ n. n ≤ end) (lengths_of self.now) }
        ensures { Spread end (lengths_of self.now) (lengths_of result) }
    {
        match self.least(end) {
            Some(least) => Met::From(Rest {
                least,
                count: end + 1 - least,
            }),
            None => none(alloc),
        }
    }

    /// The same lengths.
    fn copied(&self, alloc: Global, end: usize) -> Result<Met, AllocError>
        requires room { end + 1 < 2 ^ 64 }
        requires within { All (λ n. n ≤ end) (lengths_of self.now) }
        ensures { IfOk result (λ met. lengths_of met ≡ lengths_of self.now) }
    {
        match self {
            Met::Lone(length) => Ok(Met::Lone(*length)),
            Met::Few(lengths) => Ok(Met::Few(Vec::from_slice(alloc, lengths)?)),
            Met::From(rest) => Ok(Met::From(*rest)),
            Met::Many(table) => Ok(Met::Many(table.copied(alloc, end)?)),
        }
    }

    /// The lengths after one token that isn't a star.
    fn stepped(self, alloc: Global, device: &[u8], text: &[u8]) -> Result<Met, AllocError>
        requires some { 0 < length text.now }
        requires no_star { slice_index text.now 0 ≢ 42 }
        ensures { IfOk result (λ after. Steps (token_at text.now) device.now
            (lengths_of self) (lengths_of after)) }
    {
        match self {
            Met::Lone(length) => {
                if takes_next(text, device, length) {
                    Ok(Met::Lone(length + 1))
                } else {
                    Ok(none(alloc))
                }
            }
            Met::Few(mut lengths) => {
                step(&mut lengths, device, text);
                Ok(of_list(lengths))
            }
            Met::From(rest) => rest_stepped(alloc, rest, device, text),
            Met::Many(table) => Ok(table_stepped(alloc, table, device, text)),
        }
    }

    /// As `stepped`, and the lengths before stay as they are. If the token takes no byte, no memory is asked for.
    fn taken(&self, alloc: Global, device: &[u8], text: &[u8]) -> Result<Met, AllocError>
        requires some { 0 < length text.now }
        requires no_star { slice_index text.now 0 ≢ 42 }
        requires within { Within device.now (lengths_of self.now) }
        ensures steps { IfOk result (λ after. Steps (token_at text.now) device.now
            (lengths_of self.now) (lengths_of after)) }
        ensures free { NoneTakes (token_at text.now) device.now (lengths_of self.now)
            → IsOk result }
    {
        match self {
            Met::Lone(length) => {
                if takes_next(text, device, *length) {
                    Ok(Met::Lone(*length + 1))
                } else {
                    Ok(none(alloc))
                }
            }
            Met::Few(lengths) => {
                let after = taken(alloc, lengths, device, text)?;
                Ok(of_list(after))
            }
            Met::From(rest) => rest_stepped(alloc, *rest, device, text),
            Met::Many(table) => table_taken(alloc, table, device, text),
        }
    }

    /// The lengths after the text's first token. If that isn't a star and takes no byte, no memory is asked for.
    fn first_token(&self, alloc: Global, device: &[u8], text: &[u8]) -> Result<Met, AllocError>
        requires some { 0 < length text.now }
        requires within { Within device.now (lengths_of self.now) }
        ensures after { IfOk result (λ after.
            IsAfter device.now (lengths_of self.now) (lengths_of after) text.now) }
        ensures free { slice_index text.now 0 ≢ 42
            → NoneTakes (token_at text.now) device.now (lengths_of self.now)
            → IsOkAnd result (λ after. lengths_of after ≡ []) }
    {
        if text[0] == b'*' {
            return Ok(self.after_star(alloc, device.len()));
        }
        self.taken(alloc, device, text)
    }

    /// The lengths after the text's first token.
    pub(crate) fn next_token(
        self,
        alloc: Global,
        device: &[u8],
        text: &[u8],
    ) -> Result<Met, AllocError>
        requires some { 0 < length text.now }
        requires within { Within device.now (lengths_of self) }
        ensures { IfOk result (λ after.
            IsAfter device.now (lengths_of self) (lengths_of after) text.now) }
    {
        if text[0] == b'*' {
            return Ok(self.after_star(alloc, device.len()));
        }
        self.stepped(alloc, device, text)
    }

    /// The lengths after all tokens of the text.
    fn follow(self, alloc: Global, device: &[u8], text: &[u8]) -> Result<Met, AllocError>
        requires { Within device.now (lengths_of self) }
        ensures follows { IfOk result (λ after.
            Follows (tokens text.now) device.now (lengths_of self) (lengths_of after)) }
        ensures within { IfOk result (λ after. Within device.now (lengths_of after)) }
        ensures free { lengths_of self ≡ [] → IsOk result }
    {
        let mut met = self;
        let mut at = 0;
        'following: while at < text.len() && !met.is_empty() {
            let rest = &text[at..];
            met = met.next_token(alloc, device, rest)?;
            at += run_size(rest);
        }
        Ok(met)
    }

    /// The lengths after all tokens of the text. If the first token isn't a star and takes no byte of the device, no
    /// memory is asked for.
    pub(crate) fn along(&self, alloc: Global, device: &[u8], text: &[u8]) -> Result<Met, AllocError>
        requires { Within device.now (lengths_of self.now) }
        ensures follows { IfOk result (λ after.
            Follows (tokens text.now) device.now (lengths_of self.now) (lengths_of after)) }
        ensures within { IfOk result (λ after. Within device.now (lengths_of after)) }
        ensures free { 0 < length text.now → slice_index text.now 0 ≢ 42
            → NoneTakes (token_at text.now) device.now (lengths_of self.now) → IsOk result }
    {
        if text.is_empty() {
            return self.copied(alloc, device.len());
        }
        let after = self.first_token(alloc, device, text)?;
        after.follow(alloc, device, &text[run_size(text)..])
    }

    /// The lengths after all tokens of a text of stars alone. Reads none of them.
    pub(crate) fn along_stars(&self, alloc: Global, device: &[u8], stars: &[u8]) -> Met
        requires some { 0 < length stars.now }
        requires stars { (k : ℕ) → k < length stars.now → slice_index stars.now k ≡ 42 }
        requires within { Within device.now (lengths_of self.now) }
        ensures follows { Follows (tokens stars.now) device.now (lengths_of self.now)
            (lengths_of result) }
        ensures within { Within device.now (lengths_of result) }
    {
        self.after_star(alloc, device.len())
    }
}
