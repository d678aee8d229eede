//! Tables over a device: a truth value for each of its places.
//!
//! Most loops over a table have no branch, and no way out before the end. So they are compiled to steps that take many
//! places at once.
ghost use Rattle.std.specs.Prelude.{ℕ, ◌≡◌, ◌≢◌, ◌<◌, ◌≤◌, ◌==◌, length, slice_index, slice_index_or, false, true, IfSome, IfNone};
ghost use Rattle.hwdb_spec.specs.Patterns.{admits_byte, token_at};
ghost use Rattle.hwdb_pattern.specs.Internal.Prefixes.{AreAdmitted};
ghost use Rattle.hwdb_pattern.specs.Internal.Tables.{IsKept, SomeAt, passes_at};

use crate::tokens::single_token;

/// If a table has more places than this, a bracket is read once for each of the 256 bytes, not once for each place.
const FEW: usize = 256;

/// So many places of a table are looked at one by one.
const FIRST: usize = 64;

/// Keeps the places with this byte.
fn keep_byte(table: &mut [bool], bytes: &[u8], byte: u8)
    requires { length table.old ≤ length bytes.now }
    ensures { IsKept (λ b. b == byte) bytes.now table.old table.new }
{
    for i in 0..table.len() {
        let is_byte = bytes[i] == byte;
        table[i] = table[i] & is_byte;
    }
}

/// Which bytes the token at the beginning of the text admits. So a bracket is read once for each byte that there is,
/// and not once for each place of a device.
pub(crate) fn admitted_bytes(text: &[u8]) -> [bool; 256]
    requires some { 0 < length text.now }
    requires no_star { slice_index text.now 0 ≢ 42 }
    ensures { AreAdmitted (token_at text.now) result 256 }
{
    let mut admitted = [false; 256];
    for byte in 0..256usize {
        admitted[byte] = single_token(text, byte as u8, true).admits;
    }
    admitted
}

/// Whether the token at the beginning of the text, which admits these bytes, admits the byte.
pub(crate) fn is_admitted(admitted: &[bool; 256], byte: u8, text: &[u8]) -> bool
    requires { AreAdmitted (token_at text.now) admitted.now 256 }
    ensures { result ≡ admits_byte (token_at text.now) byte }
{
    admitted[byte as usize]
}

/// Keeps the places whose byte the token at the beginning of the text admits, by the bytes that it admits.
fn keep_admitted(table: &mut [bool], bytes: &[u8], text: &[u8])
    requires some { 0 < length text.now }
    requires no_star { slice_index text.now 0 ≢ 42 }
    requires within { length table.old ≤ length bytes.now }
    ensures { IsKept (admits_byte (token_at text.now)) bytes.now table.old table.new }
{
    let admitted = admitted_bytes(text);
    for i in 0..table.len() {
        let is_one = is_admitted(&admitted, bytes[i], text);
        table[i] = table[i] & is_one;
    }
}

/// As `keep_admitted`, by one look at the token for each place.
fn keep_each(table: &mut [bool], bytes: &[u8], text: &[u8])
    requires some { 0 < length text.now }
    requires no_star { slice_index text.now 0 ≢ 42 }
    requires within { length table.old ≤ length bytes.now }
    ensures { IsKept (admits_byte (token_at text.now)) bytes.now table.old table.new }
{
    for i in 0..table.len() {
        table[i] = table[i] && single_token(text, bytes[i], true).admits;
    }
}

/// Keeps the places whose byte the token at the beginning of the text admits.
pub(crate) fn keep(table: &mut [bool], bytes: &[u8], text: &[u8])
    requires some { 0 < length text.now }
    requires no_star { slice_index text.now 0 ≢ 42 }
    requires within { length table.old ≤ length bytes.now }
    ensures { IsKept (admits_byte (token_at text.now)) bytes.now table.old table.new }
{
    if text[0] == b'?' {
        return;
    }
    if text[0] != b'[' {
        keep_byte(table, bytes, text[0]);
        return;
    }
    if table.len() > FEW {
        keep_admitted(table, bytes, text);
    } else {
        keep_each(table, bytes, text);
    }
}

/// Whether some place has this byte.
pub(crate) fn has_byte(table: &[bool], bytes: &[u8], byte: u8) -> bool
    requires { length table.now ≤ length bytes.now }
    ensures { SomeAt (passes_at (λ b. b == byte) bytes.now table.now) (length table.now) result }
{
    let mut has = false;
    for i in 0..table.len() {
        let is_byte = bytes[i] == byte;
        has = has | (table[i] & is_byte);
    }
    has
}

/// Whether some place has a byte that the token at the beginning of the text admits, by the bytes that it admits.
fn has_one_of(table: &[bool], bytes: &[u8], text: &[u8]) -> bool
    requires some { 0 < length text.now }
    requires no_star { slice_index text.now 0 ≢ 42 }
    requires within { length table.now ≤ length bytes.now }
    ensures { SomeAt (passes_at (admits_byte (token_at text.now)) bytes.now table.now)
        (length table.now) result }
{
    let admitted = admitted_bytes(text);
    for i in 0..table.len() {
        if table[i] && is_admitted(&admitted, bytes[i], text) {
            return true;
        }
    }
    false
}

/// Whether some place has a byte that the token at the beginning of the text admits.
pub(crate) fn has_admitted(table: &[bool], bytes: &[u8], text: &[u8]) -> bool
    requires some { 0 < length text.now }
    requires no_star { slice_index text.now 0 ≢ 42 }
    requires within { length table.now ≤ length bytes.now }
    ensures { SomeAt (passes_at (admits_byte (token_at text.now)) bytes.now table.now)
        (length table.now) result }
{
    if text[0] == b'[' && table.len() > FEW {
        return has_one_of(table, bytes, text);
    }
    for i in 0..table.len() {
        if table[i] && single_token(text, bytes[i], true).admits {
            return true;
        }
    }
    false
}

/// Whether the table says so at some place. The first places are looked at one by one, since one of them does in most tables
/// that do.
pub(crate) fn has_some(table: &[bool]) -> bool
    ensures { SomeAt (λ k. slice_index_or table.now k false) (length table.now) result }
{
    let first = table.len().min(FIRST);
    for i in 0..first {
        if table[i] {
            return true;
        }
    }
    let mut has = false;
    for i in first..table.len() {
        has = has | table[i];
    }
    has
}

/// The first place at which the table says so.
pub(crate) fn first_place(table: &[bool]) -> Option<usize>
    ensures here { IfSome result (λ at. slice_index_or table.now at false ≡ true) }
    ensures within { IfSome result (λ at. at < length table.now) }
    ensures before { IfSome result (λ at. (k : ℕ) → k < at
        → slice_index_or table.now k false ≡ false) }
    ensures none { IfNone result ((k : ℕ) → k < length table.now
        → slice_index_or table.now k false ≡ false) }
{
    for i in 0..table.len() {
        if table[i] {
            return Some(i);
        }
    }
    None
}
