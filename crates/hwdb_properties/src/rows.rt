//! The row of a table for a name.
ghost use Rattle.std.specs.Prelude.{◌≡◌, Bool, List, ℕ, ◌-◌, false, length, drop, true};
ghost use Rattle.hwdb_spec_commands.specs.Properties;
ghost use Rattle.hwdb_properties.specs.Internal.{passes};
ghost use Rattle.hwdb_properties.specs.Skipping.{IsApart, IsNext, upper};

use crate::cuts::{after, before, front, front_and_one, same};
use crate::names::{is_near, lower, same_letters};
use crate::words::has_lost_words;
use hwdb_text::{Lines, begins_with};
use memchr::memmem::find;

/// How the name of a row is like one that is given.
#[derive(Clone, Copy)]
pub enum Likeness {
    /// The row is for the name.
    Same,
    /// It is the name but for the case of letters.
    Letters,
    /// It is nearly the name.
    Near,
    /// It has all words of the name.
    Lost,
}

/// A text up to its first space.
pub fn word(text: &[u8]) -> &[u8]
    ensures { result.now ≡ Properties.word text.now }
{
    before(b' ', text)
}

/// What is after the first space of a text.
pub fn after_word(text: &[u8]) -> &[u8]
    ensures { result.now ≡ Properties.after_word text.now }
{
    after(b' ', text)
}

/// The word for the form of a row's values.
pub fn row_form(row: &[u8]) -> &[u8]
    ensures { result.now ≡ Properties.row_form row.now }
{
    word(after_word(row))
}

/// Whether a row's name is for all names that begin with it.
pub fn is_family(own: &[u8]) -> bool
    ensures { result ≡ Properties.is_family own.now }
{
    let last = own.len().saturating_sub(1);
    same(&own[last..], b"_")
}

/// Whether a row begins with another byte than a name.
fn begin_apart(row: &[u8], name: &[u8]) -> bool
    ensures { result ≡ true → Properties.is_for row.now name.now ≡ false }
{
    if row.is_empty() {
        return false;
    }
    if name.is_empty() {
        return false;
    }
    if row[0] == name[0] {
        return false;
    }
    true
}

/// As `is_for`, of a row that begins as the name.
fn is_row_for(row: &[u8], name: &[u8]) -> bool
    ensures { result ≡ Properties.is_for row.now name.now }
{
    let own = word(row);
    same(own, name) || is_family(own) && name.starts_with(own)
}

/// Whether a row is for a name. The first byte rules out most rows.
fn is_for(row: &[u8], name: &[u8]) -> bool
    ensures { result ≡ Properties.is_for row.now name.now }
{
    if begin_apart(row, name) {
        return false;
    }
    is_row_for(row, name)
}

/// Whether a name begins nearly with another one.
fn begins_nearly(own: &[u8], name: &[u8]) -> bool
    ensures { result ≡ Properties.begins_nearly own.now name.now }
{
    is_near(own, front(name, own.len()))
        || is_near(own, front(name, own.len().saturating_sub(1)))
        || is_near(own, front_and_one(name, own.len()))
}

/// Whether a name is nearly a row's.
fn is_near_name(own: &[u8], name: &[u8]) -> bool
    ensures { result ≡ Properties.is_near_name own.now name.now }
{
    if is_family(own) {
        begins_nearly(own, name)
    } else {
        is_near(own, name)
    }
}

/// Whether a row's name is like one that is given.
fn passes(row: &[u8], name: &[u8], likeness: Likeness) -> bool
    ensures { result ≡ passes likeness name.now row.now }
{
    match likeness {
        Likeness::Same => is_for(row, name),
        Likeness::Letters => same_letters(word(row), name),
        Likeness::Near => is_near_name(word(row), name),
        Likeness::Lost => has_lost_words(word(row), name),
    }
}

/// Where the first row begins, after a table's first one, that begins with a byte; the table's end if none does.
fn next_row(table: &[u8], first: u8) -> usize
    ensures { IsNext first table.now result }
{
    match find(table, &[b'\n', first]) {
        Some(at) => at + 1,
        None => table.len(),
    }
}

/// Where the first row begins, after a table's first one, that begins with one of two bytes; the table's end if none does.
fn next_of(table: &[u8], one: u8, other: u8) -> usize
    ensures one { IsNext one table.now result }
    ensures other { IsNext other table.now result }
{
    let at = next_row(table, one);
    if one == other {
        return at;
    }
    let then = next_row(table, other);
    if then < at { then } else { at }
}

/// The rows of a table from the first one on that begins with one of two bytes.
fn rows_from(table: &[u8], one: u8, other: u8) -> &[u8]
    ensures { (test : List ℕ → Bool) → IsApart one other test
        → Properties.first_row test result.now ≡ Properties.first_row test table.now }
{
    if begins_with(one, table) {
        return table;
    }
    if begins_with(other, table) {
        return table;
    }
    &table[next_of(table, one, other)..]
}

/// A small letter of ASCII in upper case, any other byte as it is.
fn upper(byte: u8) -> u8
    ensures { result ≡ upper byte }
{
    if matches!(byte, b'a'..=b'z') {
        byte - 32
    } else {
        byte
    }
}

/// The rows of a table from one on before which no row is like a name.
fn rows_for<'t>(table: &'t [u8], name: &[u8], likeness: Likeness) -> &'t [u8]
    ensures { Properties.first_row (passes likeness name.now) result.now
        ≡ Properties.first_row (passes likeness name.now) table.now }
{
    if name.is_empty() {
        return table;
    }
    match likeness {
        Likeness::Same => rows_from(table, name[0], name[0]),
        Likeness::Letters => {
            let low = lower(name[0]);
            rows_from(table, low, upper(low))
        }
        Likeness::Near | Likeness::Lost => table,
    }
}

/// The first row of a table whose name is like one that is given; an empty text if there is none.
pub fn first_row<'t>(table: &'t [u8], name: &[u8], likeness: Likeness) -> &'t [u8]
    ensures { result.now ≡ Properties.first_row (passes likeness name.now) table.now }
{
    for row in Lines::new(rows_for(table, name, likeness)) {
        if passes(row, name, likeness) {
            return row;
        }
    }
    &[]
}
