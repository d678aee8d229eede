//! Properties that aren't read below the patterns of their record.
ghost use Rattle.std.specs.Prelude.{◌≡◌, ◌++◌, [], ◌∷◌, map, ℕ, IfOk, OnOk};
ghost use Rattle.hwdb_spec_commands.specs.Surroundings;
ghost use Rattle.hwdb_text.specs.Views.{given_in};
ghost use Rattle.hwdb_check.specs.Internal.{IsPlace, IsUnreadOf, is_elsewhere_below, is_read_there, lines_where, own, tells_unread};

use crate::repeats::set_of;
use hwdb_forms::{is_asked, prefix_of};
use hwdb_properties::{before, has_logged_code, is_read_below};
use hwdb_text::Given;
use std::alloc::{AllocError, Global};
use std::collections::BTreeSet;

/// The lines whose property is elsewhere with one of its patterns, and those of them whose property isn't with another one.
#[derive(Drop)]
pub struct UnreadLines {
    /// The former.
    pub elsewhere: BTreeSet<u64>,
    /// The latter.
    pub read: BTreeSet<u64>,
}

impl UnreadLines {
    /// Whether the property of a line is elsewhere with all of its patterns.
    pub fn has(&self, line: u64) -> bool
        ensures { result ≡ tells_unread self.now line }
    {
        self.elsewhere.contains(&line) && !self.read.contains(&line)
    }
}

/// Whether a property isn't read below a prefix.
fn is_elsewhere_below(key: &[u8], prefix: &[u8]) -> bool
    ensures { result ≡ is_elsewhere_below key.now prefix.now }
{
    if is_read_below(key, before(b':', prefix)) {
        return false;
    }
    is_asked(prefix)
}

/// A key and a prefix, and whether the property isn't read below it. Most assignments have the key and the prefix of the
/// one before them.
#[derive(Clone, Copy)]
struct Place<'b> {
    key: &'b [u8],
    prefix: &'b [u8],
    elsewhere: bool,
}

impl<'b> Place<'b> {
    /// That of a key and a prefix.
    fn of(key: &'b [u8], prefix: &'b [u8]) -> Place<'b>
        ensures is { IsPlace result }
        ensures key { result.key.now ≡ key.now }
        ensures prefix { result.prefix.now ≡ prefix.now }
    {
        Place {
            key,
            prefix,
            elsewhere: is_elsewhere_below(key, prefix),
        }
    }

    /// That of another key and another prefix.
    fn next(self, key: &'b [u8], prefix: &'b [u8]) -> Place<'b>
        requires { IsPlace self }
        ensures is { IsPlace result }
        ensures key { result.key.now ≡ key.now }
        ensures prefix { result.prefix.now ≡ prefix.now }
    {
        if self.key != key {
            return Place::of(key, prefix);
        }
        if self.prefix != prefix {
            return Place::of(key, prefix);
        }
        self
    }
}

/// Whether an assignment has a code as Linux logs it, and its pattern is of the driver that has another one.
fn is_logged(given: &Given<'_>) -> bool
    ensures { result ≡ Surroundings.is_logged (given_in own given.now) }
{
    has_logged_code(given.key) && given.pattern.starts_with(b"evdev:atkbd:")
}

/// Whether the property of an assignment isn't read below its pattern. `last` is the place of an assignment before it.
fn is_elsewhere<'b>(last: &mut Place<'b>, given: &Given<'b>) -> bool
    requires { IsPlace last.old }
    ensures is { IsPlace last.new }
    ensures elsewhere { result ≡ Surroundings.is_elsewhere (given_in own given.now) }
{
    if is_logged(given) {
        return true;
    }
    *last = last.next(given.key, prefix_of(given.pattern));
    last.elsewhere
}

/// Adds the line of an assignment, if it is elsewhere. The only error, here and below, is `AllocError`.
fn put_elsewhere<'b>(
    lines: &mut Vec<u64>,
    last: &mut Place<'b>,
    given: &Given<'b>,
) -> Result<(), AllocError>
    requires { IsPlace last.old }
    ensures is { OnOk result (IsPlace last.new) }
    ensures lines { OnOk result (lines.new.items
        ≡ lines.old.items ++ lines_where Surroundings.is_elsewhere (given_in own given.now ∷ [])) }
{
    if is_elsewhere(last, given) {
        lines.push(given.line as u64)?;
    }
    Ok(())
}

/// The lines of the assignments that are elsewhere.
fn elsewhere_lines(alloc: Global, all: &[Given<'_>]) -> Result<Vec<u64>, AllocError>
    ensures { IfOk result (λ lines. lines.items
        ≡ lines_where Surroundings.is_elsewhere (map (given_in own) all.now)) }
{
    let mut lines = Vec::new(alloc);
    let mut last = Place::of(&[], &[]);
    for given in all {
        put_elsewhere(&mut lines, &mut last, given)?;
    }
    Ok(lines)
}

/// Adds the line of an assignment, if it is one of these and the assignment isn't elsewhere.
fn put_read<'b>(
    lines: &mut Vec<u64>,
    elsewhere: &BTreeSet<u64>,
    last: &mut Place<'b>,
    given: &Given<'b>,
) -> Result<(), AllocError>
    requires { IsPlace last.old }
    ensures is { OnOk result (IsPlace last.new) }
    ensures lines { OnOk result (lines.new.items
        ≡ lines.old.items
        ++ lines_where (is_read_there elsewhere.now) (given_in own given.now ∷ [])) }
{
    let line = given.line as u64;
    if elsewhere.contains(&line) && !is_elsewhere(last, given) {
        lines.push(line)?;
    }
    Ok(())
}

/// Those of these lines with an assignment that isn't elsewhere.
fn read_lines(
    alloc: Global,
    elsewhere: &BTreeSet<u64>,
    all: &[Given<'_>],
) -> Result<Vec<u64>, AllocError>
    ensures { IfOk result (λ lines. lines.items
        ≡ lines_where (is_read_there elsewhere.now) (map (given_in own) all.now)) }
{
    let mut lines = Vec::new(alloc);
    let mut last = Place::of(&[], &[]);
    for given in all {
        put_read(&mut lines, elsewhere, &mut last, given)?;
    }
    Ok(lines)
}

/// The lines whose property isn't read below any of its patterns. It takes a look at the tables if an
/// assignment's key or prefix isn't that of the one before it.
pub fn unread_lines(alloc: Global, all: &[Given<'_>]) -> Result<UnreadLines, AllocError>
    ensures { IfOk result (IsUnreadOf (map (given_in own) all.now)) }
{
    let elsewhere = set_of(alloc, &elsewhere_lines(alloc, all)?)?;
    let read = set_of(alloc, &read_lines(alloc, &elsewhere, all)?)?;
    Ok(UnreadLines { elsewhere, read })
}
