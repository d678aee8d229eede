//! Properties that are read with others alone, which their patterns aren't given.
ghost use Rattle.std.specs.Prelude.{◌≡◌, ◌++◌, [], ◌∷◌, map, not, IfOk, OnOk};
ghost use Rattle.std.specs.List.{list_any};
ghost use Rattle.hwdb_spec.specs.Lines.{is, pieces};
ghost use Rattle.hwdb_spec_commands.specs.Surroundings;
ghost use Rattle.hwdb_text.specs.Views.{given_in};
ghost use Rattle.hwdb_check.specs.Internal.{AreCompanions, ArePlacesOf, IsUnpairedOf, has_companions, holds, lacks_of, lines_where, own};

use crate::repeats::set_of;
use crate::replacements::PatternAndKey;
use hwdb_properties::companions_of;
use hwdb_text::{Given, Pieces};
use std::alloc::{AllocError, Global};
use std::collections::BTreeSet;

/// A key, and the properties with which alone it is read. Most assignments have the key of the one before them.
#[derive(Clone, Copy)]
struct Companions<'b> {
    key: &'b [u8],
    text: &'static [u8],
}

impl<'b> Companions<'b> {
    /// Those of a key.
    fn of(key: &'b [u8]) -> Companions<'b>
        ensures are { AreCompanions result }
        ensures key { result.key.now ≡ key.now }
    {
        Companions {
            key,
            text: companions_of(key),
        }
    }

    /// Those of another key.
    fn next(self, key: &'b [u8]) -> Companions<'b>
        requires { AreCompanions self }
        ensures are { AreCompanions result }
        ensures key { result.key.now ≡ key.now }
    {
        if self.key == key {
            return self;
        }
        Companions::of(key)
    }
}

/// Whether the property of an assignment is read with others alone. `last` is of an assignment before it.
fn has_companions<'b>(last: &mut Companions<'b>, given: &Given<'b>) -> bool
    requires { AreCompanions last.old }
    ensures are { AreCompanions last.new }
    ensures has { result ≡ has_companions (given_in own given.now) }
{
    *last = last.next(given.key);
    !last.text.is_empty()
}

/// Whether one of the assignments is of a property that is read with others alone.
fn any_has_companions(all: &[Given<'_>]) -> bool
    ensures { result ≡ list_any has_companions (map (given_in own) all.now) }
{
    let mut last = Companions::of(&[]);
    for given in all {
        if has_companions(&mut last, given) {
            return true;
        }
    }
    false
}

/// The patterns and keys of assignments. The only error, here and below, is `AllocError`.
fn places_of<'b>(
    alloc: Global,
    all: &[Given<'b>],
) -> Result<BTreeSet<PatternAndKey<'b>>, AllocError>
    ensures { IfOk result (ArePlacesOf (map (given_in own) all.now)) }
{
    let mut places = BTreeSet::new(alloc);
    for given in all {
        places.insert((given.pattern, given.key))?;
    }
    Ok(places)
}

/// Whether a pattern isn't given one of some keys, which have commas between.
fn lacks<'b>(places: &BTreeSet<PatternAndKey<'b>>, pattern: &'b [u8], keys: &'b [u8]) -> bool
    ensures { result ≡ lacks_of places.now pattern.now keys.now }
{
    for key in Pieces::new(b',', keys) {
        if !places.contains(&(pattern, key)) {
            return true;
        }
    }
    false
}

/// Adds the line of an assignment, if its pattern lacks a companion of its property.
fn put_alone<'b>(
    lines: &mut Vec<u64>,
    places: &BTreeSet<PatternAndKey<'b>>,
    given: &Given<'b>,
) -> Result<(), AllocError>
    ensures { OnOk result (lines.new.items ≡ lines.old.items
        ++ lines_where (λ a. lacks_of places.now a.position.pattern
        (Surroundings.companions_text a.position.key)) (given_in own given.now ∷ [])) }
{
    if lacks(places, given.pattern, companions_of(given.key)) {
        lines.push(given.line as u64)?;
    }
    Ok(())
}

/// The lines of the assignments whose pattern lacks a companion of their property.
fn alone_lines<'b>(
    alloc: Global,
    places: &BTreeSet<PatternAndKey<'b>>,
    all: &[Given<'b>],
) -> Result<Vec<u64>, AllocError>
    ensures { IfOk result (λ lines. lines.items
        ≡ lines_where (λ a. lacks_of places.now a.position.pattern
        (Surroundings.companions_text a.position.key)) (map (given_in own) all.now)) }
{
    let mut lines = Vec::new(alloc);
    for given in all {
        put_alone(&mut lines, places, given)?;
    }
    Ok(lines)
}

/// The lines of properties that lack a companion. If no property has one, it takes a look at a table for each assignment, and else
/// a few looks among the assignments for each.
pub fn unpaired_lines(alloc: Global, all: &[Given<'_>]) -> Result<BTreeSet<u64>, AllocError>
    ensures { IfOk result (IsUnpairedOf (map (given_in own) all.now)) }
{
    if !any_has_companions(all) {
        return Ok(BTreeSet::new(alloc));
    }
    let places = places_of(alloc, all)?;
    let lines = set_of(alloc, &alone_lines(alloc, &places, all)?)?;
    Ok(lines)
}
