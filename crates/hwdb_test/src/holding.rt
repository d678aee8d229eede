//! Which of a device's properties a line of a record is about, and whether it holds of them.
//!
//! The properties ascend by key, so that the one with a key is found by halving. Those that no line of the record names are found
//! once for all of its lines.
ghost use Rattle.std.specs.Prelude.{◌≡◌, ◌++◌, [], ◌∷◌, List, filter, map, not, IfOk, OnOk};
ghost use Rattle.std.specs.List.{list_any};
ghost use Rattle.hwdb_spec.specs.Assignment.{text_cmp};
ghost use Rattle.hwdb_spec.specs.Folders;
ghost use Rattle.hwdb_spec.specs.Lines.{Line};
ghost use Rattle.hwdb_spec_commands.specs.Wanted;
ghost use Rattle.hwdb_test.specs.Internal.{AreNamed, AscendByKey, has_text, holds_by, unnamed};
ghost use Rattle.hwdb_test.specs.Views.{given_at, line_at, pair_at};

use crate::given_values::GivenValue;
use crate::wanted_lines::{
    WantedLine, names, same, value_of, wanted_key, wants_no_others, wants_value,
};
use std::alloc::{AllocError, Global};
use std::cmp::Ordering;
use std::collections::BTreeSet;

/// Whether a property is the one that a line `KEY=VALUE` wants.
pub fn is_given(line: &WantedLine<'_>, given: &GivenValue<'_>) -> bool
    ensures { result ≡ Wanted.is_given (line_at line.now) (pair_at given.now) }
{
    if names(given.key, line) {
        same(given.value, value_of(line))
    } else {
        false
    }
}

/// Whether one of some properties is.
fn any_given(line: &WantedLine<'_>, found: &[GivenValue<'_>]) -> bool
    ensures { result ≡ list_any (Wanted.is_given (line_at line.now)) (map pair_at found.now) }
{
    for given in found {
        if is_given(line, given) {
            return true;
        }
    }
    false
}

/// The properties with a key: one at most, found by halving.
fn with_key<'f, 'a>(found: &'f [GivenValue<'a>], key: &[u8]) -> &'f [GivenValue<'a>]
    requires { AscendByKey found.now }
    ensures { map given_at result.now
        ≡ filter (λ g. Folders.same g.key key.now) (map given_at found.now) }
{
    let compare = |given: &GivenValue<'_>| -> Ordering
        ensures { result ≡ text_cmp given.now.key.now key.entry.now }
    { given.key.cmp(key) };
    match found.binary_search_by(compare) {
        Ok(at) => {
            let rest = &found[at..];
            &rest[..1]
        }
        Err(_) => &found[..0],
    }
}

/// The keys that some lines name. The only error, here and below, is `AllocError`.
fn named<'b>(alloc: Global, all: &[WantedLine<'b>]) -> Result<BTreeSet<&'b [u8]>, AllocError>
    ensures { IfOk result (λ keys. AreNamed (map line_at all.now) keys) }
{
    let mut keys = BTreeSet::new(alloc);
    for line in all {
        keys.insert(wanted_key(line))?;
    }
    Ok(keys)
}

/// Adds a property if its key isn't one of some keys.
fn push_if_unnamed<'a>(
    list: &mut Vec<GivenValue<'a>>,
    keys: &BTreeSet<&'a [u8]>,
    given: GivenValue<'a>,
) -> Result<(), AllocError>
    ensures { OnOk result (map given_at list.new.items ≡ map given_at list.old.items
        ++ filter (λ g. not (has_text keys.now g.key)) (given_at given.entry ∷ [])) }
{
    if !keys.contains(&given.key) {
        list.push(given)?;
    }
    Ok(())
}

/// The properties whose key isn't one of some keys.
fn without_keys<'a>(
    alloc: Global,
    keys: &BTreeSet<&'a [u8]>,
    found: &[GivenValue<'a>],
) -> Result<Vec<GivenValue<'a>>, AllocError>
    ensures { IfOk result (λ list. map given_at list.items
        ≡ filter (λ g. not (has_text keys.now g.key)) (map given_at found.now)) }
{
    let mut list = Vec::new(alloc);
    for given in found {
        push_if_unnamed(&mut list, keys, *given)?;
    }
    Ok(list)
}

/// The properties that no line of a record names.
pub fn others<'a>(
    alloc: Global,
    all: &[WantedLine<'a>],
    found: &[GivenValue<'a>],
) -> Result<Vec<GivenValue<'a>>, AllocError>
    ensures { IfOk result
        (λ list. map given_at list.items ≡ unnamed (map line_at all.now) (map given_at found.now)) }
{
    let keys = named(alloc, all)?;
    without_keys(alloc, &keys, found)
}

/// The properties that a line is about, if `others` are those that no line of its record names.
pub fn about<'f, 'a>(
    found: &'f [GivenValue<'a>],
    others: &'f [GivenValue<'a>],
    line: &WantedLine<'_>,
) -> &'f [GivenValue<'a>]
    requires { AscendByKey found.now }
    ensures { (all : List Line) → map given_at others.now ≡ unnamed all (map given_at found.now)
        → map given_at result.now ≡ Wanted.about all (map given_at found.now) (line_at line.now) }
{
    if wants_no_others(line) {
        others
    } else {
        with_key(found, wanted_key(line))
    }
}

/// Whether a line of a record holds of a device, if these are the properties that it is about.
pub fn holds(line: &WantedLine<'_>, about: &[GivenValue<'_>]) -> bool
    ensures { result ≡ holds_by (line_at line.now) (map pair_at about.now) }
{
    if wants_value(line) {
        any_given(line, about)
    } else {
        about.is_empty()
    }
}
