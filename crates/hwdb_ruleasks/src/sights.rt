//! What sysfs tells of a device and its parents, before any rule is tried.
ghost use Rattle.std.specs.Prelude.{◌≡◌, map, option_map, IfOk};
ghost use Rattle.std.specs.List.{list_any};
ghost use Rattle.std.specs.Str.{bytes_eq};
ghost use Rattle.hwdb_spec.specs.Lines.{has};
ghost use Rattle.hwdb_rulerun.specs.Views.{entry_view, known_of, seen_of};
ghost use Rattle.hwdb_ruleevents.specs.Effects;
ghost use Rattle.hwdb_sysfs.specs.Views.{ancestor_of};
ghost use Rattle.hwdb_spec_rules.specs.RuleSights;
ghost use Rattle.hwdb_ruleasks.specs.SightViews.{looked_of};
ghost use Rattle.hwdb_ruleasks.specs.Views.{own_text};

use hwdb_rulerun::{Entry, Known, Seen, has_byte};
use hwdb_rules::attribute;
use hwdb_sysfs::Ancestor;
use hwdb_text::Pieces;
use std::alloc::{AllocError, Global};

fn is_same(one: &[u8], other: &[u8]) -> bool
    ensures { result ≡ bytes_eq one.now other.now }
{
    one == other
}

/// Whether a name leads out of the device's folder.
fn climbs(name: &[u8]) -> bool
    ensures { result ≡ RuleSights.climbs name.now }
{
    for part in Pieces::new(b'/', name) {
        if is_same(b"..", part) {
            return true;
        }
    }
    false
}

/// Whether a name is that of a link.
fn is_link(name: &[u8]) -> bool
    ensures { result ≡ list_any (bytes_eq name.now) RuleSights.links }
{
    is_same(name, b"driver") || is_same(name, b"module") || is_same(name, b"subsystem")
}

/// Whether an attribute of this name is followed.
fn is_followed(name: &[u8]) -> bool
    ensures { result ≡ RuleSights.is_followed name.now }
{
    !climbs(name) && !is_link(name)
}

/// What is known of a value that was read.
fn read_value(value: Option<&[u8]>) -> Known<'_>
    ensures { known_of result ≡ RuleSights.read_value (option_map (λ v. v.now) value.entry) }
{
    match value {
        None => Known::Missing,
        Some(value) => {
            if has_byte(0, value) {
                Known::Unknown
            } else {
                Known::Text(value)
            }
        }
    }
}

/// What is known of an attribute that was looked for.
fn known_attribute<'a>(ancestor: &'a Ancestor, name: &[u8]) -> Known<'a>
    ensures { known_of result
        ≡ RuleSights.known_attribute (ancestor_of ancestor.now) name.now }
{
    if !is_followed(name) {
        return Known::Unknown;
    }
    read_value(attribute(ancestor, name))
}

/// A text of no bytes is none.
pub(crate) fn some_known(text: &[u8]) -> Known<'_>
    ensures { known_of result ≡ Effects.known_value (Effects.some_text text.now) }
{
    if text.is_empty() {
        Known::Missing
    } else {
        Known::Text(text)
    }
}

/// A device or a parent, and what is known of its attributes.
#[derive(Drop)]
pub(crate) struct Looked<'a> {
    ancestor: &'a Ancestor,
    entries: Vec<Entry<'a>>,
}

/// What is known of the attributes that were looked for. The only error, here and below, is `AllocError`.
fn entries<'a>(
    alloc: Global,
    names: &[&'a [u8]],
    ancestor: &'a Ancestor,
) -> Result<Vec<Entry<'a>>, AllocError>
    ensures { IfOk result (λ all. map entry_view all.items
        ≡ map (RuleSights.entry (ancestor_of ancestor.now)) (map own_text names.now)) }
{
    let mut all = Vec::with_capacity(alloc, names.len())?;
    for name in names {
        all.push(Entry {
            name: *name,
            value: known_attribute(ancestor, name),
        })?;
    }
    Ok(all)
}

/// A device or a parent.
pub(crate) fn look_at<'a>(
    alloc: Global,
    names: &[&'a [u8]],
    ancestor: &'a Ancestor,
) -> Result<Looked<'a>, AllocError>
    ensures { IfOk result (λ l. looked_of l
        ≡ RuleSights.seen (map own_text names.now) (ancestor_of ancestor.now)) }
{
    let entries = entries(alloc, names, ancestor)?;
    Ok(Looked { ancestor, entries })
}

/// A device and its parents.
pub(crate) fn all_looked<'a>(
    alloc: Global,
    names: &[&'a [u8]],
    chain: &'a [Ancestor],
) -> Result<Vec<Looked<'a>>, AllocError>
    ensures { IfOk result (λ all. map looked_of all.items
        ≡ map (RuleSights.seen (map own_text names.now)) (map ancestor_of chain.now)) }
{
    let mut all = Vec::new(alloc);
    for ancestor in chain {
        all.push(look_at(alloc, names, ancestor)?)?;
    }
    Ok(all)
}

impl<'a> Looked<'a> {
    /// As the conditions of rules see it.
    pub(crate) fn seen(&self) -> Seen<'_>
        ensures { seen_of result ≡ looked_of self.now }
    {
        Seen {
            name: &self.ancestor.name,
            subsystem: some_known(&self.ancestor.subsystem),
            driver: some_known(&self.ancestor.driver),
            attributes: &self.entries,
        }
    }
}

/// All of them, as the conditions of rules see them.
pub(crate) fn all_seen<'s>(
    alloc: Global,
    looked: &'s [Looked<'_>],
) -> Result<Vec<Seen<'s>>, AllocError>
    ensures { IfOk result (λ all. map seen_of all.items ≡ map looked_of looked.now) }
{
    let mut all = Vec::new(alloc);
    for one in looked {
        all.push(one.seen())?;
    }
    Ok(all)
}
