//! What is known of a device when a line of rules is tried.
ghost use Rattle.std.specs.Prelude.{◌≡◌, map};
ghost use Rattle.std.specs.Str.{bytes_eq};
ghost use Rattle.hwdb_rulerun.specs.Sights;
ghost use Rattle.hwdb_rulerun.specs.Views.{known_of, entry_view, seen_of, sight_of};

use crate::matching::is_same;

/// What is known of a text that may be there.
#[derive(Clone, Copy, Debug)]
pub enum Known<'a> {
    /// Nothing.
    Unknown,
    /// That it isn't there.
    Missing,
    /// What it is.
    Text(&'a [u8]),
}

/// A name, and what is known of its text.
#[derive(Clone, Copy, Debug)]
pub struct Entry<'a> {
    /// The name.
    pub name: &'a [u8],
    /// What is known.
    pub value: Known<'a>,
}

/// What is known of a device; nothing of an attribute that isn't listed.
#[derive(Clone, Copy, Debug)]
pub struct Seen<'a> {
    /// Its name.
    pub name: &'a [u8],
    /// Its subsystem.
    pub subsystem: Known<'a>,
    /// Its driver.
    pub driver: Known<'a>,
    /// Its attributes.
    pub attributes: &'a [Entry<'a>],
}

/// What is known when a line is tried.
#[derive(Clone, Copy, Debug)]
pub struct Sight<'a> {
    /// The action, as `add`.
    pub action: &'a [u8],
    /// The device's path, without /sys.
    pub path: &'a [u8],
    /// The device itself.
    pub own: Seen<'a>,
    /// Its parents, the nearest first.
    pub parents: &'a [Seen<'a>],
    /// Its properties.
    pub properties: &'a [Entry<'a>],
    /// Whether a property that isn't listed isn't there.
    pub closed: bool,
}

/// What is known of a name.
pub fn entry_of<'a>(name: &[u8], otherwise: Known<'a>, entries: &[Entry<'a>]) -> Known<'a>
    ensures { known_of result
        ≡ Sights.entry_of name.now (known_of otherwise.entry) (map entry_view entries.now) }
{
    for entry in entries {
        if is_same(entry.name, name) {
            return entry.value;
        }
    }
    otherwise
}

/// What is known of an attribute.
pub fn attribute_of<'a>(seen: &Seen<'a>, name: &[u8]) -> Known<'a>
    ensures { known_of result ≡ Sights.attribute_of (seen_of seen.now) name.now }
{
    entry_of(name, Known::Unknown, seen.attributes)
}

/// What is known of a property.
pub fn property_of<'a>(sight: &Sight<'a>, name: &[u8]) -> Known<'a>
    ensures { known_of result ≡ Sights.property_of (sight_of sight.now) name.now }
{
    if sight.closed {
        return entry_of(name, Known::Missing, sight.properties);
    }
    entry_of(name, Known::Unknown, sight.properties)
}
