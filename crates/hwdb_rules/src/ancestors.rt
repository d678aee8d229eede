//! A device by itself, and the first of it and its parents that a rule is for.
ghost use Rattle.std.specs.Prelude.{[], ◌≡◌, map};
ghost use Rattle.std.specs.Option.{option_map, unwrap_or};
ghost use Rattle.hwdb_spec_commands.specs.Inputs;
ghost use Rattle.hwdb_spec_commands.specs.Lookups;
ghost use Rattle.hwdb_spec_commands.specs.Sysfs;
ghost use Rattle.hwdb_spec_commands.specs.Sysfs.{first_of, has_text, line_with, value_of};
ghost use Rattle.hwdb_sysfs.specs.Views.{ancestor_of, attribute_of};
ghost use Rattle.hwdb_rules.specs.Internal.{found_at, passes};

use crate::values::{Ends, after, same, without_ends};
use hwdb_sysfs::{Ancestor, Attribute};
use hwdb_text::Lines;

/// The value under a name, the first if there are several.
fn value_of<'a>(attributes: &'a [Attribute], name: &[u8]) -> Option<&'a [u8]>
    ensures { option_map (λ v. v.now) result ≡ value_of name.now (map attribute_of attributes.now) }
{
    let mut left = attributes;
    'looking: while let Some((attribute, more)) = left.split_first() {
        if same(&attribute.name, name) {
            return Some(&attribute.value);
        }
        left = more;
    }
    None
}

/// An attribute's value, without ends of lines after it.
pub fn attribute<'a>(ancestor: &'a Ancestor, name: &[u8]) -> Option<&'a [u8]>
    ensures { option_map (λ v. v.now) result ≡ Sysfs.attribute name.now (ancestor_of ancestor.now) }
{
    match value_of(&ancestor.attributes, name) {
        Some(value) => Some(without_ends(Ends::Lines, value)),
        None => None,
    }
}

/// An attribute's value; empty if there is none.
pub(crate) fn attribute_text<'a>(ancestor: &'a Ancestor, name: &[u8]) -> &'a [u8]
    ensures { result.now ≡ Sysfs.attribute_text name.now (ancestor_of ancestor.now) }
{
    match attribute(ancestor, name) {
        Some(value) => value,
        None => &[],
    }
}

/// The line that begins so.
fn line_with<'t>(start: &[u8], text: &'t [u8]) -> Option<&'t [u8]>
    ensures { option_map (λ l. l.now) result ≡ line_with start.now text.now }
{
    for line in Lines::new(text) {
        if line.starts_with(start) {
            return Some(line);
        }
    }
    None
}

/// What `uevent` says under a name, which is given with its `=`.
pub(crate) fn uevent_value<'a>(ancestor: &'a Ancestor, start: &[u8]) -> Option<&'a [u8]>
    ensures { option_map (λ v. v.now) result
        ≡ Sysfs.uevent_value start.now (ancestor_of ancestor.now) }
{
    match line_with(start, &ancestor.uevent) {
        Some(line) => Some(after(line, start.len())),
        None => None,
    }
}

/// What `uevent` says under a name; empty if it says nothing.
pub fn uevent_text<'a>(ancestor: &'a Ancestor, start: &[u8]) -> &'a [u8]
    ensures { result.now ≡ unwrap_or (Sysfs.uevent_value start.now (ancestor_of ancestor.now)) [] }
{
    match uevent_value(ancestor, start) {
        Some(value) => value,
        None => &[],
    }
}

/// Whether a device is in a subsystem.
pub fn is_in(ancestor: &Ancestor, subsystem: &[u8]) -> bool
    ensures { result ≡ Sysfs.is_in subsystem.now (ancestor_of ancestor.now) }
{
    same(&ancestor.subsystem, subsystem)
}

/// Whether a device has that driver.
fn has_driver(ancestor: &Ancestor, driver: &[u8]) -> bool
    ensures { result ≡ Sysfs.has_driver driver.now (ancestor_of ancestor.now) }
{
    same(&ancestor.driver, driver)
}

/// Whether the kernel's name of a device begins so.
pub(crate) fn is_named(ancestor: &Ancestor, start: &[u8]) -> bool
    ensures { result ≡ Sysfs.is_named start.now (ancestor_of ancestor.now) }
{
    ancestor.name.starts_with(start)
}

/// Whether an attribute has a value.
pub(crate) fn attribute_is(ancestor: &Ancestor, name: &[u8], value: &[u8]) -> bool
    ensures { result ≡ Sysfs.attribute_is name.now value.now (ancestor_of ancestor.now) }
{
    same(attribute_text(ancestor, name), value)
}

/// Whether there is an attribute, and it isn't empty.
pub(crate) fn has_text(ancestor: &Ancestor, name: &[u8]) -> bool
    ensures { result ≡ Sysfs.has_text name.now (ancestor_of ancestor.now) }
{
    !attribute_text(ancestor, name).is_empty()
}

/// Whether it is a device on USB itself, and none of its interfaces.
pub fn is_usb_device(ancestor: &Ancestor) -> bool
    ensures { result ≡ Sysfs.is_usb_device (ancestor_of ancestor.now) }
{
    is_in(ancestor, b"usb") && same(uevent_text(ancestor, b"DEVTYPE="), b"usb_device")
}

/// Which device a rule is for.
#[derive(Clone, Copy)]
pub(crate) enum Wanted<'w> {
    /// One in a subsystem.
    In(&'w [u8]),
    /// One with a driver.
    DrivenBy(&'w [u8]),
    /// One with any driver.
    Driven,
    /// One whose name begins so.
    Named(&'w [u8]),
    /// One of which an attribute isn't empty.
    With(&'w [u8]),
    /// One with this attribute and value.
    Is(&'w [u8], &'w [u8]),
    /// An input device on the bus with this number.
    InputOn(&'w [u8]),
    /// One that a sensor may be on.
    Carrier,
    /// One whose name says that it is no tablet.
    NoTablet,
    /// A mouse of the machine.
    PsMouse,
    /// A device on USB itself.
    UsbDevice,
    /// One that tells its events.
    Events,
}

/// Whether an input device is on a bus.
fn is_input_on(ancestor: &Ancestor, number: &[u8]) -> bool
    ensures { result ≡ Lookups.is_input_on number.now (ancestor_of ancestor.now) }
{
    is_named(ancestor, b"input") && attribute_is(ancestor, b"id/bustype", number)
}

/// Whether a sensor may be on a device.
fn is_carrier(ancestor: &Ancestor) -> bool
    ensures { result ≡ Lookups.is_carrier (ancestor_of ancestor.now) }
{
    is_in(ancestor, b"usb") || is_in(ancestor, b"i2c") || is_in(ancestor, b"platform")
}

/// Whether the name of a device says that it is no tablet.
fn is_no_tablet(ancestor: &Ancestor) -> bool
    ensures { result ≡ Lookups.is_no_tablet (ancestor_of ancestor.now) }
{
    let name = attribute_text(ancestor, b"name");
    name.ends_with(b" Consumer Control")
        || name.ends_with(b" System Control")
        || name.ends_with(b" Keyboard")
}

/// Whether it is a mouse of the machine.
fn is_psmouse(ancestor: &Ancestor) -> bool
    ensures { result ≡ Lookups.is_psmouse (ancestor_of ancestor.now) }
{
    has_driver(ancestor, b"psmouse") && is_in(ancestor, b"serio")
}

/// Whether a device has a driver.
fn is_driven(ancestor: &Ancestor) -> bool
    ensures { result ≡ Lookups.is_driven (ancestor_of ancestor.now) }
{
    !ancestor.driver.is_empty()
}

/// Whether a device tells its events.
fn has_events(ancestor: &Ancestor) -> bool
    ensures { result ≡ Inputs.has_events (ancestor_of ancestor.now) }
{
    attribute(ancestor, b"capabilities/ev").is_some()
}

/// Whether a rule is for a device.
fn passes(wanted: Wanted<'_>, ancestor: &Ancestor) -> bool
    ensures { result ≡ passes wanted.entry (ancestor_of ancestor.now) }
{
    match wanted {
        Wanted::In(subsystem) => is_in(ancestor, subsystem),
        Wanted::DrivenBy(driver) => has_driver(ancestor, driver),
        Wanted::Driven => is_driven(ancestor),
        Wanted::Named(start) => is_named(ancestor, start),
        Wanted::With(name) => has_text(ancestor, name),
        Wanted::Is(name, value) => attribute_is(ancestor, name, value),
        Wanted::InputOn(number) => is_input_on(ancestor, number),
        Wanted::Carrier => is_carrier(ancestor),
        Wanted::NoTablet => is_no_tablet(ancestor),
        Wanted::PsMouse => is_psmouse(ancestor),
        Wanted::UsbDevice => is_usb_device(ancestor),
        Wanted::Events => has_events(ancestor),
    }
}

/// A device or a parent, and after how many others it comes.
#[derive(Clone, Copy)]
pub(crate) struct At<'d> {
    pub(crate) place: usize,
    pub(crate) ancestor: &'d Ancestor,
}

/// The first of a device and its parents that a rule is for. One pass.
pub(crate) fn first_of<'d>(wanted: Wanted<'_>, chain: &'d [Ancestor]) -> Option<At<'d>>
    ensures { option_map found_at result
        ≡ first_of (passes wanted.entry) (map ancestor_of chain.now) }
{
    let mut left = chain;
    let mut place = 0;
    'looking: while let Some((ancestor, more)) = left.split_first() {
        if passes(wanted, ancestor) {
            return Some(At { place, ancestor });
        }
        left = more;
        place += 1;
    }
    None
}

/// Whether a device or one of its parents tells its events, as input devices do.
pub fn has_some_events(chain: &[Ancestor]) -> bool
    ensures { result ≡ Sysfs.some Inputs.has_events (map ancestor_of chain.now) }
{
    some(Wanted::Events, chain)
}

/// Whether a rule is for one of them.
pub(crate) fn some(wanted: Wanted<'_>, chain: &[Ancestor]) -> bool
    ensures { result ≡ Sysfs.some (passes wanted.entry) (map ancestor_of chain.now) }
{
    first_of(wanted, chain).is_some()
}

/// An attribute of the first of a device and its parents that has it.
pub fn first_text<'d>(chain: &'d [Ancestor], name: &[u8]) -> Option<&'d [u8]>
    ensures { option_map (λ v. v.now) result
        ≡ option_map (λ p. Sysfs.attribute_text name.now p.ancestor)
        (Sysfs.first_of (has_text name.now) (map ancestor_of chain.now)) }
{
    match first_of(Wanted::With(name), chain) {
        Some(at) => Some(attribute_text(at.ancestor, name)),
        None => None,
    }
}
