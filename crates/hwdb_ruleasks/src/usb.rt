//! What the builtin usb_id does.
ghost use Rattle.std.specs.Prelude.{◌≡◌, ◌++◌, ◌∷◌, [], codes, false, find, map, option_map, IfOk, OnOk, Some};
ghost use Rattle.hwdb_spec.specs.Folders;
ghost use Rattle.hwdb_rulerun.specs.Views.{known_of};
ghost use Rattle.hwdb_ruleevents.specs.ChangeViews.{held_of};
ghost use Rattle.hwdb_ruleevents.specs.Changes.{Put};
ghost use Rattle.hwdb_ruleevents.specs.Effects;
ghost use Rattle.hwdb_ruleevents.specs.EffectViews.{effect_view};
ghost use Rattle.hwdb_spec_commands.specs.Sysfs;
ghost use Rattle.hwdb_sysfs.specs.Views.{ancestor_of};
ghost use Rattle.hwdb_spec_rules.specs.DeviceCommands;

use crate::commands::{opened, push_put, push_untold, value_for};
use hwdb_ruleevents::{Effect, Held, Value, value_in};
use hwdb_rulerun::Known;
use hwdb_rules::{attribute, is_in, is_usb_device, uevent_text};
use hwdb_sysfs::Ancestor;
use std::alloc::{AllocError, Global};

/// What it may set besides, and more that begins so.
const STARTS: [&[u8]; 1] = [b"ID_USB_"];

/// The names that it may set besides.
const OTHER_NAMES: [&[u8]; 11] = [
    b"ID_INSTANCE",
    b"ID_MODEL",
    b"ID_MODEL_ENC",
    b"ID_MODEL_ID",
    b"ID_REVISION",
    b"ID_SERIAL",
    b"ID_SERIAL_SHORT",
    b"ID_TYPE",
    b"ID_VENDOR",
    b"ID_VENDOR_ENC",
    b"ID_VENDOR_ID",
];

/// Whether it is an interface of a device on USB.
fn is_interface(ancestor: &Ancestor) -> bool
    ensures { result ≡ DeviceCommands.is_interface (ancestor_of ancestor.now) }
{
    is_in(ancestor, b"usb") && same_type(uevent_text(ancestor, b"DEVTYPE="))
}

/// Whether it is that of an interface.
fn same_type(text: &[u8]) -> bool
    ensures { result ≡ Folders.same text.now (codes "usb_interface") }
{
    text.cmp(b"usb_interface".as_slice()).is_eq()
}

/// The nearest device on USB.
fn nearest_usb(chain: &[Ancestor]) -> Option<&Ancestor>
    ensures { option_map (λ a. ancestor_of a.now) result
        ≡ find Sysfs.is_usb_device (map ancestor_of chain.now) }
{
    for ancestor in chain {
        if is_usb_device(ancestor) {
            return Some(ancestor);
        }
    }
    None
}

/// The device on USB above the nearest interface, if that tells its class. It calls itself once for each parent.
fn above_interface(parents: &[Ancestor]) -> Option<&Ancestor>
    ensures { option_map (λ a. ancestor_of a.now) result
        ≡ DeviceCommands.above_interface (map ancestor_of parents.now) }
{
    let Some((first, more)) = parents.split_first() else {
        return None;
    };
    if !is_interface(first) {
        return above_interface(more);
    }
    if attribute(first, b"bInterfaceClass").is_none() {
        return None;
    }
    nearest_usb(more)
}

/// The device on USB of which it tells.
fn usb_device_of(chain: &[Ancestor]) -> Option<&Ancestor>
    ensures { option_map (λ a. ancestor_of a.now) result
        ≡ DeviceCommands.usb_device_of (map ancestor_of chain.now) }
{
    let Some((own, parents)) = chain.split_first() else {
        return None;
    };
    if is_usb_device(own) {
        return Some(own);
    }
    above_interface(parents)
}

/// What that tells of its vendor and its product.
fn numbers(device: Option<&Ancestor>) -> (Option<&[u8]>, Option<&[u8]>)
    ensures { (option_map (λ v. v.now) result.0, option_map (λ v. v.now) result.1)
        ≡ DeviceCommands.numbers (option_map (λ a. ancestor_of a.now) device.entry) }
{
    match device {
        None => (None, None),
        Some(ancestor) => (
            attribute(ancestor, b"idVendor"),
            attribute(ancestor, b"idProduct"),
        ),
    }
}

/// Adds what it makes of the bus. The only error, here and below, is `AllocError`.
fn push_bus(alloc: Global, all: &mut Vec<Held>, bus: Known<'_>) -> Result<(), AllocError>
    ensures { OnOk result (map held_of all.new.items
        ≡ map held_of all.old.items ++ DeviceCommands.bus_put (known_of bus.entry)) }
{
    match bus {
        Known::Text(_) => Ok(()),
        Known::Missing => {
            let usb = Vec::from_slice(alloc, b"usb")?;
            push_put(alloc, all, b"ID_BUS", Value::Text(usb))
        }
        Known::Unknown => push_put(alloc, all, b"ID_BUS", Value::Unknown),
    }
}

/// Adds a number, which is set with the bus.
fn push_number(
    alloc: Global,
    all: &mut Vec<Held>,
    name: &[u8],
    number: &[u8],
) -> Result<(), AllocError>
    ensures { OnOk result (map held_of all.new.items ≡ map held_of all.old.items
        ++ (Put name.now (Effects.known_value (Effects.some_text number.now)) ∷ [])) }
{
    let value = value_for(alloc, number)?;
    push_put(alloc, all, name, value)
}

/// Adds the numbers, if the bus is set.
#[tactic(auto, using(crate::proofs::PutLemmas::two_put))]
fn push_numbers(
    alloc: Global,
    all: &mut Vec<Held>,
    bus: Known<'_>,
    vendor: &[u8],
    product: &[u8],
) -> Result<(), AllocError>
    ensures { OnOk result (map held_of all.new.items ≡ map held_of all.old.items
        ++ DeviceCommands.numbers_put (known_of bus.entry) vendor.now product.now) }
{
    match bus {
        Known::Missing => {
            push_number(alloc, all, b"ID_VENDOR_ID", vendor)?;
            push_number(alloc, all, b"ID_MODEL_ID", product)?;
            Ok(())
        }
        _ => Ok(()),
    }
}

/// It fails.
fn fails(alloc: Global) -> Effect
    ensures { effect_view result ≡ record { succeeds = Some false; changes = [] } }
{
    Effect {
        succeeds: Some(false),
        changes: Vec::new(alloc),
    }
}

/// It succeeds.
fn succeeds(
    alloc: Global,
    bus: Known<'_>,
    vendor: &[u8],
    product: &[u8],
) -> Result<Effect, AllocError>
    ensures { IfOk result (λ e. effect_view e ≡ DeviceCommands.usb_put (known_of bus.entry)
        (Some vendor.now, Some product.now)) }
{
    let mut changes = Vec::new(alloc);
    push_bus(alloc, &mut changes, bus)?;
    opened(alloc, &mut changes, &STARTS)?;
    push_untold(alloc, &mut changes, &OTHER_NAMES)?;
    push_numbers(alloc, &mut changes, bus, vendor, product)?;
    Ok(Effect {
        succeeds: Some(true),
        changes,
    })
}

/// Its effect, by what is known of properties before it.
pub(crate) fn usb_effect(
    alloc: Global,
    chain: &[Ancestor],
    changes: &[Held],
) -> Result<Effect, AllocError>
    ensures { IfOk result (λ e. effect_view e ≡ DeviceCommands.usb_effect
        (map ancestor_of chain.now) (map held_of changes.now)) }
{
    let bus = value_in(changes, b"ID_BUS");
    match numbers(usb_device_of(chain)) {
        (Some(vendor), Some(product)) => succeeds(alloc, bus, vendor, product),
        _ => Ok(fails(alloc)),
    }
}
