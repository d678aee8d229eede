//! What a rule sees of a device, and strings of its parts.
ghost use Rattle.std.specs.Prelude.{◌≡◌, ◌++◌, ◌∷◌, [], codes, option_map, IfOk, OnOk};
ghost use Rattle.std.specs.Option.{option_or, unwrap_or};
ghost use Rattle.hwdb_spec_commands.specs.Lookups;
ghost use Rattle.hwdb_spec_commands.specs.Lookups.{attr, ids_and_name};
ghost use Rattle.hwdb_spec_commands.specs.Sysfs.{attribute_text, cut_short};
ghost use Rattle.hwdb_rules.specs.Views.{scene_of};
ghost use Rattle.hwdb_sysfs.specs.Views.{ancestor_of};
ghost use Rattle.hwdb_rules.specs.Internal.{found_at};

use crate::ancestors::{At, Wanted, attribute, attribute_text, some};
use crate::values::{push_cut, push_value, same};
use hwdb_sysfs::{Ancestor, Device};
use std::alloc::{AllocError, Global};

/// What a rule sees: the device, itself and its parents, and the machine's name as rules write it.
#[derive(Clone, Copy)]
pub struct Scene<'d> {
    /// The device.
    pub own: &'d Ancestor,
    /// Itself and its parents, from it up.
    pub chain: &'d [Ancestor],
    /// What [`machine_text`] gives.
    pub machine: &'d [u8],
}

/// The machine's name as rules write it. The only error, here and below, is `AllocError`.
pub fn machine_text(alloc: Global, device: &Device) -> Result<Vec<u8>, AllocError>
    ensures { IfOk result (λ text. text.items ≡ cut_short device.now.machine.items) }
{
    let mut text = Vec::new(alloc);
    push_cut(&mut text, &device.machine)?;
    Ok(text)
}

/// Adds what `$attr{}` gives: the device's own attribute, else that of the parent that matched.
pub(crate) fn push_attr(
    text: &mut Vec<u8>,
    scene: &Scene<'_>,
    at: At<'_>,
    name: &[u8],
) -> Result<(), AllocError>
    ensures { OnOk result
        (text.new.items
        ≡ text.old.items ++ attr name.now (scene_of scene.now) (found_at at.entry)) }
{
    match attribute(scene.own, name) {
        Some(value) => push_value(text, value),
        None => push_value(text, attribute_text(at.ancestor, name)),
    }
}

/// Adds a text, and what `$attr{}` gives.
pub(crate) fn push_with_attr(
    text: &mut Vec<u8>,
    before: &[u8],
    scene: &Scene<'_>,
    at: At<'_>,
    name: &[u8],
) -> Result<(), AllocError>
    ensures { OnOk result (text.new.items ≡ text.old.items ++ (before.now
        ++ attr name.now (scene_of scene.now) (found_at at.entry))) }
{
    text.extend_from_slice(before)?;
    push_attr(text, scene, at, name)
}

/// The device itself, as what matched.
pub(crate) fn itself<'d>(scene: &Scene<'d>) -> At<'d>
    ensures { found_at result ≡ Lookups.itself (scene_of scene.now) }
{
    At {
        place: 0,
        ancestor: scene.own,
    }
}

/// Adds vendor, product and name of an input device.
pub(crate) fn push_ids_and_name(
    text: &mut Vec<u8>,
    scene: &Scene<'_>,
    at: At<'_>,
) -> Result<(), AllocError>
    ensures { OnOk result (text.new.items
        ≡ text.old.items ++ ids_and_name (scene_of scene.now) (found_at at.entry)) }
{
    push_with_attr(text, b"v", scene, at, b"id/vendor")?;
    push_with_attr(text, b"p", scene, at, b"id/product")?;
    push_with_attr(text, b":name:", scene, at, b"name")?;
    text.push(b':')?;
    Ok(())
}

/// Whether a device or a parent is on Bluetooth.
fn is_on_bluetooth(scene: &Scene<'_>) -> bool
    ensures { result ≡ Lookups.is_on_bluetooth (scene_of scene.now) }
{
    some(Wanted::In(b"bluetooth"), scene.chain)
        || some(Wanted::Is(b"id/bustype", b"0005"), scene.chain)
}

/// ID_BUS of an input device in systemd 257; empty if it has none.
pub(crate) fn bus_of(scene: &Scene<'_>) -> &'static [u8]
    ensures { result.now ≡ Lookups.bus_of (scene_of scene.now) }
{
    if is_on_bluetooth(scene) {
        b"bluetooth"
    } else if some(Wanted::In(b"serio"), scene.chain) {
        b"i8042"
    } else if some(Wanted::In(b"rmi4"), scene.chain) {
        b"rmi"
    } else if some(Wanted::In(b"usb"), scene.chain) {
        b"usb"
    } else {
        b""
    }
}

/// ID_BUS of an input device in systemd 262 by what is above other buses; empty if it has none.
fn upper_bus_of(scene: &Scene<'_>) -> &'static [u8]
    ensures { result.now ≡ Lookups.upper_bus_of (scene_of scene.now) }
{
    if some(Wanted::In(b"pci"), scene.chain) {
        b"pci"
    } else if some(Wanted::In(b"acpi"), scene.chain) {
        b"acpi"
    } else if some(Wanted::In(b"platform"), scene.chain) {
        b"platform"
    } else {
        b""
    }
}

/// ID_BUS of an input device in systemd 262; empty if it has none.
fn later_bus_of(scene: &Scene<'_>) -> &'static [u8]
    ensures { result.now ≡ Lookups.later_bus_of (scene_of scene.now) }
{
    if is_on_bluetooth(scene) {
        b"bluetooth"
    } else if some(Wanted::In(b"spi"), scene.chain) {
        b"spi"
    } else if some(Wanted::In(b"serio"), scene.chain) {
        b"i8042"
    } else if some(Wanted::In(b"rmi4"), scene.chain) {
        b"rmi"
    } else if some(Wanted::In(b"i2c"), scene.chain) {
        b"i2c"
    } else if some(Wanted::In(b"usb"), scene.chain) {
        b"usb"
    } else {
        upper_bus_of(scene)
    }
}

/// ID_BUS of an input device in systemd 262, if it isn't what it is in 257; else empty.
pub(crate) fn other_bus_of(scene: &Scene<'_>) -> &'static [u8]
    ensures { result.now ≡ Lookups.other_bus_of (scene_of scene.now) }
{
    let later = later_bus_of(scene);
    if same(later, bus_of(scene)) {
        return b"";
    }
    later
}
