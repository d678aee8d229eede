//! The rules of 50-udev-default, 60-dmi-id, 60-evdev and 60-input-id.
ghost use Rattle.std.specs.Prelude.{◌≡◌, ◌++◌, codes, option_map, IfOk, OnOk};
ghost use Rattle.hwdb_spec_commands.specs.Lookups;
ghost use Rattle.hwdb_spec_commands.specs.Lookups.{ask_one};
ghost use Rattle.hwdb_rules.specs.Views.{plans_of, questions_of, scene_of};
ghost use Rattle.hwdb_sysfs.specs.Views.{ancestor_of};
ghost use Rattle.hwdb_rules.specs.Internal.{found_at};

use crate::ancestors::{
    At, Wanted, attribute, first_of, has_text, is_in, is_named, is_usb_device, uevent_text,
};
use crate::plans::{Plan, Question, add_one, add_plan, ask};
use crate::scene::{Scene, itself, push_attr, push_ids_and_name, push_with_attr};
use crate::values::{push_value, same};
use crate::walks::{Modaliases, add_walk};
use hwdb_sysfs::Ancestor;
use std::alloc::{AllocError, Global};

/// Devices of hidraw, by any parent. The only error, here and below, is `AllocError`.
fn hidraw_rule(alloc: Global, plans: &mut Vec<Plan>, scene: &Scene<'_>) -> Result<(), AllocError>
    ensures { OnOk result (plans_of plans.new.items
        ≡ plans_of plans.old.items ++ Lookups.hidraw_rule (scene_of scene.now)) }
{
    if !is_in(scene.own, b"hidraw") {
        return Ok(());
    }
    let of = Modaliases {
        subsystem: b"",
        prefix: b"",
    };
    add_walk(alloc, plans, "50-udev-default", scene, of)
}

/// Devices on USB.
fn usb_rule(alloc: Global, plans: &mut Vec<Plan>, scene: &Scene<'_>) -> Result<(), AllocError>
    ensures { OnOk result (plans_of plans.new.items
        ≡ plans_of plans.old.items ++ Lookups.usb_rule (scene_of scene.now)) }
{
    if !is_usb_device(scene.own) {
        return Ok(());
    }
    let of = Modaliases {
        subsystem: b"usb",
        prefix: b"",
    };
    add_walk(alloc, plans, "50-udev-default", scene, of)
}

/// What has MODALIAS, by the parents in its own subsystem.
fn modalias_rule(alloc: Global, plans: &mut Vec<Plan>, scene: &Scene<'_>) -> Result<(), AllocError>
    ensures { OnOk result (plans_of plans.new.items
        ≡ plans_of plans.old.items ++ Lookups.modalias_rule (scene_of scene.now)) }
{
    let subsystem = &scene.own.subsystem;
    if uevent_text(scene.own, b"MODALIAS=").is_empty() || subsystem.is_empty() {
        return Ok(());
    }
    let of = Modaliases {
        subsystem,
        prefix: b"",
    };
    add_walk(alloc, plans, "50-udev-default", scene, of)
}

/// Adds the model of a node on FireWire, if it has one.
fn push_node_model(text: &mut Vec<u8>, scene: &Scene<'_>) -> Result<(), AllocError>
    ensures { OnOk result
        (text.new.items ≡ text.old.items ++ Lookups.node_model (scene_of scene.now)) }
{
    let Some(model) = attribute(scene.own, b"model") else {
        return Ok(());
    };
    text.extend_from_slice(b"mo")?;
    push_value(text, model)
}

/// The string of a node on FireWire.
fn node_text(alloc: Global, scene: &Scene<'_>, units: &[u8]) -> Result<Vec<u8>, AllocError>
    ensures { IfOk result (λ t. t.items ≡ Lookups.node_text (scene_of scene.now) units.now) }
{
    let mut text = Vec::new(alloc);
    push_with_attr(
        &mut text,
        b"ieee1394:node:ven",
        scene,
        itself(scene),
        b"vendor",
    )?;
    push_node_model(&mut text, scene)?;
    text.extend_from_slice(b"units")?;
    push_value(&mut text, units)?;
    Ok(text)
}

/// Nodes on FireWire.
fn firewire_rule(alloc: Global, plans: &mut Vec<Plan>, scene: &Scene<'_>) -> Result<(), AllocError>
    ensures { OnOk result (plans_of plans.new.items
        ≡ plans_of plans.old.items ++ Lookups.firewire_rule (scene_of scene.now)) }
{
    if !is_in(scene.own, b"firewire") {
        return Ok(());
    }
    let Some(units) = attribute(scene.own, b"units") else {
        return Ok(());
    };
    let text = node_text(alloc, scene, units)?;
    add_one(alloc, plans, "50-udev-default", itself(scene), text)
}

/// The rules of 50-udev-default.
fn default_rules(alloc: Global, plans: &mut Vec<Plan>, scene: &Scene<'_>) -> Result<(), AllocError>
    ensures { OnOk result (plans_of plans.new.items
        ≡ plans_of plans.old.items ++ Lookups.default_rules (scene_of scene.now)) }
{
    hidraw_rule(alloc, plans, scene)?;
    usb_rule(alloc, plans, scene)?;
    modalias_rule(alloc, plans, scene)?;
    firewire_rule(alloc, plans, scene)
}

/// Whether a device is the machine, as its firmware names it.
fn is_machine(ancestor: &Ancestor) -> bool
    ensures { result ≡ Lookups.is_machine (ancestor_of ancestor.now) }
{
    is_in(ancestor, b"dmi") && same(&ancestor.name, b"id")
}

/// Whether a device has MODALIAS, and a tag of its case.
fn is_tagged(ancestor: &Ancestor) -> bool
    ensures { result ≡ Lookups.is_tagged (ancestor_of ancestor.now) }
{
    !uevent_text(ancestor, b"MODALIAS=").is_empty() && has_text(ancestor, b"chassis_asset_tag")
}

/// The machine's MODALIAS, with the tag of its case.
fn tagged_text(alloc: Global, scene: &Scene<'_>) -> Result<Vec<u8>, AllocError>
    ensures { IfOk result (λ t. t.items ≡ Lookups.tagged_text (scene_of scene.now)) }
{
    let mut text = Vec::new(alloc);
    push_attr(&mut text, scene, itself(scene), b"modalias")?;
    push_with_attr(
        &mut text,
        b"cat",
        scene,
        itself(scene),
        b"chassis_asset_tag",
    )?;
    text.push(b':')?;
    Ok(text)
}

/// The rules of 60-dmi-id, which systemd 262 has.
fn dmi_rules(alloc: Global, plans: &mut Vec<Plan>, scene: &Scene<'_>) -> Result<(), AllocError>
    ensures { OnOk result (plans_of plans.new.items
        ≡ plans_of plans.old.items ++ Lookups.dmi_rules (scene_of scene.now)) }
{
    if !(is_machine(scene.own) && is_tagged(scene.own)) {
        return Ok(());
    }
    let text = tagged_text(alloc, scene)?;
    add_one(alloc, plans, "60-dmi-id", itself(scene), text)
}

/// A text, and the machine's name.
fn with_machine(alloc: Global, before: &[u8], scene: &Scene<'_>) -> Result<Vec<u8>, AllocError>
    ensures { IfOk result (λ t. t.items ≡ before.now ++ scene.now.machine.now) }
{
    let mut text = Vec::new(alloc);
    text.extend_from_slice(before)?;
    text.extend_from_slice(scene.machine)?;
    Ok(text)
}

/// Keyboards of the machine, by the driver of a parent.
fn atkbd_rule(alloc: Global, plans: &mut Vec<Plan>, scene: &Scene<'_>) -> Result<(), AllocError>
    ensures { OnOk result (plans_of plans.new.items
        ≡ plans_of plans.old.items ++ Lookups.atkbd_rule (scene_of scene.now)) }
{
    let Some(at) = first_of(Wanted::DrivenBy(b"atkbd"), scene.chain) else {
        return Ok(());
    };
    let text = with_machine(alloc, b"evdev:atkbd:", scene)?;
    add_one(alloc, plans, "60-evdev", at, text)
}

/// The string of an input device by its name.
fn name_text(alloc: Global, scene: &Scene<'_>, at: At<'_>) -> Result<Vec<u8>, AllocError>
    ensures { IfOk result
        (λ t. t.items ≡ Lookups.name_text (scene_of scene.now) (found_at at.entry)) }
{
    let mut text = Vec::new(alloc);
    push_with_attr(&mut text, b"evdev:name:", scene, at, b"name")?;
    text.push(b':')?;
    text.extend_from_slice(scene.machine)?;
    Ok(text)
}

/// The string of an input device by its name, its place and its events.
fn phys_text(alloc: Global, scene: &Scene<'_>, at: At<'_>) -> Result<Vec<u8>, AllocError>
    ensures { IfOk result
        (λ t. t.items ≡ Lookups.phys_text (scene_of scene.now) (found_at at.entry)) }
{
    let mut text = Vec::new(alloc);
    push_with_attr(&mut text, b"evdev:name:", scene, at, b"name")?;
    push_with_attr(&mut text, b":phys:", scene, at, b"phys")?;
    push_with_attr(&mut text, b":ev:", scene, at, b"capabilities/ev")?;
    text.push(b':')?;
    text.extend_from_slice(scene.machine)?;
    Ok(text)
}

/// Adds the string of an input device by its name.
fn add_name(
    alloc: Global,
    plans: &mut Vec<Plan>,
    scene: &Scene<'_>,
    at: At<'_>,
) -> Result<(), AllocError>
    ensures { OnOk result (plans_of plans.new.items ≡ plans_of plans.old.items ++ ask_one
        (codes "60-evdev") (found_at at.entry)
        (Lookups.name_text (scene_of scene.now) (found_at at.entry))) }
{
    let text = name_text(alloc, scene, at)?;
    add_one(alloc, plans, "60-evdev", at, text)
}

/// Adds the string of an input device by its name, its place and its events.
fn add_phys(
    alloc: Global,
    plans: &mut Vec<Plan>,
    scene: &Scene<'_>,
    at: At<'_>,
) -> Result<(), AllocError>
    ensures { OnOk result (plans_of plans.new.items ≡ plans_of plans.old.items ++ ask_one
        (codes "60-evdev") (found_at at.entry)
        (Lookups.phys_text (scene_of scene.now) (found_at at.entry))) }
{
    let text = phys_text(alloc, scene, at)?;
    add_one(alloc, plans, "60-evdev", at, text)
}

/// Input devices by their names.
fn named_rules(alloc: Global, plans: &mut Vec<Plan>, scene: &Scene<'_>) -> Result<(), AllocError>
    ensures { OnOk result (plans_of plans.new.items
        ≡ plans_of plans.old.items ++ Lookups.named_rules (scene_of scene.now)) }
{
    let Some(at) = first_of(Wanted::Named(b"input"), scene.chain) else {
        return Ok(());
    };
    add_name(alloc, plans, scene, at)?;
    add_phys(alloc, plans, scene, at)
}

/// The rules of 60-evdev.
fn evdev_rules(alloc: Global, plans: &mut Vec<Plan>, scene: &Scene<'_>) -> Result<(), AllocError>
    ensures { OnOk result (plans_of plans.new.items
        ≡ plans_of plans.old.items ++ Lookups.evdev_rules (scene_of scene.now)) }
{
    if !is_named(scene.own, b"event") {
        return Ok(());
    }
    let of = Modaliases {
        subsystem: b"input",
        prefix: b"evdev:",
    };
    add_walk(alloc, plans, "60-evdev", scene, of)?;
    atkbd_rule(alloc, plans, scene)?;
    named_rules(alloc, plans, scene)
}

/// The rules up to 60-evdev.
pub fn early_rules(alloc: Global, scene: &Scene<'_>) -> Result<Vec<Plan>, AllocError>
    ensures { IfOk result (λ p. plans_of p.items ≡ Lookups.early_rules (scene_of scene.now)) }
{
    let mut plans = Vec::new(alloc);
    default_rules(alloc, &mut plans, scene)?;
    dmi_rules(alloc, &mut plans, scene)?;
    evdev_rules(alloc, &mut plans, scene)?;
    Ok(plans)
}

/// The string of an input device on a bus.
fn bus_text(alloc: Global, bus: &[u8], scene: &Scene<'_>, at: At<'_>) -> Result<Vec<u8>, AllocError>
    ensures { IfOk result
        (λ t. t.items ≡ Lookups.bus_text bus.now (scene_of scene.now) (found_at at.entry)) }
{
    let mut text = Vec::new(alloc);
    text.extend_from_slice(b"id-input:")?;
    text.extend_from_slice(bus)?;
    text.push(b':')?;
    push_ids_and_name(&mut text, scene, at)?;
    Ok(text)
}

/// Adds the string of an input device, if it is on a bus, by the bus's number.
fn add_on_bus(
    alloc: Global,
    questions: &mut Vec<Question>,
    number: &[u8],
    bus: &[u8],
    scene: &Scene<'_>,
) -> Result<(), AllocError>
    ensures { OnOk result (questions_of questions.new.items ≡ questions_of questions.old.items
        ++ Lookups.on_bus number.now bus.now (scene_of scene.now)) }
{
    let Some(at) = first_of(Wanted::InputOn(number), scene.chain) else {
        return Ok(());
    };
    let text = bus_text(alloc, bus, scene, at)?;
    ask(questions, at, text)
}

/// The walk of an input device.
fn input_walk(alloc: Global, plans: &mut Vec<Plan>, scene: &Scene<'_>) -> Result<(), AllocError>
    ensures { OnOk result (plans_of plans.new.items
        ≡ plans_of plans.old.items ++ Lookups.input_walk (scene_of scene.now)) }
{
    if !is_in(scene.own, b"input") {
        return Ok(());
    }
    let of = Modaliases {
        subsystem: b"input",
        prefix: b"id-input:modalias:",
    };
    add_walk(alloc, plans, "60-input-id", scene, of)
}

/// The rules of 60-input-id.
pub fn input_id_rules(alloc: Global, scene: &Scene<'_>) -> Result<Vec<Plan>, AllocError>
    ensures { IfOk result (λ p. plans_of p.items ≡ Lookups.input_id_rules (scene_of scene.now)) }
{
    let mut plans = Vec::new(alloc);
    input_walk(alloc, &mut plans, scene)?;
    let mut questions = Vec::new(alloc);
    add_on_bus(alloc, &mut questions, b"0003", b"usb", scene)?;
    add_on_bus(alloc, &mut questions, b"0005", b"bluetooth", scene)?;
    add_on_bus(alloc, &mut questions, b"0018", b"i2c", scene)?;
    add_plan(&mut plans, "60-input-id", questions)?;
    Ok(plans)
}
