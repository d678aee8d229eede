//! The rules of 60-sensor and 60-serial, and of the packages upower and libwacom.
ghost use Rattle.std.specs.Prelude.{◌≡◌, ◌++◌, codes, option_map, IfOk, OnOk};
ghost use Rattle.hwdb_spec_commands.specs.Lookups;
ghost use Rattle.hwdb_rules.specs.Views.{kinds_of, plans_of, questions_of, scene_of};
ghost use Rattle.hwdb_rules.specs.Internal.{battery_plan, found_at, is_battery};
ghost use Rattle.hwdb_sysfs.specs.Views.{ancestor_of};

use crate::ancestors::{
    At, Wanted, attribute, attribute_is, first_of, has_text, is_in, is_named, some,
};
use crate::inputs::Kinds;
use crate::plans::{Plan, Question, add_one, add_plan, ask};
use crate::scene::{Scene, itself, push_attr, push_with_attr};
use crate::walks::{Modaliases, add_walk};
use hwdb_sysfs::Ancestor;
use std::alloc::{AllocError, Global};

/// The string of a sensor. The only error, here and below, is `AllocError`.
fn sensor_text(
    alloc: Global,
    label: &[u8],
    scene: &Scene<'_>,
    at: At<'_>,
) -> Result<Vec<u8>, AllocError>
    ensures { IfOk result
        (λ t. t.items ≡ Lookups.sensor_text label.now (scene_of scene.now) (found_at at.entry)) }
{
    let mut text = Vec::new(alloc);
    text.extend_from_slice(b"sensor:")?;
    text.extend_from_slice(label)?;
    push_with_attr(&mut text, b"modalias:", scene, at, b"modalias")?;
    text.push(b':')?;
    text.extend_from_slice(scene.machine)?;
    Ok(text)
}

/// A sensor's label, with a colon.
fn label_text(alloc: Global, scene: &Scene<'_>, at: At<'_>) -> Result<Vec<u8>, AllocError>
    ensures { IfOk result
        (λ t. t.items ≡ Lookups.label_text (scene_of scene.now) (found_at at.entry)) }
{
    let mut text = Vec::new(alloc);
    push_attr(&mut text, scene, at, b"label")?;
    text.push(b':')?;
    Ok(text)
}

/// Adds the string of a sensor with a label.
fn add_labelled(
    alloc: Global,
    questions: &mut Vec<Question>,
    scene: &Scene<'_>,
) -> Result<(), AllocError>
    ensures { OnOk result (questions_of questions.new.items ≡ questions_of questions.old.items
        ++ Lookups.labelled_question (scene_of scene.now)) }
{
    if !has_text(scene.own, b"label") {
        return Ok(());
    }
    let Some(at) = first_of(Wanted::Carrier, scene.chain) else {
        return Ok(());
    };
    let label = label_text(alloc, scene, at)?;
    let text = sensor_text(alloc, &label, scene, at)?;
    ask(questions, at, text)
}

/// Whether it is an accelerometer of a Chromebook's controller.
fn is_chromebook(scene: &Scene<'_>) -> bool
    ensures { result ≡ Lookups.is_chromebook (scene_of scene.now) }
{
    attribute_is(scene.own, b"name", b"cros-ec-accel")
        || attribute_is(scene.own, b"name", b"cros-ec-accel-legacy")
}

/// Adds the string of an accelerometer of a Chromebook, by where it is.
fn add_chromebook(
    alloc: Global,
    questions: &mut Vec<Question>,
    location: &[u8],
    label: &[u8],
    scene: &Scene<'_>,
) -> Result<(), AllocError>
    ensures { OnOk result (questions_of questions.new.items ≡ questions_of questions.old.items
        ++ Lookups.chromebook_question location.now label.now (scene_of scene.now)) }
{
    if !(is_chromebook(scene) && attribute_is(scene.own, b"location", location)) {
        return Ok(());
    }
    let Some(at) = first_of(Wanted::In(b"platform"), scene.chain) else {
        return Ok(());
    };
    let text = sensor_text(alloc, label, scene, at)?;
    ask(questions, at, text)
}

/// Adds the string of a sensor without a label.
fn add_plain(
    alloc: Global,
    questions: &mut Vec<Question>,
    scene: &Scene<'_>,
) -> Result<(), AllocError>
    ensures { OnOk result (questions_of questions.new.items ≡ questions_of questions.old.items
        ++ Lookups.plain_question (scene_of scene.now)) }
{
    let Some(at) = first_of(Wanted::Carrier, scene.chain) else {
        return Ok(());
    };
    let text = sensor_text(alloc, b"", scene, at)?;
    ask(questions, at, text)
}

/// Adds the strings of a device of iio.
fn add_iio(
    alloc: Global,
    questions: &mut Vec<Question>,
    scene: &Scene<'_>,
) -> Result<(), AllocError>
    ensures { OnOk result (questions_of questions.new.items ≡ questions_of questions.old.items
        ++ Lookups.iio_questions (scene_of scene.now)) }
{
    if !(is_in(scene.own, b"iio") && is_named(scene.own, b"iio")) {
        return Ok(());
    }
    add_labelled(alloc, questions, scene)?;
    add_chromebook(alloc, questions, b"base", b"accel-base:", scene)?;
    add_chromebook(alloc, questions, b"lid", b"accel-display:", scene)?;
    add_plain(alloc, questions, scene)
}

/// The string of an accelerometer below ACPI.
fn acpi_text(alloc: Global, scene: &Scene<'_>, at: At<'_>) -> Result<Vec<u8>, AllocError>
    ensures { IfOk result
        (λ t. t.items ≡ Lookups.acpi_text (scene_of scene.now) (found_at at.entry)) }
{
    let mut text = Vec::new(alloc);
    push_with_attr(&mut text, b"sensor:modalias:acpi:", scene, at, b"hid")?;
    text.push(b':')?;
    text.extend_from_slice(scene.machine)?;
    Ok(text)
}

/// The string of an accelerometer of the platform.
fn platform_text(alloc: Global, scene: &Scene<'_>, at: At<'_>) -> Result<Vec<u8>, AllocError>
    ensures { IfOk result
        (λ t. t.items ≡ Lookups.platform_text (scene_of scene.now) (found_at at.entry)) }
{
    let mut text = Vec::new(alloc);
    text.extend_from_slice(b"sensor:modalias:platform:")?;
    text.extend_from_slice(&at.ancestor.name)?;
    text.push(b':')?;
    text.extend_from_slice(scene.machine)?;
    Ok(text)
}

/// Adds the string of an accelerometer below ACPI.
fn add_acpi(
    alloc: Global,
    questions: &mut Vec<Question>,
    scene: &Scene<'_>,
) -> Result<(), AllocError>
    ensures { OnOk result (questions_of questions.new.items ≡ questions_of questions.old.items
        ++ Lookups.acpi_question (scene_of scene.now)) }
{
    let Some(at) = first_of(Wanted::In(b"acpi"), scene.chain) else {
        return Ok(());
    };
    let text = acpi_text(alloc, scene, at)?;
    ask(questions, at, text)
}

/// Adds the string of an accelerometer of the platform.
fn add_platform(
    alloc: Global,
    questions: &mut Vec<Question>,
    scene: &Scene<'_>,
) -> Result<(), AllocError>
    ensures { OnOk result (questions_of questions.new.items ≡ questions_of questions.old.items
        ++ Lookups.platform_question (scene_of scene.now)) }
{
    let Some(at) = first_of(Wanted::In(b"platform"), scene.chain) else {
        return Ok(());
    };
    let text = platform_text(alloc, scene, at)?;
    ask(questions, at, text)
}

/// Adds the strings of an accelerometer that is an input device.
fn add_accelerometer(
    alloc: Global,
    questions: &mut Vec<Question>,
    accelerometer: bool,
    scene: &Scene<'_>,
) -> Result<(), AllocError>
    ensures { OnOk result (questions_of questions.new.items ≡ questions_of questions.old.items
        ++ Lookups.accelerometer_questions accelerometer (scene_of scene.now)) }
{
    if !(is_in(scene.own, b"input") && accelerometer) {
        return Ok(());
    }
    add_acpi(alloc, questions, scene)?;
    add_platform(alloc, questions, scene)
}

/// The strings of a sensor.
fn sensor_questions(
    alloc: Global,
    scene: &Scene<'_>,
    accelerometer: bool,
) -> Result<Vec<Question>, AllocError>
    ensures { IfOk result (λ q. questions_of q.items
        ≡ Lookups.iio_questions (scene_of scene.now)
        ++ Lookups.accelerometer_questions accelerometer (scene_of scene.now)) }
{
    let mut questions = Vec::new(alloc);
    add_iio(alloc, &mut questions, scene)?;
    add_accelerometer(alloc, &mut questions, accelerometer, scene)?;
    Ok(questions)
}

/// The rules of 60-sensor.
fn sensor_rules(
    alloc: Global,
    plans: &mut Vec<Plan>,
    scene: &Scene<'_>,
    accelerometer: bool,
) -> Result<(), AllocError>
    ensures { OnOk result (plans_of plans.new.items ≡ plans_of plans.old.items
        ++ Lookups.sensor_rules accelerometer (scene_of scene.now)) }
{
    let questions = sensor_questions(alloc, scene, accelerometer)?;
    add_plan(plans, "60-sensor", questions)
}

/// Adds a walk along USB if a parent is there; else along PCI if one is there.
pub(crate) fn add_along_bus(
    alloc: Global,
    plans: &mut Vec<Plan>,
    rule: &'static str,
    scene: &Scene<'_>,
) -> Result<(), AllocError>
    ensures { OnOk result (plans_of plans.new.items
        ≡ plans_of plans.old.items ++ Lookups.along_bus rule.now (scene_of scene.now)) }
{
    if some(Wanted::In(b"usb"), scene.chain) {
        let of = Modaliases {
            subsystem: b"usb",
            prefix: b"",
        };
        return add_walk(alloc, plans, rule, scene, of);
    }
    if some(Wanted::In(b"pci"), scene.chain) {
        let of = Modaliases {
            subsystem: b"pci",
            prefix: b"",
        };
        return add_walk(alloc, plans, rule, scene, of);
    }
    Ok(())
}

/// The rules of 60-serial.
fn serial_rules(alloc: Global, plans: &mut Vec<Plan>, scene: &Scene<'_>) -> Result<(), AllocError>
    ensures { OnOk result (plans_of plans.new.items
        ≡ plans_of plans.old.items ++ Lookups.serial_rules (scene_of scene.now)) }
{
    if !is_in(scene.own, b"tty") {
        return Ok(());
    }
    add_along_bus(alloc, plans, "60-serial", scene)
}

/// The string of a battery.
fn battery_text(alloc: Global, scene: &Scene<'_>) -> Result<Vec<u8>, AllocError>
    ensures { IfOk result (λ t. t.items ≡ Lookups.battery_text (scene_of scene.now)) }
{
    let mut text = Vec::new(alloc);
    text.extend_from_slice(b"battery:")?;
    text.extend_from_slice(&scene.own.name)?;
    push_with_attr(&mut text, b":", scene, itself(scene), b"model_name")?;
    text.push(b':')?;
    text.extend_from_slice(scene.machine)?;
    Ok(text)
}

/// Whether the charge of a battery can be limited.
fn is_limited(ancestor: &Ancestor) -> bool
    ensures { result ≡ Lookups.is_limited (ancestor_of ancestor.now) }
{
    attribute(ancestor, b"charge_control_start_threshold").is_some()
        || attribute(ancestor, b"charge_control_end_threshold").is_some()
}

/// Whether it is a battery whose charge can be limited.
#[tactic(auto, unfolding(crate::specs::Internal::is_battery))]
fn is_battery(scene: &Scene<'_>) -> bool
    ensures { result ≡ is_battery (scene_of scene.now) }
{
    is_in(scene.own, b"power_supply") && is_limited(scene.own)
}

/// Adds the string of a battery.
fn add_battery(alloc: Global, plans: &mut Vec<Plan>, scene: &Scene<'_>) -> Result<(), AllocError>
    ensures { OnOk result
        (plans_of plans.new.items ≡ plans_of plans.old.items ++ battery_plan (scene_of scene.now)) }
{
    let text = battery_text(alloc, scene)?;
    add_one(alloc, plans, "60-upower-battery", itself(scene), text)
}

/// A battery whose charge can be limited, in upower's rules.
fn battery_rules(alloc: Global, plans: &mut Vec<Plan>, scene: &Scene<'_>) -> Result<(), AllocError>
    ensures { OnOk result (plans_of plans.new.items
        ≡ plans_of plans.old.items ++ Lookups.battery_rules (scene_of scene.now)) }
{
    if is_battery(scene) {
        return add_battery(alloc, plans, scene);
    }
    Ok(())
}

/// What comes before the strings of a tablet.
fn tablet_prefix(alloc: Global, scene: &Scene<'_>, at: At<'_>) -> Result<Vec<u8>, AllocError>
    ensures { IfOk result
        (λ t. t.items ≡ Lookups.tablet_prefix (scene_of scene.now) (found_at at.entry)) }
{
    let mut text = Vec::new(alloc);
    push_with_attr(&mut text, b"libwacom:name:", scene, at, b"name")?;
    text.push(b':')?;
    Ok(text)
}

/// Tablets, in libwacom's rules.
fn tablet_rules(alloc: Global, plans: &mut Vec<Plan>, scene: &Scene<'_>) -> Result<(), AllocError>
    ensures { OnOk result (plans_of plans.new.items
        ≡ plans_of plans.old.items ++ Lookups.tablet_rules (scene_of scene.now)) }
{
    if !is_named(scene.own, b"event") || some(Wanted::NoTablet, scene.chain) {
        return Ok(());
    }
    let Some(at) = first_of(Wanted::Named(b"input"), scene.chain) else {
        return Ok(());
    };
    let prefix = tablet_prefix(alloc, scene, at)?;
    let of = Modaliases {
        subsystem: b"input",
        prefix: &prefix,
    };
    add_walk(alloc, plans, "65-libwacom", scene, of)
}

/// The rules from 60-sensor to 65-libwacom, for a device of some kinds.
pub fn middle_rules(alloc: Global, scene: &Scene<'_>, kinds: Kinds) -> Result<Vec<Plan>, AllocError>
    ensures { IfOk result
        (λ p. plans_of p.items ≡ Lookups.middle_rules (kinds_of kinds) (scene_of scene.now)) }
{
    let mut plans = Vec::new(alloc);
    sensor_rules(alloc, &mut plans, scene, kinds.accelerometer)?;
    serial_rules(alloc, &mut plans, scene)?;
    battery_rules(alloc, &mut plans, scene)?;
    tablet_rules(alloc, &mut plans, scene)?;
    Ok(plans)
}
