//! The rules from 70-camera to 78-sound-card.
ghost use Rattle.std.specs.Prelude.{◌≡◌, ◌++◌, [], codes, option_map, IfOk, OnOk};
ghost use Rattle.hwdb_spec_commands.specs.Lookups;
ghost use Rattle.hwdb_rules.specs.Views.{kinds_of, plans_of, questions_of, scene_of, strings_in};
ghost use Rattle.hwdb_sysfs.specs.Views.{ancestor_of};
ghost use Rattle.hwdb_rules.specs.Internal.{camera_plan, found_at, is_video};

use crate::ancestors::{
    At, Wanted, attribute_is, attribute_text, first_of, has_text, is_in, is_named,
};
use crate::inputs::Kinds;
use crate::middle::add_along_bus;
use crate::plans::{Plan, Question, add_one, add_plan, ask};
use crate::scene::{Scene, bus_of, itself, other_bus_of, push_ids_and_name, push_with_attr};
use crate::values::same;
use crate::walks::{Modaliases, add_walk, push_upper};
use hwdb_properties::before;
use hwdb_sysfs::Ancestor;
use std::alloc::{AllocError, Global};

/// The string of a camera. The only error, here and below, is `AllocError`.
fn camera_text(alloc: Global, scene: &Scene<'_>, at: At<'_>) -> Result<Vec<u8>, AllocError>
    ensures { IfOk result
        (λ t. t.items ≡ Lookups.camera_text (scene_of scene.now) (found_at at.entry)) }
{
    let mut text = Vec::new(alloc);
    text.extend_from_slice(b"camera:usb:v")?;
    text.extend_from_slice(attribute_text(at.ancestor, b"idVendor"))?;
    text.push(b'p')?;
    text.extend_from_slice(attribute_text(at.ancestor, b"idProduct"))?;
    push_with_attr(&mut text, b":name:", scene, itself(scene), b"name")?;
    text.push(b':')?;
    Ok(text)
}

/// Whether it is a device of video.
#[tactic(auto, unfolding(crate::specs::Internal::is_video))]
fn is_video(scene: &Scene<'_>) -> bool
    ensures { result ≡ is_video (scene_of scene.now) }
{
    is_in(scene.own, b"video4linux")
}

/// Adds the string of a camera, if it is on USB.
#[tactic(auto, unfolding(crate::specs::Internal::camera_plan))]
fn add_camera(alloc: Global, plans: &mut Vec<Plan>, scene: &Scene<'_>) -> Result<(), AllocError>
    ensures { OnOk result
        (plans_of plans.new.items ≡ plans_of plans.old.items ++ camera_plan (scene_of scene.now)) }
{
    let Some(at) = first_of(Wanted::UsbDevice, scene.chain) else {
        return Ok(());
    };
    let text = camera_text(alloc, scene, at)?;
    add_one(alloc, plans, "70-camera", at, text)
}

/// The rules of 70-camera.
fn camera_rules(alloc: Global, plans: &mut Vec<Plan>, scene: &Scene<'_>) -> Result<(), AllocError>
    ensures { OnOk result (plans_of plans.new.items
        ≡ plans_of plans.old.items ++ Lookups.camera_rules (scene_of scene.now)) }
{
    if is_video(scene) {
        return add_camera(alloc, plans, scene);
    }
    Ok(())
}

/// The string of an input device by its kind and a bus.
fn kind_text(
    alloc: Global,
    kind: &[u8],
    bus: &[u8],
    scene: &Scene<'_>,
    at: At<'_>,
) -> Result<Vec<u8>, AllocError>
    ensures { IfOk result (λ t. t.items
        ≡ Lookups.kind_text kind.now bus.now (scene_of scene.now) (found_at at.entry)) }
{
    let mut text = Vec::new(alloc);
    text.extend_from_slice(kind)?;
    text.extend_from_slice(bus)?;
    text.push(b':')?;
    push_ids_and_name(&mut text, scene, at)?;
    Ok(text)
}

/// Adds the string of an input device by its kind and a bus.
fn add_kind(
    alloc: Global,
    questions: &mut Vec<Question>,
    kind: &[u8],
    bus: &[u8],
    scene: &Scene<'_>,
) -> Result<(), AllocError>
    ensures { OnOk result (questions_of questions.new.items ≡ questions_of questions.old.items
        ++ Lookups.kind_question kind.now bus.now (scene_of scene.now)) }
{
    let Some(at) = first_of(Wanted::Named(b"input"), scene.chain) else {
        return Ok(());
    };
    let text = kind_text(alloc, kind, bus, scene, at)?;
    ask(questions, at, text)
}

/// Whether it is an event device that has a kind.
fn is_event_of(scene: &Scene<'_>, kind: bool) -> bool
    ensures { result ≡ Lookups.is_event_of kind (scene_of scene.now) }
{
    is_named(scene.own, b"event") && kind
}

/// A rule of one kind of devices.
#[derive(Clone, Copy)]
struct KindRule<'a> {
    /// The rules file.
    rule: &'static str,
    /// How the kind's strings begin.
    kind: &'a [u8],
}

/// Adds what is asked by a kind on a bus, if there is a bus.
fn add_kind_lookup(
    alloc: Global,
    plans: &mut Vec<Plan>,
    of: KindRule<'_>,
    bus: &[u8],
    scene: &Scene<'_>,
) -> Result<(), AllocError>
    ensures { OnOk result (plans_of plans.new.items ≡ plans_of plans.old.items
        ++ Lookups.kind_lookup of.entry.rule.now of.entry.kind.now bus.now (scene_of scene.now)) }
{
    if bus.is_empty() {
        return Ok(());
    }
    let mut questions = Vec::new(alloc);
    add_kind(alloc, &mut questions, of.kind, bus, scene)?;
    add_plan(plans, of.rule, questions)
}

/// Adds the strings of an input device that has a kind and a bus.
fn add_kind_rule(
    alloc: Global,
    plans: &mut Vec<Plan>,
    of: KindRule<'_>,
    has_kind: bool,
    scene: &Scene<'_>,
) -> Result<(), AllocError>
    ensures { OnOk result (plans_of plans.new.items ≡ plans_of plans.old.items
        ++ Lookups.kind_rules of.entry.rule.now of.entry.kind.now has_kind (scene_of scene.now)) }
{
    if !is_event_of(scene, has_kind) {
        return Ok(());
    }
    add_kind_lookup(alloc, plans, of, bus_of(scene), scene)?;
    add_kind_lookup(alloc, plans, of, other_bus_of(scene), scene)
}

/// The string of a mouse of the machine.
fn psmouse_text(alloc: Global, scene: &Scene<'_>, at: At<'_>) -> Result<Vec<u8>, AllocError>
    ensures { IfOk result
        (λ t. t.items ≡ Lookups.psmouse_text (scene_of scene.now) (found_at at.entry)) }
{
    let mut text = Vec::new(alloc);
    push_with_attr(&mut text, b"mouse:ps2::name:", scene, at, b"device/name")?;
    text.push(b':')?;
    Ok(text)
}

/// Adds the string of a mouse of the machine.
fn add_psmouse(
    alloc: Global,
    questions: &mut Vec<Question>,
    scene: &Scene<'_>,
) -> Result<(), AllocError>
    ensures { OnOk result (questions_of questions.new.items ≡ questions_of questions.old.items
        ++ Lookups.psmouse_question (scene_of scene.now)) }
{
    let Some(at) = first_of(Wanted::PsMouse, scene.chain) else {
        return Ok(());
    };
    let text = psmouse_text(alloc, scene, at)?;
    ask(questions, at, text)
}

/// Whether the rules ask for mice on a bus.
fn is_mouse_bus(bus: &[u8]) -> bool
    ensures { result ≡ Lookups.is_mouse_bus bus.now }
{
    same(bus, b"usb") || same(bus, b"bluetooth")
}

/// Adds the string of a mouse on USB or Bluetooth.
fn add_bus_mouse(
    alloc: Global,
    questions: &mut Vec<Question>,
    scene: &Scene<'_>,
) -> Result<(), AllocError>
    ensures { OnOk result (questions_of questions.new.items ≡ questions_of questions.old.items
        ++ Lookups.bus_mouse_question (scene_of scene.now)) }
{
    if !is_mouse_bus(bus_of(scene)) {
        return Ok(());
    }
    add_kind(alloc, questions, b"mouse:", bus_of(scene), scene)
}

/// The rules of 70-mouse.
fn mouse_rules(
    alloc: Global,
    plans: &mut Vec<Plan>,
    scene: &Scene<'_>,
    mouse: bool,
) -> Result<(), AllocError>
    ensures { OnOk result (plans_of plans.new.items ≡ plans_of plans.old.items
        ++ Lookups.mouse_rules mouse (scene_of scene.now)) }
{
    if !is_event_of(scene, mouse) {
        return Ok(());
    }
    let mut questions = Vec::new(alloc);
    add_bus_mouse(alloc, &mut questions, scene)?;
    add_psmouse(alloc, &mut questions, scene)?;
    add_plan(plans, "70-mouse", questions)
}

/// Whether the kernel's name of a device begins with `fb` and a digit.
fn is_screen(scene: &Scene<'_>) -> bool
    ensures { result ≡ Lookups.is_numbered (codes "fb") (scene_of scene.now).own }
{
    let name = &scene.own.name;
    name.starts_with(b"fb") && name.len() > 2 && name[2].is_ascii_digit()
}

/// The string of a screen.
fn screen_text(alloc: Global, scene: &Scene<'_>, at: At<'_>) -> Result<Vec<u8>, AllocError>
    ensures { IfOk result
        (λ t. t.items ≡ Lookups.screen_text (scene_of scene.now) (found_at at.entry)) }
{
    let mut whole = Vec::new(alloc);
    push_with_attr(&mut whole, b"fb:", scene, at, b"modalias")?;
    let mut text = Vec::new(alloc);
    text.extend_from_slice(before(b' ', &whole))?;
    Ok(text)
}

/// The rules of 71-seat.
fn seat_rules(alloc: Global, plans: &mut Vec<Plan>, scene: &Scene<'_>) -> Result<(), AllocError>
    ensures { OnOk result (plans_of plans.new.items
        ≡ plans_of plans.old.items ++ Lookups.seat_rules (scene_of scene.now)) }
{
    if !(is_in(scene.own, b"graphics") && is_screen(scene)) {
        return Ok(());
    }
    let Some(at) = first_of(Wanted::With(b"modalias"), scene.chain) else {
        return Ok(());
    };
    let text = screen_text(alloc, scene, at)?;
    add_one(alloc, plans, "71-seat", at, text)
}

/// The first parent with a driver, or the device itself.
fn driven<'d>(scene: &Scene<'d>) -> At<'d>
    ensures { found_at result ≡ Lookups.driven (scene_of scene.now) }
{
    match first_of(Wanted::Driven, scene.chain) {
        Some(at) => at,
        None => itself(scene),
    }
}

/// The string of a network device's driver.
fn driver_text(alloc: Global, at: At<'_>) -> Result<Vec<u8>, AllocError>
    ensures { IfOk result (λ t. t.items ≡ Lookups.driver_text (found_at at.entry)) }
{
    let mut text = Vec::new(alloc);
    text.extend_from_slice(b"net:naming:dr")?;
    text.extend_from_slice(&at.ancestor.driver)?;
    text.push(b':')?;
    Ok(text)
}

/// The driver of a network device.
fn driver_rule(alloc: Global, plans: &mut Vec<Plan>, scene: &Scene<'_>) -> Result<(), AllocError>
    ensures { OnOk result (plans_of plans.new.items
        ≡ plans_of plans.old.items ++ Lookups.driver_rule (scene_of scene.now)) }
{
    let at = driven(scene);
    let text = driver_text(alloc, at)?;
    add_one(alloc, plans, "75-net-description", at, text)
}

/// The bytes of a text that aren't colons.
fn without_colons(alloc: Global, text: &[u8]) -> Result<Vec<u8>, AllocError>
    ensures { IfOk result (λ t. t.items ≡ Lookups.without_colons text.now) }
{
    let mut left = Vec::new(alloc);
    for byte in text {
        if *byte != b':' {
            left.push(*byte)?;
        }
    }
    Ok(left)
}

/// The digits of a network address.
fn address_digits(alloc: Global, scene: &Scene<'_>) -> Result<Vec<u8>, AllocError>
    ensures { IfOk result (λ t. t.items ≡ Lookups.address_digits (scene_of scene.now)) }
{
    let digits = without_colons(alloc, attribute_text(scene.own, b"address"))?;
    let mut upper = Vec::new(alloc);
    push_upper(&mut upper, &digits)?;
    Ok(upper)
}

/// Whether a network device isn't stacked on another one.
fn is_alone(scene: &Scene<'_>) -> bool
    ensures { result ≡ Lookups.is_alone (scene_of scene.now) }
{
    has_text(scene.own, b"iflink")
        && attribute_is(scene.own, b"ifindex", attribute_text(scene.own, b"iflink"))
}

/// Whether a network device has an address of its own, and isn't stacked on another one.
fn has_own_address(scene: &Scene<'_>) -> bool
    ensures { result ≡ Lookups.has_own_address (scene_of scene.now) }
{
    is_alone(scene)
        && attribute_is(scene.own, b"addr_assign_type", b"0")
        && (attribute_is(scene.own, b"type", b"1") || attribute_is(scene.own, b"type", b"256"))
}

/// Whether these are the digits of an address that has an owner.
fn is_owned(digits: &[u8]) -> bool
    ensures { result ≡ Lookups.is_owned digits.now }
{
    digits.len() == 12 && !digits.starts_with(b"000000")
}

/// The string of a network address, by its digits.
fn address_text(alloc: Global, digits: &[u8]) -> Result<Vec<u8>, AllocError>
    ensures { IfOk result (λ t. t.items ≡ codes "OUI:" ++ digits.now) }
{
    let mut text = Vec::new(alloc);
    text.extend_from_slice(b"OUI:")?;
    text.extend_from_slice(digits)?;
    Ok(text)
}

/// One string of the device itself, if udev runs its lookup.
fn own_string(alloc: Global, scene: &Scene<'_>, text: Vec<u8>) -> Result<Vec<Question>, AllocError>
    ensures { IfOk result (λ q. questions_of q.items
        ≡ Lookups.question_at (Lookups.itself (scene_of scene.now)) text.items) }
{
    let mut questions = Vec::new(alloc);
    ask(&mut questions, itself(scene), text)?;
    Ok(questions)
}

/// The string of a network device's address, which the builtin net_id asks; none if it has no address of its own.
///
/// # Errors
///
/// `AllocError` at any allocation that fails.
pub fn address_strings(alloc: Global, own: &Ancestor) -> Result<Vec<Question>, AllocError>
    ensures { IfOk result (λ q. questions_of q.items ≡ strings_in (Lookups.address_rule
        (record { own = ancestor_of own.now; chain = []; machine = [] }))) }
{
    let scene = Scene {
        own,
        chain: &[],
        machine: b"",
    };
    if !has_own_address(&scene) {
        return Ok(Vec::new(alloc));
    }
    let digits = address_digits(alloc, &scene)?;
    if !is_owned(&digits) {
        return Ok(Vec::new(alloc));
    }
    let text = address_text(alloc, &digits)?;
    let questions = own_string(alloc, &scene, text)?;
    Ok(questions)
}

/// The address of a network device.
fn address_rule(alloc: Global, plans: &mut Vec<Plan>, scene: &Scene<'_>) -> Result<(), AllocError>
    ensures { OnOk result (plans_of plans.new.items
        ≡ plans_of plans.old.items ++ Lookups.address_rule (scene_of scene.now)) }
{
    if !has_own_address(scene) {
        return Ok(());
    }
    let digits = address_digits(alloc, scene)?;
    if !is_owned(&digits) {
        return Ok(());
    }
    let text = address_text(alloc, &digits)?;
    add_one(alloc, plans, "net_id", itself(scene), text)
}

/// The rules of 75-net-description.
fn net_rules(alloc: Global, plans: &mut Vec<Plan>, scene: &Scene<'_>) -> Result<(), AllocError>
    ensures { OnOk result (plans_of plans.new.items
        ≡ plans_of plans.old.items ++ Lookups.net_rules (scene_of scene.now)) }
{
    if !is_in(scene.own, b"net") {
        return Ok(());
    }
    driver_rule(alloc, plans, scene)?;
    add_along_bus(alloc, plans, "75-net-description", scene)?;
    address_rule(alloc, plans, scene)
}

/// The rules of 78-sound-card.
fn sound_rules(alloc: Global, plans: &mut Vec<Plan>, scene: &Scene<'_>) -> Result<(), AllocError>
    ensures { OnOk result (plans_of plans.new.items
        ≡ plans_of plans.old.items ++ Lookups.sound_rules (scene_of scene.now)) }
{
    if !(is_in(scene.own, b"sound") && is_named(scene.own, b"card")) {
        return Ok(());
    }
    let of = Modaliases {
        subsystem: b"",
        prefix: b"",
    };
    add_walk(alloc, plans, "78-sound-card", scene, of)
}

/// The rules that go by kinds: 70-joystick, 70-mouse and 70-touchpad.
fn kinds_rules(
    alloc: Global,
    plans: &mut Vec<Plan>,
    scene: &Scene<'_>,
    kinds: Kinds,
) -> Result<(), AllocError>
    ensures { OnOk result (plans_of plans.new.items ≡ plans_of plans.old.items
        ++ Lookups.kinds_rules (kinds_of kinds) (scene_of scene.now)) }
{
    let joysticks = KindRule {
        rule: "70-joystick",
        kind: b"joystick:",
    };
    let touchpads = KindRule {
        rule: "70-touchpad",
        kind: b"touchpad:",
    };
    add_kind_rule(alloc, plans, joysticks, kinds.joystick, scene)?;
    mouse_rules(alloc, plans, scene, kinds.mouse)?;
    add_kind_rule(alloc, plans, touchpads, kinds.touchpad, scene)
}

/// The rules from 70-camera on, for a device of some kinds.
pub fn late_rules(alloc: Global, scene: &Scene<'_>, kinds: Kinds) -> Result<Vec<Plan>, AllocError>
    ensures { IfOk result
        (λ p. plans_of p.items ≡ Lookups.late_rules (kinds_of kinds) (scene_of scene.now)) }
{
    let mut plans = Vec::new(alloc);
    camera_rules(alloc, &mut plans, scene)?;
    kinds_rules(alloc, &mut plans, scene, kinds)?;
    seat_rules(alloc, &mut plans, scene)?;
    net_rules(alloc, &mut plans, scene)?;
    sound_rules(alloc, &mut plans, scene)?;
    Ok(plans)
}
