//! Records to begin with: a pattern for each prefix at which people set properties of a device, and these properties.
ghost use Rattle.std.specs.Prelude.{◌≡◌, ◌++◌, codes, option_map, IfOk, OnOk};
ghost use Rattle.std.specs.Option.{option_or};
ghost use Rattle.hwdb_spec.specs.Lines.{is_none};
ghost use Rattle.hwdb_spec_commands.specs.DeviceRecords;
ghost use Rattle.hwdb_device.specs.Views.{all_found};

use crate::lasting::push_lasting;
use crate::told::same;
use hwdb_ruleasks::Found;
use std::alloc::{AllocError, Global};

/// The first string that begins so. It calls itself once for each string before it.
#[tactic(auto, using(crate::proofs::StringLemmas::string_here, crate::proofs::StringLemmas::string_later, crate::proofs::StringLemmas::no_string))]
fn first_string<'f>(start: &[u8], found: &'f [Found<'_>]) -> Option<&'f [u8]>
    ensures { option_map (λ s. s.now) result
        ≡ DeviceRecords.first_string start.now (all_found found.now) }
{
    let Some((first, more)) = found.split_first() else {
        return None;
    };
    if first.text.starts_with(start) {
        return Some(&first.text);
    }
    first_string(start, more)
}

/// The first string that begins in one way, or else the first that begins in another.
fn first_of_two<'f>(start: &[u8], other: &[u8], found: &'f [Found<'_>]) -> Option<&'f [u8]>
    ensures { option_map (λ s. s.now) result
        ≡ option_or (DeviceRecords.first_string start.now (all_found found.now))
        (DeviceRecords.first_string other.now (all_found found.now)) }
{
    match first_string(start, found) {
        Some(text) => Some(text),
        None => first_string(other, found),
    }
}

/// The string that names a keyboard, a touchpad or a stick.
fn keys_string<'f>(found: &'f [Found<'_>]) -> Option<&'f [u8]>
    ensures { option_map (λ s. s.now) result ≡ DeviceRecords.keys_string (all_found found.now) }
{
    match first_of_two(b"evdev:input:b0003v", b"evdev:input:b0005v", found) {
        Some(text) => Some(text),
        None => first_of_two(b"evdev:atkbd:", b"evdev:name:", found),
    }
}

/// The string by which an input device on USB or Bluetooth is taken for one of some kind.
fn kind_string<'f>(found: &'f [Found<'_>]) -> Option<&'f [u8]>
    ensures { option_map (λ s. s.now) result ≡ DeviceRecords.kind_string (all_found found.now) }
{
    let usb = b"id-input:modalias:input:b0003v";
    let bluetooth = b"id-input:modalias:input:b0005v";
    first_of_two(usb, bluetooth, found)
}

/// The string of a device that may sleep, by its subsystem.
fn sleep_string<'f>(subsystem: &[u8], found: &'f [Found<'_>]) -> Option<&'f [u8]>
    ensures { option_map (λ s. s.now) result
        ≡ DeviceRecords.sleep_string subsystem.now (all_found found.now) }
{
    if same(subsystem, b"usb") {
        first_string(b"usb:v", found)
    } else if same(subsystem, b"pci") {
        first_string(b"pci:v", found)
    } else {
        None
    }
}

/// Adds the pattern for a string, what is set there, and an empty line. The only error, here and below, is `AllocError`.
fn push_record(
    alloc: Global,
    made: &mut Vec<u8>,
    machine: &[u8],
    properties: &[u8],
    text: &[u8],
) -> Result<(), AllocError>
    ensures { OnOk result (made.new.items ≡ made.old.items
        ++ DeviceRecords.record_with machine.now properties.now text.now) }
{
    push_lasting(alloc, made, machine, text)?;
    made.push(b'\n')?;
    made.extend_from_slice(properties)?;
    made.push(b'\n')?;
    Ok(())
}

/// Adds the record at a string, if there is one.
fn push_record_at(
    alloc: Global,
    made: &mut Vec<u8>,
    machine: &[u8],
    properties: &[u8],
    string: Option<&[u8]>,
) -> Result<(), AllocError>
    ensures { OnOk result (made.new.items ≡ made.old.items
        ++ DeviceRecords.record_at machine.now properties.now
        (option_map (λ s. s.now) string.entry)) }
{
    match string {
        Some(text) => push_record(alloc, made, machine, properties, text),
        None => Ok(()),
    }
}

/// Adds the record of keys and axes.
fn push_keys(
    alloc: Global,
    made: &mut Vec<u8>,
    machine: &[u8],
    found: &[Found<'_>],
) -> Result<(), AllocError>
    ensures { OnOk result (made.new.items ≡ made.old.items
        ++ DeviceRecords.record_at machine.now DeviceRecords.keys_properties
        (DeviceRecords.keys_string (all_found found.now))) }
{
    let keys =
        b"# KEYBOARD_KEY_<scan code>=<key name>\n# EVDEV_ABS_<axis>=<min>:<max>:<resolution>\n# POINTINGSTICK_SENSITIVITY=<0 to 255>\n";
    push_record_at(alloc, made, machine, keys, keys_string(found))
}

/// Adds the record of the kind of an input device.
fn push_kind(
    alloc: Global,
    made: &mut Vec<u8>,
    machine: &[u8],
    found: &[Found<'_>],
) -> Result<(), AllocError>
    ensures { OnOk result (made.new.items ≡ made.old.items
        ++ DeviceRecords.record_at machine.now DeviceRecords.kind_properties
        (DeviceRecords.kind_string (all_found found.now))) }
{
    let kind = b"# ID_INPUT_<kind, as JOYSTICK>=<0 or 1>\n";
    push_record_at(alloc, made, machine, kind, kind_string(found))
}

/// Adds the record of a mouse.
fn push_mouse(
    alloc: Global,
    made: &mut Vec<u8>,
    machine: &[u8],
    found: &[Found<'_>],
) -> Result<(), AllocError>
    ensures { OnOk result (made.new.items ≡ made.old.items
        ++ DeviceRecords.record_at machine.now DeviceRecords.mouse_properties
        (DeviceRecords.first_string (codes "mouse:") (all_found found.now))) }
{
    let mouse = b"# MOUSE_DPI=<dpi>@<hz>\n# MOUSE_WHEEL_CLICK_ANGLE=<degrees>\n";
    push_record_at(alloc, made, machine, mouse, first_string(b"mouse:", found))
}

/// Adds the record of a touchpad.
fn push_touchpad(
    alloc: Global,
    made: &mut Vec<u8>,
    machine: &[u8],
    found: &[Found<'_>],
) -> Result<(), AllocError>
    ensures { OnOk result (made.new.items ≡ made.old.items
        ++ DeviceRecords.record_at machine.now DeviceRecords.touchpad_properties
        (DeviceRecords.first_string (codes "touchpad:") (all_found found.now))) }
{
    let touchpad = b"# ID_INPUT_TOUCHPAD_INTEGRATION=<internal or external>\n";
    push_record_at(
        alloc,
        made,
        machine,
        touchpad,
        first_string(b"touchpad:", found),
    )
}

/// Adds the record of a joystick.
fn push_joystick(
    alloc: Global,
    made: &mut Vec<u8>,
    machine: &[u8],
    found: &[Found<'_>],
) -> Result<(), AllocError>
    ensures { OnOk result (made.new.items ≡ made.old.items
        ++ DeviceRecords.record_at machine.now DeviceRecords.joystick_properties
        (DeviceRecords.first_string (codes "joystick:") (all_found found.now))) }
{
    let joystick = b"# ID_INPUT_JOYSTICK_INTEGRATION=<internal or external>\n";
    push_record_at(
        alloc,
        made,
        machine,
        joystick,
        first_string(b"joystick:", found),
    )
}

/// Adds the records of input devices.
fn push_inputs(
    alloc: Global,
    made: &mut Vec<u8>,
    machine: &[u8],
    found: &[Found<'_>],
) -> Result<(), AllocError>
    ensures { OnOk result (made.new.items
        ≡ made.old.items ++ DeviceRecords.input_records machine.now (all_found found.now)) }
{
    push_keys(alloc, made, machine, found)?;
    push_kind(alloc, made, machine, found)?;
    push_mouse(alloc, made, machine, found)?;
    push_touchpad(alloc, made, machine, found)?;
    push_joystick(alloc, made, machine, found)
}

/// Adds the record of a sensor.
fn push_sensor(
    alloc: Global,
    made: &mut Vec<u8>,
    machine: &[u8],
    found: &[Found<'_>],
) -> Result<(), AllocError>
    ensures { OnOk result (made.new.items ≡ made.old.items
        ++ DeviceRecords.record_at machine.now DeviceRecords.sensor_properties
        (DeviceRecords.first_string (codes "sensor:") (all_found found.now))) }
{
    let sensor = b"# ACCEL_MOUNT_MATRIX=<x1>, <y1>, <z1>; <x2>, <y2>, <z2>; <x3>, <y3>, <z3>\n";
    push_record_at(
        alloc,
        made,
        machine,
        sensor,
        first_string(b"sensor:", found),
    )
}

/// Adds the record of a device that may sleep.
fn push_sleep(
    alloc: Global,
    made: &mut Vec<u8>,
    subsystem: &[u8],
    machine: &[u8],
    found: &[Found<'_>],
) -> Result<(), AllocError>
    ensures { OnOk result (made.new.items ≡ made.old.items
        ++ DeviceRecords.record_at machine.now DeviceRecords.sleep_properties
        (DeviceRecords.sleep_string subsystem.now (all_found found.now))) }
{
    let sleep = b"# ID_AUTOSUSPEND=<0 or 1>\n# ID_AUTOSUSPEND_DELAY_MS=<milliseconds>\n";
    push_record_at(alloc, made, machine, sleep, sleep_string(subsystem, found))
}

/// The records of all prefixes at which people set properties of the device.
fn set_records(
    alloc: Global,
    subsystem: &[u8],
    machine: &[u8],
    found: &[Found<'_>],
) -> Result<Vec<u8>, AllocError>
    ensures { IfOk result (λ made. made.items
        ≡ DeviceRecords.set_records subsystem.now machine.now (all_found found.now)) }
{
    let mut made = Vec::new(alloc);
    push_inputs(alloc, &mut made, machine, found)?;
    push_sensor(alloc, &mut made, machine, found)?;
    push_sleep(alloc, &mut made, subsystem, machine, found)?;
    Ok(made)
}

/// The record of the first string, for any property.
fn first_record(alloc: Global, machine: &[u8], found: &[Found<'_>]) -> Result<Vec<u8>, AllocError>
    ensures { IfOk result
        (λ made. made.items ≡ DeviceRecords.first_record machine.now (all_found found.now)) }
{
    let mut made = Vec::new(alloc);
    let Some((first, _more)) = found.split_first() else {
        return Ok(made);
    };
    push_record(alloc, &mut made, machine, b"# <KEY>=<value>\n", &first.text)?;
    Ok(made)
}

/// Whether there is no record.
fn is_nothing(made: &[u8]) -> bool
    ensures { result ≡ is_none made.now }
{
    made.is_empty()
}

/// What `--pattern` prints of the strings of a device, by its subsystem and the machine's name.
pub(crate) fn records_text(
    alloc: Global,
    subsystem: &[u8],
    machine: &[u8],
    found: &[Found<'_>],
) -> Result<Vec<u8>, AllocError>
    ensures { IfOk result (λ made. made.items
        ≡ DeviceRecords.records_text subsystem.now machine.now (all_found found.now)) }
{
    let made = set_records(alloc, subsystem, machine, found)?;
    if is_nothing(&made) {
        return first_record(alloc, machine, found);
    }
    Ok(made)
}
