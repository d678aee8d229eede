//! A pattern for a string that lasts: it matches that of the same device in another port, and with another BIOS.
ghost use Rattle.std.specs.Prelude.{◌≡◌, ◌++◌, codes, drop, take, IfOk, OnOk};
ghost use Rattle.hwdb_spec_commands.specs.DeviceRecords;

use std::alloc::{AllocError, Global};

/// The byte of a pattern for a byte of a text.
fn pattern_byte(byte: u8) -> u8
    ensures { result ≡ DeviceRecords.pattern_byte byte }
{
    match byte {
        b'*' | b'?' | b'[' | b'\\' | b'#' => b'?',
        _ => byte,
    }
}

/// Adds a pattern for a text. The only error, here and below, is `AllocError`.
fn push_pattern(made: &mut Vec<u8>, text: &[u8]) -> Result<(), AllocError>
    ensures { OnOk result
        (made.new.items ≡ made.old.items ++ DeviceRecords.pattern_for text.now) }
{
    for byte in text {
        made.push(pattern_byte(*byte))?;
    }
    Ok(())
}

/// After how many of its bytes a string has named vendor and product; none if it doesn't.
fn numbers_end(text: &[u8]) -> Option<usize>
    ensures { result ≡ DeviceRecords.numbers_end text.now }
{
    if text.starts_with(b"evdev:input:b") {
        Some(27)
    } else if text.starts_with(b"id-input:modalias:input:b") {
        Some(39)
    } else if text.starts_with(b"input:b") {
        Some(21)
    } else if text.starts_with(b"mouse:usb:v") {
        Some(21)
    } else if text.starts_with(b"mouse:bluetooth:v") {
        Some(27)
    } else if text.starts_with(b"touchpad:usb:v") {
        Some(24)
    } else if text.starts_with(b"touchpad:bluetooth:v") {
        Some(30)
    } else if text.starts_with(b"joystick:usb:v") {
        Some(24)
    } else if text.starts_with(b"joystick:bluetooth:v") {
        Some(30)
    } else if text.starts_with(b"usb:v") {
        Some(14)
    } else if text.starts_with(b"pci:v") {
        Some(22)
    } else {
        None
    }
}

/// The first bytes of a text.
fn front(text: &[u8], size: usize) -> &[u8]
    ensures { result.now ≡ take size text.now }
{
    if size < text.len() {
        &text[..size]
    } else {
        text
    }
}

/// What comes after the first bytes of a text.
fn after(text: &[u8], size: usize) -> &[u8]
    ensures { result.now ≡ drop size text.now }
{
    if size < text.len() {
        &text[size..]
    } else {
        &[]
    }
}

/// A text from where `:svn` is first; empty if that is nowhere.
fn from_vendor(text: &[u8]) -> &[u8]
    ensures { result.now ≡ DeviceRecords.from_first (codes ":svn") text.now }
{
    let mut left = text;
    'looking: while let Some((_first, more)) = left.split_first() {
        if left.starts_with(b":svn") {
            return left;
        }
        left = more;
    }
    left
}

/// Adds a text up to so many colons, with the last of them.
fn push_up_to(made: &mut Vec<u8>, text: &[u8], colons: usize) -> Result<(), AllocError>
    ensures { OnOk result
        (made.new.items ≡ made.old.items ++ DeviceRecords.up_to_colons colons text.now) }
{
    let mut left = text;
    let mut missing = colons;
    'adding: while let Some((byte, more)) = left.split_first() {
        if missing == 0 {
            return Ok(());
        }
        made.push(*byte)?;
        if *byte == b':' {
            missing -= 1;
        }
        left = more;
    }
    Ok(())
}

/// Vendor and model of what names a machine.
fn model_part(alloc: Global, machine: &[u8]) -> Result<Vec<u8>, AllocError>
    ensures { IfOk result
        (λ model. model.items ≡ DeviceRecords.model_part machine.now) }
{
    let mut model = Vec::new(alloc);
    push_up_to(&mut model, from_vendor(machine), 3)?;
    if model.starts_with(b":svnLENOVO:pn") {
        model.truncate(17);
    }
    Ok(model)
}

/// Adds a pattern for a machine by its vendor and model.
fn push_model(made: &mut Vec<u8>, model: &[u8]) -> Result<(), AllocError>
    ensures { OnOk result
        (made.new.items ≡ made.old.items ++ DeviceRecords.model_pattern model.now) }
{
    made.extend_from_slice(b"dmi:*")?;
    if model.is_empty() {
        return Ok(());
    }
    push_pattern(made, model)?;
    made.push(b'*')?;
    Ok(())
}

/// Adds a pattern for a machine, by what names it.
fn push_machine(alloc: Global, made: &mut Vec<u8>, machine: &[u8]) -> Result<(), AllocError>
    ensures { OnOk result
        (made.new.items ≡ made.old.items ++ DeviceRecords.machine_pattern machine.now) }
{
    if !machine.starts_with(b"dmi:") {
        return push_pattern(made, machine);
    }
    let model = model_part(alloc, after(machine, 4))?;
    push_model(made, &model)
}

/// Adds a pattern for a string that is the machine's name, or may end with it.
fn push_text(
    alloc: Global,
    made: &mut Vec<u8>,
    machine: &[u8],
    text: &[u8],
) -> Result<(), AllocError>
    ensures { OnOk result (made.new.items
        ≡ made.old.items ++ DeviceRecords.text_pattern machine.now text.now) }
{
    if text.starts_with(b"dmi:") {
        return push_machine(alloc, made, text);
    }
    if !text.ends_with(machine) {
        return push_pattern(made, text);
    }
    push_pattern(made, front(text, text.len().saturating_sub(machine.len())))?;
    push_machine(alloc, made, machine)
}

/// Adds a pattern for the first bytes of a string.
fn push_front(made: &mut Vec<u8>, text: &[u8], size: usize) -> Result<(), AllocError>
    ensures { OnOk result (made.new.items ≡ made.old.items
        ++ (DeviceRecords.pattern_for (take size text.now) ++ codes "*")) }
{
    push_pattern(made, front(text, size))?;
    made.push(b'*')?;
    Ok(())
}

/// Adds a pattern for a string: of its numbers, or else of what isn't of this BIOS.
pub(crate) fn push_lasting(
    alloc: Global,
    made: &mut Vec<u8>,
    machine: &[u8],
    text: &[u8],
) -> Result<(), AllocError>
    ensures { OnOk result (made.new.items
        ≡ made.old.items ++ DeviceRecords.lasting machine.now text.now) }
{
    match numbers_end(text) {
        Some(size) => push_front(made, text, size),
        None => push_text(alloc, made, machine, text),
    }
}
