//! Findings as GitHub shows them beside their lines: its workflow commands.
ghost use Rattle.std.specs.Prelude.{◌≡◌, ◌++◌, codes, flat_map, OnOk};
ghost use Rattle.std.specs.Fmt.{decimal};
ghost use Rattle.hwdb_spec_commands.specs.Annotations;

use crate::findings::push_count;
use std::alloc::AllocError;

/// A finding that is shown beside its line.
#[derive(Clone, Copy)]
pub struct Annotation<'a> {
    /// `error` or `warning`.
    pub severity: &'static str,
    /// The path of its file.
    pub path: &'a [u8],
    /// The line, from 1.
    pub line: u64,
    /// The column in bytes, from 1.
    pub column: u64,
    /// The name of its kind.
    pub kind: &'static str,
    /// What is found.
    pub text: &'a [u8],
}

/// Adds a byte of a message. The only error, here and below, is `AllocError`.
fn push_message_byte(text: &mut Vec<u8>, byte: u8) -> Result<(), AllocError>
    ensures { OnOk result (text.new.items ≡ text.old.items ++ Annotations.message_byte byte) }
{
    if byte == b'%' {
        return text.extend_from_slice(b"%25");
    }
    if byte == b'\r' {
        return text.extend_from_slice(b"%0D");
    }
    if byte == b'\n' {
        return text.extend_from_slice(b"%0A");
    }
    text.push(byte)?;
    Ok(())
}

/// Adds a byte of a property.
fn push_property_byte(text: &mut Vec<u8>, byte: u8) -> Result<(), AllocError>
    ensures { OnOk result (text.new.items ≡ text.old.items ++ Annotations.property_byte byte) }
{
    if byte == b':' {
        return text.extend_from_slice(b"%3A");
    }
    if byte == b',' {
        return text.extend_from_slice(b"%2C");
    }
    push_message_byte(text, byte)
}

/// Adds a message.
fn push_message(text: &mut Vec<u8>, message: &[u8]) -> Result<(), AllocError>
    ensures { OnOk result (text.new.items
        ≡ text.old.items ++ flat_map Annotations.message_byte message.now) }
{
    for byte in message {
        push_message_byte(text, *byte)?;
    }
    Ok(())
}

/// Adds the value of a property.
fn push_property(text: &mut Vec<u8>, value: &[u8]) -> Result<(), AllocError>
    ensures { OnOk result (text.new.items
        ≡ text.old.items ++ flat_map Annotations.property_byte value.now) }
{
    for byte in value {
        push_property_byte(text, *byte)?;
    }
    Ok(())
}

/// Adds its column and its kind, after its line.
fn push_column(text: &mut Vec<u8>, found: &Annotation<'_>) -> Result<(), AllocError>
    ensures { OnOk result (text.new.items ≡ text.old.items ++ (codes ",col="
        ++ (decimal found.now.column ++ (codes ",title="
        ++ flat_map Annotations.property_byte found.now.kind.now)))) }
{
    text.extend_from_slice(b",col=")?;
    push_count(text, found.column)?;
    text.extend_from_slice(b",title=")?;
    push_property(text, found.kind.as_bytes())
}

/// Adds where it is, after its severity, and its kind.
fn push_place(text: &mut Vec<u8>, found: &Annotation<'_>) -> Result<(), AllocError>
    ensures { OnOk result (text.new.items ≡ text.old.items ++ Annotations.place_part
        found.now.path.now found.now.line found.now.column found.now.kind.now) }
{
    text.extend_from_slice(b" file=")?;
    push_property(text, found.path)?;
    text.extend_from_slice(b",line=")?;
    push_count(text, found.line)?;
    push_column(text, found)
}

/// Adds what is found, after its place.
fn push_found(text: &mut Vec<u8>, found: &[u8]) -> Result<(), AllocError>
    ensures { OnOk result
        (text.new.items ≡ text.old.items ++ Annotations.message_part found.now) }
{
    text.extend_from_slice(b"::")?;
    push_message(text, found)?;
    text.push(b'\n')?;
    Ok(())
}

/// Adds the line of a finding.
pub fn push_annotation(text: &mut Vec<u8>, found: &Annotation<'_>) -> Result<(), AllocError>
    ensures { OnOk result (text.new.items ≡ text.old.items ++ Annotations.annotation
        found.now.severity.now found.now.path.now found.now.line found.now.column
        found.now.kind.now found.now.text.now) }
{
    text.extend_from_slice(b"::")?;
    text.extend_from_slice(found.severity.as_bytes())?;
    push_place(text, found)?;
    push_found(text, found.text)
}
