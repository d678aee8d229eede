//! Properties that don't fit what is known of properties.
ghost use Rattle.std.specs.Prelude.{◌≡◌, ◌++◌, OnOk};
ghost use Rattle.hwdb_spec.specs.Lines;
ghost use Rattle.hwdb_spec_commands.specs.Properties.{misuse_hint};
ghost use Rattle.hwdb_spec_commands.specs.Surroundings.{unpaired_hint, unread_hint};
ghost use Rattle.hwdb_spec_commands.specs.Warnings.{is_known, misused, spaced_hint};
ghost use Rattle.hwdb_check.specs.Internal.{line_of};

use crate::line_warnings::{is_property, is_spaced};
use hwdb_properties::{
    after, before, companions_of, is_known, misuse_of, push_elsewhere_hint, push_misuse_hint,
    push_unknown_hint,
};
use hwdb_show::push_shown;
use hwdb_spec_commands::Misuse;
use hwdb_text::{end_of, trim, unindented};
use std::alloc::AllocError;

/// The key of a clean property line.
pub fn key_of(clean: &[u8]) -> &[u8]
    ensures { result.now ≡ Lines.key (line_of 0 clean.now) }
{
    before(b'=', unindented(clean))
}

/// The value of a clean property line.
pub fn value_of(clean: &[u8]) -> &[u8]
    ensures { result.now ≡ Lines.value (line_of 0 clean.now) }
{
    after(b'=', unindented(clean))
}

/// What is said of a clean line, if it is a property that doesn't fit.
pub fn misuse_in(clean: &[u8]) -> Option<Misuse>
    ensures { result ≡ misused (line_of 0 clean.now) }
{
    if !is_property(clean) {
        return None;
    }
    let body = unindented(clean);
    let equals = end_of(b'=', body);
    if equals == body.len() {
        return None;
    }
    if equals == 0 {
        return None;
    }
    let key = &body[..equals];
    let value = &body[equals + 1..];
    if is_spaced(key, value) {
        return None;
    }
    misuse_of(key, value)
}

/// Adds how a clean property is written that has a blank beside its `=`. The only error, here and below, is `AllocError`.
pub fn push_spaced_hint(text: &mut Vec<u8>, clean: &[u8]) -> Result<(), AllocError>
    ensures { OnOk result
        (text.new.items ≡ text.old.items ++ spaced_hint (line_of 0 clean.now)) }
{
    text.extend_from_slice(b"write ")?;
    push_shown(text, trim(key_of(clean)))?;
    text.push(b'=')?;
    push_shown(text, unindented(value_of(clean)))
}

/// Adds what to do about a misuse in a clean line.
pub fn push_hint_of_misuse(
    text: &mut Vec<u8>,
    misuse: Misuse,
    clean: &[u8],
) -> Result<(), AllocError>
    ensures { OnOk result (text.new.items ≡ text.old.items ++ misuse_hint misuse
        (Lines.key (line_of 0 clean.now)) (Lines.value (line_of 0 clean.now))) }
{
    push_misuse_hint(text, misuse, key_of(clean), value_of(clean))
}

/// Whether the property of a clean line is known.
pub fn has_known_key(clean: &[u8]) -> bool
    ensures { result ≡ is_known (line_of 0 clean.now) }
{
    is_known(key_of(clean))
}

/// Adds what to do about the property of a clean line that isn't read, which is known or not.
pub fn push_unread_hint(text: &mut Vec<u8>, known: bool, clean: &[u8]) -> Result<(), AllocError>
    ensures { OnOk result (text.new.items
        ≡ text.old.items ++ unread_hint known (Lines.key (line_of 0 clean.now))) }
{
    if known {
        push_elsewhere_hint(text, key_of(clean))
    } else {
        push_unknown_hint(text, key_of(clean))
    }
}

/// Adds what the property of a clean line is read with.
pub fn push_unpaired_hint(text: &mut Vec<u8>, clean: &[u8]) -> Result<(), AllocError>
    ensures { OnOk result (text.new.items
        ≡ text.old.items ++ unpaired_hint (Lines.key (line_of 0 clean.now))) }
{
    text.extend_from_slice(b"give its record these too: ")?;
    text.extend_from_slice(companions_of(key_of(clean)))?;
    Ok(())
}
