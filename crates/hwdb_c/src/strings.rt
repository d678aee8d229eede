//! Properties as C's strings.
ghost use Rattle.std.specs.Prelude.{◌≡◌, ◌++◌, IfOk, OnOk};
ghost use Rattle.hwdb_query.specs.Views.{pairs_bytes};
ghost use Rattle.hwdb_spec.specs.Library.{property_strings, strings_of};

use std::alloc::{AllocError, Global};

/// The key and the value of each property, a byte 0 after each.
pub fn write_strings(alloc: Global, properties: &[(&[u8], &[u8])]) -> Result<Vec<u8>, AllocError>
    ensures { IfOk result (λ text. text.items ≡ strings_of (pairs_bytes properties.now)) }
{
    let mut text = Vec::new(alloc);
    for (key, value) in properties {
        push_strings(&mut text, key, value)?;
    }
    Ok(text)
}

/// Adds a key and a value, with a byte 0 after each.
fn push_strings(text: &mut Vec<u8>, key: &[u8], value: &[u8]) -> Result<(), AllocError>
    ensures { OnOk result
        (text.new.items ≡ text.old.items ++ property_strings (key.now, value.now)) }
{
    text.extend_from_slice(key)?;
    text.push(0)?;
    text.extend_from_slice(value)?;
    text.push(0)?;
    Ok(())
}
