//! The strings alone, one a line.
ghost use Rattle.std.specs.Prelude.{◌≡◌, ◌++◌, IfOk, OnOk};
ghost use Rattle.hwdb_spec_commands.specs.DeviceTexts;
ghost use Rattle.hwdb_device.specs.Views.{all_found};

use hwdb_ruleasks::Found;
use std::alloc::{AllocError, Global};

/// Adds a text and a newline. The only error, here and below, is `AllocError`.
pub(crate) fn push_line(text: &mut Vec<u8>, line: &[u8]) -> Result<(), AllocError>
    ensures { OnOk result (text.new.items ≡ text.old.items ++ DeviceTexts.line_of line.now) }
{
    text.extend_from_slice(line)?;
    text.push(b'\n')?;
    Ok(())
}

/// What `--strings` prints.
pub(crate) fn strings_text(alloc: Global, found: &[Found<'_>]) -> Result<Vec<u8>, AllocError>
    ensures { IfOk result
        (λ text. text.items ≡ DeviceTexts.strings_text (all_found found.now)) }
{
    let mut text = Vec::new(alloc);
    for one in found {
        push_line(&mut text, &one.text)?;
    }
    Ok(text)
}
