//! The match lines that udev can't take: what `update --verbose` says of them.
ghost use Rattle.std.specs.Prelude.{◌≡◌, ◌++◌, flat_map, OnOk};
ghost use Rattle.hwdb_spec.specs.Lines.{lines};
ghost use Rattle.hwdb_spec_commands.specs.Progress.{too_long_line};
ghost use Rattle.hwdb_check.specs.Internal.{line_of};

use crate::line_warnings::is_too_long;
use crate::warnings::push_warning_line;
use hwdb_spec_commands::WarningKind;
use hwdb_text::{Content, Lines, content_of};
use std::alloc::AllocError;

/// Adds the warning of a line, if it is such a match line. The only error, here and below, is `AllocError`.
fn push_line(text: &mut Vec<u8>, path: &[u8], number: u64, line: &[u8]) -> Result<(), AllocError>
    ensures { OnOk result (text.new.items
        ≡ text.old.items ++ too_long_line path.now (line_of number line.now)) }
{
    match content_of(line) {
        Content::Match(clean) => {
            if is_too_long(clean) {
                return push_warning_line(text, path, number, WarningKind::TooLongForUdev);
            }
            Ok(())
        }
        Content::Comment => Ok(()),
        Content::ZeroByte => Ok(()),
        Content::Empty => Ok(()),
        Content::Property(_) => Ok(()),
    }
}

/// Adds the warning of each match line of a file that udev can't take, as `check` has it.
#[tactic(auto, unfolding(hwdb_spec::specs::Lines::numbered))]
pub fn push_too_long(text: &mut Vec<u8>, path: &[u8], bytes: &[u8]) -> Result<(), AllocError>
    ensures { OnOk result (text.new.items
        ≡ text.old.items ++ flat_map (too_long_line path.now) (lines bytes.now)) }
{
    let mut number = 1;
    for line in Lines::new(bytes) {
        push_line(text, path, number, line)?;
        number += 1;
    }
    Ok(())
}
