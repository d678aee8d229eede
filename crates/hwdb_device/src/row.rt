//! The line of a device in a list.
ghost use Rattle.std.specs.Prelude.{◌≡◌, ◌++◌, [], if◌then◌else◌, map, option_map, IfOk, OnOk};
ghost use Rattle.hwdb_spec_commands.specs.DeviceTexts;
ghost use Rattle.hwdb_spec.specs.Lines.{is_none};
ghost use Rattle.hwdb_sysfs.specs.Views.{ancestor_of, device_of};
ghost use Rattle.hwdb_device.specs.Views.{all_found};

use crate::asking::lookups;
use crate::strings::push_line;
use hwdb_ruleasks::Found;
use hwdb_rules::first_text;
use hwdb_show::push_name;
use hwdb_sysfs::{Ancestor, Device};
use std::alloc::{AllocError, Global};

/// How a device is called: by the attribute `name` of it or a parent, or else by `product`.
pub(crate) fn title(chain: &[Ancestor]) -> Option<&[u8]>
    ensures { option_map (λ t. t.now) result ≡ DeviceTexts.called (map ancestor_of chain.now) }
{
    match first_text(chain, b"name") {
        Some(name) => Some(name),
        None => first_text(chain, b"product"),
    }
}

/// Adds how a device is called, after two spaces. The only error, here and below, is `AllocError`.
fn push_title(row: &mut Vec<u8>, chain: &[Ancestor]) -> Result<(), AllocError>
    ensures { OnOk result
        (row.new.items ≡ row.old.items ++ DeviceTexts.title_of (map ancestor_of chain.now)) }
{
    let Some(title) = title(chain) else {
        return Ok(());
    };
    row.extend_from_slice(b"  ")?;
    row.extend_from_slice(title)
}

/// The kernel's name of a device, and how it is called.
fn row_of(alloc: Global, chain: &[Ancestor]) -> Result<Vec<u8>, AllocError>
    ensures { IfOk result (λ row. row.items ≡ DeviceTexts.row_of (map ancestor_of chain.now)) }
{
    let mut row = Vec::new(alloc);
    let Some((own, _parents)) = chain.split_first() else {
        return Ok(row);
    };
    push_name(&mut row, &own.name)?;
    push_title(&mut row, chain)?;
    push_line(&mut row, b"")?;
    Ok(row)
}

/// The line of a device, if strings are asked for it; else nothing.
fn row_if_asked(
    alloc: Global,
    chain: &[Ancestor],
    found: &[Found<'_>],
) -> Result<Vec<u8>, AllocError>
    ensures { IfOk result (λ row. row.items ≡ if is_none (all_found found.now) then []
        else DeviceTexts.row_of (map ancestor_of chain.now)) }
{
    if found.is_empty() {
        return Ok(Vec::new(alloc));
    }
    row_of(alloc, chain)
}

/// The line of a device in the list of all; empty if nothing is asked for it.
pub fn device_row(alloc: Global, device: &Device) -> Result<Vec<u8>, AllocError>
    ensures row { IfOk result
        (λ text. text.items ≡ DeviceTexts.device_row (device_of device.now)) }
{
    let found = lookups(alloc, None, device)?;
    row_if_asked(alloc, &device.chain, &found)
}
