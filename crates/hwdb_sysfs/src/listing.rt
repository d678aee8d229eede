//! The paths of all devices.
ghost use Rattle.std.specs.Prelude.{◌≡◌, ◌++◌, IfOk, OnOk, map};
ghost use Rattle.hwdb_spec_commands.specs.DeviceTree as tree;
ghost use Rattle.hwdb_spec_commands.specs.SysfsAnswers.{seen};

use crate::files::DeviceFiles;
use crate::finding::folders_with_links;
use crate::names::names_in;
use crate::paths::{joined, path_in};
use std::alloc::{AllocError, Global};

/// Adds the paths of what a folder lists.
fn push_links<F: DeviceFiles>(
    alloc: Global,
    files: &F,
    folder: &[u8],
    links: &mut Vec<Vec<u8>>,
) -> Result<(), AllocError>
    ensures { F.tells → OnOk result (map (λ p. p.items) links.new.items
        ≡ map (λ p. p.items) links.old.items
        ++ tree.links_in (seen (F.answers files.now)) folder.now) }
{
    let names = names_in(alloc, files, folder)?;
    for name in &names {
        links.push(path_in(alloc, folder, name)?)?;
    }
    Ok(())
}

/// Adds the paths of what a folder lists, unless it is that of input devices.
fn push_others<F: DeviceFiles>(
    alloc: Global,
    files: &F,
    input: &[u8],
    folder: &[u8],
    links: &mut Vec<Vec<u8>>,
) -> Result<(), AllocError>
    ensures { F.tells → OnOk result (map (λ p. p.items) links.new.items
        ≡ map (λ p. p.items) links.old.items
        ++ tree.other_links (seen (F.answers files.now)) input.now folder.now) }
{
    if folder.cmp(input).is_eq() {
        return Ok(());
    }
    push_links(alloc, files, folder, links)
}

/// The paths of all that classes and buses list: those of input devices first, and each class and bus by name. `device_of_path` tells
/// the device that a path leads to.
///
/// The only error is want of memory.
pub fn list_links<F: DeviceFiles>(
    alloc: Global,
    files: &F,
    sys: &[u8],
) -> Result<Vec<Vec<u8>>, AllocError>
    ensures { F.tells → IfOk result (λ links. map (λ p. p.items) links.items
        ≡ tree.all_links (seen (F.answers files.now)) sys.now) }
{
    let mut links = Vec::new(alloc);
    let input = joined(alloc, sys, b"/class/input")?;
    push_links(alloc, files, &input, &mut links)?;
    let folders = folders_with_links(alloc, files, sys)?;
    for folder in &folders {
        push_others(alloc, files, &input, folder, &mut links)?;
    }
    Ok(links)
}
