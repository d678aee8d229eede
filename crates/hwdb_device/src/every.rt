//! The strings of all devices of the list, each once, and what is said of what can't be read.
ghost use Rattle.std.specs.List.{list_any};
ghost use Rattle.std.specs.Option.{option_map_or};
ghost use Rattle.std.specs.Prelude.{◌≡◌, ◌++◌, [], IfOk, OnOk, Some, flat_map, map};
ghost use Rattle.hwdb_spec.specs.Folders;
ghost use Rattle.hwdb_spec.specs.Lines.{is, pieces};
ghost use Rattle.hwdb_spec_commands.specs.AllStrings as spec;
ghost use Rattle.hwdb_spec_commands.specs.DeviceTexts.{line_of, text_of};
ghost use Rattle.hwdb_spec_commands.specs.DeviceTree as tree;
ghost use Rattle.hwdb_spec_commands.specs.SysfsAnswers.{seen};
ghost use Rattle.hwdb_sysfs.specs.Views.{device_of};
ghost use Rattle.hwdb_spec_rules.specs.RuleAnswers as rules;
ghost use Rattle.hwdb_spec_rules.specs.RuleAnswers.{asked_at, strings_asked};
ghost use Rattle.hwdb_ruleasks.specs.Views.{file_of};
ghost use Rattle.hwdb_device.specs.Views.{all_found, files_in};

use crate::asking::lookups;
use crate::strings::push_line;
use crate::told::same;
use hwdb_reader::Db;
use hwdb_ruleasks::{Found, RulesFile, told_by_rules};
use hwdb_show::push_name;
use hwdb_sysfs::{
    Device, DeviceFiles, Sysfs, device_of_path, list_links, read_device, unread_of_path,
};
use std::alloc::{AllocError, Global};

/// Whether a text is among others.
fn is_among(text: &[u8], others: &[Vec<u8>]) -> bool
    ensures { result ≡ list_any (Folders.same text.now) (map (λ o. o.items) others.now) }
{
    let mut left = others;
    'others: while let Some((other, rest)) = left.split_first() {
        if same(text, other) {
            return true;
        }
        left = rest;
    }
    false
}

/// Keeps a text, unless it is kept already. The only error, here and below, is want of memory.
fn keep(alloc: Global, kept: &mut Vec<Vec<u8>>, text: &[u8]) -> Result<(), AllocError>
    ensures { OnOk result (map (λ k. k.items) kept.new.items
        ≡ spec.with_text (map (λ k. k.items) kept.old.items) text.now) }
{
    if is_among(text, kept) {
        return Ok(());
    }
    kept.push(Vec::from_slice(alloc, text)?)?;
    Ok(())
}

/// Keeps the strings that were asked.
#[tactic(auto, unfolding(hwdb_spec_commands::specs::AllStrings::with_texts))]
fn keep_found(alloc: Global, kept: &mut Vec<Vec<u8>>, found: &[Found<'_>]) -> Result<(), AllocError>
    ensures { OnOk result (map (λ k. k.items) kept.new.items ≡ spec.with_texts
        (map (λ k. k.items) kept.old.items) (map text_of (all_found found.now))) }
{
    for one in found {
        keep(alloc, kept, &one.text)?;
    }
    Ok(())
}

/// Who tells what strings get: a database. And by which rules strings are asked.
#[derive(Clone, Copy)]
pub struct Asker<'a, 'd> {
    /// The database.
    pub db: &'a Db<'d>,
    /// The rules files; None for the rules that are built in.
    pub files: Option<&'a [RulesFile<'a>]>,
}

/// Keeps the strings that the rules ask for a device that are built in.
fn keep_built_in(
    alloc: Global,
    db: &Db<'_>,
    device: &Device,
    kept: &mut Vec<Vec<u8>>,
) -> Result<(), AllocError>
    ensures { OnOk result (map (λ k. k.items) kept.new.items ≡ spec.with_texts
        (map (λ k. k.items) kept.old.items) (spec.strings_of (device_of device.now) db.now)) }
{
    let found = lookups(alloc, Some(db), device)?;
    keep_found(alloc, kept, &found)
}

/// Keeps those that rules files ask.
fn keep_by_files<'x>(
    alloc: Global,
    db: &'x Db<'_>,
    device: &'x Device,
    files: &'x [RulesFile<'x>],
    kept: &mut Vec<Vec<u8>>,
) -> Result<(), AllocError>
    ensures { OnOk result (map (λ k. k.items) kept.new.items ≡ spec.with_texts
        (map (λ k. k.items) kept.old.items) (strings_asked (Some (map file_of files.now))
        (device_of device.now) db.now)) }
{
    let told = told_by_rules(alloc, Some(db), files, device)?;
    keep_found(alloc, kept, &told.found)
}

/// Keeps the strings that are asked for a device.
fn keep_device(
    alloc: Global,
    asker: Asker<'_, '_>,
    device: &Device,
    kept: &mut Vec<Vec<u8>>,
) -> Result<(), AllocError>
    ensures { OnOk result (map (λ k. k.items) kept.new.items ≡ spec.with_texts
        (map (λ k. k.items) kept.old.items) (strings_asked (files_in asker.entry.files)
        (device_of device.now) asker.entry.db.now)) }
{
    match asker.files {
        None => keep_built_in(alloc, asker.db, device, kept),
        Some(files) => keep_by_files(alloc, asker.db, device, files, kept),
    }
}

/// Keeps those of the device that a link leads to.
#[tactic(auto, unfolding(hwdb_spec_commands::specs::AllStrings::with_texts))]
fn keep_at<F: DeviceFiles>(
    alloc: Global,
    asker: Asker<'_, '_>,
    sysfs: &Sysfs<'_, F>,
    link: &[u8],
    kept: &mut Vec<Vec<u8>>,
) -> Result<(), AllocError>
    ensures { F.tells → OnOk result (map (λ k. k.items) kept.new.items ≡ spec.with_texts
        (map (λ k. k.items) kept.old.items) (asked_at (files_in asker.entry.files)
        (seen (F.answers sysfs.now.files.now)) (pieces (is 10) sysfs.now.names.now)
        sysfs.now.folder.now asker.entry.db.now link.now)) }
{
    let Some(place) = device_of_path(alloc, sysfs.files, sysfs.folder, link)? else {
        return Ok(());
    };
    let device = read_device(alloc, sysfs, &place)?;
    keep_device(alloc, asker, &device, kept)
}

/// The strings of all devices, each once.
#[tactic(auto, unfolding(hwdb_spec_commands::specs::AllStrings::with_texts))]
fn all_asked<F: DeviceFiles>(
    alloc: Global,
    asker: Asker<'_, '_>,
    sysfs: &Sysfs<'_, F>,
) -> Result<Vec<Vec<u8>>, AllocError>
    ensures { F.tells → IfOk result (λ kept. map (λ k. k.items) kept.items ≡ rules.all_asked
        (files_in asker.entry.files) (seen (F.answers sysfs.now.files.now))
        (pieces (is 10) sysfs.now.names.now) sysfs.now.folder.now asker.entry.db.now) }
{
    let links = list_links(alloc, sysfs.files, sysfs.folder)?;
    let mut kept = Vec::new(alloc);
    let mut left = links.as_slice();
    'links: while let Some((link, rest)) = left.split_first() {
        keep_at(alloc, asker, sysfs, link, &mut kept)?;
        left = rest;
    }
    Ok(kept)
}

/// A line for each text.
fn lines_text(alloc: Global, texts: &[Vec<u8>]) -> Result<Vec<u8>, AllocError>
    ensures { IfOk result
        (λ text. text.items ≡ flat_map line_of (map (λ t. t.items) texts.now)) }
{
    let mut text = Vec::new(alloc);
    let mut left = texts;
    'texts: while let Some((one, rest)) = left.split_first() {
        push_line(&mut text, one)?;
        left = rest;
    }
    Ok(text)
}

/// The strings that are asked for the devices of the list, by rules files or by the rules that are built in: each once and a line each, in
/// the order in which they are first seen.
///
/// The only error is want of memory. Reads each device once. Each string is compared with those before it.
pub fn all_asked_text<F: DeviceFiles>(
    alloc: Global,
    asker: Asker<'_, '_>,
    sysfs: &Sysfs<'_, F>,
) -> Result<Vec<u8>, AllocError>
    ensures { F.tells → IfOk result (λ text. text.items ≡ rules.all_asked_text
        (files_in asker.entry.files) (seen (F.answers sysfs.now.files.now))
        (pieces (is 10) sysfs.now.names.now) sysfs.now.folder.now asker.entry.db.now) }
{
    let kept = all_asked(alloc, asker, sysfs)?;
    lines_text(alloc, &kept)
}

/// Adds the line of a path that can't be read.
fn push_unread(text: &mut Vec<u8>, path: &[u8]) -> Result<(), AllocError>
    ensures { OnOk result (text.new.items ≡ text.old.items ++ spec.unread_line path.now) }
{
    text.extend_from_slice(b"hwdb: cannot read ")?;
    push_name(text, path)?;
    text.push(b'\n')?;
    Ok(())
}

/// Adds the line of what can't be read where a link leads.
fn push_if_unread<F: DeviceFiles>(
    alloc: Global,
    files: &F,
    sys: &[u8],
    link: &[u8],
    text: &mut Vec<u8>,
) -> Result<(), AllocError>
    ensures { F.tells → OnOk result (text.new.items ≡ text.old.items ++ option_map_or
        spec.unread_line (tree.unread_of_path (seen (F.answers files.now)) sys.now link.now) []) }
{
    match unread_of_path(alloc, files, sys, link)? {
        Some(unread) => push_unread(text, &unread.path),
        None => Ok(()),
    }
}

/// The same, unless a device is there.
fn push_unread_at<F: DeviceFiles>(
    alloc: Global,
    files: &F,
    sys: &[u8],
    link: &[u8],
    text: &mut Vec<u8>,
) -> Result<(), AllocError>
    ensures { F.tells → OnOk result (text.new.items ≡ text.old.items
        ++ spec.unread_at (seen (F.answers files.now)) sys.now link.now) }
{
    match device_of_path(alloc, files, sys, link)? {
        Some(_place) => Ok(()),
        None => push_if_unread(alloc, files, sys, link, text),
    }
}

/// What is said of what can't be read, so that it can't be told whether a device is there: a line for each.
///
/// The only error is want of memory.
pub fn unread_lines<F: DeviceFiles>(
    alloc: Global,
    files: &F,
    sys: &[u8],
) -> Result<Vec<u8>, AllocError>
    ensures { F.tells → IfOk result (λ text. text.items
        ≡ spec.unread_lines (seen (F.answers files.now)) sys.now) }
{
    let links = list_links(alloc, files, sys)?;
    let mut text = Vec::new(alloc);
    let mut left = links.as_slice();
    'links: while let Some((link, rest)) = left.split_first() {
        push_unread_at(alloc, files, sys, link, &mut text)?;
        left = rest;
    }
    Ok(text)
}
