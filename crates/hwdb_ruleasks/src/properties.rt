//! The properties that a device begins with.
ghost use Rattle.std.specs.Prelude.{◌≡◌, ◌≤◌, ◌++◌, flat_map, length, map, IfOk, OnOk};
ghost use Rattle.std.specs.List.{after_first, before_first, position_or_len};
ghost use Rattle.hwdb_spec.specs.Lines.{is, pieces};
ghost use Rattle.hwdb_rulerun.specs.Views.{known_of};
ghost use Rattle.hwdb_ruleevents.specs.ChangeViews.{change_of};
ghost use Rattle.hwdb_sysfs.specs.Views.{ancestor_of};
ghost use Rattle.hwdb_spec_rules.specs.RuleSights;

use crate::sights::some_known;
use hwdb_ruleevents::Change;
use hwdb_rulerun::{Known, begins_with, has_byte};
use hwdb_sysfs::Ancestor;
use hwdb_text::Lines;
use std::alloc::{AllocError, Global};

/// What is known of a property that the kernel tells.
fn told_property<'a>(name: &[u8], value: &'a [u8]) -> Known<'a>
    ensures { known_of result ≡ RuleSights.told_property name.now value.now }
{
    if name == b"DEVNAME".as_slice() {
        if begins_with(b'/', value) {
            Known::Text(value)
        } else {
            Known::Unknown
        }
    } else {
        some_known(value)
    }
}

/// How many bytes come before the first =.
fn name_len(line: &[u8]) -> usize
    ensures value { result ≡ position_or_len (is 61) line.now }
    ensures within { result ≤ length line.now }
{
    let mut at = 0;
    while at < line.len() && line[at] != b'=' {
        at += 1;
    }
    at
}

/// What comes before the first =.
fn name_of(line: &[u8]) -> &[u8]
    ensures { result.now ≡ before_first (is 61) line.now }
{
    &line[..name_len(line)]
}

/// What comes after the first =.
fn value_of(line: &[u8]) -> &[u8]
    ensures { result.now ≡ after_first (is 61) line.now }
{
    let len = name_len(line);
    if len < line.len() {
        &line[len + 1..]
    } else {
        &[]
    }
}

/// Adds the property of a line of the file `uevent`. The only error, here and below, is `AllocError`.
fn push_line<'a>(all: &mut Vec<Change<'a>>, line: &'a [u8]) -> Result<(), AllocError>
    ensures { OnOk result (map change_of all.new.items
        ≡ map change_of all.old.items ++ RuleSights.line_property line.now) }
{
    if has_byte(b'=', line) {
        let name = name_of(line);
        all.push(Change::Put(name, told_property(name, value_of(line))))?;
    }
    Ok(())
}

/// Adds the properties of the file `uevent`.
fn push_uevent<'a>(all: &mut Vec<Change<'a>>, uevent: &'a [u8]) -> Result<(), AllocError>
    ensures { OnOk result (map change_of all.new.items ≡ map change_of all.old.items
        ++ flat_map RuleSights.line_property (pieces (is 10) uevent.now)) }
{
    for line in Lines::new(uevent) {
        push_line(all, line)?;
    }
    Ok(())
}

/// What udev and the kernel set besides.
fn own_records<'a>(alloc: Global) -> Result<Vec<Change<'a>>, AllocError>
    ensures { IfOk result (λ all. map change_of all.items ≡ RuleSights.own_records) }
{
    let mut all = Vec::new(alloc);
    all.push(Change::Open(b"SEQNUM"))?;
    all.push(Change::Open(b"SYNTH_"))?;
    all.push(Change::Open(b"USEC_INITIALIZED"))?;
    all.push(Change::Open(b"UDEV_"))?;
    all.push(Change::Open(b"TAGS"))?;
    all.push(Change::Open(b"CURRENT_TAGS"))?;
    all.push(Change::Open(b"DEVLINKS"))?;
    Ok(all)
}

/// The properties that a device begins with, at an action.
pub(crate) fn first_properties<'a>(
    alloc: Global,
    action: &'a [u8],
    own: &'a Ancestor,
) -> Result<Vec<Change<'a>>, AllocError>
    ensures { IfOk result (λ all. map change_of all.items
        ≡ RuleSights.first_properties action.now (ancestor_of own.now)) }
{
    let mut all = own_records(alloc)?;
    push_uevent(&mut all, &own.uevent)?;
    all.push(Change::Put(b"ACTION", Known::Text(action)))?;
    all.push(Change::Put(b"DEVPATH", Known::Text(&own.path)))?;
    all.push(Change::Put(b"SUBSYSTEM", some_known(&own.subsystem)))?;
    Ok(all)
}
