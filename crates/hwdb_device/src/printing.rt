//! What is printed of a device.
ghost use Rattle.std.specs.Prelude.{◌≡◌, ◌++◌, if◌then◌else◌, map, IfOk};
ghost use Rattle.hwdb_spec_commands.specs.DeviceRecords.{records_text};
ghost use Rattle.hwdb_spec_commands.specs.DeviceTexts;
ghost use Rattle.hwdb_spec_commands.specs.NearAsked.{database_patterns};
ghost use Rattle.hwdb_spec_commands.specs.Sysfs.{cut_short};
ghost use Rattle.hwdb_spec_commands.specs.DeviceTexts.{told_by};
ghost use Rattle.hwdb_spec_rules.specs.RuleStrings.{found_by_rules, whys_by_rules};
ghost use Rattle.hwdb_spec_rules.specs.RuleWhys.{whys_form};
ghost use Rattle.hwdb_sysfs.specs.Views.{device_of};
ghost use Rattle.hwdb_ruleasks.specs.Views.{file_of};
ghost use Rattle.hwdb_device.specs.Views.{all_found};

use crate::asking::lookups;
use crate::json_lines::lookups_json;
use crate::nearest::push_nearest;
use crate::records::records_text;
use crate::strings::strings_text;
use crate::texts::{lookups_text, subsystem_of};
use crate::whys::whys_form;
use hwdb_reader::Db;
use hwdb_ruleasks::{Found, RulesFile, told_by_rules};
use hwdb_rules::machine_text;
use hwdb_spec_commands::DeviceForm;
use hwdb_spec_rules::RulesForm;
use hwdb_sysfs::Device;
use std::alloc::{AllocError, Global};

/// What is printed without options: the strings and what they give, and what is near to those that get nothing. The only error, here
/// and below, is `AllocError`.
fn whole_text(
    alloc: Global,
    db: &Db<'_>,
    device: &Device,
    found: &[Found<'_>],
) -> Result<Vec<u8>, AllocError>
    ensures { IfOk result (λ text. text.items
        ≡ DeviceTexts.lookups_text (device_of device.now) (all_found found.now)
        ++ DeviceTexts.nearest_text (database_patterns db.now) (all_found found.now)) }
{
    let mut text = lookups_text(alloc, device, found)?;
    push_nearest(alloc, &mut text, db, found)?;
    Ok(text)
}

/// The records to begin with.
fn records(alloc: Global, device: &Device, found: &[Found<'_>]) -> Result<Vec<u8>, AllocError>
    ensures { IfOk result (λ text. text.items
        ≡ records_text (DeviceTexts.subsystem_of (device_of device.now).chain)
        (cut_short device.now.machine.items) (all_found found.now)) }
{
    let machine = machine_text(alloc, device)?;
    records_text(alloc, subsystem_of(device), &machine, found)
}

/// What is printed of strings that are asked for a device.
fn found_form(
    alloc: Global,
    db: &Db<'_>,
    device: &Device,
    found: &[Found<'_>],
    form: DeviceForm,
) -> Result<Vec<u8>, AllocError>
    ensures { IfOk result (λ text. text.items ≡ DeviceTexts.found_form form
        (device_of device.now) (database_patterns db.now) (all_found found.now)) }
{
    match form {
        DeviceForm::Lookups => whole_text(alloc, db, device, found),
        DeviceForm::Strings => strings_text(alloc, found),
        DeviceForm::Json => lookups_json(alloc, device, found),
        DeviceForm::Pattern => records(alloc, device, found),
    }
}

/// What `device` prints of a device, over a database.
///
/// Each string that udev asks is asked, in its order: a walk ends with an answer. The memory is that of all answers, and a
/// few copies of their keys. Takes time in proportion to the keys times the properties, beside that of the answers.
///
/// Without options the database is walked once, and the memory is also that of all its assignments.
pub fn device_text(
    alloc: Global,
    db: &Db<'_>,
    device: &Device,
    form: DeviceForm,
) -> Result<Vec<u8>, AllocError>
    ensures text { IfOk result
        (λ text. text.items ≡ DeviceTexts.device_text form (device_of device.now) db.now) }
{
    let found = lookups(alloc, Some(db), device)?;
    found_form(alloc, db, device, &found, form)
}

/// What `device --udev system` and `device --why` print of a device, over a database, by the machine's own rules files.
///
/// The rules are tried twice. Each string that they ask is asked, in its order: a walk ends with an answer.
///
/// # Errors
///
/// `AllocError` at any allocation that fails.
pub fn rules_text<'x>(
    alloc: Global,
    db: &'x Db<'_>,
    device: &'x Device,
    files: &'x [RulesFile<'x>],
    form: RulesForm,
) -> Result<Vec<u8>, AllocError>
    ensures { IfOk result (λ text. text.items ≡ if form.why
        then whys_form form.form
        (whys_by_rules (told_by db.now) (map file_of files.now) (device_of device.now))
        else DeviceTexts.found_form form.form (device_of device.now) (database_patterns db.now)
        (found_by_rules (told_by db.now) (map file_of files.now) (device_of device.now))) }
{
    let told = told_by_rules(alloc, Some(db), files, device)?;
    if form.why {
        whys_form(alloc, form.form, &told.whys)
    } else {
        found_form(alloc, db, device, &told.found, form.form)
    }
}
