//! `device --all`: the strings of all devices. Nothing is written.
ghost use Rattle.std.specs.Prelude.{◌≡◌, option_map, IfErr, IfOk};
ghost use Rattle.hwdb_spec_commands.specs.DatabaseErrors.{IsDatabaseRefusal};
ghost use Rattle.hwdb_spec_commands.specs.Databases.{IsTextOf};
ghost use Rattle.hwdb_spec_commands.specs.SysfsAnswers.{sight_by};
ghost use Rattle.hwdb_spec.specs.Lines.{is, pieces};
ghost use Rattle.hwdb_spec_program.specs.DeviceErrors.{asked_names};
ghost use Rattle.hwdb_spec_rules.specs.RuleAnswers as rules;
ghost use Rattle.hwdb_device.specs.Views.{files_in};
ghost use Rattle.hwdb_plan.specs.Asking.{asked};
ghost use Rattle.hwdb_plan.specs.Device as plan;
ghost use Rattle.hwdb_plan.specs.Sysfs.{OfCause};
ghost use Rattle.hwdb_plan.specs.Plans.{Follows};
ghost use Rattle.hwdb_tool.specs.Views.{end_of};

use crate::answer::Answer;
use crate::databases::{asked, refused_database};
use crate::device_command::{Below, by_rules, device, devices_are_told};
use crate::missing::sysfs_of;
use crate::over_text::misused;
use crate::reported::DeviceQuestion;
use crate::rules_device::whose;
use hwdb_answers::ToolError;
use hwdb_device::{Asker, DeviceForm, all_asked_text, unread_lines};
use hwdb_reader::check;
use hwdb_ruleasks::RulesFile;
use hwdb_spec_rules::Whose;
use hwdb_sysfs::{DeviceFiles, Sysfs};
use hwdb_system::{Machine, Refusal};
use std::alloc::Global;

/// What is said of `--all`, if it is given with a device or without `--strings`.
pub(crate) fn all_misuse(form: DeviceForm, given: Option<&str>) -> Option<&'static str>
    ensures { option_map (λ t. t.now) result
        ≡ plan.all_misuse form (option_map (λ t. t.now) given.entry) }
{
    if given.is_some() {
        return Some("--all and DEVICE are two choices: leave out one of them");
    }
    match form {
        DeviceForm::Strings => None,
        _ => Some("--all needs --strings, without --json and --pattern"),
    }
}

/// As `device`; and with `all` the strings of all devices below the root, each once, over the database there. That is read once. The status
/// is 0, also if a device can't be read: then a line on standard error says so.
pub fn devices<D: Machine>(
    alloc: Global,
    question: DeviceQuestion<'_>,
    system: &D,
) -> Result<Answer, Refusal>
    ensures status { IfOk result (λ a. a.status ≡ 0) }
    ensures follows { D.Store.tells → OfCause (λ cause. Follows end_of
        (D.System.reads system.now) (plan.device_asked (sight_by D.answers system.now) cause
        asked_names question.entry.root.now question.entry.form
        (option_map (λ t. t.now) question.entry.udev) question.entry.all
        (option_map (λ t. t.now) question.entry.given)) result) }
{
    let DeviceQuestion {
        root,
        given,
        form,
        udev,
        all,
    } = question;
    let by = whose(udev, form);
    if all {
        every(alloc, root, given, form, by, system)
    } else {
        device(alloc, root, given, by, system)
    }
}

/// The strings of all devices, unless other words don't fit.
pub(crate) fn every<D: Machine>(
    alloc: Global,
    root: &str,
    given: Option<&str>,
    form: DeviceForm,
    whose: Whose,
    system: &D,
) -> Result<Answer, Refusal>
    ensures status { IfOk result (λ a. a.status ≡ 0) }
    ensures follows { D.Store.tells → OfCause (λ cause. Follows end_of
        (D.System.reads system.now) (plan.every_plan (sight_by D.answers system.now) cause
        asked_names root.now form whose (option_map (λ t. t.now) given.entry)) result) }
{
    match all_misuse(form, given) {
        Some(text) => Err(misused(alloc, text)),
        None => strings_below(alloc, root, whose, system),
    }
}

/// The strings of all devices below the root.
fn strings_below<D: Machine>(
    alloc: Global,
    root: &str,
    whose: Whose,
    system: &D,
) -> Result<Answer, Refusal>
    ensures status { IfOk result (λ a. a.status ≡ 0) }
    ensures follows { D.Store.tells → OfCause (λ cause. Follows end_of
        (D.System.reads system.now) (plan.strings_plan (sight_by D.answers system.now) cause
        asked_names root.now whose) result) }
{
    devices_are_told(system);
    let sys = sysfs_of(alloc, root, system)?;
    let below = Below {
        root,
        sys: &sys,
        system,
    };
    by_rules(alloc, &below, None, whose)
}

/// What is printed of all devices of sysfs, by rules files or by the rules that are built in, over the database below the root. What can't be
/// read is told.
pub(crate) fn strings_shown<D: Machine>(
    alloc: Global,
    root: &str,
    sysfs: &Sysfs<'_, D>,
    files: Option<&[RulesFile<'_>]>,
) -> Result<Answer, Refusal>
    ensures status { IfOk result (λ a. a.status ≡ 0) }
    ensures follows { D.Store.tells → Follows end_of (D.System.reads sysfs.now.files.now)
        (asked root.now (plan.strings_answer (sight_by D.answers sysfs.now.files.now)
        (files_in files.entry) (pieces (is 10) sysfs.now.names.now) sysfs.now.folder.now))
        result }
{
    devices_are_told(sysfs.files);
    let found = asked(alloc, root, sysfs.files)?;
    let told = unread_lines(alloc, sysfs.files, sysfs.folder)?;
    match strings_over(alloc, &found.bytes, sysfs, files) {
        Ok(text) => Ok(Answer::with_error(told, text, 0)),
        Err(error) => Err(refused_database(alloc, error, found.path.as_bytes())),
    }
}

/// The same over the bytes of a database.
pub(crate) fn strings_over<F: DeviceFiles>(
    alloc: Global,
    bytes: &[u8],
    sysfs: &Sysfs<'_, F>,
    files: Option<&[RulesFile<'_>]>,
) -> Result<Vec<u8>, ToolError>
    ensures text { F.tells → IfOk result (λ text. IsTextOf (rules.all_asked_text
        (files_in files.entry) (sight_by F.answers sysfs.now.files.now)
        (pieces (is 10) sysfs.now.names.now) sysfs.now.folder.now) bytes.now text.items) }
    ensures refusals { IfErr result (IsDatabaseRefusal bytes.now) }
{
    let db = check(bytes)?;
    let asker = Asker { db: &db, files };
    Ok(all_asked_text(alloc, asker, sysfs)?)
}
