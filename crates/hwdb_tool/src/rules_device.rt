//! `device --udev system` and `device --why`: what the machine's own rules files ask for a device, what that gets, and why. Nothing is written.
ghost use Rattle.std.specs.Prelude.{◌≡◌, List, Some, false, if◌then◌else◌, map, option_map, IfErr, IfOk};
ghost use Rattle.hwdb_spec.specs.Folders.{Source};
ghost use Rattle.hwdb_spec.specs.Lines.{is, pieces};
ghost use Rattle.hwdb_spec_commands.specs.DeviceTree.{device_at};
ghost use Rattle.hwdb_spec_commands.specs.DatabaseErrors.{IsDatabaseRefusal};
ghost use Rattle.hwdb_spec_commands.specs.Databases.{IsTextOf};
ghost use Rattle.hwdb_spec_commands.specs.DeviceTexts.{found_form, told_by};
ghost use Rattle.hwdb_spec_commands.specs.NearAsked.{database_patterns};
ghost use Rattle.hwdb_spec_commands.specs.SysfsAnswers.{sight_by};
ghost use Rattle.hwdb_spec_program.specs.DeviceErrors.{asked_names};
ghost use Rattle.hwdb_spec_rules.specs.RuleAnswers as rules;
ghost use Rattle.hwdb_spec_rules.specs.RuleStrings.{found_by_rules, whys_by_rules};
ghost use Rattle.hwdb_spec_rules.specs.RuleWhys.{whys_form};
ghost use Rattle.hwdb_spec_rules.specs.declared.forms.Whose.TheVariants.{Own, OwnFirst};
ghost use Rattle.hwdb_system.specs.OwnRules.{sources_in};
ghost use Rattle.hwdb_sysfs.specs.Views.{device_of};
ghost use Rattle.hwdb_ruleasks.specs.Views.{file_of};
ghost use Rattle.hwdb_plan.specs.Asking.{asked};
ghost use Rattle.hwdb_plan.specs.Device as plan;
ghost use Rattle.hwdb_plan.specs.Sysfs.{OfCause};
ghost use Rattle.hwdb_plan.specs.Plans.{Follows};
ghost use Rattle.hwdb_tool.specs.Views.{end_of};

use crate::answer::Answer;
use crate::databases::{asked, refused_database};
use crate::device_command::{Below, by_built_in, devices_are_told, meant};
use crate::every_device::{every, strings_shown};
use crate::over_text::misused;
use hwdb_answers::ToolError;
use hwdb_device::{DeviceForm, rules_text};
use hwdb_reader::check;
use hwdb_ruleasks::{RulesFile, files_in, names_text, parsed_files};
use hwdb_spec_rules::{RulesForm, Whose};
use hwdb_sysfs::{Device, Sysfs, read_device};
use hwdb_system::{Machine, Refusal, RulesRead, System, own_rules};
use std::alloc::Global;

/// Whether the words ask for the machine's own rules alone.
pub(crate) fn wants_rules(why: bool, udev: Option<&str>) -> bool
    ensures { result ≡ rules.wants_rules why (option_map (λ t. t.now) udev.entry) }
{
    match udev {
        None => why,
        Some(which) => { if which == "built-in" { why } else { true } }
    }
}

/// Whose rules count, if the words don't ask for the machine's own. If they name none, its own ones come first.
pub(crate) fn whose(udev: Option<&str>, form: DeviceForm) -> Whose
    ensures { result ≡ rules.whose (option_map (λ t. t.now) udev.entry) form }
{
    match udev {
        None => Whose::OwnFirst(form),
        Some(_) => Whose::BuiltIn(form),
    }
}

/// What is said if no device is named, or others are asked for.
fn needs_device(why: bool) -> &'static str
    ensures { result.now ≡ rules.needs_device why }
{
    if why {
        "--why needs DEVICE, without --all and --from"
    } else {
        "--udev system needs DEVICE or --all, without --from"
    }
}

/// What is said of whose rules count.
fn which_misuse(udev: Option<&str>) -> Option<&'static str>
    ensures { option_map (λ t. t.now) result
        ≡ rules.which_misuse (option_map (λ t. t.now) udev.entry) }
{
    match udev {
        None => None,
        Some(which) => {
            if which == "system" {
                None
            } else if which == "built-in" {
                Some("--why tells of the machine's own rules: leave out --udev built-in")
            } else {
                Some("--udev takes system or built-in")
            }
        }
    }
}

/// What is said of devices.
fn device_misuse(why: bool, given: Option<&str>, all: bool, from: bool) -> Option<&'static str>
    ensures { option_map (λ t. t.now) result
        ≡ rules.device_misuse why (option_map (λ t. t.now) given.entry) all from }
{
    if from {
        return Some(needs_device(why));
    }
    if all {
        return if why { Some(needs_device(why)) } else { None };
    }
    if given.is_some() {
        None
    } else {
        Some(needs_device(why))
    }
}

/// What is said of forms.
fn form_misuse(why: bool, form: DeviceForm) -> Option<&'static str>
    ensures { option_map (λ t. t.now) result ≡ rules.form_misuse why form }
{
    if !why {
        return None;
    }
    match form {
        DeviceForm::Strings => Some("--why goes without --strings and --pattern"),
        DeviceForm::Pattern => Some("--why goes without --strings and --pattern"),
        _ => None,
    }
}

/// What is asked of the machine's own rules.
#[derive(Clone, Copy)]
pub struct RulesQuestion<'q> {
    /// The folder in whose place `/` stands.
    pub root: &'q str,
    /// The device; none if none is named.
    pub given: Option<&'q str>,
    /// Whether all devices are asked for.
    pub all: bool,
    /// What is printed.
    pub form: RulesForm,
}

/// What is said of words that don't fit: the first of these.
fn rules_misuse(question: RulesQuestion<'_>, udev: Option<&str>, from: bool) -> Option<&'static str>
    ensures { option_map (λ t. t.now) result ≡ rules.rules_misuse question.entry.form
        (option_map (λ t. t.now) udev.entry) (option_map (λ t. t.now) question.entry.given)
        question.entry.all from }
{
    let RulesQuestion {
        root: _,
        given,
        all,
        form,
    } = question;
    if let Some(text) = which_misuse(udev) {
        return Some(text);
    }
    if let Some(text) = device_misuse(form.why, given, all, from) {
        return Some(text);
    }
    form_misuse(form.why, form.form)
}

/// What the machine's own rules files below the root ask for a device or for all, and what the database there gives it, if the words fit.
/// The status is 0.
pub(crate) fn own_device<D: Machine>(
    alloc: Global,
    udev: Option<&str>,
    from: bool,
    question: RulesQuestion<'_>,
    system: &D,
) -> Result<Answer, Refusal>
    ensures status { IfOk result (λ a. a.status ≡ 0) }
    ensures follows { D.Store.tells → OfCause (λ cause. Follows end_of
        (D.System.reads system.now) (plan.own_plan (sight_by D.answers system.now) cause
        asked_names question.entry.root.now question.entry.form
        (option_map (λ t. t.now) udev.entry) (option_map (λ t. t.now) question.entry.given)
        question.entry.all from) result) }
{
    match rules_misuse(question, udev, from) {
        Some(text) => Err(misused(alloc, text)),
        None => searched(alloc, question, system),
    }
}

/// The same of words that fit.
fn searched<D: Machine>(
    alloc: Global,
    question: RulesQuestion<'_>,
    system: &D,
) -> Result<Answer, Refusal>
    ensures status { IfOk result (λ a. a.status ≡ 0) }
    ensures follows { D.Store.tells → OfCause (λ cause. Follows end_of
        (D.System.reads system.now) (plan.by_rules_plan (sight_by D.answers system.now) cause
        asked_names question.entry.root.now question.entry.form question.entry.all
        (option_map (λ t. t.now) question.entry.given)) result) }
{
    let RulesQuestion {
        root,
        given,
        all,
        form,
    } = question;
    if all {
        every(alloc, root, given, form.form, Whose::Own(form), system)
    } else {
        one(alloc, root, given, form, system)
    }
}

/// The same of one device.
fn one<D: Machine>(
    alloc: Global,
    root: &str,
    given: Option<&str>,
    form: RulesForm,
    system: &D,
) -> Result<Answer, Refusal>
    ensures status { IfOk result (λ a. a.status ≡ 0) }
    ensures follows { D.Store.tells → OfCause (λ cause. Follows end_of
        (D.System.reads system.now) (plan.by_rules_plan (sight_by D.answers system.now) cause
        asked_names root.now form false (option_map (λ t. t.now) given.entry)) result) }
{
    match given {
        None => Err(misused(alloc, needs_device(form.why))),
        Some(given) => meant(alloc, root, given.as_bytes(), Whose::Own(form), system),
    }
}

/// What is printed of the device at a place, or without a place of all devices, by the machine's own rules files.
pub(crate) fn by_own<D: Machine>(
    alloc: Global,
    below: &Below<'_, D>,
    place: Option<&[u8]>,
    form: RulesForm,
) -> Result<Answer, Refusal>
    ensures status { IfOk result (λ a. a.status ≡ 0) }
    ensures follows { D.Store.tells → Follows end_of (D.System.reads below.now.system.now)
        (plan.by_rules (sight_by D.answers below.now.system.now) asked_names below.now.root.now
        (Own form) below.now.sys.now (option_map (λ p. p.now) place.entry)) result }
{
    let read = own_rules(alloc, below.root, below.system)?;
    by_files(alloc, below, place, &read, form)
}

/// The same, or if it has none by the rules that are built in.
pub(crate) fn by_own_first<D: Machine>(
    alloc: Global,
    below: &Below<'_, D>,
    place: Option<&[u8]>,
    form: DeviceForm,
) -> Result<Answer, Refusal>
    ensures status { IfOk result (λ a. a.status ≡ 0) }
    ensures follows { D.Store.tells → Follows end_of (D.System.reads below.now.system.now)
        (plan.by_rules (sight_by D.answers below.now.system.now) asked_names below.now.root.now
        (OwnFirst form) below.now.sys.now (option_map (λ p. p.now) place.entry)) result }
{
    let read = own_rules(alloc, below.root, below.system)?;
    by_files_first(alloc, below, place, &read, form)
}

/// By these rules files, or if there are none by the rules that are built in.
fn by_files_first<D: Machine>(
    alloc: Global,
    below: &Below<'_, D>,
    place: Option<&[u8]>,
    read: &RulesRead,
    form: DeviceForm,
) -> Result<Answer, Refusal>
    ensures status { IfOk result (λ a. a.status ≡ 0) }
    ensures follows { D.Store.tells → Follows end_of (D.System.reads below.now.system.now)
        (plan.by_files_first (sight_by D.answers below.now.system.now) asked_names
        below.now.root.now form below.now.sys.now (option_map (λ p. p.now) place.entry)
        (sources_in read.now)) result }
{
    if read.is_empty() {
        return by_built_in(alloc, below, place, form);
    }
    by_files(alloc, below, place, read, asks(form))
}

/// What they ask, in some form.
fn asks(form: DeviceForm) -> RulesForm
    ensures { result ≡ plan.asks form }
{
    RulesForm { why: false, form }
}

/// By these rules files: they say which attributes are read.
fn by_files<D: Machine>(
    alloc: Global,
    below: &Below<'_, D>,
    place: Option<&[u8]>,
    read: &RulesRead,
    form: RulesForm,
) -> Result<Answer, Refusal>
    ensures status { IfOk result (λ a. a.status ≡ 0) }
    ensures follows { D.Store.tells → Follows end_of (D.System.reads below.now.system.now)
        (plan.by_files (sight_by D.answers below.now.system.now) below.now.root.now form
        below.now.sys.now (option_map (λ p. p.now) place.entry) (sources_in read.now)) result }
{
    let parsed = parsed_files(alloc, &read.paths, &read.texts)?;
    let files = files_in(alloc, &parsed)?;
    let names = names_text(alloc, &files)?;
    let sysfs = Sysfs {
        files: below.system,
        names: &names,
        folder: below.sys,
    };
    let by = ByFiles {
        files: &files,
        form,
    };
    match place {
        Some(place) => device_by_files(alloc, below.root, &sysfs, place, by),
        None => strings_shown(alloc, below.root, &sysfs, Some(by.files)),
    }
}

/// By which rules files, and what is printed.
#[derive(Clone, Copy)]
pub struct ByFiles<'f> {
    files: &'f [RulesFile<'f>],
    form: RulesForm,
}

/// The same of one device: what the files look at is read.
fn device_by_files<D: Machine>(
    alloc: Global,
    root: &str,
    sysfs: &Sysfs<'_, D>,
    place: &[u8],
    by: ByFiles<'_>,
) -> Result<Answer, Refusal>
    ensures status { IfOk result (λ a. a.status ≡ 0) }
    ensures follows { D.Store.tells → (sources : List Source)
        → map file_of by.entry.files.now ≡ rules.files_of sources
        → Follows end_of (D.System.reads sysfs.now.files.now) (asked root.now
        (plan.rules_answer by.entry.form sources (device_at
        (sight_by D.answers sysfs.now.files.now) (pieces (is 10) sysfs.now.names.now)
        sysfs.now.folder.now place.now))) result }
{
    devices_are_told(sysfs.files);
    let device = read_device(alloc, sysfs, place)?;
    let shown = Shown {
        device: &device,
        files: by.files,
        form: by.form,
    };
    answered(alloc, root, shown, sysfs.files)
}

/// What is printed: of a device, by rules files, in a form.
#[derive(Clone, Copy)]
pub struct Shown<'s> {
    device: &'s Device,
    files: &'s [RulesFile<'s>],
    form: RulesForm,
}

/// What is printed, over the database below the root.
fn answered<D: System>(
    alloc: Global,
    root: &str,
    shown: Shown<'_>,
    system: &D,
) -> Result<Answer, Refusal>
    ensures status { IfOk result (λ a. a.status ≡ 0) }
    ensures follows { D.Store.tells → (sources : List Source)
        → map file_of shown.entry.files.now ≡ rules.files_of sources
        → Follows end_of (D.System.reads system.now) (asked root.now
        (plan.rules_answer shown.entry.form sources (device_of shown.entry.device.now))) result }
{
    let found = asked(alloc, root, system)?;
    match text_over(alloc, &found.bytes, shown) {
        Ok(text) => Ok(Answer::new(alloc, text, 0)),
        Err(error) => Err(refused_database(alloc, error, found.path.as_bytes())),
    }
}

/// The same over the bytes of a database.
fn text_over(alloc: Global, bytes: &[u8], shown: Shown<'_>) -> Result<Vec<u8>, ToolError>
    ensures text { IfOk result (λ text. IsTextOf (λ t. if shown.entry.form.why
        then whys_form shown.entry.form.form (whys_by_rules (told_by t)
        (map file_of shown.entry.files.now) (device_of shown.entry.device.now))
        else found_form shown.entry.form.form (device_of shown.entry.device.now)
        (database_patterns t) (found_by_rules (told_by t) (map file_of shown.entry.files.now)
        (device_of shown.entry.device.now))) bytes.now text.items) }
    ensures refusals { IfErr result (IsDatabaseRefusal bytes.now) }
{
    let db = check(bytes)?;
    Ok(rules_text(alloc, &db, shown.device, shown.files, shown.form)?)
}
