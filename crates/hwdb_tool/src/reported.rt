//! `device --from`: an export of udev's database in place of sysfs. Nothing is written.
ghost use Rattle.std.specs.Prelude.{◌≡◌, ◌++◌, [], List, Some, ℕ, codes, false, if◌then◌else◌, is_some, option_map, string_bytes, IfErr, IfOk};
ghost use Rattle.hwdb_plan.specs.Asking.{asked};
ghost use Rattle.hwdb_plan.specs.Device.{all_misuse, own_plan};
ghost use Rattle.hwdb_plan.specs.Files.{OfInput};
ghost use Rattle.hwdb_plan.specs.Given.{given_at};
ghost use Rattle.hwdb_plan.specs.OverText.{if_fit};
ghost use Rattle.hwdb_plan.specs.Plans.{Follows};
ghost use Rattle.hwdb_plan.specs.Report as plan;
ghost use Rattle.hwdb_plan.specs.Sysfs.{OfCause};
ghost use Rattle.hwdb_spec_commands.specs.AllStrings as strings;
ghost use Rattle.hwdb_spec_commands.specs.DeviceAsked as device;
ghost use Rattle.hwdb_spec_commands.specs.DeviceFound.{only, places_meant};
ghost use Rattle.hwdb_spec_commands.specs.Exports as spec;
ghost use Rattle.hwdb_spec_commands.specs.Given.{is_dash};
ghost use Rattle.hwdb_spec_commands.specs.Refusals.{IsInWords};
ghost use Rattle.hwdb_spec_commands.specs.SysfsAnswers.{sight_by};
ghost use Rattle.hwdb_spec_commands.specs.Told.{Reads};
ghost use Rattle.hwdb_spec_program.specs.DeviceErrors.{asked_names};
ghost use Rattle.hwdb_spec_program.specs.GivenDatabases.{names_input};
ghost use Rattle.hwdb_spec_program.specs.Program.{root_of};
ghost use Rattle.hwdb_spec_rules.specs.RuleAnswers.{wants_rules};
ghost use Rattle.hwdb_sysfs.specs.Finding.{IsUnfound};
ghost use Rattle.hwdb_exports.specs.Reports.{bytes_of};
ghost use Rattle.hwdb_tool.specs.Reported.{FollowsFrom, IsUnfoundIn, given_in, report_of, rules_asked, udev_in};
ghost use Rattle.hwdb_tool.specs.Views.{end_of};
ghost use Rattle.hwdb_spec_commands.specs.declared.job.Task.TheVariants.{Device};

use crate::answer::Answer;
use crate::databases::{asked, refused_database};
use crate::device_command::{device_form, list_text, text_over};
use crate::every_device::{all_misuse, devices, strings_over};
use crate::given::{INPUT, is_dash, read};
use crate::missing::{for_rules, no_device, only_meant};
use crate::over_text::misused;
use crate::rules_device::{RulesQuestion, own_device, wants_rules};
use crate::verb::{Verb, root_of, text_of};
use hwdb_cli::{DeviceArgs, Job};
use hwdb_device::{DeviceForm, unread_lines};
use hwdb_exports::{Export, is_export};
use hwdb_io::Source;
use hwdb_rules::ATTRIBUTES;
use hwdb_show::push_name;
use hwdb_spec_rules::RulesForm;
use hwdb_sysfs::{Sysfs, Unfound, find_device, read_device};
use hwdb_system::{Machine, Refusal, System};
use std::alloc::{AllocError, Global};

/// Where an export has sysfs.
const SYS: &[u8] = b"/sys";

/// What `device` is asked for.
#[derive(Clone, Copy)]
pub struct DeviceQuestion<'w> {
    /// The root of the database.
    pub root: &'w str,
    /// The device's path or name; None if the devices are listed.
    pub given: Option<&'w str>,
    /// What is printed of it.
    pub form: DeviceForm,
    /// Whose rules count; None if the words don't say.
    pub udev: Option<&'w str>,
    /// Whether the strings of all devices are printed.
    pub all: bool,
}

/// An export of udev's database, and the name of its file.
#[derive(Drop)]
struct Report<'b> {
    export: Export<'b>,
    path: &'b [u8],
}

/// As `devices`, over sysfs or over an export of udev's database, if one is named. `-` is the one that `input` has left.
pub fn devices_from<D: Machine, I: Source>(
    alloc: Global,
    from: Option<&str>,
    question: DeviceQuestion<'_>,
    system: &D,
    input: &mut I,
) -> Result<Answer, Refusal>
    ensures status { IfOk result (λ a. a.status ≡ 0) }
    ensures unread { names_input (option_map (λ t. t.now) from.entry) ≡ false
        → input.new ≡ input.old }
    ensures follows { D.Store.tells → FollowsFrom (option_map (λ t. t.now) from.entry)
        question.entry.root.now question.entry.form (udev_in question.entry) question.entry.all
        (given_in question.entry) (sight_by D.answers system.now) (D.System.reads system.now)
        (I.left input.old) (I.failures input.old) (I.failures input.new) result }
{
    match from {
        Some(from) => over_file(alloc, from, question, system, input),
        None => devices(alloc, question, system),
    }
}

/// Over what a file has.
fn over_file<D: System, I: Source>(
    alloc: Global,
    from: &str,
    question: DeviceQuestion<'_>,
    system: &D,
    input: &mut I,
) -> Result<Answer, Refusal>
    ensures status { IfOk result (λ a. a.status ≡ 0) }
    ensures unread { is_dash from.now ≡ false → input.new ≡ input.old }
    ensures follows { D.Store.tells → OfInput
        (I.left input.old) (I.failures input.old) (I.failures input.new) (λ told. Follows end_of
        (D.System.reads system.now) (given_at told from.now (plan.report_answer asked_names
        question.entry.root.now question.entry.form question.entry.all (given_in question.entry)))
        result) }
{
    let bytes = read(alloc, from, system, input)?;
    over_bytes(alloc, named(from), &bytes, question, system)
}

/// How errors call a file.
fn named(path: &str) -> &[u8]
    ensures { result.now ≡ (if is_dash path.now then codes "standard input" else path.now) }
{
    if is_dash(path) {
        INPUT
    } else {
        path.as_bytes()
    }
}

/// Over these bytes.
fn over_bytes<D: System>(
    alloc: Global,
    path: &[u8],
    bytes: &[u8],
    question: DeviceQuestion<'_>,
    system: &D,
) -> Result<Answer, Refusal>
    ensures status { IfOk result (λ a. a.status ≡ 0) }
    ensures follows { D.Store.tells → Follows end_of (D.System.reads system.now)
        (plan.report_answer asked_names question.entry.root.now question.entry.form
        question.entry.all (given_in question.entry) path.now bytes.now) result }
{
    if !is_export(bytes) {
        return Err(no_export(alloc, path));
    }
    let export = Export::of(alloc, bytes)?;
    let report = Report { export, path };
    over_report(alloc, &report, question, system)
}

/// The error of bytes that are no export.
fn no_export(alloc: Global, path: &[u8]) -> Refusal
    ensures { IsInWords (spec.no_export_text path.now) result }
{
    match no_export_text(alloc, path) {
        Ok(text) => Refusal::InWords(text),
        Err(refused) => Refusal::from(refused),
    }
}

/// The words of it.
fn no_export_text(alloc: Global, path: &[u8]) -> Result<Vec<u8>, AllocError>
    ensures { IfOk result (λ text. text.items ≡ spec.no_export_text path.now) }
{
    let mut text = Vec::from_slice(alloc, b"no export: ")?;
    push_name(&mut text, path)?;
    text.extend_from_slice(b": 'udevadm info --export-db > report.txt' writes one")?;
    Ok(text)
}

/// What is said of an export that doesn't tell what the firmware says of the machine.
fn lacks(alloc: Global, report: &Report<'_>) -> Result<Vec<u8>, AllocError>
    ensures { IfOk result (λ text. text.items
        ≡ spec.without_machine report.now.path.now (bytes_of report.now.export)) }
{
    let mut text = Vec::new(alloc);
    if report.export.tells_machine() {
        return Ok(text);
    }
    text.extend_from_slice(b"hwdb: ")?;
    push_name(&mut text, report.path)?;
    text.extend_from_slice(b": no DMI in it: strings end without what the firmware says\n")?;
    Ok(text)
}

/// Over an export.
fn over_report<D: System>(
    alloc: Global,
    report: &Report<'_>,
    question: DeviceQuestion<'_>,
    system: &D,
) -> Result<Answer, Refusal>
    ensures status { IfOk result (λ a. a.status ≡ 0) }
    ensures follows { D.Store.tells → Follows end_of (D.System.reads system.now)
        (plan.found_asked (report_of question.entry.root.now report.now) question.entry.form
        question.entry.all (given_in question.entry)) result }
{
    if question.all {
        return every(alloc, report, question, system);
    }
    match question.given {
        Some(given) => shown(alloc, report, given.as_bytes(), question, system),
        None => listed(alloc, report),
    }
}

/// A line for each device.
fn listed(alloc: Global, report: &Report<'_>) -> Result<Answer, Refusal>
    ensures status { IfOk result (λ a. a.status ≡ 0) }
    ensures follows { (w : Reads) (root : List ℕ)
        → Follows end_of w (plan.found_devices (report_of root report.now)) result }
{
    let text = list_text(alloc, SYS, &report.export)?;
    let told = lacks(alloc, report)?;
    Ok(Answer::with_error(told, text, 0))
}

/// The place of the device that is meant.
fn place_in(
    alloc: Global,
    sys: &[u8],
    given: &[u8],
    export: &Export<'_>,
) -> Result<Vec<u8>, Refusal>
    ensures found { IfOk result (λ place. only (places_meant
        (spec.export_sight (bytes_of export.now)) asked_names [] sys.now given.now)
        ≡ Some place.items) }
    ensures refused { IfErr result
        (IsUnfoundIn sys.now given.now (spec.export_sight (bytes_of export.now))) }
{
    match find_device(alloc, export, b"", sys, given) {
        Ok(place) => Ok(place),
        Err(why) => place_else(alloc, sys, given, why, export),
    }
}

/// The same, if no whole name is one's for this reason.
fn place_else(
    alloc: Global,
    sys: &[u8],
    given: &[u8],
    why: Unfound,
    export: &Export<'_>,
) -> Result<Vec<u8>, Refusal>
    ensures found { IsUnfound (spec.export_answers (bytes_of export.now)) [] sys.now given.now
        why → IfOk result (λ place. only (places_meant
        (spec.export_sight (bytes_of export.now)) asked_names [] sys.now given.now)
        ≡ Some place.items) }
    ensures refused { IsUnfound (spec.export_answers (bytes_of export.now)) [] sys.now given.now
        why → IfErr result
        (IsUnfoundIn sys.now given.now (spec.export_sight (bytes_of export.now))) }
{
    match only_meant(alloc, sys, given, &why, export)? {
        Some(place) => Ok(place),
        None => {
            let sysfs = for_rules(export, sys);
            Err(no_device(alloc, &sysfs, given, false, b""))
        }
    }
}

/// What is printed of the device that is meant, over the database below the root.
fn shown<D: System>(
    alloc: Global,
    report: &Report<'_>,
    given: &[u8],
    question: DeviceQuestion<'_>,
    system: &D,
) -> Result<Answer, Refusal>
    ensures status { IfOk result (λ a. a.status ≡ 0) }
    ensures follows { D.Store.tells → Follows end_of (D.System.reads system.now)
        (plan.found_device (report_of question.entry.root.now report.now) question.entry.form
        given.now) result }
{
    let place = place_in(alloc, SYS, given, &report.export)?;
    answered(alloc, report, &place, question, system)
}

/// The same of the device at a place.
fn answered<D: System>(
    alloc: Global,
    report: &Report<'_>,
    place: &[u8],
    question: DeviceQuestion<'_>,
    system: &D,
) -> Result<Answer, Refusal>
    ensures status { IfOk result (λ a. a.status ≡ 0) }
    ensures follows { D.Store.tells → Follows end_of (D.System.reads system.now)
        (asked question.entry.root.now (plan.found_answer
        (report_of question.entry.root.now report.now) question.entry.form place.now)) result }
{
    let found = asked(alloc, question.root, system)?;
    let sysfs = Sysfs {
        files: &report.export,
        names: ATTRIBUTES.as_bytes(),
        folder: SYS,
    };
    let device = read_device(alloc, &sysfs, place)?;
    let told = lacks(alloc, report)?;
    match text_over(alloc, &found.bytes, &device, question.form) {
        Ok(text) => Ok(Answer::with_error(told, text, 0)),
        Err(error) => Err(refused_database(alloc, error, found.path.as_bytes())),
    }
}

/// The strings of all devices, unless other words don't fit.
fn every<D: System>(
    alloc: Global,
    report: &Report<'_>,
    question: DeviceQuestion<'_>,
    system: &D,
) -> Result<Answer, Refusal>
    ensures status { IfOk result (λ a. a.status ≡ 0) }
    ensures follows { D.Store.tells → Follows end_of (D.System.reads system.now)
        (if_fit (all_misuse question.entry.form (given_in question.entry))
        (asked question.entry.root.now
        (plan.found_strings (report_of question.entry.root.now report.now)))) result }
{
    match all_misuse(question.form, question.given) {
        Some(text) => Err(misused(alloc, text)),
        None => all_strings(alloc, report, question, system),
    }
}

/// The strings of all devices, over the database below the root.
fn all_strings<D: System>(
    alloc: Global,
    report: &Report<'_>,
    question: DeviceQuestion<'_>,
    system: &D,
) -> Result<Answer, Refusal>
    ensures status { IfOk result (λ a. a.status ≡ 0) }
    ensures follows { D.Store.tells → Follows end_of (D.System.reads system.now)
        (asked question.entry.root.now
        (plan.found_strings (report_of question.entry.root.now report.now))) result }
{
    let found = asked(alloc, question.root, system)?;
    let told = told_besides(alloc, report)?;
    let sysfs = for_rules(&report.export, SYS);
    match strings_over(alloc, &found.bytes, &sysfs, None) {
        Ok(text) => Ok(Answer::with_error(told, text, 0)),
        Err(error) => Err(refused_database(alloc, error, found.path.as_bytes())),
    }
}

/// What is said of what an export lacks, and of what can't be read in it.
fn told_besides(alloc: Global, report: &Report<'_>) -> Result<Vec<u8>, AllocError>
    ensures { IfOk result (λ text. text.items
        ≡ spec.without_machine report.now.path.now (bytes_of report.now.export)
        ++ strings.unread_lines (spec.export_sight (bytes_of report.now.export)) plan.sys) }
{
    let mut told = lacks(alloc, report)?;
    let unread = unread_lines(alloc, &report.export, SYS)?;
    told.extend_from_slice(&unread)?;
    Ok(told)
}

/// What the words ask for.
fn question_of<'w>(args: &'w DeviceArgs, job: &'w Job) -> DeviceQuestion<'w>
    ensures root { result.root.now ≡ root_of job.now }
    ensures given { given_in result ≡ option_map string_bytes args.now.path }
    ensures form { result.form
        ≡ device.device_form args.now.strings args.now.json args.now.pattern }
    ensures udev { udev_in result ≡ option_map string_bytes args.now.udev }
    ensures all { result.all ≡ args.now.all }
{
    DeviceQuestion {
        root: root_of(job),
        given: text_of(&args.path),
        form: device_form(args.strings, args.json, args.pattern),
        udev: text_of(&args.udev),
        all: args.all,
    }
}

/// Whether a word is given.
fn is_given(word: &Option<String>) -> bool
    ensures { result ≡ is_some (option_map string_bytes word.now) }
{
    match word {
        Some(_) => true,
        None => false,
    }
}

/// What the words ask of the machine's own rules.
fn rules_question<'w>(args: &'w DeviceArgs, job: &'w Job) -> RulesQuestion<'w>
    ensures root { result.root.now ≡ root_of job.now }
    ensures given { option_map (λ t. t.now) result.given ≡ option_map string_bytes args.now.path }
    ensures all { result.all ≡ args.now.all }
    ensures form { result.form ≡ rules_asked args.now }
{
    RulesQuestion {
        root: root_of(job),
        given: text_of(&args.path),
        all: args.all,
        form: RulesForm {
            why: args.why,
            form: device_form(args.strings, args.json, args.pattern),
        },
    }
}

/// What the words ask for, by the machine's own rules.
fn by_rules<D: Machine>(
    alloc: Global,
    args: &DeviceArgs,
    job: &Job,
    system: &D,
) -> Result<Answer, Refusal>
    ensures { D.Store.tells → OfCause (λ cause. Follows end_of (D.System.reads system.now)
        (own_plan (sight_by D.answers system.now) cause asked_names (root_of job.now)
        (rules_asked args.now)
        (option_map string_bytes args.now.udev) (option_map string_bytes args.now.path)
        args.now.all (is_some (option_map string_bytes args.now.from))) result) }
{
    let udev = text_of(&args.udev);
    let from = is_given(&args.from);
    own_device(alloc, udev, from, rules_question(args, job), system)
}

/// What the words ask for else.
fn by_table<D: Machine, I: Source>(
    alloc: Global,
    args: &DeviceArgs,
    job: &Job,
    system: &D,
    input: &mut I,
) -> Result<Answer, Refusal>
    ensures unread { names_input (option_map string_bytes args.now.from) ≡ false
        → input.new ≡ input.old }
    ensures follows { D.Store.tells → FollowsFrom (option_map string_bytes args.now.from)
        (root_of job.now) (device.device_form args.now.strings args.now.json args.now.pattern)
        (option_map string_bytes args.now.udev) args.now.all
        (option_map string_bytes args.now.path)
        (sight_by D.answers system.now) (D.System.reads system.now)
        (I.left input.old) (I.failures input.old) (I.failures input.new) result }
{
    let named = text_of(&args.from);
    devices_from(alloc, named, question_of(args, job), system, input)
}

/// Whether the words ask for the machine's own rules.
fn is_by_rules(args: &DeviceArgs) -> bool
    ensures { result ≡ wants_rules args.now.why (option_map string_bytes args.now.udev) }
{
    wants_rules(args.why, text_of(&args.udev))
}

impl<D: Machine, I: Source> Verb<D, I> for DeviceArgs {
    ghost task = { λ args. Device args };

    fn answer(
        &self,
        alloc: Global,
        job: &Job,
        system: &D,
        input: &mut I,
    ) -> Result<Answer, Refusal> {
        if is_by_rules(self) {
            return by_rules(alloc, self, job, system);
        }
        by_table(alloc, self, job, system, input)
    }
}
