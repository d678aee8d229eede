//! `diff`: two sides that are read and compared, in all that they assign, or in what the devices of files get.
ghost use Rattle.std.specs.Prelude.{◌≡◌, ◌≤◌, ◌++◌, ◌∷◌, false, flat_map, if◌then◌else◌, map, string_bytes, IfOk, IfErr, OnOk};
ghost use Rattle.hwdb_check.specs.Checks.{source_of};
ghost use Rattle.hwdb_spec_commands.specs.Comparisons.{comparison_form, comparison_said, devices_named, has_changed};
ghost use Rattle.hwdb_spec_commands.specs.Databases.{IsDiffText, IsDifferent};
ghost use Rattle.hwdb_spec_commands.specs.DiffErrors.{IsDiffRefusal};
ghost use Rattle.hwdb_spec.specs.Folders as folders;
ghost use Rattle.hwdb_spec_commands.specs.SampleDevices.{told_changed, told_form, told_said};
ghost use Rattle.hwdb_spec_commands.specs.Given.{any_dash, is_dash};
ghost use Rattle.hwdb_spec_program.specs.GivenDatabases.{names_twice, twice_text};
ghost use Rattle.hwdb_spec_commands.specs.Refusals.{IsInWords};
ghost use Rattle.hwdb_spec_commands.specs.Reviews.{review_in};
ghost use Rattle.hwdb_spec_commands.specs.Undone.{told_path};
ghost use Rattle.hwdb_spec_program.specs.ComparedDatabases.{IsOfDiff};
ghost use Rattle.hwdb_spec.specs.Texts.{devices_of};
ghost use Rattle.hwdb_spec_commands.specs.Told.{IsStop};
ghost use Rattle.hwdb_plan.specs.Diff.{change_of, diff_plan, diff_stop, sides_compared};
ghost use Rattle.hwdb_plan.specs.OverText.{if_fit};
ghost use Rattle.hwdb_spec_commands.specs.Jobs.{text_if};
ghost use Rattle.hwdb_plan.specs.Files.{OfInput};
ghost use Rattle.hwdb_plan.specs.Plans.{Follows};
ghost use Rattle.hwdb_tool.specs.SideSteps.{IsOneDash};
ghost use Rattle.hwdb_tool.specs.Views.{end_of};
ghost use Rattle.hwdb_spec_commands.specs.declared.job.Task.TheVariants.{Diff};

use crate::answer::Answer;
use crate::check_command::{given_texts, with_paths};
use crate::given::{INPUT, any_dash, is_dash};
use crate::sides::side;
use crate::verb::Verb;
use hwdb_answers::ToolError;
use hwdb_check::TextFile;
use hwdb_cli::{DiffArgs, Job, ReviewArgs};
use hwdb_databases::{Changes, DiffError, diff_samples};
use hwdb_io::Source;
use hwdb_reader::law_one_tree;
use hwdb_system::{Machine, Refusal, TextsBelow};
use hwdb_text::Lines;
use std::alloc::{AllocError, Global};

/// What is said if standard input would be read twice.
const TWICE: &str = "only one of OLD, NEW and --devices FILE may be -: standard input is read once";

/// What `diff` is asked.
#[derive(Clone, Copy)]
pub struct DiffAsked<'a> {
    /// The path of the old side.
    pub old: &'a str,
    /// The path of the new one.
    pub new: &'a str,
    /// The paths of files that name devices; none if assignments are compared.
    pub devices: &'a [String],
    /// How they are compared, and what is printed.
    pub review: &'a ReviewArgs,
}

/// What changed from the side at one path to that at another, as `review` asks for it. For the devices of the given files, a line each, it is what changed in what each of them gets; without a file it is each pattern and key for which the two differ. `-` is
/// what `input` has left, of a file or of one side. The status is 1 if something changed, else 0.
///
/// All files of devices are read first, in their order, and then the old side and the new one: the error is the first that comes so.
/// Before them it is an error if both sides are `-`, or one of them and a file.
pub fn diff<D: TextsBelow, I: Source>(
    alloc: Global,
    asked: DiffAsked<'_>,
    system: &D,
    input: &mut I,
) -> Result<Answer, Refusal>
    ensures follows { D.Store.tells → OfInput (I.left input.old) (I.failures input.old)
        (I.failures input.new) (λ told. Follows end_of (D.System.reads system.now)
        (if_fit (text_if (names_twice (map string_bytes asked.entry.devices.now)
        asked.entry.old.now asked.entry.new.now) twice_text)
        (diff_plan told (map string_bytes asked.entry.devices.now) asked.entry.old.now
        asked.entry.new.now (change_of (review_in asked.entry.review.now)))) result) }
    ensures unread { any_dash (asked.entry.old.now ∷ asked.entry.new.now
        ∷ map string_bytes asked.entry.devices.now) ≡ false → input.new ≡ input.old }
{
    let given = asked.devices;
    if names_twice(given, asked.old, asked.new) {
        return Err(refused_twice(alloc));
    }
    let texts = given_texts(alloc, given, given, system, input)?;
    let files = with_paths(alloc, given, &texts)?;
    compared(alloc, asked, &files, system, input)
}

/// Whether standard input would be read twice: as both sides, or as one of them and a file of devices.
fn names_twice(given: &[String], old_path: &str, new_path: &str) -> bool
    ensures { result ≡ names_twice (map string_bytes given.now) old_path.now new_path.now }
{
    let of_old = is_dash(old_path);
    let of_new = is_dash(new_path);
    let of_devices = any_dash(given);
    (of_old && of_new) || ((of_old || of_new) && of_devices)
}

/// The error of that.
fn refused_twice(alloc: Global) -> Refusal
    ensures { IsInWords twice_text result }
{
    match Vec::from_slice(alloc, TWICE.as_bytes()) {
        Ok(text) => Refusal::InWords(text),
        Err(refused) => Refusal::from(refused),
    }
}

/// The same of files that were read.
fn compared<D: TextsBelow, I: Source>(
    alloc: Global,
    asked: DiffAsked<'_>,
    files: &[TextFile<'_>],
    system: &D,
    input: &mut I,
) -> Result<Answer, Refusal>
    ensures follows { D.Store.tells → IsOneDash asked.entry.old.now asked.entry.new.now
        → OfInput (I.left input.old) (I.failures input.old) (I.failures input.new)
        (λ told. Follows end_of (D.System.reads system.now)
        (sides_compared told asked.entry.old.now asked.entry.new.now
        (change_of (review_in asked.entry.review.now) (map source_of files.now))) result) }
    ensures unread { is_dash asked.entry.old.now ≡ false → is_dash asked.entry.new.now ≡ false
        → input.new ≡ input.old }
{
    law_one_tree();
    let old = side(alloc, asked.old, system, input)?;
    let new = side(alloc, asked.new, system, input)?;
    match changes_of(alloc, asked.review, files, &old, &new) {
        Ok(changes) => Ok(answer_of(changes)),
        Err(error) => Err(refusal_of(alloc, error, asked.old, asked.new)),
    }
}

/// What is printed and said of changes, and the status.
fn answer_of(changes: Changes) -> Answer
    ensures err { result.err.items ≡ changes.said.items }
    ensures out { result.out.items ≡ changes.text.items }
    ensures status { result.status ≡ (if changes.differ then 1 else 0) }
{
    let Changes { text, said, differ } = changes;
    Answer::with_error(said, text, status_of(differ))
}

/// What changed from one database to another: for devices that are made, or as below.
fn changes_of(
    alloc: Global,
    review: &ReviewArgs,
    files: &[TextFile<'_>],
    old: &[u8],
    new: &[u8],
) -> Result<Changes, DiffError>
    ensures text { IfOk result (λ changes. IsDiffText
        (told_form (review_in review.now) (map source_of files.now))
        old.now new.now changes.text.items) }
    ensures said { IfOk result (λ changes. IsDiffText
        (told_said (review_in review.now) (map source_of files.now))
        old.now new.now changes.said.items) }
    ensures differ { IfOk result (λ changes. IsDifferent
        (told_changed (review_in review.now) (map source_of files.now))
        old.now new.now changes.differ) }
    ensures errors { IfErr result (IsDiffRefusal old.now new.now) }
{
    if review.samples {
        return diff_samples(alloc, review, old, new);
    }
    listed_changes(alloc, review, files, old, new)
}

/// What changed from one database to another, for the devices of some files if there are any.
fn listed_changes(
    alloc: Global,
    review: &ReviewArgs,
    files: &[TextFile<'_>],
    old: &[u8],
    new: &[u8],
) -> Result<Changes, DiffError>
    ensures text { IfOk result (λ changes. IsDiffText
        (comparison_form (review_in review.now) (devices_named (map source_of files.now)))
        old.now new.now changes.text.items) }
    ensures said { IfOk result (λ changes. IsDiffText
        (comparison_said (review_in review.now) (devices_named (map source_of files.now)))
        old.now new.now changes.said.items) }
    ensures differ { IfOk result (λ changes. IsDifferent
        (has_changed (review_in review.now) (devices_named (map source_of files.now)))
        old.now new.now changes.differ) }
    ensures errors { IfErr result (IsDiffRefusal old.now new.now) }
{
    if files.is_empty() {
        return hwdb_databases::diff(alloc, review, None, old, new);
    }
    let devices = devices_in(alloc, files)?;
    hwdb_databases::diff(alloc, review, Some(&devices), old, new)
}

/// Adds the devices that a text names, a line each. The only error, here and below, is `AllocError`.
fn push_devices<'a>(devices: &mut Vec<&'a [u8]>, text: &'a [u8]) -> Result<(), AllocError>
    ensures { OnOk result (map (λ d. d.now) devices.new.items
        ≡ map (λ d. d.now) devices.old.items ++ devices_of text.now) }
{
    for line in Lines::new(text) {
        devices.push(line)?;
    }
    Ok(())
}

/// The devices of some files.
pub(crate) fn devices_in<'a>(
    alloc: Global,
    files: &[TextFile<'a>],
) -> Result<Vec<&'a [u8]>, AllocError>
    ensures { IfOk result (λ devices. map (λ d. d.now) devices.items ≡ flat_map
        (λ (f : folders.Source). devices_of f.bytes) (map source_of files.now)) }
{
    let mut devices = Vec::new(alloc);
    for file in files {
        push_devices(&mut devices, file.bytes)?;
    }
    Ok(devices)
}

/// The status: 1 if the two differ, else 0.
fn status_of(differ: bool) -> u8
    ensures is { result ≡ (if differ then 1 else 0) }
    ensures small { result ≤ 1 }
{
    if differ { 1 } else { 0 }
}

/// How errors call the side at a path.
fn told_path(path: &str) -> &[u8]
    ensures { result.now ≡ told_path path.now }
{
    if is_dash(path) {
        INPUT
    } else {
        path.as_bytes()
    }
}

/// The error if the databases of these sides can't be compared.
fn refusal_of(alloc: Global, error: DiffError, old_path: &str, new_path: &str) -> Refusal
    ensures refusal { IsOfDiff error old_path.now new_path.now result }
    ensures stops { IsStop (diff_stop old_path.now new_path.now error) result }
{
    match error {
        DiffError::Old(fault) => {
            Refusal::of_cause(
                alloc,
                ToolError::BadDatabase(fault),
                told_path(old_path),
                None,
            )
        }
        DiffError::New(fault) => {
            Refusal::of_cause(
                alloc,
                ToolError::BadDatabase(fault),
                told_path(new_path),
                None,
            )
        }
        DiffError::Memory => Refusal::from(ToolError::Memory),
    }
}

impl<D: Machine, I: Source> Verb<D, I> for DiffArgs {
    ghost task = { λ args. Diff args };

    fn answer(
        &self,
        alloc: Global,
        _job: &Job,
        system: &D,
        input: &mut I,
    ) -> Result<Answer, Refusal> {
        let (old, new) = (self.old.as_str(), self.new.as_str());
        let (devices, review) = (&self.devices, &self.review);
        let asked = DiffAsked {
            old,
            new,
            devices,
            review,
        };
        diff(alloc, asked, system, input)
    }
}
