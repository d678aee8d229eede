//! `test --record`: a test file of what devices have, which holds of the database. Nothing is written.
ghost use Rattle.std.specs.Prelude.{◌≡◌, ◌⊎◌, ◌++◌, false, map, option_map, string_bytes, IfOk, List, OnOk, Option, Some, ℕ};
ghost use Rattle.hwdb_check.specs.Checks.{source_of};
ghost use Rattle.hwdb_plan.specs.Asking.{named};
ghost use Rattle.hwdb_plan.specs.Files.{OfInput};
ghost use Rattle.hwdb_plan.specs.Plans.{Follows};
ghost use Rattle.hwdb_plan.specs.Record.{devices_meant, devices_plan, read_words, record_plan, recorded};
ghost use Rattle.hwdb_spec.specs.Format.{IsDatabase};
ghost use Rattle.hwdb_spec_commands.specs.Given.{is_input};
ghost use Rattle.hwdb_spec_commands.specs.Recorded.{no_json_text};
ghost use Rattle.hwdb_spec_commands.specs.Refusals.{IsInWords};
ghost use Rattle.hwdb_spec_commands.specs.Told.{Reads, stop_of};
ghost use Rattle.hwdb_spec_commands.specs.Told.Stop.{Says};
ghost use Rattle.hwdb_spec_commands.specs.declared.refusals.Refusal.TheVariants.{Plain};
ghost use Rattle.hwdb_test.specs.Refusals.{IsUnsaid};
ghost use Rattle.hwdb_tool.specs.Views.{end_of};
ghost use Rattle.hwdb_spec_commands.specs.declared.job.Task.TheVariants.{Record};

use crate::answer::Answer;
use crate::check_command::{given_texts, with_paths};
use crate::databases::{named, refused_database};
use crate::diff_command::devices_in;
use crate::query_command::is_input;
use crate::verb::{Verb, root_of, text_of};
use hwdb_answers::ToolError;
use hwdb_check::TextFile;
use hwdb_cli::{Job, RecordArgs};
use hwdb_io::Source;
use hwdb_reader::{Db, check};
use hwdb_system::{Machine, Refusal, System};
use hwdb_test::RecordError;
use std::alloc::{AllocError, Global};

/// What is said of `--json`.
const NO_JSON: &[u8] = b"--record prints a test file, which is never JSON: leave out --json";

/// What is recorded: the devices of some words, of the database at a path, or without a path of the one that is asked below a root.
#[derive(Clone, Copy)]
pub struct Devices<'a> {
    /// What is in front of the paths of databases.
    pub root: &'a str,
    /// The path.
    pub database: Option<&'a str>,
    /// The words. A lone `-` stands for the devices of standard input, a line each.
    pub words: &'a [String],
}

/// A test file of what the database at the path, or without a path the one that is asked, gives the devices of these words. A lone `-`
/// stands for the devices of standard input, a line each.
///
/// Errors are, in this order: `json`, standard input or the database can't be read, and no test file can say what is in it.
pub fn record<D: System, I: Source>(
    alloc: Global,
    devices: Devices<'_>,
    json: bool,
    system: &D,
    input: &mut I,
) -> Result<Answer, Refusal>
    ensures follows { D.Store.tells → OfInput (I.left input.old) (I.failures input.old)
        (I.failures input.new) (λ told. Follows end_of (D.System.reads system.now)
        (record_plan told json (map string_bytes devices.entry.words.now)
        (option_map (λ t. t.now) devices.entry.database) devices.entry.root.now) result) }
    ensures unread { is_input (map string_bytes devices.entry.words.now) ≡ false
        → input.new ≡ input.old }
{
    if json {
        return Err(refused_json(alloc));
    }
    record_devices(alloc, devices, system, input)
}

/// The error of `--json`.
fn refused_json(alloc: Global) -> Refusal
    ensures { IsInWords no_json_text result }
{
    match Vec::from_slice(alloc, NO_JSON) {
        Ok(text) => Refusal::InWords(text),
        Err(refused) => Refusal::from(refused),
    }
}

/// The words that are read as a file: a lone `-`, or none.
fn read_words(words: &[String]) -> &[String]
    ensures { map string_bytes result.now ≡ read_words (map string_bytes words.now) }
{
    if is_input(words) { words } else { &words[..0] }
}

/// The same without `--json`.
fn record_devices<D: System, I: Source>(
    alloc: Global,
    devices: Devices<'_>,
    system: &D,
    input: &mut I,
) -> Result<Answer, Refusal>
    ensures follows { D.Store.tells → OfInput (I.left input.old) (I.failures input.old)
        (I.failures input.new) (λ told. Follows end_of (D.System.reads system.now)
        (devices_plan told (map string_bytes devices.entry.words.now)
        (option_map (λ t. t.now) devices.entry.database) devices.entry.root.now) result) }
    ensures unread { is_input (map string_bytes devices.entry.words.now) ≡ false
        → input.new ≡ input.old }
{
    let given = read_words(devices.words);
    let texts = given_texts(alloc, given, given, system, input)?;
    let files = with_paths(alloc, given, &texts)?;
    record_meant(alloc, devices, &files, system)
}

/// Adds some words. The only error, here and below, is `AllocError`.
fn push_words<'a>(devices: &mut Vec<&'a [u8]>, words: &'a [String]) -> Result<(), AllocError>
    ensures { OnOk result (map (λ d. d.now) devices.new.items
        ≡ map (λ d. d.now) devices.old.items ++ map string_bytes words.now) }
{
    for word in words {
        devices.push(word.as_bytes())?;
    }
    Ok(())
}

/// The bytes of some words.
fn bytes_of<'a>(alloc: Global, words: &'a [String]) -> Result<Vec<&'a [u8]>, AllocError>
    ensures { IfOk result
        (λ devices. map (λ d. d.now) devices.items ≡ map string_bytes words.now) }
{
    let mut devices = Vec::new(alloc);
    push_words(&mut devices, words)?;
    Ok(devices)
}

/// The devices that words name, or those of the files that were read.
fn devices_meant<'a>(
    alloc: Global,
    words: &'a [String],
    files: &[TextFile<'a>],
) -> Result<Vec<&'a [u8]>, AllocError>
    ensures { IfOk result (λ devices. map (λ d. d.now) devices.items
        ≡ devices_meant (map string_bytes words.now) (map source_of files.now)) }
{
    if is_input(words) {
        devices_in(alloc, files)
    } else {
        bytes_of(alloc, words)
    }
}

/// The same of files that were read.
fn record_meant<D: System>(
    alloc: Global,
    devices: Devices<'_>,
    files: &[TextFile<'_>],
    system: &D,
) -> Result<Answer, Refusal>
    ensures follows { D.Store.tells → Follows end_of (D.System.reads system.now)
        (named (option_map (λ t. t.now) devices.entry.database) devices.entry.root.now
        (recorded (devices_meant (map string_bytes devices.entry.words.now)
        (map source_of files.now)))) result }
{
    let found = named(alloc, devices.root, devices.database, system)?;
    let meant = devices_meant(alloc, devices.words, files)?;
    record_over(alloc, found.path.as_bytes(), &found.bytes, &meant)
}

/// The error if there is no test file.
fn refusal_of(error: RecordError) -> Refusal
    ensures { (words : Option (List ℕ)) → IsUnsaid words error → (result ≡ Plain ToolError.Memory)
        ⊎ ((said : List ℕ) × (words ≡ Some said) × (stop_of result ≡ Says said)) }
{
    match error {
        RecordError::Unsaid(words) => Refusal::InWords(words),
        RecordError::Memory => Refusal::from(ToolError::Memory),
    }
}

/// The same over a database.
fn record_from(alloc: Global, db: &Db<'_>, devices: &[&[u8]]) -> Result<Answer, Refusal>
    ensures follows { (reads : Reads) (path bytes : List ℕ) → IsDatabase bytes db.now
        → Follows end_of reads (recorded (map (λ d. d.now) devices.now) path bytes) result }
{
    match hwdb_test::record(alloc, db, devices) {
        Ok(text) => Ok(Answer::new(alloc, text, 0)),
        Err(error) => Err(refusal_of(error)),
    }
}

/// The same over the bytes at a path.
fn record_over(
    alloc: Global,
    path: &[u8],
    bytes: &[u8],
    devices: &[&[u8]],
) -> Result<Answer, Refusal>
    ensures follows { (reads : Reads) → Follows end_of reads
        (recorded (map (λ d. d.now) devices.now) path.now bytes.now) result }
{
    match check(bytes) {
        Ok(db) => record_from(alloc, &db, devices),
        Err(fault) => Err(refused_database(alloc, ToolError::BadDatabase(fault), path)),
    }
}

impl<D: Machine, I: Source> Verb<D, I> for RecordArgs {
    ghost task = { λ args. Record args };

    fn answer(
        &self,
        alloc: Global,
        job: &Job,
        system: &D,
        input: &mut I,
    ) -> Result<Answer, Refusal> {
        let devices = Devices {
            root: root_of(job),
            database: text_of(&self.database),
            words: &self.devices,
        };
        record(alloc, devices, self.json, system, input)
    }
}
