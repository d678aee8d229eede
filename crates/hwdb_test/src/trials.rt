//! The lines of test files, each tried for each of its devices.
ghost use Rattle.std.specs.Prelude.{◌≡◌, ◌≤◌, ◌++◌, ◌∷◌, [], List, false, flat_map, map, IfErr, IfOk, OnOk};
ghost use Rattle.hwdb_spec_commands.specs.CheckErrors.{IsCheckRefusal, IsFileRefusal};
ghost use Rattle.hwdb_check.specs.Checks.{source_of};
ghost use Rattle.hwdb_spec.specs.Lines.{Line};
ghost use Rattle.hwdb_spec_commands.specs.Wanted;
ghost use Rattle.hwdb_test.specs.Internal.{AscendByKey, IsApart, tried_text};
ghost use Rattle.hwdb_test.specs.Views.{given_at, line_at, pair_at, record_at};

use crate::failures::{Failure, push_failure};
use crate::given_values::{GivenValue, found};
use crate::holding::{about, holds, others};
use crate::malformed_lines::malformed_of;
use crate::records::{Record, records_of};
use crate::wanted_lines::WantedLine;
use hwdb_check::{TextFile, format_if, push_count, reports_of};
use hwdb_reader::Db;
use hwdb_spec::Fault;
use hwdb_text::{ScanError, scan};
use itoa::Buffer;
use std::alloc::{AllocError, Global};

/// How it is said which lines of a file don't hold.
#[derive(Clone, Copy)]
struct FileForm<'a> {
    /// Whether lines of JSON are printed.
    json: bool,
    /// The path that is printed for the file.
    path: &'a [u8],
}

/// The trial of a file.
#[derive(Clone, Copy)]
struct FileTrial<'d, 'a> {
    /// The database that is asked.
    db: &'d Db<'a>,
    /// How the answers are told.
    form: FileForm<'d>,
}

/// A device that the lines of a record are tried for.
#[derive(Clone, Copy)]
struct Device<'f, 'a> {
    /// Its string.
    text: &'f [u8],
    /// Its properties, which ascend by key.
    found: &'f [GivenValue<'a>],
    /// Those that no line of the record names.
    others: &'f [GivenValue<'a>],
}

/// What is said of lines that were tried.
#[derive(Drop)]
struct Told {
    /// What is printed.
    text: Vec<u8>,
    /// Of each line whether it holds.
    held: Vec<bool>,
}

/// What `test` says of some test files.
#[derive(Drop)]
pub struct Tested {
    /// What is printed.
    pub text: Vec<u8>,
    /// The exit status.
    pub status: u8,
}

/// Tries a line of a record among the properties of a device. The only error, here and below, is `AllocError`.
fn try_line(
    alloc: Global,
    form: FileForm<'_>,
    told: &mut Told,
    device: Device<'_, '_>,
    line: &WantedLine<'_>,
) -> Result<(), AllocError>
    requires { AscendByKey device.found.now }
    ensures text { OnOk result ((all : List Line)
        → IsApart all device.entry.found.now device.entry.others.now
        → told.new.text.items ≡ told.old.text.items
        ++ tried_text form.entry.json form.entry.path.now device.entry.text.now all
        (map given_at device.entry.found.now) (map pair_at device.entry.found.now)
        (line_at line.now)) }
    ensures held { OnOk result ((all : List Line)
        → IsApart all device.entry.found.now device.entry.others.now
        → told.new.held.items ≡ told.old.held.items
        ++ Wanted.holds all (map pair_at device.entry.found.now) (line_at line.now) ∷ []) }
{
    let about = about(device.found, device.others, line);
    let fits = holds(line, about);
    told.held.push(fits)?;
    if fits {
        return Ok(());
    }
    let failure = Failure {
        path: form.path,
        device: device.text,
        line,
        instead: about,
    };
    push_failure(alloc, form.json, &mut told.text, failure)
}

/// Tries the lines of a record among the properties of a device.
fn try_lines(
    alloc: Global,
    form: FileForm<'_>,
    told: &mut Told,
    device: Device<'_, '_>,
    all: &[WantedLine<'_>],
) -> Result<(), AllocError>
    requires { IsApart (map line_at all.now) device.found.now device.others.now }
    ensures text { OnOk result (told.new.text.items ≡ told.old.text.items ++ flat_map
        (tried_text form.entry.json form.entry.path.now device.entry.text.now
        (map line_at all.now) (map given_at device.entry.found.now)
        (map pair_at device.entry.found.now)) (map line_at all.now)) }
    ensures held { OnOk result (told.new.held.items ≡ told.old.held.items ++ map
        (Wanted.holds (map line_at all.now) (map pair_at device.entry.found.now))
        (map line_at all.now)) }
{
    for line in all {
        try_line(alloc, form, told, device, line)?;
    }
    Ok(())
}

/// Tries the lines of a record for a device.
fn try_device<'a>(
    alloc: Global,
    trial: FileTrial<'_, 'a>,
    told: &mut Told,
    all: &[WantedLine<'a>],
    device: &[u8],
) -> Result<(), AllocError>
    ensures text { OnOk result (told.new.text.items ≡ told.old.text.items
        ++ Wanted.device_text trial.entry.form.json trial.entry.form.path.now
        (map line_at all.now) trial.entry.db.now device.now) }
    ensures held { OnOk result (told.new.held.items ≡ told.old.held.items
        ++ Wanted.device_held (map line_at all.now) trial.entry.db.now device.now) }
{
    let found = found(alloc, trial.db, device)?;
    let others = others(alloc, all, &found)?;
    let device = Device {
        text: device,
        found: &found,
        others: &others,
    };
    try_lines(alloc, trial.form, told, device, all)
}

/// Tries a record for each of its devices.
fn try_record(
    alloc: Global,
    trial: FileTrial<'_, '_>,
    told: &mut Told,
    record: &Record<'_>,
) -> Result<(), AllocError>
    ensures text { OnOk result (told.new.text.items ≡ told.old.text.items
        ++ Wanted.record_text trial.entry.form.json trial.entry.form.path.now
        trial.entry.db.now (record_at record.now)) }
    ensures held { OnOk result (told.new.held.items ≡ told.old.held.items
        ++ Wanted.record_held trial.entry.db.now (record_at record.now)) }
{
    for device in &record.devices {
        try_device(alloc, trial, told, &record.lines, *device)?;
    }
    Ok(())
}

/// Tries some records.
fn try_records(
    alloc: Global,
    trial: FileTrial<'_, '_>,
    told: &mut Told,
    records: &[Record<'_>],
) -> Result<(), AllocError>
    ensures text { OnOk result (told.new.text.items ≡ told.old.text.items ++ flat_map
        (Wanted.record_text trial.entry.form.json trial.entry.form.path.now trial.entry.db.now)
        (map record_at records.now)) }
    ensures held { OnOk result (told.new.held.items ≡ told.old.held.items
        ++ flat_map (Wanted.record_held trial.entry.db.now) (map record_at records.now)) }
{
    for record in records {
        try_record(alloc, trial, told, record)?;
    }
    Ok(())
}

/// Counts a malformed line: it fails.
fn count_fault(held: &mut Vec<bool>, fault: &Fault) -> Result<(), AllocError>
    ensures { OnOk result (held.new.items ≡ held.old.items ++ map (λ f. false) (fault.now ∷ [])) }
{
    let _counted = fault;
    held.push(false)?;
    Ok(())
}

/// Counts some malformed lines.
fn count_malformed(held: &mut Vec<bool>, wrong: &[Fault]) -> Result<(), AllocError>
    ensures { OnOk result (held.new.items ≡ held.old.items ++ map (λ f. false) wrong.now) }
{
    for fault in wrong {
        count_fault(held, fault)?;
    }
    Ok(())
}

/// Says which lines of a file are malformed.
fn tell_malformed(
    alloc: Global,
    json: bool,
    told: &mut Told,
    file: TextFile<'_>,
    wrong: &[Fault],
) -> Result<(), AllocError>
    ensures text { OnOk result (told.new.text.items ≡ told.old.text.items
        ++ Wanted.malformed_text json (source_of file.entry) wrong.now) }
    ensures held { OnOk result
        (told.new.held.items ≡ told.old.held.items ++ map (λ f. false) wrong.now) }
{
    let reports = reports_of(
        alloc,
        format_if(json),
        file.path.as_bytes(),
        file.bytes,
        wrong,
    )?;
    told.text.extend_from_slice(&reports)?;
    count_malformed(&mut told.held, wrong)
}

/// Tries the records of a file that has no malformed lines.
fn try_well_formed<'f>(
    alloc: Global,
    db: &'f Db<'_>,
    json: bool,
    told: &mut Told,
    file: TextFile<'f>,
) -> Result<(), AllocError>
    ensures text { OnOk result (told.new.text.items ≡ told.old.text.items ++ flat_map
        (Wanted.record_text json file.entry.path.now db.now)
        (Wanted.records file.entry.bytes.now)) }
    ensures held { OnOk result (told.new.held.items ≡ told.old.held.items
        ++ flat_map (Wanted.record_held db.now) (Wanted.records file.entry.bytes.now)) }
{
    let path = file.path.as_bytes();
    let records = records_of(alloc, file.bytes)?;
    let form = FileForm { json, path };
    try_records(alloc, FileTrial { db, form }, told, &records)
}

/// The malformed lines of a test file.
fn malformed_in(alloc: Global, bytes: &[u8]) -> Result<Vec<Fault>, ScanError>
    ensures malformed { IfOk result (λ wrong. wrong.items ≡ Wanted.malformed bytes.now) }
    ensures errors { IfErr result (IsFileRefusal bytes.now) }
{
    let scanned = scan(alloc, bytes)?;
    Ok(malformed_of(alloc, bytes, &scanned.faults)?)
}

/// Tries a test file: says which lines are malformed, or if none is tries its records.
fn try_file(
    alloc: Global,
    db: &Db<'_>,
    json: bool,
    told: &mut Told,
    file: TextFile<'_>,
) -> Result<(), ScanError>
    ensures text { OnOk result (told.new.text.items ≡ told.old.text.items
        ++ Wanted.file_text json db.now (source_of file.entry)) }
    ensures held { OnOk result (told.new.held.items ≡ told.old.held.items
        ++ Wanted.file_held db.now (source_of file.entry)) }
    ensures errors { IfErr result (IsFileRefusal file.entry.bytes.now) }
{
    let wrong = malformed_in(alloc, file.bytes)?;
    if wrong.is_empty() {
        Ok(try_well_formed(alloc, db, json, told, file)?)
    } else {
        Ok(tell_malformed(alloc, json, told, file, &wrong)?)
    }
}

/// Tries some test files.
fn try_files(
    alloc: Global,
    db: &Db<'_>,
    json: bool,
    files: &[TextFile<'_>],
) -> Result<Told, ScanError>
    ensures text { IfOk result (λ told. told.text.items
        ≡ flat_map (Wanted.file_text json db.now) (map source_of files.now)) }
    ensures held { IfOk result
        (λ told. told.held.items ≡ Wanted.held db.now (map source_of files.now)) }
    ensures errors { IfErr result (IsCheckRefusal (map source_of files.now)) }
{
    let mut told = Told {
        text: Vec::new(alloc),
        held: Vec::new(alloc),
    };
    for file in files {
        try_file(alloc, db, json, &mut told, *file)?;
    }
    Ok(told)
}

/// How many fail.
fn failed(held: &[bool]) -> usize
    ensures { result ≡ Wanted.failed held.now }
{
    held.iter().filter(|holds| !**holds).count()
}

/// Adds the last line, if there is one: how many lines are wanted, and how many of them fail.
fn push_end(json: bool, text: &mut Vec<u8>, held: &[bool]) -> Result<(), AllocError>
    ensures { OnOk result (text.new.items ≡ text.old.items ++ Wanted.end_text json held.now) }
{
    if json {
        return Ok(());
    }
    let mut digits = Buffer::new();
    push_count(text, held.len() as u64, "wanted line")?;
    text.extend_from_slice(b", ")?;
    text.extend_from_slice(digits.format(failed(held)).as_bytes())?;
    text.extend_from_slice(b" failed\n")?;
    Ok(())
}

/// What the test files say of a database: each line that doesn't hold of a device, or each malformed line of a file. At the end it
/// says how many. The status is 0 if each line holds, else 1.
///
/// For each device one descent of the tree, and a set of the keys that the lines of its record name. For each line the property of its
/// key is found by halving. It is an error if a file has more than 4,294,967,295 lines, or if an allocation fails.
pub fn test_files(
    alloc: Global,
    db: &Db<'_>,
    json: bool,
    files: &[TextFile<'_>],
) -> Result<Tested, ScanError>
    ensures text { IfOk result (λ tested.
        tested.text.items ≡ Wanted.test_text json (map source_of files.now) db.now) }
    ensures status { IfOk result
        (λ tested. tested.status ≡ Wanted.test_status (map source_of files.now) db.now) }
    ensures small { IfOk result (λ tested. tested.status ≤ 1) }
    ensures errors { IfErr result (IsCheckRefusal (map source_of files.now)) }
{
    let told = try_files(alloc, db, json, files)?;
    let mut text = told.text;
    push_end(json, &mut text, &told.held)?;
    let status = if failed(&told.held) == 0 { 0 } else { 1 };
    Ok(Tested { text, status })
}
