//! Which mends of a file are sure: with them nothing new is found, and nothing that was mended.
ghost use Rattle.std.specs.Prelude.{◌≡◌, IfErr, IfOk, List, ℕ, length, map, string_bytes};
ghost use Rattle.hwdb_spec_commands.specs.Baselines;
ghost use Rattle.hwdb_spec_commands.specs.CheckErrors.{IsFileRefusal};
ghost use Rattle.hwdb_spec_commands.specs.Patches;
ghost use Rattle.hwdb_spec_commands.specs.RuleFindings.{findings_of};
ghost use Rattle.hwdb_check.specs.Found.{finds, kept_of};
ghost use Rattle.hwdb_check.specs.Patching.{IsMended, edits_of};
ghost use Rattle.hwdb_check.specs.Places.{told_at};
ghost use Rattle.hwdb_check.specs.Trials.{IsTrial};

use crate::among::{are_among, own_source};
use crate::baselines::{mark_of, new_findings};
use crate::edit_records::record_by_record;
use crate::edits::{Change, Edit, first_mend, is_ended, line_by_line, text_of, unmended};
use crate::files::look_over;
use crate::findings::{Found, copy_of, push_count};
use crate::kinds::Telling;
use hwdb_properties::same;
use hwdb_text::ScanError;
use std::alloc::{AllocError, Global};

/// The lines of a file with its sure mends, and how much is found before and after them.
#[derive(Drop)]
pub struct Mended<'f> {
    /// The lines.
    pub edits: Vec<Edit<'f>>,
    /// How many findings the file has.
    pub before: usize,
    /// How many it has with the mends.
    pub left: usize,
}

/// A file, and how its findings are told.
#[derive(Clone, Copy)]
struct Place<'a> {
    /// How they are told.
    telling: &'a Telling<'a>,
    /// The path that is printed for it.
    path: &'a [u8],
    /// Whether a newline ends its last line.
    ended: bool,
}

/// What stands for a finding's line, so that findings of two texts can be compared. The only error, here and below, is `AllocError`.
fn number_text(alloc: Global, found: &Found) -> Result<Vec<u8>, AllocError>
    ensures { IfOk result
        (λ text. text.items ≡ (Patches.at_number (kept_of found.now)).source) }
{
    let mut text = Vec::new(alloc);
    push_count(&mut text, found.line)?;
    text.push(b' ')?;
    text.extend_from_slice(own_source(found))?;
    Ok(text)
}

/// A finding with its line's number in place of the line.
fn at_number(alloc: Global, found: &Found) -> Result<Found, AllocError>
    ensures { IfOk result (λ f. kept_of f ≡ Patches.at_number (kept_of found.now)) }
{
    Ok(Found {
        path: Vec::from_slice(alloc, &found.path)?,
        line: found.line,
        place: found.place,
        fault: found.fault,
        kind: found.kind,
        text: Vec::from_slice(alloc, &found.text)?,
        hint: Vec::from_slice(alloc, &found.hint)?,
        source: number_text(alloc, found)?,
        fix: copy_of(alloc, &found.fix)?,
    })
}

/// Some findings, each so.
fn at_numbers(alloc: Global, found: &[Found]) -> Result<Vec<Found>, AllocError>
    ensures { IfOk result (λ all. finds all.items ≡ map Patches.at_number (finds found.now)) }
{
    let mut all = Vec::new(alloc);
    for one in found {
        let so = at_number(alloc, one)?;
        all.push(so).map_err(AllocError::from)?;
    }
    Ok(all)
}

/// What is compared of a finding.
fn number_mark(alloc: Global, found: &Found) -> Result<Vec<u8>, AllocError>
    ensures { IfOk result
        (λ mark. mark.items ≡ Baselines.mark_of (Patches.at_number (kept_of found.now))) }
{
    let so = at_number(alloc, found)?;
    mark_of(alloc, &so)
}

/// The same of some findings.
fn number_marks(alloc: Global, found: &[Found]) -> Result<Vec<Vec<u8>>, AllocError>
    ensures { IfOk result (λ all. map (λ t. t.items) all.items
        ≡ map (λ f. Baselines.mark_of (Patches.at_number f)) (finds found.now)) }
{
    let mut all = Vec::new(alloc);
    for one in found {
        let mark = number_mark(alloc, one)?;
        all.push(mark).map_err(AllocError::from)?;
    }
    Ok(all)
}

/// As `worse`, of any findings: it takes a look among the old ones for each.
fn worse_by_marks(alloc: Global, before: &[Found], now: &[Found]) -> Result<Vec<Found>, AllocError>
    ensures { IfOk result
        (λ new. finds new.items ≡ Patches.worse (finds before.now) (finds now.now)) }
{
    let known = number_marks(alloc, before)?;
    let now = at_numbers(alloc, now)?;
    new_findings(alloc, &known, now)
}

/// The findings of a patched text that aren't those of the old one. Mostly there are none, which is seen in one walk along both.
fn worse(alloc: Global, before: &[Found], now: &[Found]) -> Result<Vec<Found>, AllocError>
    ensures { IfOk result
        (λ new. finds new.items ≡ Patches.worse (finds before.now) (finds now.now)) }
{
    if are_among(before, now) {
        return Ok(Vec::new(alloc));
    }
    worse_by_marks(alloc, before, now)
}

/// Lines that are tried.
#[derive(Drop)]
struct Trial<'f> {
    /// The lines.
    edits: Vec<Edit<'f>>,
    /// The text of the file with them.
    text: Vec<u8>,
    /// What is found in it.
    found: Vec<Found>,
}

/// What is found in a text that has as many lines as the file, so that only want of memory can stop this.
fn found_in(alloc: Global, place: &Place<'_>, text: &[u8]) -> Result<Vec<Found>, AllocError>
    ensures { IfOk result (λ all. finds all.items ≡ told_at place.now text.now) }
{
    match look_over(alloc, place.telling, place.path, text) {
        Ok(seen) => Ok(seen.found),
        Err(_) => Err(AllocError),
    }
}

/// Lines, and what is found with them.
fn try_lines<'f>(
    alloc: Global,
    place: &Place<'_>,
    edits: Vec<Edit<'f>>,
) -> Result<Trial<'f>, AllocError>
    ensures edits { IfOk result (λ t. edits_of t.edits.items ≡ edits_of edits.entry.items) }
    ensures trial { IfOk result (IsTrial place.now) }
{
    let text = text_of(alloc, place.ended, &edits)?;
    let found = found_in(alloc, place, &text)?;
    Ok(Trial { edits, text, found })
}

/// Other lines, and what is found with them. A text that was read before isn't read again.
fn try_next<'f>(
    alloc: Global,
    place: &Place<'_>,
    before: Trial<'f>,
    edits: Vec<Edit<'f>>,
) -> Result<Trial<'f>, AllocError>
    requires { IsTrial place.now before }
    ensures edits { IfOk result (λ t. edits_of t.edits.items ≡ edits_of edits.entry.items) }
    ensures trial { IfOk result (IsTrial place.now) }
{
    let text = text_of(alloc, place.ended, &edits)?;
    if same(&text, &before.text) {
        return Ok(Trial {
            edits,
            text,
            found: before.found,
        });
    }
    let found = found_in(alloc, place, &text)?;
    Ok(Trial { edits, text, found })
}

/// What is mended already, mended by what is found then.
fn once_more<'f>(
    alloc: Global,
    place: &Place<'_>,
    trial: Trial<'f>,
) -> Result<Trial<'f>, AllocError>
    requires { IsTrial place.now trial }
    ensures edits { IfOk result (λ t. edits_of t.edits.items ≡ Patches.once_more
        (told_at place.now) place.now.ended (edits_of trial.entry.edits.items)) }
    ensures trial { IfOk result (IsTrial place.now) }
{
    let edits = line_by_line(alloc, Change::MendAgain, &trial.found, &trial.edits)?;
    try_next(alloc, place, trial, edits)
}

/// The lines in which nothing new is found; the others stay as they were.
fn not_worse<'f>(
    alloc: Global,
    place: &Place<'_>,
    before: &[Found],
    trial: Trial<'f>,
) -> Result<Trial<'f>, AllocError>
    requires { IsTrial place.now trial }
    ensures edits { IfOk result (λ t. edits_of t.edits.items ≡ Patches.not_worse
        (told_at place.now) place.now.ended (finds before.now)
        (edits_of trial.entry.edits.items)) }
    ensures trial { IfOk result (IsTrial place.now) }
{
    let new = worse(alloc, before, &trial.found)?;
    let edits = line_by_line(alloc, Change::TakeBack, &new, &trial.edits)?;
    try_next(alloc, place, trial, edits)
}

/// The records in which nothing new is found; the others stay as they were.
fn whole_records<'f>(
    alloc: Global,
    place: &Place<'_>,
    before: &[Found],
    trial: Trial<'f>,
) -> Result<Trial<'f>, AllocError>
    requires { IsTrial place.now trial }
    ensures edits { IfOk result (λ t. edits_of t.edits.items ≡ Patches.whole_records
        (told_at place.now) place.now.ended (finds before.now)
        (edits_of trial.entry.edits.items)) }
    ensures trial { IfOk result (IsTrial place.now) }
{
    let new = worse(alloc, before, &trial.found)?;
    let edits = record_by_record(alloc, &new, &trial.edits)?;
    try_next(alloc, place, trial, edits)
}

/// A file of which each line stays.
fn nothing_mended<'f>(
    alloc: Global,
    bytes: &'f [u8],
    before: &[Found],
) -> Result<Mended<'f>, AllocError>
    ensures { IfOk result (IsMended (Patches.none_mended bytes.now (finds before.now))) }
{
    Ok(Mended {
        edits: unmended(alloc, bytes)?,
        before: before.len(),
        left: before.len(),
    })
}

/// These mends if nothing new is found with them, else none.
fn all_or_none<'f>(
    alloc: Global,
    place: &Place<'_>,
    bytes: &'f [u8],
    before: &[Found],
    trial: Trial<'f>,
) -> Result<Mended<'f>, AllocError>
    requires { IsTrial place.now trial }
    ensures { IfOk result (IsMended (Patches.all_or_none (told_at place.now) place.now.ended
        bytes.now (finds before.now) (edits_of trial.entry.edits.items))) }
{
    let new = worse(alloc, before, &trial.found)?;
    if new.is_empty() {
        return Ok(Mended {
            edits: trial.edits,
            before: before.len(),
            left: trial.found.len(),
        });
    }
    nothing_mended(alloc, bytes, before)
}

/// All mends that can be tried, each line up to three times.
fn all_tried<'f>(
    alloc: Global,
    place: &Place<'_>,
    bytes: &'f [u8],
    before: &[Found],
) -> Result<Trial<'f>, AllocError>
    ensures edits { IfOk result (λ t. edits_of t.edits.items ≡ Patches.all_tried
        (told_at place.now) place.now.ended bytes.now (finds before.now)) }
    ensures trial { IfOk result (IsTrial place.now) }
{
    let lines = unmended(alloc, bytes)?;
    let edits = line_by_line(alloc, Change::Mend, before, &lines)?;
    let first = try_lines(alloc, place, edits)?;
    let second = once_more(alloc, place, first)?;
    once_more(alloc, place, second)
}

/// Those of them that are sure.
fn tried<'f>(
    alloc: Global,
    place: &Place<'_>,
    bytes: &'f [u8],
    before: &[Found],
) -> Result<Mended<'f>, AllocError>
    ensures { IfOk result (IsMended (Patches.tried
        (told_at place.now) place.now.ended bytes.now (finds before.now))) }
{
    if first_mend(before).is_none() {
        return nothing_mended(alloc, bytes, before);
    }
    let all = all_tried(alloc, place, bytes, before)?;
    let lines = not_worse(alloc, place, before, all)?;
    let records = whole_records(alloc, place, before, lines)?;
    all_or_none(alloc, place, bytes, before, records)
}

/// The lines of a file with its sure mends. `telling` has lines of JSON, which have mends.
pub fn mend_file<'f>(
    alloc: Global,
    telling: &Telling<'_>,
    path: &[u8],
    bytes: &'f [u8],
) -> Result<Mended<'f>, ScanError>
    ensures mended { IfOk result (IsMended (Patches.mended (findings_of telling.now.format
        (map string_bytes telling.now.allowed.now) path.now) bytes.now)) }
    ensures errors { IfErr result (IsFileRefusal bytes.now) }
{
    let seen = look_over(alloc, telling, path, bytes)?;
    let place = Place {
        telling,
        path,
        ended: is_ended(bytes),
    };
    Ok(tried(alloc, &place, bytes, &seen.found)?)
}
