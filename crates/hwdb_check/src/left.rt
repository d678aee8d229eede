//! The warnings of a file that comments leave, and names in comments that are no kinds of warnings.
ghost use Rattle.std.specs.Prelude.{◌≡◌, ◌++◌, ◌∷◌, [], List, ℕ, codes, false, true, filter, flat_map, map, not, string_bytes, IfOk, OnOk};
ghost use Rattle.hwdb_spec.specs.Lines.{Line};
ghost use Rattle.hwdb_spec.specs.Records;
ghost use Rattle.hwdb_spec_commands.specs.Findings.{found_warnings};
ghost use Rattle.hwdb_spec_commands.specs.Properties;
ghost use Rattle.hwdb_text.specs.Views.{given_in};
ghost use Rattle.hwdb_spec_commands.specs.AllowedKinds;
ghost use Rattle.hwdb_spec_commands.specs.AllowedKinds.{comment_place, file_findings, is_kind, one_unknown, unknown_hint, unknown_names, unknown_text};
ghost use Rattle.hwdb_check.specs.Found.{finds};
ghost use Rattle.hwdb_check.specs.Internal.{IsKnown, line_of, own, texts};
ghost use Rattle.hwdb_check.specs.Leaving.{file_line, names_of};

use crate::allowed::{after_line, allowed_text, any_allowed, is_kind, record_kinds, stripped};
use crate::findings::{Finding, Found, put_found};
use crate::kinds::{Manner, Telling};
use crate::known::known_of;
use crate::line_faults::{FileLine, first_next, put_line_faults};
use crate::warnings::{Basis, Warned, warnings_of};
use hwdb_properties::{Likeness, first_row};
use hwdb_show::push_shown;
use hwdb_spec::Fault;
use hwdb_spec_commands::{Format, KINDS};
use hwdb_text::{Lines, Pieces, Scanned, end_of};
use std::alloc::{AllocError, Global};

/// Adds what is told of a name that is no kind of warning. The only error, here and below, is `AllocError`.
fn push_unknown_text(text: &mut Vec<u8>, name: &[u8]) -> Result<(), AllocError>
    ensures { OnOk result (text.new.items ≡ text.old.items ++ unknown_text name.now) }
{
    text.extend_from_slice(b"no kind of warning that a comment may allow: ")?;
    push_shown(text, name)
}

/// Adds the question whether another name was meant.
fn push_did_you_mean(text: &mut Vec<u8>, name: &[u8]) -> Result<(), AllocError>
    ensures { OnOk result (text.new.items ≡ text.old.items ++ Properties.did_you_mean name.now) }
{
    text.extend_from_slice(b"did you mean ")?;
    text.extend_from_slice(name)?;
    text.push(b'?')?;
    Ok(())
}

/// Adds what to do about a name, if the kind with nearly this name is `near`.
fn push_kind_hint(text: &mut Vec<u8>, near: &[u8]) -> Result<(), AllocError>
    ensures { OnOk result (text.new.items ≡ text.old.items ++ AllowedKinds.kind_hint near.now) }
{
    if near.is_empty() {
        return text.extend_from_slice(b"hwdb-format(7) has all kinds; a fault can't be allowed");
    }
    push_did_you_mean(text, near)
}

/// Adds what to do about a name.
fn push_unknown_hint(text: &mut Vec<u8>, name: &[u8]) -> Result<(), AllocError>
    ensures { OnOk result (text.new.items ≡ text.old.items ++ unknown_hint name.now) }
{
    push_kind_hint(text, first_row(KINDS.as_bytes(), name, Likeness::Near))
}

/// The place of a line's comment, in bytes from 0.
fn place_of(line: &FileLine<'_>) -> usize
    ensures { result ≡ comment_place line.now.text.now }
{
    end_of(b'#', line.text)
}

/// What is told of a name.
fn text_of(alloc: Global, name: &[u8]) -> Result<Vec<u8>, AllocError>
    ensures { IfOk result (λ text. text.items ≡ unknown_text name.now) }
{
    let mut text = Vec::new(alloc);
    push_unknown_text(&mut text, name)?;
    Ok(text)
}

/// What to do about a name.
fn hint_of(alloc: Global, name: &[u8]) -> Result<Vec<u8>, AllocError>
    ensures { IfOk result (λ hint. hint.items ≡ unknown_hint name.now) }
{
    let mut hint = Vec::new(alloc);
    push_unknown_hint(&mut hint, name)?;
    Ok(hint)
}

/// Adds a name in a line's comment to what is found.
#[tactic(auto, unfolding(hwdb_spec_commands::specs::AllowedKinds::one_unknown))]
fn put_unknown(
    alloc: Global,
    found: &mut Vec<Found>,
    line: &FileLine<'_>,
    name: &[u8],
) -> Result<(), AllocError>
    ensures { OnOk result (finds found.new.items ≡ finds found.old.items
        ++ one_unknown line.now.path.now (file_line line.now) name.now) }
{
    let told = text_of(alloc, name)?;
    let hint = hint_of(alloc, name)?;
    let fix = None;
    let unknown = Finding {
        path: line.path,
        line: line.number,
        place: place_of(line),
        fault: false,
        kind: "unknown-kind",
        text: &told,
        hint: &hint,
        source: line.text,
        fix: &fix,
    };
    put_found(alloc, found, &unknown)
}

/// Adds a name in a line's comment, if it is no kind.
fn put_name(
    alloc: Global,
    found: &mut Vec<Found>,
    line: &FileLine<'_>,
    name: &[u8],
) -> Result<(), AllocError>
    ensures { OnOk result (finds found.new.items ≡ finds found.old.items
        ++ flat_map (one_unknown line.now.path.now (file_line line.now))
        (filter (λ n. not (is_kind n)) (name.now ∷ []))) }
{
    if !is_kind(name) {
        put_unknown(alloc, found, line, name)?;
    }
    Ok(())
}

/// Adds the names in a line's comment that are no kinds.
fn put_names(alloc: Global, found: &mut Vec<Found>, line: &FileLine<'_>) -> Result<(), AllocError>
    ensures { OnOk result (finds found.new.items ≡ finds found.old.items
        ++ flat_map (one_unknown line.now.path.now (file_line line.now))
        (unknown_names line.now.text.now)) }
{
    for piece in Pieces::new(b',', allowed_text(line.text)) {
        put_name(alloc, found, line, stripped(piece))?;
    }
    Ok(())
}

/// Adds what is left of a line.
fn put_left(
    alloc: Global,
    warned: &mut Warned,
    basis: Basis<'_, '_, '_>,
    line: &FileLine<'_>,
) -> Result<(), AllocError>
    requires { IsKnown basis.known.now }
    ensures { OnOk result (finds warned.new.found.items ≡ finds warned.old.found.items
        ++ (flat_map (one_unknown line.now.path.now (file_line line.now))
        (unknown_names line.now.text.now)
        ++ found_warnings basis.entry.manner.now.format (names_of basis.entry.manner.now)
        line.now.path.now basis.entry.known.now.bytes.now (file_line line.now))) }
{
    put_names(alloc, &mut warned.found, line)?;
    warned.put_line(alloc, basis, line)
}

/// As `left_of`, of a file in which comments let kinds pass. The findings of a line begin with its faults.
fn left_by_line(
    alloc: Global,
    manner: &Manner<'_>,
    path: &[u8],
    bytes: &[u8],
    scanned: &Scanned<'_>,
) -> Result<Warned, AllocError>
    requires assignments { map (given_in own) scanned.now.assignments.items
        ≡ Records.assignments own bytes.now }
    requires faults { scanned.now.faults.items ≡ Records.faults bytes.now }
    ensures { IfOk result (λ w. finds w.found.items
        ≡ file_findings manner.now.format (texts manner.now.allowed.now) path.now bytes.now) }
{
    let faults: &[Fault] = &scanned.faults;
    let known = known_of(alloc, bytes, &scanned.assignments)?;
    let mut left = Warned {
        found: Vec::new(alloc),
    };
    let mut lines = Lines::new(bytes);
    let mut kinds = record_kinds(alloc, manner.allowed, lines)?;
    let mut next = first_next(bytes, faults);
    let mut number = 1;
    'lines: while let Some(text) = lines.next() {
        let line = FileLine { path, number, text };
        let here = Manner {
            format: manner.format,
            allowed: &kinds,
        };
        let basis = Basis {
            manner: &here,
            known: &known,
        };
        next = put_line_faults(alloc, &mut left.found, &line, faults, next)?;
        put_left(alloc, &mut left, basis, &line)?;
        kinds = after_line(alloc, manner.allowed, kinds, text, lines)?;
        number += 1;
    }
    Ok(left)
}

/// The words of `--allow`, as bytes.
pub fn words_of<'w>(alloc: Global, words: &'w [String]) -> Result<Vec<&'w [u8]>, AllocError>
    ensures { IfOk result (λ all. texts all.items ≡ map string_bytes words.now) }
{
    let mut all = Vec::new(alloc);
    for word in words {
        all.push(word.as_bytes())?;
    }
    Ok(all)
}

/// As `left_of`, of words that are bytes.
fn left_if(
    alloc: Global,
    manner: &Manner<'_>,
    path: &[u8],
    bytes: &[u8],
    scanned: &Scanned<'_>,
) -> Result<Warned, AllocError>
    requires assignments { map (given_in own) scanned.now.assignments.items
        ≡ Records.assignments own bytes.now }
    requires faults { scanned.now.faults.items ≡ Records.faults bytes.now }
    ensures { IfOk result (λ w. finds w.found.items
        ≡ file_findings manner.now.format (texts manner.now.allowed.now) path.now bytes.now) }
{
    if any_allowed(bytes) {
        return left_by_line(alloc, manner, path, bytes, scanned);
    }
    warnings_of(alloc, manner, path, bytes, scanned)
}

/// The findings of a file of which this was scanned.
pub fn left_of(
    alloc: Global,
    telling: &Telling<'_>,
    path: &[u8],
    bytes: &[u8],
    scanned: &Scanned<'_>,
) -> Result<Warned, AllocError>
    requires assignments { map (given_in own) scanned.now.assignments.items
        ≡ Records.assignments own bytes.now }
    requires faults { scanned.now.faults.items ≡ Records.faults bytes.now }
    ensures { IfOk result (λ w. finds w.found.items ≡ file_findings telling.now.format
        (map string_bytes telling.now.allowed.now) path.now bytes.now) }
{
    let words = words_of(alloc, telling.allowed)?;
    let manner = Manner {
        format: telling.format,
        allowed: &words,
    };
    left_if(alloc, &manner, path, bytes, scanned)
}
