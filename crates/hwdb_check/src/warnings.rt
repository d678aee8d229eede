//! Warnings: lines that are read, but likely not as they were meant.
ghost use Rattle.std.specs.Prelude.{◌≡◌, ◌++◌, ◌∷◌, [], codes, filter, flat_map, map, take, IfOk, OnOk};
ghost use Rattle.std.specs.Option.{option_map};
ghost use Rattle.hwdb_spec.specs.Lines.{Line, clean_line};
ghost use Rattle.hwdb_spec.specs.Records;
ghost use Rattle.hwdb_spec_commands.specs.Findings.{bare_findings, found_warnings, one_warning};
ghost use Rattle.hwdb_spec_commands.specs.Kinds.{warning_name};
ghost use Rattle.hwdb_spec_commands.specs.Warnings.{all_warnings, gets, line_kinds, warning_text, warning_place, warning_hint, warning_line};
ghost use Rattle.hwdb_text.specs.Views.{given_in};
ghost use Rattle.hwdb_check.specs.Internal.{IsKnown, IsPlain, IsRead, clean_of, line_of, number_text, own, read_line, texts};
ghost use Rattle.hwdb_check.specs.Leaving.{file_line, names_of};
ghost use Rattle.hwdb_spec_commands.specs.AllowedKinds.{names_in};
ghost use Rattle.hwdb_check.specs.Plain.{IsPlainFile, IsQuiet, IsTame, plain_findings};
ghost use Rattle.hwdb_check.specs.Found.{finds};
ghost use Rattle.hwdb_check.specs.Mending.{pattern_mend};

use crate::findings::{Finding, Found, put_found};
use crate::fixes::{fix_for, pattern_mend};
use crate::fragile::{fragile_place, push_fragile_hint};
use crate::judgements::{
    judgement_place, judgement_text, push_judgement_hint, push_likelihood_hint, said_of,
};
use crate::kinds::{Manner, is_told, warning_name};
use crate::known::{Known, known_of, nothing_known};
use crate::line_faults::{FileLine, first_next, put_line_faults};
use crate::line_warnings::{
    LONGEST_LINE, Read, closed, is_warned, is_warned_at_all, kinds_of, wild_place,
};
use crate::misuses::{
    misuse_in, push_hint_of_misuse, push_spaced_hint, push_unpaired_hint, push_unread_hint,
};
use crate::plain_files::{is_plain, tame_after, tame_size};
use hwdb_pattern::{open_place, range_place};
use hwdb_properties::misuse_text;
use hwdb_show::push_name;
use hwdb_spec::Fault;
use hwdb_spec_commands::{Format, Misuse, WarningKind};
use hwdb_text::{Content, Lines, Scanned, content_of, end_of, indent_of};
use itoa::Buffer;
use std::alloc::{AllocError, Global};

/// What is printed of a warning, up to the number in it.
fn text_of(kind: WarningKind) -> &'static str
    ensures { warning_text kind ≡ result.now ++ number_text kind }
{
    match kind {
        WarningKind::ByteOrderMark => "the pattern begins with a byte order mark",
        WarningKind::LeadingTab => "a match line that begins with a tab",
        WarningKind::CarriageReturn => "a carriage return in the middle of the line",
        WarningKind::OpenBracket => "a [ that is never closed stands for itself",
        WarningKind::EmptyRange => "a range without members",
        WarningKind::SpacedEquals => "a blank beside the first =",
        WarningKind::CutValue => "a # without a blank before it cuts the value",
        WarningKind::RepeatedMatch => "a match line that stands in its record already",
        WarningKind::Replaced(_) => "an assignment that line ",
        WarningKind::Misused(misuse) => misuse_text(misuse),
        WarningKind::Unread(true) => "a property that isn't read below its patterns",
        WarningKind::Unread(false) => "a property that nothing is known to read",
        WarningKind::Unpaired => "a property that is read with others alone",
        WarningKind::Unmatched(judgement) => judgement_text(judgement),
        WarningKind::Unlikely(_) => "a string that udev asks hardly goes on like this",
        WarningKind::TooLongForUdev => {
            "udev takes at most 2046 bytes from the first *, ? or [ on"
        }
        WarningKind::MayBeTooDeep => {
            "with other lines, more than 2047 bytes may be too deep for udev"
        }
        WarningKind::Fragile => "a version or a date of the firmware beside the model",
    }
}

/// Adds what is printed of a warning from the number in it on; nothing if it has none. The only error, here and below,
/// is `AllocError`.
fn push_number(text: &mut Vec<u8>, kind: WarningKind) -> Result<(), AllocError>
    ensures { OnOk result (text.new.items ≡ text.old.items ++ number_text kind) }
{
    if let WarningKind::Replaced(by) = kind {
        let mut digits = Buffer::new();
        text.extend_from_slice(digits.format(by).as_bytes())?;
        text.extend_from_slice(b" replaces")?;
    }
    Ok(())
}

/// What to do about a warning that says it in the same words for each line.
fn hint_of(kind: WarningKind) -> &'static str
    ensures { (clean : Line) → IsPlain kind → result.now ≡ warning_hint kind clean }
{
    match kind {
        WarningKind::ByteOrderMark => "save the file without a byte order mark",
        WarningKind::LeadingTab => "begin a property with a space",
        WarningKind::CarriageReturn => "end each line with a newline alone",
        WarningKind::OpenBracket => "close it with a ], or write [[] for the byte",
        WarningKind::EmptyRange => "put the lower end of the range first",
        WarningKind::CutValue => "put a blank before a comment; a value can't hold a #",
        WarningKind::RepeatedMatch | WarningKind::Replaced(_) => "take one of the two away",
        WarningKind::TooLongForUdev => {
            "shorten it: systemd 252 and 257 crash at it, and 262 finds nothing"
        }
        WarningKind::MayBeTooDeep => {
            "shorten it: systemd 262 refuses a depth of more than 2048, which hwdb verify tells"
        }
        WarningKind::SpacedEquals
        | WarningKind::Misused(_)
        | WarningKind::Unread(_)
        | WarningKind::Unpaired
        | WarningKind::Unmatched(_)
        | WarningKind::Unlikely(_)
        | WarningKind::Fragile => "",
    }
}

/// Adds some words.
fn push_words(text: &mut Vec<u8>, words: &str) -> Result<(), AllocError>
    ensures { OnOk result (text.new.items ≡ text.old.items ++ words.now) }
{
    text.extend_from_slice(words.as_bytes())?;
    Ok(())
}

/// Adds what to do about a warning of a line with this clean text. `mend` is the pattern that was likely meant.
fn push_hint(
    alloc: Global,
    text: &mut Vec<u8>,
    kind: WarningKind,
    clean: &[u8],
    mend: &Option<Vec<u8>>,
) -> Result<(), AllocError>
    requires { option_map (λ t. t.items) mend.now ≡ pattern_mend kind clean.now }
    ensures { OnOk result
        (text.new.items ≡ text.old.items ++ warning_hint kind (line_of 0 clean.now)) }
{
    match kind {
        WarningKind::SpacedEquals => push_spaced_hint(text, clean),
        WarningKind::Misused(misuse) => push_hint_of_misuse(text, misuse, clean),
        WarningKind::Unread(known) => push_unread_hint(text, known, clean),
        WarningKind::Unpaired => push_unpaired_hint(text, clean),
        WarningKind::Unmatched(told) => push_judgement_hint(alloc, text, told, clean, mend),
        WarningKind::Unlikely(told) => push_likelihood_hint(alloc, text, told, clean, mend),
        WarningKind::Fragile => push_fragile_hint(alloc, text, clean),
        _ => push_words(text, hint_of(kind)),
    }
}

/// The place of a warning in its line, in bytes from 0.
fn warning_place(kind: WarningKind, line: &[u8], clean: &[u8]) -> usize
    ensures { result ≡ warning_place kind line.now clean.now }
{
    match kind {
        WarningKind::ByteOrderMark | WarningKind::LeadingTab | WarningKind::RepeatedMatch => 0,
        WarningKind::CarriageReturn => end_of(b'\r', line),
        WarningKind::OpenBracket => open_place(clean),
        WarningKind::EmptyRange => range_place(closed(clean)),
        WarningKind::SpacedEquals => end_of(b'=', line),
        WarningKind::CutValue => end_of(b'#', line),
        WarningKind::Replaced(_) => indent_of(line),
        WarningKind::Misused(Misuse::NearName | Misuse::OldName | Misuse::ScanCode) => {
            indent_of(line)
        }
        WarningKind::Misused(_) => end_of(b'=', line) + 1,
        WarningKind::Unread(_) | WarningKind::Unpaired => indent_of(line),
        WarningKind::Unmatched(judgement) | WarningKind::Unlikely(judgement) => {
            judgement_place(judgement)
        }
        WarningKind::TooLongForUdev => wild_place(clean),
        WarningKind::MayBeTooDeep => LONGEST_LINE,
        WarningKind::Fragile => fragile_place(clean),
    }
}

/// Adds the line of a warning.
pub fn push_warning_line(
    text: &mut Vec<u8>,
    path: &[u8],
    number: u64,
    kind: WarningKind,
) -> Result<(), AllocError>
    ensures { OnOk result (text.new.items ≡ text.old.items ++ warning_line path.now number kind) }
{
    let mut digits = Buffer::new();
    push_name(text, path)?;
    text.push(b':')?;
    text.extend_from_slice(digits.format(number).as_bytes())?;
    text.extend_from_slice(b": warning: ")?;
    text.extend_from_slice(text_of(kind).as_bytes())?;
    push_number(text, kind)?;
    text.push(b'\n')?;
    Ok(())
}

/// What is printed of a warning, without its line.
fn words_of(alloc: Global, kind: WarningKind) -> Result<Vec<u8>, AllocError>
    ensures { IfOk result (λ words. words.items ≡ warning_text kind) }
{
    let mut words = Vec::new(alloc);
    words.extend_from_slice(text_of(kind).as_bytes())?;
    push_number(&mut words, kind)?;
    Ok(words)
}

/// Adds a warning of a line to what is found.
#[tactic(auto, unfolding(hwdb_spec_commands::specs::Findings::one_warning))]
fn put_told<'a>(
    alloc: Global,
    format: Format,
    found: &mut Vec<Found>,
    line: &Read<'a>,
    kind: WarningKind,
) -> Result<(), AllocError>
    requires { IsRead line.now }
    ensures { OnOk result (finds found.new.items ≡ finds found.old.items
        ++ one_warning format line.now.path.now (read_line line.now) kind) }
{
    let words = words_of(alloc, kind)?;
    let mut hint = Vec::new(alloc);
    let mend = pattern_mend(alloc, kind, line.clean)?;
    push_hint(alloc, &mut hint, kind, line.clean, &mend)?;
    let fix = fix_for(alloc, format, kind, line, mend)?;
    let warning = Finding {
        path: line.path,
        line: line.number,
        place: warning_place(kind, line.text, line.clean),
        fault: false,
        kind: warning_name(kind),
        text: &words,
        hint: &hint,
        source: line.text,
        fix: &fix,
    };
    put_found(alloc, found, &warning)
}

/// Whether a line gets a warning that is told.
fn gets(allowed: &[&[u8]], line: &Read<'_>, kind: WarningKind) -> bool
    requires { IsRead line.now }
    ensures { result ≡ gets (flat_map names_in (texts allowed.now)) line.now.bytes.now
        (read_line line.now) (clean_of line.now) kind }
{
    is_told(allowed, kind) && is_warned(kind, line)
}

/// What the warnings of a file depend on besides the line that they are of.
#[derive(Clone, Copy)]
pub struct Basis<'b, 'a, 'k> {
    /// How they are told.
    pub manner: &'b Manner<'a>,
    /// What is known of the file.
    pub known: &'b Known<'k>,
}

/// What was found in the lines so far.
#[derive(Drop)]
pub struct Warned {
    /// The findings.
    pub found: Vec<Found>,
}

impl Warned {
    /// Adds a warning, if the line gets it and it is told.
    fn put_if(
        &mut self,
        alloc: Global,
        telling: &Manner<'_>,
        line: &Read<'_>,
        kind: WarningKind,
    ) -> Result<(), AllocError>
        requires { IsRead line.now }
        ensures { OnOk result (finds self.new.found.items ≡ finds self.old.found.items
            ++ flat_map (one_warning telling.now.format line.now.path.now (read_line line.now))
            (filter (gets (names_of telling.now) line.now.bytes.now
            (read_line line.now) (clean_of line.now)) (kind ∷ []))) }
    {
        if gets(telling.allowed, line, kind) {
            put_told(alloc, telling.format, &mut self.found, line, kind)?;
        }
        Ok(())
    }

    /// Adds the warnings of a line with its clean text.
    fn put_all(
        &mut self,
        alloc: Global,
        telling: &Manner<'_>,
        line: &Read<'_>,
    ) -> Result<(), AllocError>
        requires { IsRead line.now }
        ensures { OnOk result (finds self.new.found.items ≡ finds self.old.found.items
            ++ flat_map (one_warning telling.now.format line.now.path.now (read_line line.now))
            (all_warnings (names_of telling.now) line.now.bytes.now
            (read_line line.now) (clean_of line.now))) }
    {
        if !is_warned_at_all(line) {
            return Ok(());
        }
        let kinds = kinds_of(line);
        for kind in &kinds {
            self.put_if(alloc, telling, line, *kind)?;
        }
        Ok(())
    }

    /// Adds the warnings of a line of a file with its clean text.
    fn put_kept(
        &mut self,
        alloc: Global,
        basis: Basis<'_, '_, '_>,
        line: &FileLine<'_>,
        clean: &[u8],
    ) -> Result<(), AllocError>
        requires known { IsKnown basis.known.now }
        requires clean { clean.now ≡ (clean_line (file_line line.now)).text }
        ensures { OnOk result (finds self.new.found.items ≡ finds self.old.found.items
            ++ flat_map
            (one_warning basis.entry.manner.now.format line.now.path.now (file_line line.now))
            (all_warnings (names_of basis.entry.manner.now) basis.entry.known.now.bytes.now
            (file_line line.now) (clean_line (file_line line.now)))) }
    {
        let said = said_of(alloc, clean)?;
        let known = basis.known;
        let number = line.number;
        let read = Read {
            path: line.path,
            bytes: known.bytes,
            number,
            text: line.text,
            clean,
            repeated: known.repeated.contains(&number),
            replaced_by: known.replaced.get(&number).copied().unwrap_or(0),
            misuse: misuse_in(clean),
            unread: known.unread.has(number),
            unpaired: known.unpaired.contains(&number),
            judgement: said.judgement,
            likelihood: said.likelihood,
        };
        self.put_all(alloc, basis.manner, &read)
    }

    /// Adds the warnings of a line of a file.
    #[tactic(auto, using(crate::proofs::RepeatLemmas::no_text))]
    pub fn put_line(
        &mut self,
        alloc: Global,
        basis: Basis<'_, '_, '_>,
        line: &FileLine<'_>,
    ) -> Result<(), AllocError>
        requires { IsKnown basis.known.now }
        ensures { OnOk result (finds self.new.found.items ≡ finds self.old.found.items
            ++ found_warnings basis.entry.manner.now.format (names_of basis.entry.manner.now)
            line.now.path.now basis.entry.known.now.bytes.now (file_line line.now)) }
    {
        match content_of(line.text) {
            Content::Comment => Ok(()),
            Content::ZeroByte => Ok(()),
            Content::Empty => self.put_kept(alloc, basis, line, &[]),
            Content::Property(clean) | Content::Match(clean) => {
                self.put_kept(alloc, basis, line, clean)
            }
        }
    }

    /// As `put_line`, of a line that gets no warning unless a `#` cuts it. So many of its first bytes are tame.
    fn put_tame(
        &mut self,
        alloc: Global,
        basis: Basis<'_, '_, '_>,
        line: &FileLine<'_>,
        tame: usize,
    ) -> Result<(), AllocError>
        requires known { IsKnown basis.known.now }
        requires quiet { IsQuiet basis.known.now.bytes.now (file_line line.now) }
        requires tame { IsTame 10 (take tame line.now.text.now) }
        ensures { OnOk result (finds self.new.found.items ≡ finds self.old.found.items
            ++ found_warnings basis.entry.manner.now.format (names_of basis.entry.manner.now)
            line.now.path.now basis.entry.known.now.bytes.now (file_line line.now)) }
    {
        if line.text.len() <= tame {
            return Ok(());
        }
        self.put_line(alloc, basis, line)
    }
}

/// As `warnings_of`, of any file.
#[tactic(auto, unfolding(hwdb_spec::specs::Lines::numbered))]
fn warnings_by_line(
    alloc: Global,
    telling: &Manner<'_>,
    path: &[u8],
    bytes: &[u8],
    scanned: &Scanned<'_>,
) -> Result<Warned, AllocError>
    requires assignments { map (given_in own) scanned.now.assignments.items
        ≡ Records.assignments own bytes.now }
    requires faults { scanned.now.faults.items ≡ Records.faults bytes.now }
    ensures { IfOk result (λ w. finds w.found.items
        ≡ bare_findings telling.now.format (names_of telling.now)
        path.now bytes.now) }
{
    let faults: &[Fault] = &scanned.faults;
    let known = known_of(alloc, bytes, &scanned.assignments)?;
    let basis = Basis {
        manner: telling,
        known: &known,
    };
    let mut warned = Warned {
        found: Vec::new(alloc),
    };
    let mut next = first_next(bytes, faults);
    let mut number = 1;
    for text in Lines::new(bytes) {
        let line = FileLine { path, number, text };
        next = put_line_faults(alloc, &mut warned.found, &line, faults, next)?;
        warned.put_line(alloc, basis, &line)?;
        number += 1;
    }
    Ok(warned)
}

/// As `warnings_of`, of a plain file: only lines with a `#` that no blank is before are looked at, and none after the last of
/// these.
fn cut_warnings(
    alloc: Global,
    telling: &Manner<'_>,
    path: &[u8],
    bytes: &[u8],
) -> Result<Warned, AllocError>
    requires { IsPlainFile bytes.now }
    ensures { IfOk result (λ w. finds w.found.items
        ≡ plain_findings telling.now.format (names_of telling.now)
        path.now bytes.now) }
{
    let known = nothing_known(alloc, bytes);
    let basis = Basis {
        manner: telling,
        known: &known,
    };
    let mut warned = Warned {
        found: Vec::new(alloc),
    };
    let mut number = 1;
    let mut at = 0;
    let mut tame = tame_size(bytes);
    while at < bytes.len() {
        let rest = &bytes[at..];
        if rest.len() <= tame {
            return Ok(warned);
        }
        let end = end_of(b'\n', rest);
        let text = &rest[..end];
        let line = FileLine { path, number, text };
        warned.put_tame(alloc, basis, &line, tame)?;
        tame = tame_after(rest, end, tame);
        at = at + end + 1;
        number += 1;
    }
    Ok(warned)
}

/// The findings of a file of which this was scanned, line by line.
pub fn warnings_of(
    alloc: Global,
    telling: &Manner<'_>,
    path: &[u8],
    bytes: &[u8],
    scanned: &Scanned<'_>,
) -> Result<Warned, AllocError>
    requires assignments { map (given_in own) scanned.now.assignments.items
        ≡ Records.assignments own bytes.now }
    requires faults { scanned.now.faults.items ≡ Records.faults bytes.now }
    ensures { IfOk result (λ w. finds w.found.items
        ≡ bare_findings telling.now.format (names_of telling.now)
        path.now bytes.now) }
{
    if is_plain(alloc, bytes, &scanned.assignments, &scanned.faults)? {
        return cut_warnings(alloc, telling, path, bytes);
    }
    warnings_by_line(alloc, telling, path, bytes, scanned)
}
