//! The strings that rules ask for a device.
ghost use Rattle.std.specs.Prelude.{◌≡◌, ◌++◌, ◌∷◌, [], codes, filter, flat_map, get_or, map, IfOk, OnOk};
ghost use Rattle.hwdb_rulefiles.specs.LineViews.{line_of};
ghost use Rattle.hwdb_rulefiles.specs.PairViews.{value_view};
ghost use Rattle.hwdb_ruleevents.specs.ChangeViews.{value_of};
ghost use Rattle.hwdb_ruleevents.specs.Events.{turn};
ghost use Rattle.hwdb_ruleevents.specs.FileViews.{lines_of};
ghost use Rattle.hwdb_ruleevents.specs.ReasonViews.{reason_of};
ghost use Rattle.hwdb_ruleevents.specs.TellViews.{told_of};
ghost use Rattle.hwdb_sysfs.specs.Views.{ancestor_of, device_of};
ghost use Rattle.hwdb_spec_rules.specs.RuleReasons.{rather_all};
ghost use Rattle.hwdb_spec_rules.specs.RuleStrings;
ghost use Rattle.hwdb_ruleasks.specs.Views.{file_of, found_of, questions_view, tells_of, why_view};
ghost use Rattle.hwdb_ruleasks.specs.SettingViews.{account_in, account_of, added_in, changed_in, known_in};

use crate::answers::{Found, ask_questions};
use crate::commands::DeviceCommands;
use crate::lookups::questions_in;
use crate::names::names_read;
use crate::properties::first_properties;
use crate::reasons::{after_first, cause_text, doubt_at, rather_first};
use crate::sights::{all_looked, all_seen, look_at};
use hwdb_reader::Db;
use hwdb_ruleevents::{Facts, Knowledge, Parent, Reason, Story, Told, Value, known, tell_files};
use hwdb_rulefiles::RuleLine;
use hwdb_rulerun::{Entry, Known, Seen, Sight};
use hwdb_rules::Question;
use hwdb_sysfs::{Ancestor, Device};
use itoa::Buffer;
use std::alloc::{AllocError, Global};

/// A rules file.
#[derive(Clone, Copy)]
pub struct RulesFile<'a> {
    /// Its name without `.rules`.
    pub name: &'a [u8],
    /// Its lines.
    pub lines: &'a [RuleLine],
}

/// A line with a lookup.
#[derive(Drop)]
pub struct Why {
    /// Its file's name without `.rules`, and its number.
    pub rule: Vec<u8>,
    /// Whether it asks, if that is known.
    pub asks: Option<bool>,
    /// What decides; nothing if it asks.
    pub cause: Vec<u8>,
}

/// What rules tell of a device.
#[derive(Drop)]
pub struct ByRules<'d> {
    /// The strings that they ask, and what each gets.
    pub found: Vec<Found<'d>>,
    /// Whether the lines with lookups ask, and what decides.
    pub whys: Vec<Why>,
}

/// The lines of files. The only error, here and below, is `AllocError`.
pub(crate) fn lines_in<'a>(
    alloc: Global,
    files: &[RulesFile<'a>],
) -> Result<Vec<&'a [RuleLine]>, AllocError>
    ensures { IfOk result (λ all. map lines_of all.items
        ≡ RuleStrings.lines_in (map file_of files.now)) }
{
    let mut all = Vec::new(alloc);
    for file in files {
        all.push(file.lines)?;
    }
    Ok(all)
}

/// What is known of a device when rules are tried.
#[derive(Clone, Copy)]
pub(crate) struct Setting<'s> {
    own: &'s Ancestor,
    seen: Seen<'s>,
    parents: &'s [Seen<'s>],
    others: &'s [Entry<'s>],
    commands: &'s DeviceCommands<'s>,
}

/// What is told at an action.
fn account_at<'s>(
    alloc: Global,
    setting: &Setting<'s>,
    action: &'s [u8],
    lines: &[&'s [RuleLine]],
) -> Result<Story<'s>, AllocError>
    ensures { IfOk result (λ s. account_of s ≡ account_in (known_in setting.now)
        (ancestor_of setting.now.own.now) (map lines_of lines.now) action.now) }
{
    let knowledge = Knowledge {
        facts: Facts {
            sight: Sight {
                action,
                path: &setting.own.path,
                own: setting.seen,
                parents: setting.parents,
                properties: &[],
                closed: false,
            },
            parent: Parent::Nobody,
            others: setting.others,
        },
        commands: setting.commands,
    };
    let properties = first_properties(alloc, action, setting.own)?;
    tell_files(alloc, &knowledge, &properties, lines)
}

/// Whether none of these is of the same line.
fn is_new(told: &[Told<'_>], one: &Told<'_>) -> bool
    ensures { result ≡ RuleStrings.is_new (map told_of told.now) (told_of one.now) }
{
    for other in told {
        if one.file == other.file && one.line == other.line {
            return false;
        }
    }
    true
}

/// Who answers strings, and who asks them.
#[derive(Clone, Copy)]
struct Asking<'q, 'd> {
    db: Option<&'q Db<'d>>,
    files: &'q [RulesFile<'q>],
    chain: &'q [Ancestor],
}

/// The number of a line of a file.
fn line_number(file: RulesFile<'_>, line: usize) -> usize
    ensures { result
        ≡ (get_or (map line_of file.entry.lines.now) line RuleStrings.no_line).number }
{
    if line < file.lines.len() {
        file.lines[line].number
    } else {
        0
    }
}

/// Adds a file's name, and the number of a line.
fn push_place(text: &mut Vec<u8>, file: RulesFile<'_>, line: usize) -> Result<(), AllocError>
    ensures { OnOk result (text.new.items
        ≡ text.old.items ++ RuleStrings.line_place (file_of file.entry) line) }
{
    let mut number = Buffer::new();
    text.extend_from_slice(file.name)?;
    text.push(b':')?;
    text.extend_from_slice(number.format(line_number(file, line)).as_bytes())?;
    Ok(())
}

/// A file, if there is one of this number.
fn file_at<'a>(files: &[RulesFile<'a>], number: usize) -> RulesFile<'a>
    ensures { file_of result ≡ get_or (map file_of files.now) number RuleStrings.no_file }
{
    if number < files.len() {
        files[number]
    } else {
        RulesFile {
            name: b"",
            lines: &[],
        }
    }
}

/// The place of a lookup or of a reason: its file's name, and its line.
fn place(
    alloc: Global,
    files: &[RulesFile<'_>],
    file: usize,
    line: usize,
) -> Result<Vec<u8>, AllocError>
    ensures { IfOk result (λ text. text.items
        ≡ RuleStrings.place (map file_of files.now) (turn file line)) }
{
    let mut text = Vec::new(alloc);
    push_place(&mut text, file_at(files, file), line)?;
    Ok(text)
}

/// Who asks, and if that isn't certain, why.
fn asker(alloc: Global, doubt: &Option<Vec<u8>>, place: Vec<u8>) -> Result<Vec<u8>, AllocError>
    ensures { IfOk result (λ text. text.items
        ≡ RuleStrings.asker (value_view doubt.now) place.items) }
{
    match doubt {
        None => Ok(place),
        Some(cause) => {
            let mut text = Vec::new(alloc);
            text.extend_from_slice(b"perhaps ")?;
            text.extend_from_slice(&place)?;
            text.extend_from_slice(b" (")?;
            text.extend_from_slice(cause)?;
            text.push(b')')?;
            Ok(text)
        }
    }
}

/// Why a lookup may not be asked.
fn doubt_of(
    alloc: Global,
    reasons: &[Reason<'_>],
    told: &Told<'_>,
) -> Result<Option<Vec<u8>>, AllocError>
    ensures { IfOk result (λ doubt. value_view doubt
        ≡ RuleStrings.doubt_of (map reason_of reasons.now) (told_of told.now)) }
{
    if told.certain {
        return Ok(None);
    }
    Ok(Some(doubt_at(alloc, reasons, told.file, told.line)?))
}

/// Why it isn't known what a command asks.
fn unknown_strings(alloc: Global, doubt: Option<Vec<u8>>) -> Result<Option<Vec<u8>>, AllocError>
    ensures { IfOk result (λ text. value_view text
        ≡ RuleStrings.unknown_strings (value_view doubt)) }
{
    match doubt {
        Some(cause) => Ok(Some(cause)),
        None => Ok(Some(Vec::from_slice(alloc, b"what it asks isn't known")?)),
    }
}

/// The strings of a command's text, if it is known.
fn by_text(
    alloc: Global,
    chain: &[Ancestor],
    alias: &Value,
    text: &Option<Vec<u8>>,
) -> Result<Option<Vec<Question>>, AllocError>
    ensures { IfOk result (λ q. questions_view q ≡ RuleStrings.by_text
        (map ancestor_of chain.now) (value_of alias.now) (value_view text.now)) }
{
    match text {
        None => Ok(None),
        Some(text) => questions_in(alloc, chain, known(alias), text),
    }
}

/// Adds a command whose strings aren't known.
fn push_unknown(
    alloc: Global,
    found: &mut Vec<Found<'_>>,
    rule: Vec<u8>,
    command: &[u8],
) -> Result<(), AllocError>
    ensures { OnOk result (map found_of found.new.items ≡ map found_of found.old.items
        ++ (RuleStrings.unknown rule.items command.now ∷ [])) }
{
    found.push(Found {
        rule,
        parent: 0,
        text: Vec::from_slice(alloc, command)?,
        told: Vec::new(alloc),
    })?;
    Ok(())
}

/// Adds the strings of a lookup.
fn push_told<'d>(
    alloc: Global,
    asking: &Asking<'_, 'd>,
    reasons: &[Reason<'_>],
    found: &mut Vec<Found<'d>>,
    told: &Told<'_>,
) -> Result<(), AllocError>
    ensures { OnOk result (map found_of found.new.items ≡ map found_of found.old.items
        ++ RuleStrings.found_of (tells_of asking.now.db) (map file_of asking.now.files.now)
        (map ancestor_of asking.now.chain.now) (map reason_of reasons.now) (told_of told.now)) }
{
    let at = place(alloc, asking.files, told.file, told.line)?;
    let doubt = doubt_of(alloc, reasons, told)?;
    match by_text(alloc, asking.chain, &told.alias, &told.text)? {
        None => {
            let unknown = unknown_strings(alloc, doubt)?;
            let rule = asker(alloc, &unknown, at)?;
            push_unknown(alloc, found, rule, &told.token.value)
        }
        Some(questions) => {
            let rule = asker(alloc, &doubt, at)?;
            ask_questions(alloc, asking.db, found, &rule, &questions)
        }
    }
}

/// The strings that are asked when a device is added.
fn added_found<'d>(
    alloc: Global,
    asking: &Asking<'_, 'd>,
    added: &Story<'_>,
) -> Result<Vec<Found<'d>>, AllocError>
    ensures { IfOk result (λ found. map found_of found.items ≡ flat_map (RuleStrings.found_of
        (tells_of asking.now.db) (map file_of asking.now.files.now)
        (map ancestor_of asking.now.chain.now) (account_of added.now).reasons)
        (account_of added.now).told) }
{
    let mut found = Vec::new(alloc);
    for one in &added.told {
        push_told(alloc, asking, &added.reasons, &mut found, one)?;
    }
    Ok(found)
}

/// The strings that are asked when a device is added, and then what a change asks besides.
fn all_found<'d>(
    alloc: Global,
    asking: &Asking<'_, 'd>,
    added: &Story<'_>,
    changed: &Story<'_>,
) -> Result<Vec<Found<'d>>, AllocError>
    ensures { IfOk result (λ found. map found_of found.items ≡ RuleStrings.found_in
        (tells_of asking.now.db) (map file_of asking.now.files.now)
        (map ancestor_of asking.now.chain.now) (account_of added.now) (account_of changed.now)) }
{
    let mut found = added_found(alloc, asking, added)?;
    for one in &changed.told {
        if is_new(&added.told, one) {
            push_told(alloc, asking, &changed.reasons, &mut found, one)?;
        }
    }
    Ok(found)
}

/// Whether a line asks, and what decides.
fn why_of(alloc: Global, files: &[RulesFile<'_>], reason: &Reason<'_>) -> Result<Why, AllocError>
    ensures { IfOk result (λ why. why_view why
        ≡ RuleStrings.why_of (map file_of files.now) (reason_of reason.now)) }
{
    let rule = place(alloc, files, reason.file, reason.line)?;
    let cause = cause_text(alloc, reason.asks, &reason.cause)?;
    Ok(Why {
        rule,
        asks: reason.asks,
        cause,
    })
}

/// Of each line, at the action at which it rather asks.
fn all_whys<'r, 's>(
    alloc: Global,
    files: &[RulesFile<'_>],
    added: &'r [Reason<'s>],
    changed: &'r [Reason<'s>],
) -> Result<Vec<Why>, AllocError>
    ensures { IfOk result (λ whys. map why_view whys.items
        ≡ map (RuleStrings.why_of (map file_of files.now))
        (rather_all (map reason_of added.now) (map reason_of changed.now))) }
{
    let mut whys = Vec::new(alloc);
    let mut others = changed;
    for one in added {
        whys.push(why_of(alloc, files, rather_first(one, others))?)?;
        others = after_first(others);
    }
    Ok(whys)
}

/// What lines tell in a setting.
fn told_in<'d, 's>(
    alloc: Global,
    setting: &Setting<'s>,
    lines: &[&'s [RuleLine]],
    asking: &Asking<'_, 'd>,
) -> Result<ByRules<'d>, AllocError>
    ensures found { IfOk result (λ all. map found_of all.found.items ≡ RuleStrings.found_in
        (tells_of asking.now.db) (map file_of asking.now.files.now)
        (map ancestor_of asking.now.chain.now) (added_in setting.now (map lines_of lines.now))
        (changed_in setting.now (map lines_of lines.now))) }
    ensures whys { IfOk result (λ all. map why_view all.whys.items ≡ RuleStrings.whys_in
        (map file_of asking.now.files.now) (added_in setting.now (map lines_of lines.now))
        (changed_in setting.now (map lines_of lines.now))) }
{
    let added = account_at(alloc, setting, b"add", lines)?;
    let changed = account_at(alloc, setting, b"change", lines)?;
    let found = all_found(alloc, asking, &added, &changed)?;
    let whys = all_whys(alloc, asking.files, &added.reasons, &changed.reasons)?;
    Ok(ByRules { found, whys })
}

/// The strings that rules files ask for a device, in their order, and what each gets of a database; nothing without one. And of each line
/// that has a lookup whether it asks, and what decides.
///
/// The rules are tried twice, as when the device is added and when it changes. The time grows with the lines times the tokens of each, and
/// with the properties that are set times those that are looked at.
///
/// # Errors
///
/// `AllocError` at any allocation that fails.
pub fn told_by_rules<'x, 'd>(
    alloc: Global,
    db: Option<&'x Db<'d>>,
    files: &'x [RulesFile<'x>],
    device: &'x Device,
) -> Result<ByRules<'d>, AllocError>
    ensures found { IfOk result (λ all. map found_of all.found.items ≡ RuleStrings.found_by_rules
        (tells_of db.entry) (map file_of files.now) (device_of device.now)) }
    ensures whys { IfOk result (λ all. map why_view all.whys.items ≡ RuleStrings.whys_by_rules
        (tells_of db.entry) (map file_of files.now) (device_of device.now)) }
{
    let Some((own, parents)) = device.chain.split_first() else {
        return Ok(ByRules {
            found: Vec::new(alloc),
            whys: Vec::new(alloc),
        });
    };
    let lines = lines_in(alloc, files)?;
    let names = names_read(alloc, &lines)?;
    let itself = look_at(alloc, &names, own)?;
    let above = all_looked(alloc, &names, parents)?;
    let seen = all_seen(alloc, &above)?;
    let others = [Entry {
        name: b"[dmi/id]modalias",
        value: Known::Text(&device.machine),
    }];
    let commands = DeviceCommands {
        chain: &device.chain,
        db,
    };
    let setting = Setting {
        own,
        seen: itself.seen(),
        parents: &seen,
        others: &others,
        commands: &commands,
    };
    let asking = Asking {
        db,
        files,
        chain: &device.chain,
    };
    told_in(alloc, &setting, &lines, &asking)
}
