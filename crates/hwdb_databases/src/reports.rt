//! The lines of `status`.
ghost use Rattle.std.specs.Prelude.{◌≡◌, ◌≤◌, ◌++◌, ℕ, List, Option, codes, flat_map, if◌then◌else◌, is_some, map, option_map, unwrap_or, IfOk, OnOk};
ghost use Rattle.hwdb_spec_commands.specs.Status;
ghost use Rattle.hwdb_spec_commands.specs.Status.{amount_line, changes_lines, first_line, remedy_line, report_form, report_text, said_if, said_line, status_of, words_line};
ghost use Rattle.hwdb_databases.specs.Views.{report_shown, state_shown};

use crate::amounts::{Amount, push_amount_if};
use crate::freshness::State;
use crate::json_reports::report_line;
use crate::verification::push_count;
use hwdb_show::push_name;
use std::alloc::{AllocError, Global};

/// What `status` reports.
#[derive(Drop)]
pub struct Report {
    /// The path of the database that is asked.
    pub database: Option<Vec<u8>>,
    /// How much is in it.
    pub holds: Option<Amount>,
    /// The path of the one that it hides.
    pub hides: Option<Vec<u8>>,
    /// How much is in that.
    pub hidden: Option<Amount>,
    /// The paths of text files that others mask.
    pub masked: Vec<Vec<u8>>,
    /// The paths of files that are none, by their names.
    pub ignored: Vec<Vec<u8>>,
    /// Whether there are no text files.
    pub bare: bool,
    /// The state of the database that is asked.
    pub state: State,
    /// The command after which it is fresh and hides none, if there is one.
    pub remedy: Option<Vec<u8>>,
}

impl Report {
    /// The status: 0 if the database is fresh and hides none, and there are text files, else 1.
    pub fn status(&self) -> u8
        ensures is { result ≡ status_of (report_shown self.now) }
        ensures small { result ≤ 1 }
    {
        if is_well(self.bare, &self.state, self.hides.is_some()) {
            0
        } else {
            1
        }
    }
}

/// Whether a database says what the text files say.
fn is_fresh(state: &State) -> bool
    ensures { result ≡ Status.is_fresh (state_shown state.now) }
{
    match state {
        State::Fresh => true,
        State::Alike => true,
        _ => false,
    }
}

/// Whether the database is fresh and hides none, and there are text files.
pub fn is_well(bare: bool, state: &State, hides: bool) -> bool
    ensures { (path : Option (List ℕ)) → hides ≡ is_some path
        → result ≡ Status.is_well bare (state_shown state.now) path }
{
    if bare || hides {
        return false;
    }
    is_fresh(state)
}

/// The word of a database that says what the text files say.
fn fresh_word(bare: bool) -> &'static str
    ensures { result.now ≡ (if bare then codes "empty" else codes "fresh") }
{
    if bare { "empty" } else { "fresh" }
}

/// The word of a state.
pub(crate) fn state_word(bare: bool, state: &State) -> &'static str
    ensures { result.now ≡ Status.state_word bare (state_shown state.now) }
{
    match state {
        State::Missing => "missing",
        State::Broken => "no database",
        State::Fresh => fresh_word(bare),
        State::Alike => fresh_word(bare),
        State::Stale { .. } => "stale",
    }
}

/// What is said after it.
fn state_note(bare: bool, state: &State) -> &'static str
    ensures { result.now ≡ Status.state_note bare (state_shown state.now) }
{
    if bare {
        return " (there are no text files)";
    }
    match state {
        State::Alike => " (written by another tool)",
        _ => "",
    }
}

/// Adds a line: a name and a text, as names are shown. The only error, here and below, is `AllocError`.
fn push_line(text: &mut Vec<u8>, name: &str, said: &[u8]) -> Result<(), AllocError>
    ensures { OnOk result (text.new.items ≡ text.old.items ++ said_line name.now said.now) }
{
    text.extend_from_slice(name.as_bytes())?;
    text.extend_from_slice(b": ")?;
    push_name(text, said)?;
    text.push(b'\n')?;
    Ok(())
}

/// Adds a line of a text that there may be.
fn push_if(text: &mut Vec<u8>, name: &str, said: &Option<Vec<u8>>) -> Result<(), AllocError>
    ensures { OnOk result (text.new.items
        ≡ text.old.items ++ said_if name.now (option_map (λ t. t.items) said.now)) }
{
    match said {
        Some(said) => push_line(text, name, said),
        None => Ok(()),
    }
}

/// Adds the line of the database that is asked.
fn push_database(text: &mut Vec<u8>, path: &Option<Vec<u8>>) -> Result<(), AllocError>
    ensures { OnOk result (text.new.items ≡ text.old.items ++ said_line (codes "database")
        (unwrap_or (option_map (λ p. p.items) path.now) (codes "none"))) }
{
    match path {
        Some(path) => push_line(text, "database", path),
        None => push_line(text, "database", b"none"),
    }
}

/// Adds a line of this name for each path.
fn push_paths(text: &mut Vec<u8>, name: &str, paths: &[Vec<u8>]) -> Result<(), AllocError>
    ensures { OnOk result (text.new.items ≡ text.old.items
        ++ flat_map (said_line name.now) (map (λ p. p.items) paths.now)) }
{
    for path in paths {
        push_line(text, name, path)?;
    }
    Ok(())
}

/// Adds the lines of the database that is asked.
fn push_asked(text: &mut Vec<u8>, report: &Report) -> Result<(), AllocError>
    ensures { OnOk result (text.new.items ≡ text.old.items ++ (said_line (codes "database")
        (unwrap_or (report_shown report.now).database (codes "none"))
        ++ amount_line (report_shown report.now).holds)) }
{
    push_database(text, &report.database)?;
    push_amount_if(text, report.holds)
}

/// Adds the lines of the database that it hides.
fn push_hidden(text: &mut Vec<u8>, report: &Report) -> Result<(), AllocError>
    ensures { OnOk result (text.new.items ≡ text.old.items
        ++ (said_if (codes "hides") (report_shown report.now).hides
        ++ amount_line (report_shown report.now).hidden)) }
{
    push_if(text, "hides", &report.hides)?;
    push_amount_if(text, report.hidden)
}

/// Adds the lines of masked and of ignored text files.
fn push_unread(text: &mut Vec<u8>, report: &Report) -> Result<(), AllocError>
    ensures { OnOk result (text.new.items ≡ text.old.items
        ++ (flat_map (said_line (codes "masked")) (report_shown report.now).masked
        ++ flat_map (said_line (codes "ignored")) (report_shown report.now).ignored)) }
{
    push_paths(text, "masked", &report.masked)?;
    push_paths(text, "ignored", &report.ignored)
}

/// Adds the line of the first change, if there is one.
fn push_first(text: &mut Vec<u8>, first: &[u8]) -> Result<(), AllocError>
    ensures { OnOk result (text.new.items ≡ text.old.items ++ first_line first.now) }
{
    if first.is_empty() {
        return Ok(());
    }
    text.extend_from_slice(b"first: ")?;
    text.extend_from_slice(first)?;
    Ok(())
}

/// Adds how many changes there are, and the first.
fn push_changes(text: &mut Vec<u8>, state: &State) -> Result<(), AllocError>
    ensures { OnOk result
        (text.new.items ≡ text.old.items ++ changes_lines (state_shown state.now)) }
{
    match state {
        State::Stale { changes, first } => {
            push_count(text, "changes", *changes as u64)?;
            push_first(text, first)
        }
        _ => Ok(()),
    }
}

/// Adds the line of a state.
fn push_word(text: &mut Vec<u8>, bare: bool, state: &State) -> Result<(), AllocError>
    ensures { OnOk result (text.new.items ≡ text.old.items ++ words_line (codes "state")
        (Status.state_word bare (state_shown state.now)
        ++ Status.state_note bare (state_shown state.now))) }
{
    text.extend_from_slice(b"state: ")?;
    text.extend_from_slice(state_word(bare, state).as_bytes())?;
    text.extend_from_slice(state_note(bare, state).as_bytes())?;
    text.push(b'\n')?;
    Ok(())
}

/// Adds the lines of the state, and what to run.
fn push_state(text: &mut Vec<u8>, report: &Report) -> Result<(), AllocError>
    ensures { OnOk result (text.new.items ≡ text.old.items
        ++ (words_line (codes "state")
        (Status.state_word report.now.bare (state_shown report.now.state)
        ++ Status.state_note report.now.bare (state_shown report.now.state))
        ++ (changes_lines (state_shown report.now.state)
        ++ remedy_line (report_shown report.now)))) }
{
    push_word(text, report.bare, &report.state)?;
    push_changes(text, &report.state)?;
    push_if(text, "run", &report.remedy)
}

/// The report as lines.
fn report_lines(alloc: Global, report: &Report) -> Result<Vec<u8>, AllocError>
    ensures { IfOk result (λ text. text.items ≡ report_text (report_shown report.now)) }
{
    let mut text = Vec::new(alloc);
    push_asked(&mut text, report)?;
    push_hidden(&mut text, report)?;
    push_unread(&mut text, report)?;
    push_state(&mut text, report)?;
    Ok(text)
}

/// The report, as lines or as one line of JSON; nothing if it is `quiet`. The only error is `AllocError`.
pub fn report_in(
    alloc: Global,
    report: &Report,
    json: bool,
    quiet: bool,
) -> Result<Vec<u8>, AllocError>
    ensures { IfOk result (λ text. text.items ≡ report_form json quiet (report_shown report.now)) }
{
    if quiet {
        Ok(Vec::new(alloc))
    } else if json {
        report_line(alloc, report)
    } else {
        report_lines(alloc, report)
    }
}
