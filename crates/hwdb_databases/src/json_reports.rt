//! The line of JSON of `status`.
ghost use Rattle.std.specs.Prelude.{◌≡◌, ◌++◌, map, option_map, IfOk, OnOk};
ghost use Rattle.json.specs.Tree.{json_tokens};
ghost use Rattle.hwdb_spec_commands.specs.Json.{array_of, json_line, text_json};
ghost use Rattle.hwdb_show.specs.JsonTokens.{tokens_of_member, tokens_of_members};
ghost use Rattle.hwdb_spec_commands.specs.Status;
ghost use Rattle.hwdb_spec_commands.specs.Status.{bare_members, maybe_json, remedy_members, report_json, report_object, state_members};
ghost use Rattle.hwdb_databases.specs.Views.{report_shown, state_shown};

use crate::amounts::put_amount_at;
use crate::freshness::State;
use crate::reports::{Report, state_word};
use hwdb_show::{ended, put_count, put_member, put_text};
use json::Writer;
use std::alloc::{AllocError, Global};

/// Adds a text that there may be. The only error, here and below, is `AllocError`.
fn put_maybe(json: &mut Writer, said: &Option<Vec<u8>>) -> Result<(), AllocError>
    ensures before { json.new.before ≡ json.old.before }
    ensures tokens { OnOk result (json.new.tokens ≡ json.old.tokens
        ++ json_tokens (maybe_json (option_map (λ t. t.items) said.now))) }
{
    match said {
        Some(said) => put_text(json, said),
        None => json.null(),
    }
}

/// The same under a name.
fn put_maybe_at(json: &mut Writer, name: &str, said: &Option<Vec<u8>>) -> Result<(), AllocError>
    ensures before { json.new.before ≡ json.old.before }
    ensures tokens { OnOk result (json.new.tokens ≡ json.old.tokens
        ++ tokens_of_member (name.now, maybe_json (option_map (λ t. t.items) said.now))) }
{
    json.key(name)?;
    put_maybe(json, said)
}

/// Adds some texts as an array.
fn put_texts(json: &mut Writer, texts: &[Vec<u8>]) -> Result<(), AllocError>
    ensures before { json.new.before ≡ json.old.before }
    ensures tokens { OnOk result (json.new.tokens ≡ json.old.tokens
        ++ json_tokens (array_of (map text_json (map (λ t. t.items) texts.now)))) }
{
    json.begin_array()?;
    for text in texts {
        put_text(json, text)?;
    }
    json.end_array()
}

/// The same under a name.
fn put_texts_at(json: &mut Writer, name: &str, texts: &[Vec<u8>]) -> Result<(), AllocError>
    ensures before { json.new.before ≡ json.old.before }
    ensures tokens { OnOk result (json.new.tokens ≡ json.old.tokens
        ++ tokens_of_member (name.now, array_of (map text_json (map (λ t. t.items) texts.now)))) }
{
    json.key(name)?;
    put_texts(json, texts)
}

/// A line without its end.
fn without_end(line: &[u8]) -> &[u8]
    ensures { result.now ≡ Status.without_end line.now }
{
    match line.split_last() {
        Some((_, text)) => text,
        None => line,
    }
}

/// Adds the member of a report without text files.
fn put_bare(json: &mut Writer, bare: bool) -> Result<(), AllocError>
    ensures before { json.new.before ≡ json.old.before }
    ensures tokens { OnOk result (json.new.tokens
        ≡ json.old.tokens ++ tokens_of_members (bare_members bare)) }
{
    if bare {
        put_member(json, "text_files", b"none")
    } else {
        Ok(())
    }
}

/// Adds that another tool wrote the database.
fn put_writer(json: &mut Writer) -> Result<(), AllocError>
    ensures before { json.new.before ≡ json.old.before }
    ensures tokens { OnOk result (json.new.tokens
        ≡ json.old.tokens ++ tokens_of_members (state_members Status.State.Alike)) }
{
    put_member(json, "written_by", b"another tool")
}

/// Adds the members of a database that another tool wrote, and of a stale one.
fn put_state(json: &mut Writer, state: &State) -> Result<(), AllocError>
    ensures before { json.new.before ≡ json.old.before }
    ensures tokens { OnOk result (json.new.tokens ≡ json.old.tokens
        ++ tokens_of_members (state_members (state_shown state.now))) }
{
    match state {
        State::Alike => put_writer(json),
        State::Stale { changes, first } => {
            put_count(json, "changes", *changes as u64)?;
            put_member(json, "first", without_end(first))
        }
        _ => Ok(()),
    }
}

/// Adds what to run, if there is such a command.
fn put_remedy(json: &mut Writer, remedy: &Option<Vec<u8>>) -> Result<(), AllocError>
    ensures before { json.new.before ≡ json.old.before }
    ensures tokens { OnOk result (json.new.tokens ≡ json.old.tokens
        ++ tokens_of_members (remedy_members (option_map (λ t. t.items) remedy.now))) }
{
    match remedy {
        Some(remedy) => put_member(json, "run", remedy),
        None => Ok(()),
    }
}

/// Adds the object of a report.
fn put_report(json: &mut Writer, report: &Report) -> Result<(), AllocError>
    ensures before { json.new.before ≡ json.old.before }
    ensures tokens { OnOk result (json.new.tokens
        ≡ json.old.tokens ++ json_tokens (report_object (report_shown report.now))) }
{
    json.begin_object()?;
    put_maybe_at(json, "database", &report.database)?;
    put_amount_at(json, "holds", report.holds)?;
    put_maybe_at(json, "hides", &report.hides)?;
    put_amount_at(json, "hidden", report.hidden)?;
    put_texts_at(json, "masked", &report.masked)?;
    put_texts_at(json, "ignored", &report.ignored)?;
    put_member(
        json,
        "state",
        state_word(report.bare, &report.state).as_bytes(),
    )?;
    put_bare(json, report.bare)?;
    put_state(json, &report.state)?;
    put_remedy(json, &report.remedy)?;
    json.end_object()
}

/// The report as a line of JSON.
pub(crate) fn report_line(alloc: Global, report: &Report) -> Result<Vec<u8>, AllocError>
    ensures { IfOk result (λ line. line.items ≡ report_json (report_shown report.now)) }
{
    let mut json = Writer::new(Vec::new(alloc));
    put_report(&mut json, report)?;
    ended(alloc, json)
}
