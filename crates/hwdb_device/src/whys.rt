//! Why lines of rules ask, may ask, or don't.
ghost use Rattle.std.specs.Prelude.{◌≡◌, ◌++◌, flat_map, map, IfOk, OnOk};
ghost use Rattle.json.specs.Tree.{json_tokens};
ghost use Rattle.hwdb_show.specs.JsonTokens.{tokens_of_members};
ghost use Rattle.hwdb_spec_commands.specs.Json.{json_line};
ghost use Rattle.hwdb_spec_rules.specs.RuleWhys;
ghost use Rattle.hwdb_ruleasks.specs.Views.{why_view};

use hwdb_ruleasks::Why;
use hwdb_show::{ended, put_member};
use hwdb_spec_commands::DeviceForm;
use json::Writer;
use std::alloc::{AllocError, Global};

/// Whether a line asks.
fn asks_text(asks: Option<bool>) -> &'static [u8]
    ensures { result.now ≡ RuleWhys.asks_text asks }
{
    match asks {
        None => b" may ask",
        Some(true) => b" asks",
        Some(false) => b" doesn't ask",
    }
}

/// Adds a cause after a colon. The only error, here and below, is `AllocError`.
fn push_cause(text: &mut Vec<u8>, cause: &[u8]) -> Result<(), AllocError>
    ensures { OnOk result
        (text.new.items ≡ text.old.items ++ RuleWhys.after_colon cause.now) }
{
    if cause.is_empty() {
        return Ok(());
    }
    text.extend_from_slice(b": ")?;
    text.extend_from_slice(cause)
}

/// Adds a line of text.
fn push_why(text: &mut Vec<u8>, why: &Why) -> Result<(), AllocError>
    ensures { OnOk result
        (text.new.items ≡ text.old.items ++ RuleWhys.why_line (why_view why.now)) }
{
    text.extend_from_slice(&why.rule)?;
    text.extend_from_slice(asks_text(why.asks))?;
    push_cause(text, &why.cause)?;
    text.push(b'\n')?;
    Ok(())
}

/// The lines of text.
fn whys_text(alloc: Global, whys: &[Why]) -> Result<Vec<u8>, AllocError>
    ensures { IfOk result
        (λ text. text.items ≡ flat_map RuleWhys.why_line (map why_view whys.now)) }
{
    let mut text = Vec::new(alloc);
    for why in whys {
        push_why(&mut text, why)?;
    }
    Ok(text)
}

/// Whether a line asks, as a word of JSON.
fn asks_word(asks: Option<bool>) -> &'static [u8]
    ensures { result.now ≡ RuleWhys.asks_word asks }
{
    match asks {
        None => b"perhaps",
        Some(true) => b"yes",
        Some(false) => b"no",
    }
}

/// Adds a cause, if there is one.
fn put_cause(json: &mut Writer, cause: &[u8]) -> Result<(), AllocError>
    ensures before { json.new.before ≡ json.old.before }
    ensures tokens { OnOk result (json.new.tokens
        ≡ json.old.tokens ++ tokens_of_members (RuleWhys.cause_member cause.now)) }
{
    if cause.is_empty() {
        return Ok(());
    }
    put_member(json, "cause", cause)
}

/// Adds the object of a line.
fn put_why(json: &mut Writer, why: &Why) -> Result<(), AllocError>
    ensures before { json.new.before ≡ json.old.before }
    ensures tokens { OnOk result (json.new.tokens
        ≡ json.old.tokens ++ json_tokens (RuleWhys.why_json (why_view why.now))) }
{
    json.begin_object()?;
    put_member(json, "rule", &why.rule)?;
    put_member(json, "asks", asks_word(why.asks))?;
    put_cause(json, &why.cause)?;
    json.end_object()
}

/// A line of JSON.
fn json_why(alloc: Global, why: &Why) -> Result<Vec<u8>, AllocError>
    ensures { IfOk result
        (λ line. line.items ≡ json_line (RuleWhys.why_json (why_view why.now))) }
{
    let mut json = Writer::new(Vec::new(alloc));
    put_why(&mut json, why)?;
    ended(alloc, json)
}

/// The lines of JSON.
fn whys_json(alloc: Global, whys: &[Why]) -> Result<Vec<u8>, AllocError>
    ensures { IfOk result (λ text. text.items
        ≡ flat_map (λ w. json_line (RuleWhys.why_json w)) (map why_view whys.now)) }
{
    let mut text = Vec::new(alloc);
    for why in whys {
        let line = json_why(alloc, why)?;
        text.extend_from_slice(&line)?;
    }
    Ok(text)
}

/// What `device --why` prints, as text or as JSON.
pub(crate) fn whys_form(
    alloc: Global,
    form: DeviceForm,
    whys: &[Why],
) -> Result<Vec<u8>, AllocError>
    ensures { IfOk result
        (λ text. text.items ≡ RuleWhys.whys_form form (map why_view whys.now)) }
{
    match form {
        DeviceForm::Json => whys_json(alloc, whys),
        _ => whys_text(alloc, whys),
    }
}
