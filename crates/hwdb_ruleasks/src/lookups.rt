//! The strings of a command of the builtins hwdb and net_id.
ghost use Rattle.std.specs.Prelude.{◌≡◌, ◌++◌, ◌∷◌, [], drop, false, if◌then◌else◌, map, true, IfOk};
ghost use Rattle.hwdb_rulerun.specs.Views.{known_of};
ghost use Rattle.hwdb_ruleevents.specs.ChangeViews.{value_of};
ghost use Rattle.hwdb_spec_commands.specs.Lookups.{strings_from};
ghost use Rattle.hwdb_rulecommands.specs.CommandWords;
ghost use Rattle.hwdb_rulecommands.specs.LookupCommands;
ghost use Rattle.hwdb_rulecommands.specs.Views.{lookup_of, lookup_view, text_view};
ghost use Rattle.hwdb_rules.specs.Views.{questions_of};
ghost use Rattle.hwdb_sysfs.specs.Views.{ancestor_of};
ghost use Rattle.hwdb_spec_rules.specs.DeviceCommands;
ghost use Rattle.hwdb_ruleasks.specs.Views.{questions_view};

use hwdb_rulecommands::{Lookup, lookup_command, words};
use hwdb_ruleevents::Value;
use hwdb_rulerun::{Known, is_net_id};
use hwdb_rules::{
    Modaliases, Question, add_parents, address_strings, is_run, is_usb_device, is_walked, made_of,
};
use hwdb_sysfs::Ancestor;
use std::alloc::{AllocError, Global};

/// What is known of a device's own string, by what is known of its MODALIAS. The only error, here and below, is `AllocError`.
fn own_string(alloc: Global, alias: Known<'_>, own: &Ancestor) -> Result<Value, AllocError>
    ensures { IfOk result (λ v. value_of v
        ≡ DeviceCommands.own_string (known_of alias.entry) (ancestor_of own.now)) }
{
    match alias {
        Known::Unknown => Ok(Value::Unknown),
        Known::Text(text) => Ok(Value::Text(Vec::from_slice(alloc, text)?)),
        Known::Missing => match made_of(alloc, own)? {
            None => Ok(Value::Missing),
            Some(text) => Ok(Value::Text(text)),
        },
    }
}

/// The strings of a device that a walk looks at, and of its parents, by what is known of its own string.
fn own_first(
    alloc: Global,
    own: Value,
    of: Modaliases<'_>,
    is_last: bool,
    chain: &[Ancestor],
) -> Result<Option<Vec<Question>>, AllocError>
    ensures { IfOk result (λ q. questions_view q ≡ DeviceCommands.own_first (value_of own)
        of.entry.prefix.now
        (strings_from of.entry.subsystem.now of.entry.prefix.now 1 is_last
        (drop 1 (map ancestor_of chain.now)))
        (if is_last then [] else strings_from of.entry.subsystem.now of.entry.prefix.now 1 false
        (drop 1 (map ancestor_of chain.now)))) }
{
    match own {
        Value::Unknown => Ok(None),
        Value::Missing => {
            let mut questions = Vec::new(alloc);
            add_parents(alloc, &mut questions, of, is_last, chain)?;
            Ok(Some(questions))
        }
        Value::Text(text) => {
            let mut questions = one_question(alloc, of.prefix, &text)?;
            if !is_last {
                add_parents(alloc, &mut questions, of, false, chain)?;
            }
            Ok(Some(questions))
        }
    }
}

/// The strings of a device and its parents, if they are known.
fn strings_by(
    alloc: Global,
    alias: Known<'_>,
    of: Modaliases<'_>,
    chain: &[Ancestor],
) -> Result<Option<Vec<Question>>, AllocError>
    ensures { IfOk result (λ q. questions_view q ≡ DeviceCommands.strings_by (known_of alias.entry)
        of.entry.subsystem.now of.entry.prefix.now (map ancestor_of chain.now)) }
{
    let Some((own, _)) = chain.split_first() else {
        return Ok(Some(Vec::new(alloc)));
    };
    if is_walked(own, of.subsystem) {
        let string = own_string(alloc, alias, own)?;
        return own_first(alloc, string, of, is_usb_device(own), chain);
    }
    let mut questions = Vec::new(alloc);
    add_parents(alloc, &mut questions, of, false, chain)?;
    Ok(Some(questions))
}

/// A walk, unless udev doesn't run it.
fn walked_in(
    alloc: Global,
    chain: &[Ancestor],
    alias: Known<'_>,
    subsystem: &[u8],
    prefix: &[u8],
) -> Result<Option<Vec<Question>>, AllocError>
    ensures { IfOk result (λ q. questions_view q ≡ DeviceCommands.walked_in
        (map ancestor_of chain.now) (known_of alias.entry) subsystem.now prefix.now) }
{
    if is_run(prefix) {
        return strings_by(alloc, alias, Modaliases { subsystem, prefix }, chain);
    }
    Ok(Some(Vec::new(alloc)))
}

/// The strings of a device and its parents.
fn walked(
    alloc: Global,
    chain: &[Ancestor],
    alias: Known<'_>,
    subsystem: Option<&[u8]>,
    prefix: &[u8],
) -> Result<Option<Vec<Question>>, AllocError>
    ensures { IfOk result (λ q. questions_view q ≡ DeviceCommands.walked
        (map ancestor_of chain.now) (known_of alias.entry) (text_view subsystem.entry)
        prefix.now) }
{
    match subsystem {
        None => walked_in(alloc, chain, alias, b"", prefix),
        Some(subsystem) => {
            if subsystem.is_empty() {
                return Ok(Some(Vec::new(alloc)));
            }
            walked_in(alloc, chain, alias, subsystem, prefix)
        }
    }
}

/// One string.
fn one_question(alloc: Global, prefix: &[u8], text: &[u8]) -> Result<Vec<Question>, AllocError>
    ensures { IfOk result (λ q. questions_of q.items
        ≡ record { parent = 0; text = prefix.now ++ text.now } ∷ []) }
{
    let mut whole = Vec::from_slice(alloc, prefix)?;
    whole.extend_from_slice(text)?;
    let mut questions = Vec::new(alloc);
    questions.push(Question {
        parent: 0,
        text: whole,
    })?;
    Ok(questions)
}

/// The strings that a command asks, one after another.
fn asked_by(
    alloc: Global,
    chain: &[Ancestor],
    alias: Known<'_>,
    lookup: Lookup<'_>,
) -> Result<Option<Vec<Question>>, AllocError>
    ensures { IfOk result (λ q. questions_view q ≡ DeviceCommands.asked_by
        (map ancestor_of chain.now) (known_of alias.entry) (lookup_of lookup.entry)) }
{
    match lookup.text {
        None => walked(alloc, chain, alias, lookup.subsystem, lookup.prefix),
        Some(text) => Ok(Some(one_question(alloc, lookup.prefix, text)?)),
    }
}

/// The same, if the command's words are followed.
fn questions_by(
    alloc: Global,
    chain: &[Ancestor],
    alias: Known<'_>,
    lookup: Option<Lookup<'_>>,
) -> Result<Option<Vec<Question>>, AllocError>
    ensures { IfOk result (λ q. questions_view q ≡ DeviceCommands.questions_by
        (map ancestor_of chain.now) (known_of alias.entry) (lookup_view lookup.entry)) }
{
    match lookup {
        None => Ok(None),
        Some(lookup) => asked_by(alloc, chain, alias, lookup),
    }
}

/// The words after the first one.
fn more_words(words: &[Vec<u8>]) -> &[Vec<u8>]
    ensures { result.now ≡ drop 1 words.now }
{
    match words.split_first() {
        None => &[],
        Some((_first, more)) => more,
    }
}

/// What net_id asks for the owner of a device's address.
pub(crate) fn address_questions(
    alloc: Global,
    chain: &[Ancestor],
) -> Result<Vec<Question>, AllocError>
    ensures { IfOk result (λ q. questions_of q.items
        ≡ DeviceCommands.address_strings (map ancestor_of chain.now)) }
{
    match chain.split_first() {
        None => Ok(Vec::new(alloc)),
        Some((own, _)) => address_strings(alloc, own),
    }
}

/// The strings of a command's words.
fn asked_words(
    alloc: Global,
    chain: &[Ancestor],
    alias: Known<'_>,
    text: &[u8],
) -> Result<Option<Vec<Question>>, AllocError>
    ensures { IfOk result (λ q. questions_view q ≡ DeviceCommands.questions_by
        (map ancestor_of chain.now) (known_of alias.entry)
        (LookupCommands.lookup_of (drop 1 (CommandWords.words text.now)))) }
{
    let words = words(alloc, text)?;
    let lookup = lookup_command(more_words(&words));
    questions_by(alloc, chain, alias, lookup)
}

/// The strings of a command's text; None if its words aren't followed, or MODALIAS isn't known.
pub(crate) fn questions_in(
    alloc: Global,
    chain: &[Ancestor],
    alias: Known<'_>,
    text: &[u8],
) -> Result<Option<Vec<Question>>, AllocError>
    ensures { IfOk result (λ q. questions_view q ≡ DeviceCommands.questions_of
        (map ancestor_of chain.now) (known_of alias.entry) text.now) }
{
    if is_net_id(text) {
        return Ok(Some(address_questions(alloc, chain)?));
    }
    asked_words(alloc, chain, alias, text)
}
