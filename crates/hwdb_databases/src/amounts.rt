//! How much is in a database, or in bytes that are none: in words, and as JSON.
ghost use Rattle.std.specs.Prelude.{◌≡◌, ◌++◌, ◌<◌, ◌^◌, [], codes, length, option_map, IfOk, OnOk};
ghost use Rattle.json.specs.Tree.{json_tokens};
ghost use Rattle.hwdb_spec_commands.specs.Checks.{count_text};
ghost use Rattle.hwdb_spec_commands.specs.Json.{object_of};
ghost use Rattle.hwdb_spec_commands.specs.Status;
ghost use Rattle.hwdb_spec_commands.specs.Status.{IsAmountOf, amount_json, amount_line, amount_members, amount_words};
ghost use Rattle.hwdb_spec_commands.specs.Summary.{summary_of};
ghost use Rattle.hwdb_spec.specs.Tree.{members_under};
ghost use Rattle.hwdb_show.specs.JsonTokens.{tokens_of_member, tokens_of_members};
ghost use Rattle.hwdb_databases.specs.Views.{amount_shown};

use crate::inventory::Inventory;
use crate::members::Members;
use hwdb_reader::{Db, check};
use hwdb_show::put_count;
use itoa::Buffer;
use json::Writer;
use std::alloc::{AllocError, Global};

/// How much is in some bytes.
#[derive(Clone, Copy)]
pub enum Amount {
    /// They are a database.
    Counted {
        /// The files that its assignments come from.
        files: usize,
        /// Its assignments.
        assignments: usize,
        /// Its bytes.
        bytes: usize,
    },
    /// They are none.
    Uncounted {
        /// How many they are.
        bytes: usize,
    },
}

/// How much is in a database of so many bytes. It is walked once. The only error, here and below, is `AllocError`.
pub(crate) fn amount_in(alloc: Global, bytes: usize, db: &Db<'_>) -> Result<Amount, AllocError>
    requires { length (members_under [] db.now) < 2 ^ 64 }
    ensures { IfOk result
        (λ amount. amount_shown amount ≡ Status.amount_of (summary_of bytes db.now)) }
{
    let mut members = Members::start(alloc, false, db)?;
    let mut held = Inventory::new(alloc);
    'members: while let Some(entry) = members.next {
        held.add(entry.path)?;
        members.pass()?;
    }
    held.amount(bytes)
}

/// How much is in some bytes, which are checked first.
pub fn amount_of(alloc: Global, bytes: &[u8]) -> Result<Amount, AllocError>
    ensures { IfOk result (λ amount. IsAmountOf bytes.now (amount_shown amount)) }
{
    match check(bytes) {
        Ok(db) => amount_in(alloc, bytes.len(), &db),
        Err(_) => Ok(Amount::Uncounted { bytes: bytes.len() }),
    }
}

/// Adds a count, and what is counted.
fn push_counted(text: &mut Vec<u8>, count: usize, word: &str) -> Result<(), AllocError>
    ensures { OnOk result (text.new.items ≡ text.old.items ++ count_text count word.now) }
{
    let mut number = Buffer::new();
    text.extend_from_slice(number.format(count).as_bytes())?;
    text.push(b' ')?;
    text.extend_from_slice(word.as_bytes())?;
    if count != 1 {
        text.push(b's')?;
    }
    Ok(())
}

/// Adds a count, what is counted, and a comma.
fn push_counted_and(text: &mut Vec<u8>, count: usize, word: &str) -> Result<(), AllocError>
    ensures { OnOk result
        (text.new.items ≡ text.old.items ++ (count_text count word.now ++ codes ", ")) }
{
    push_counted(text, count, word)?;
    text.extend_from_slice(b", ")?;
    Ok(())
}

/// Adds an amount in words.
fn push_amount(text: &mut Vec<u8>, amount: Amount) -> Result<(), AllocError>
    ensures { OnOk result
        (text.new.items ≡ text.old.items ++ amount_words (amount_shown amount)) }
{
    match amount {
        Amount::Counted {
            files,
            assignments,
            bytes,
        } => {
            push_counted_and(text, files, "file")?;
            push_counted_and(text, assignments, "assignment")?;
            push_counted(text, bytes, "byte")
        }
        Amount::Uncounted { bytes } => push_counted(text, bytes, "byte"),
    }
}

/// Adds the line of an amount.
fn push_amount_line(text: &mut Vec<u8>, amount: Amount) -> Result<(), AllocError>
    ensures { OnOk result
        (text.new.items ≡ text.old.items ++ amount_line (Some (amount_shown amount))) }
{
    text.extend_from_slice(b"holds: ")?;
    push_amount(text, amount)?;
    text.push(b'\n')?;
    Ok(())
}

/// Adds the line of an amount that there may be.
pub(crate) fn push_amount_if(text: &mut Vec<u8>, amount: Option<Amount>) -> Result<(), AllocError>
    ensures { OnOk result
        (text.new.items ≡ text.old.items ++ amount_line (option_map amount_shown amount)) }
{
    match amount {
        Some(amount) => push_amount_line(text, amount),
        None => Ok(()),
    }
}

/// Adds the members of an amount.
fn put_members(json: &mut Writer, amount: Amount) -> Result<(), AllocError>
    ensures before { json.new.before ≡ json.old.before }
    ensures tokens { OnOk result (json.new.tokens ≡ json.old.tokens
        ++ tokens_of_members (amount_members (amount_shown amount))) }
{
    match amount {
        Amount::Counted {
            files,
            assignments,
            bytes,
        } => {
            put_count(json, "files", files as u64)?;
            put_count(json, "assignments", assignments as u64)?;
            put_count(json, "bytes", bytes as u64)
        }
        Amount::Uncounted { bytes } => put_count(json, "bytes", bytes as u64),
    }
}

/// Adds an amount as an object.
fn put_amount(json: &mut Writer, amount: Amount) -> Result<(), AllocError>
    ensures before { json.new.before ≡ json.old.before }
    ensures tokens { OnOk result (json.new.tokens ≡ json.old.tokens
        ++ json_tokens (object_of (amount_members (amount_shown amount)))) }
{
    json.begin_object()?;
    put_members(json, amount)?;
    json.end_object()
}

/// Adds an amount that there may be.
fn put_amount_if(json: &mut Writer, amount: Option<Amount>) -> Result<(), AllocError>
    ensures before { json.new.before ≡ json.old.before }
    ensures tokens { OnOk result (json.new.tokens ≡ json.old.tokens
        ++ json_tokens (amount_json (option_map amount_shown amount))) }
{
    match amount {
        Some(amount) => put_amount(json, amount),
        None => json.null(),
    }
}

/// The same under a name.
pub(crate) fn put_amount_at(
    json: &mut Writer,
    name: &str,
    amount: Option<Amount>,
) -> Result<(), AllocError>
    ensures before { json.new.before ≡ json.old.before }
    ensures tokens { OnOk result (json.new.tokens ≡ json.old.tokens
        ++ tokens_of_member (name.now, amount_json (option_map amount_shown amount))) }
{
    json.key(name)?;
    put_amount_if(json, amount)
}
