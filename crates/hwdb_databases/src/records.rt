//! The records of a dump, and what a record says.
ghost use Rattle.std.specs.Prelude.{◌≡◌, ◌≤◌, ◌++◌, ◌∷◌, [], drop, length, if◌then◌else◌, false, OnOk, IfOk, map};
ghost use Rattle.hwdb_spec_commands.specs.Dump;
ghost use Rattle.hwdb_spec_commands.specs.Dump.{comment_text, record_text};
ghost use Rattle.hwdb_spec.specs.Folders;
ghost use Rattle.hwdb_spec.specs.Lines.{is_none};
ghost use Rattle.hwdb_text.specs.Views.{given_in};
ghost use Rattle.hwdb_databases.specs.Internal.Holding.{shown_of};
ghost use Rattle.hwdb_databases.specs.Internal.Plain.{body_text};

use crate::members::Member;
use crate::plain::is_plain;
use crate::texts::is_same;
use hwdb_show::push_name;
use hwdb_text::{Given, ScanError, Scanned, scan};
use itoa::Buffer;
use std::alloc::{AllocError, Global};

/// An assignment with its pattern.
#[derive(Clone, Copy)]
pub(crate) struct Shown<'p, 'a> {
    pub pattern: &'p [u8],
    pub member: Member<'a>,
}

/// Adds `# `, the path, `:`, the line and a newline.
fn push_comment(text: &mut Vec<u8>, f: &Shown<'_, '_>) -> Result<(), AllocError>
    ensures { OnOk result (text.new.items ≡ text.old.items ++ comment_text (shown_of f.now)) }
{
    let mut number = Buffer::new();
    text.extend_from_slice(b"# ")?;
    push_name(text, f.member.path)?;
    text.push(b':')?;
    text.extend_from_slice(number.format(f.member.line).as_bytes())?;
    text.push(b'\n')?;
    Ok(())
}

/// Adds what comes after the comment of a record: the pattern, the property, and an empty line.
fn push_body(text: &mut Vec<u8>, f: &Shown<'_, '_>) -> Result<(), AllocError>
    ensures { OnOk result (text.new.items ≡ text.old.items ++ body_text (shown_of f.now)) }
{
    text.extend_from_slice(f.pattern)?;
    text.extend_from_slice(b"\n ")?;
    text.extend_from_slice(f.member.key)?;
    text.push(b'=')?;
    text.extend_from_slice(f.member.value)?;
    text.extend_from_slice(b"\n\n")?;
    Ok(())
}

/// Adds the record of an assignment: a comment, its pattern, its property, and an empty line. Answers where the comment
/// ends.
fn push_record(text: &mut Vec<u8>, f: &Shown<'_, '_>) -> Result<usize, AllocError>
    ensures text { OnOk result
        (text.new.items ≡ text.old.items ++ record_text (shown_of f.now)) }
    ensures within { IfOk result (λ from. from ≤ length text.new.items) }
    ensures body { IfOk result (λ from.
        drop from text.new.items ≡ body_text (shown_of f.now)) }
{
    push_comment(text, f)?;
    let from = text.as_slice().len();
    push_body(text, f)?;
    Ok(from)
}

/// Whether a file gives a pattern, a key and a value.
fn gives(given: &Given<'_>, f: &Shown<'_, '_>) -> bool
    ensures { result ≡ Dump.is_alone (shown_of f.now)
        (given_in (Dump.origin_of (shown_of f.now)) given.now ∷ []) }
{
    is_same(given.pattern, f.pattern)
        && is_same(given.key, f.member.key)
        && is_same(given.value, f.member.value)
}

/// Whether a file without faults gives a pattern, a key and a value, and nothing else.
fn says(scanned: &Scanned<'_>, f: &Shown<'_, '_>) -> bool
    ensures { result ≡ (if is_none scanned.now.faults.items
        then Dump.is_alone (shown_of f.now)
        (map (given_in (Dump.origin_of (shown_of f.now))) scanned.now.assignments.items)
        else false) }
{
    scanned.faults.is_empty() && scanned.assignments.len() == 1 && gives(&scanned.assignments[0], f)
}

/// Whether a text, which is the record of an assignment, says it. The only error is `AllocError`.
fn is_said(alloc: Global, text: &[u8], f: &Shown<'_, '_>) -> Result<bool, AllocError>
    requires { text.now ≡ record_text (shown_of f.now) }
    ensures { IfOk result (λ said. said ≡ Dump.is_said (shown_of f.now)) }
{
    match scan(alloc, text) {
        Ok(scanned) => Ok(says(&scanned, f)),
        Err(ScanError::TooManyLines) => Ok(false),
        Err(ScanError::Memory) => Err(AllocError),
    }
}

/// Adds the record of an assignment, and answers whether the record says it. It is read as a file only if its bytes don't
/// show that. The only error is `AllocError`.
pub(crate) fn push_said(
    alloc: Global,
    text: &mut Vec<u8>,
    f: &Shown<'_, '_>,
) -> Result<bool, AllocError>
    ensures text { OnOk result
        (text.new.items ≡ text.old.items ++ record_text (shown_of f.now)) }
    ensures said { IfOk result (λ said. said ≡ Dump.is_said (shown_of f.now)) }
{
    let from = text.as_slice().len();
    let body = push_record(text, f)?;
    if is_plain(&text[body..], f) {
        return Ok(true);
    }
    is_said(alloc, &text[from..], f)
}
