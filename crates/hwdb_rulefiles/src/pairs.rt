//! One pair of a line, as `parse_line` of udev-rules.c reads it.
ghost use Rattle.std.specs.Prelude.{◌≡◌, ◌≤◌, length, IfOk, drop, Option};
ghost use Rattle.std.specs.List.{position_or_len};
ghost use Rattle.hwdb_spec.specs.Lines.{is};
ghost use Rattle.hwdb_rulefiles.specs.RulePairs;
ghost use Rattle.hwdb_rulefiles.specs.PairViews.{part_of, marked_of, operated_of, attribute_of};

use crate::findings::FindingKind;
use crate::rows::{begins_with, is_white, unindented};
use crate::values::{value_len, value_of};
use std::alloc::{AllocError, Global};

/// What a pair does with its value.
#[derive(Clone, Copy, Debug, PartialEq, Eq)]
pub enum Operator {
    /// `==`
    Match,
    /// `!=`
    NoMatch,
    /// `+=`
    Add,
    /// `-=`
    Remove,
    /// `=`
    Assign,
    /// `:=`
    AssignFinal,
}

/// A pair of a line.
#[derive(Drop)]
pub struct Pair<'b> {
    /// The key.
    pub key: &'b [u8],
    /// What is in braces after the key.
    pub attribute: Option<&'b [u8]>,
    /// The operator.
    pub operator: Operator,
    /// Whether `i` comes before the value: capitals don't count.
    pub folds: bool,
    /// The value.
    pub value: Vec<u8>,
}

/// What a text begins with.
#[derive(Drop)]
pub enum Part<'b> {
    /// No pair.
    Broken(FindingKind),
    /// A pair, and what comes after it.
    Read(Pair<'b>, &'b [u8]),
}

/// An operator, and what comes after it.
#[derive(Clone, Copy)]
pub struct Operated<'b> {
    pub operator: Operator,
    pub rest: &'b [u8],
}

/// What comes before the quote of a value, and what comes after that.
#[derive(Clone, Copy)]
pub struct Marked<'b> {
    pub escaped: bool,
    pub folds: bool,
    pub rest: &'b [u8],
}

/// Whether a key ends at this byte, after which `rest` comes.
fn ends_key(byte: u8, rest: &[u8]) -> bool
    ensures { result ≡ RulePairs.ends_key byte rest.now }
{
    if is_white(byte) {
        return true;
    }
    match byte {
        b'=' | b'{' => true,
        b'+' | b'-' | b'!' | b':' => begins_with(b'=', rest),
        _ => false,
    }
}

/// How long a key is.
fn key_len(text: &[u8]) -> usize
    ensures value { result ≡ RulePairs.key_len text.now }
    ensures within { result ≤ length text.now }
{
    let mut at = 0;
    while at < text.len() && !ends_key(text[at], &text[at + 1..]) {
        at += 1;
    }
    at
}

/// The place of the first closing brace, or the length.
fn brace_of(text: &[u8]) -> usize
    ensures value { result ≡ position_or_len RulePairs.is_brace text.now }
    ensures within { result ≤ length text.now }
{
    let mut at = 0;
    while at < text.len() && text[at] != b'}' {
        at += 1;
    }
    at
}

/// The operator that a text begins with.
fn operator_of(text: &[u8]) -> Option<Operated<'_>>
    ensures { operated_of result ≡ RulePairs.operator_of text.now }
{
    if text.starts_with(b"==") {
        return Some(Operated {
            operator: Operator::Match,
            rest: &text[2..],
        });
    }
    if text.starts_with(b"!=") {
        return Some(Operated {
            operator: Operator::NoMatch,
            rest: &text[2..],
        });
    }
    if text.starts_with(b"+=") {
        return Some(Operated {
            operator: Operator::Add,
            rest: &text[2..],
        });
    }
    if text.starts_with(b"-=") {
        return Some(Operated {
            operator: Operator::Remove,
            rest: &text[2..],
        });
    }
    if text.starts_with(b"=") {
        return Some(Operated {
            operator: Operator::Assign,
            rest: &text[1..],
        });
    }
    if text.starts_with(b":=") {
        return Some(Operated {
            operator: Operator::AssignFinal,
            rest: &text[2..],
        });
    }
    None
}

/// What comes before the quote of a value.
fn marks_of(text: &[u8]) -> Option<Marked<'_>>
    ensures { marked_of result ≡ RulePairs.marks_of text.now }
{
    if text.starts_with(b"\"") {
        return Some(Marked {
            escaped: false,
            folds: false,
            rest: &text[1..],
        });
    }
    if text.starts_with(b"e\"") {
        return Some(Marked {
            escaped: true,
            folds: false,
            rest: &text[2..],
        });
    }
    if text.starts_with(b"i\"") {
        return Some(Marked {
            escaped: false,
            folds: true,
            rest: &text[2..],
        });
    }
    if text.starts_with(b"ei\"") {
        return Some(Marked {
            escaped: true,
            folds: true,
            rest: &text[3..],
        });
    }
    if text.starts_with(b"ie\"") {
        return Some(Marked {
            escaped: true,
            folds: true,
            rest: &text[3..],
        });
    }
    None
}

/// A pair whose value begins with `text`, after its quote.
fn quoted<'b>(
    alloc: Global,
    key: &'b [u8],
    attribute: Option<&'b [u8]>,
    operator: Operator,
    marked: Marked<'b>,
) -> Result<Part<'b>, AllocError>
    ensures { IfOk result (λ part. part_of part ≡ RulePairs.quoted
        key.now (attribute_of attribute.entry) operator
        marked.entry.escaped marked.entry.folds marked.entry.rest.now) }
{
    let text = marked.rest;
    let len = value_len(marked.escaped, text);
    if len == text.len() {
        return Ok(Part::Broken(FindingKind::NoEnd));
    }
    match value_of(alloc, marked.escaped, &text[..len])? {
        None => Ok(Part::Broken(FindingKind::WrongEscape)),
        Some(value) => {
            let pair = Pair {
                key,
                attribute,
                operator,
                folds: marked.folds,
                value,
            };
            Ok(Part::Read(pair, &text[len + 1..]))
        }
    }
}

/// A pair whose operator and value come next.
fn valued<'b>(
    alloc: Global,
    key: &'b [u8],
    attribute: Option<&'b [u8]>,
    text: &'b [u8],
) -> Result<Part<'b>, AllocError>
    ensures { IfOk result (λ part. part_of part
        ≡ RulePairs.valued key.now (attribute_of attribute.entry) text.now) }
{
    let Some(operated) = operator_of(unindented(text)) else {
        return Ok(Part::Broken(FindingKind::NoOperator));
    };
    let Some(marked) = marks_of(unindented(operated.rest)) else {
        return Ok(Part::Broken(FindingKind::NoQuote));
    };
    quoted(alloc, key, attribute, operated.operator, marked)
}

/// The pair that a text begins with.
pub fn pair_of(alloc: Global, text: &[u8]) -> Result<Part<'_>, AllocError>
    ensures { IfOk result (λ part. part_of part ≡ RulePairs.pair_of text.now) }
{
    let len = key_len(text);
    let key = &text[..len];
    let rest = &text[len..];
    if rest.is_empty() {
        return Ok(Part::Broken(FindingKind::NoOperator));
    }
    if !begins_with(b'{', rest) {
        return valued(alloc, key, None, rest);
    }
    let inner = &rest[1..];
    let brace = brace_of(inner);
    if brace == inner.len() {
        return Ok(Part::Broken(FindingKind::NoBrace));
    }
    valued(alloc, key, Some(&inner[..brace]), &inner[brace + 1..])
}
