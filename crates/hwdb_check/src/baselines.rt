//! Findings that are let pass since a baseline has them.
ghost use Rattle.std.specs.Prelude.{◌≡◌, ◌++◌, ◌∷◌, ◌+◌, ◌-◌, ◌^◌, ◌<◌, [], List, ℕ, codes, map, nat_lt, option_map, Ok, IfOk, IfSome, OnOk, IfErr};
ghost use Rattle.json.specs.Tree.{HasNumbers, json_tokens};
ghost use Rattle.json.specs.Value.{value_view};
ghost use Rattle.hwdb_spec_commands.specs.Baselines;
ghost use Rattle.hwdb_spec_commands.specs.Json.{object_of, text_json};
ghost use Rattle.hwdb_show.specs.JsonTokens.{tokens_of_member};
ghost use Rattle.hwdb_check.specs.Found.{finds, kept_of};
ghost use Rattle.hwdb_check.specs.Counted.{AreLeft, after, left_of, once};
ghost use Rattle.hwdb_check.specs.Known.{IsWrong, after_marks};
ghost use Rattle.hwdb_spec_commands.specs.Findings.{Finding};

use crate::findings::{Found, push_place, put_copy};
use hwdb_show::{closed, put_member};
use hwdb_text::Lines;
use json::{Error, Scratch, Value, Writer};
use std::alloc::{AllocError, Global};
use std::collections::BTreeMap;

/// Why a baseline isn't taken.
#[derive(Debug, Drop)]
pub enum BaselineFault {
    /// The line with this number has no finding.
    Line(u64),
    /// Memory was refused.
    Memory,
}

impl From<AllocError> for BaselineFault {
    ghost use Rattle.std.specs.Prelude.{◌≡◌};
    ghost use Rattle.hwdb_check.specs.declared.baselines.BaselineFault.TheVariants.{Memory as memory};

    ghost from_gives = { λ _ fault. fault ≡ memory };

    fn from(_: AllocError) -> BaselineFault {
        BaselineFault::Memory
    }
}

/// Whether a value is a text, as `check --json` prints one.
fn is_text(value: &Value<'_>) -> bool
    ensures { result ≡ Baselines.is_text (value_view value.now) }
{
    matches!(value, Value::String(_) | Value::Array(_))
}

/// A value, if it is a text.
fn if_text<'v, 'a>(value: &'v Value<'a>) -> Option<&'v Value<'a>>
    ensures text { option_map (λ v. value_view v.now) result
        ≡ Baselines.if_text (value_view value.now) }
    ensures numbers { HasNumbers (value_view value.now)
        → IfSome result (λ v. HasNumbers (value_view v.now)) }
{
    if is_text(value) { Some(value) } else { None }
}

/// The text under a name of an object, if it has one.
fn text_under<'v, 'a>(name: &str, value: &'v Value<'a>) -> Option<&'v Value<'a>>
    ensures text { option_map (λ v. value_view v.now) result
        ≡ Baselines.text_under name.now (value_view value.now) }
    ensures numbers { HasNumbers (value_view value.now)
        → IfSome result (λ v. HasNumbers (value_view v.now)) }
{
    match value.get(name) {
        Some(found) => if_text(found),
        None => None,
    }
}

/// Adds a member: a name and a value.
fn put_value(json: &mut Writer, name: &str, value: &Value<'_>) -> Result<(), AllocError>
    requires { HasNumbers (value_view value.now) }
    ensures before { json.new.before ≡ json.old.before }
    ensures tokens { OnOk result (json.new.tokens
        ≡ json.old.tokens ++ tokens_of_member (name.now, value_view value.now)) }
{
    json.key(name)?;
    json.value(value)
}

/// Adds the object of a path, a kind and a line.
fn put_mark(
    json: &mut Writer,
    path: &Value<'_>,
    kind: &Value<'_>,
    source: &Value<'_>,
) -> Result<(), AllocError>
    requires path { HasNumbers (value_view path.now) }
    requires kind { HasNumbers (value_view kind.now) }
    requires source { HasNumbers (value_view source.now) }
    ensures before { json.new.before ≡ json.old.before }
    ensures tokens { OnOk result (json.new.tokens ≡ json.old.tokens
        ++ json_tokens (object_of ((codes "path", value_view path.now)
        ∷ (codes "kind", value_view kind.now) ∷ (codes "source", value_view source.now) ∷ []))) }
{
    json.begin_object()?;
    put_value(json, "path", path)?;
    put_value(json, "kind", kind)?;
    put_value(json, "source", source)?;
    json.end_object()
}

/// A path, a kind and a line as one text.
fn mark_text(
    alloc: Global,
    path: &Value<'_>,
    kind: &Value<'_>,
    source: &Value<'_>,
) -> Result<Vec<u8>, AllocError>
    requires path { HasNumbers (value_view path.now) }
    requires kind { HasNumbers (value_view kind.now) }
    requires source { HasNumbers (value_view source.now) }
    ensures { IfOk result (λ text. text.items ≡ Baselines.mark_text
        (value_view path.now) (value_view kind.now) (value_view source.now)) }
{
    let mut json = Writer::new(Vec::new(alloc));
    put_mark(&mut json, path, kind, source)?;
    closed(alloc, json)
}

/// The path, the kind and the line of an object, if it has them.
fn mark_in(alloc: Global, value: &Value<'_>) -> Result<Option<Vec<u8>>, AllocError>
    requires { HasNumbers (value_view value.now) }
    ensures { IfOk result
        (λ mark. option_map (λ t. t.items) mark ≡ Baselines.mark_in (value_view value.now)) }
{
    let Some(path) = text_under("path", value) else {
        return Ok(None);
    };
    let Some(kind) = text_under("kind", value) else {
        return Ok(None);
    };
    let Some(source) = text_under("source", value) else {
        return Ok(None);
    };
    Ok(Some(mark_text(alloc, path, kind, source)?))
}

/// Those of a line of a baseline.
fn line_mark(alloc: Global, text: &[u8]) -> Result<Option<Vec<u8>>, AllocError>
    ensures { IfOk result
        (λ mark. option_map (λ t. t.items) mark ≡ Baselines.line_mark text.now) }
{
    let mut scratch = Scratch::new(alloc);
    match Value::from_slice(alloc, text, &mut scratch) {
        Ok(value) => mark_in(alloc, &value),
        Err(Error::OutOfMemory) => Err(AllocError),
        Err(Error::Invalid) => Ok(None),
        Err(Error::TooLong) => Ok(None),
        Err(Error::DuplicateKey) => Ok(None),
    }
}

/// Adds a text to others.
fn keep(marks: &mut Vec<Vec<u8>>, mark: Vec<u8>) -> Result<(), AllocError>
    ensures { OnOk result (map (λ t. t.items) marks.new.items
        ≡ map (λ t. t.items) marks.old.items ++ mark.items ∷ []) }
{
    marks.push(mark).map_err(AllocError::from)
}

/// Adds the text of a line of a baseline to those of the lines before it. It is an error if the line has no finding, but an empty one has none.
fn put_line_mark(
    alloc: Global,
    marks: &mut Vec<Vec<u8>>,
    number: u64,
    text: &[u8],
) -> Result<(), BaselineFault>
    ensures marked { (rest : List (List ℕ)) → OnOk result (after_marks
        (map (λ t. t.items) marks.new.items) (Baselines.marks_from (number + 1) rest)
        ≡ after_marks (map (λ t. t.items) marks.old.items)
        (Baselines.marks_from number (text.now ∷ rest))) }
    ensures wrong { (rest : List (List ℕ)) → IfErr result (IsWrong (after_marks
        (map (λ t. t.items) marks.old.items) (Baselines.marks_from number (text.now ∷ rest)))) }
{
    if text.is_empty() {
        return Ok(());
    }
    let Some(mark) = line_mark(alloc, text)? else {
        return Err(BaselineFault::Line(number));
    };
    keep(marks, mark)?;
    Ok(())
}

/// The findings that a baseline has, each as a text; or the number of its first line that has none. Empty lines count as none.
///
/// A step is taken for each byte, and the memory is that of the texts.
pub fn marks_in(alloc: Global, bytes: &[u8]) -> Result<Vec<Vec<u8>>, BaselineFault>
    ensures marks { IfOk result
        (λ marks. Baselines.marks_in bytes.now ≡ Ok (map (λ t. t.items) marks.items)) }
    ensures wrong { IfErr result (IsWrong (Baselines.marks_in bytes.now)) }
{
    let mut marks = Vec::new(alloc);
    let mut number = 1;
    for text in Lines::new(bytes) {
        if let Err(fault) = put_line_mark(alloc, &mut marks, number, text) {
            return Err(fault);
        }
        number += 1;
    }
    Ok(marks)
}

/// What an error says of the line with this number of a baseline, which has no finding. The only error is `AllocError`.
pub fn wrong_text(alloc: Global, path: &[u8], number: u64) -> Result<Vec<u8>, AllocError>
    ensures { IfOk result (λ text. text.items ≡ Baselines.wrong_text path.now number) }
{
    let mut text = Vec::new(alloc);
    push_place(&mut text, path, number)?;
    text.extend_from_slice(b": no finding as hwdb check --json prints it")?;
    Ok(text)
}

/// Adds the object of a finding's path, kind and line.
fn put_mark_of(json: &mut Writer, found: &Found) -> Result<(), AllocError>
    ensures before { json.new.before ≡ json.old.before }
    ensures tokens { OnOk result (json.new.tokens ≡ json.old.tokens
        ++ json_tokens (object_of ((codes "path", text_json found.now.path.items)
        ∷ (codes "kind", text_json found.now.kind.now)
        ∷ (codes "source", text_json found.now.source.items) ∷ []))) }
{
    json.begin_object()?;
    put_member(json, "path", &found.path)?;
    put_member(json, "kind", found.kind.as_bytes())?;
    put_member(json, "source", &found.source)?;
    json.end_object()
}

/// The path, the kind and the line of a finding as one text.
pub fn mark_of(alloc: Global, found: &Found) -> Result<Vec<u8>, AllocError>
    ensures { IfOk result (λ text. text.items ≡ Baselines.mark_of (kept_of found.now)) }
{
    let mut json = Writer::new(Vec::new(alloc));
    put_mark_of(&mut json, found)?;
    closed(alloc, json)
}

/// Takes one of so many, if there is any.
fn takes_one(often: &mut usize) -> bool
    ensures taken { result ≡ nat_lt 0 often.old }
    ensures left { often.new ≡ often.old - 1 }
{
    if *often == 0 {
        return false;
    }
    *often -= 1;
    true
}

/// Whether a text is left. It is once less then.
fn takes(mark: &[u8], left: &mut BTreeMap<&[u8], usize>) -> bool
    ensures taken { result ≡ nat_lt 0 (left_of left.old mark.now) }
    ensures left { (other : List ℕ)
        → left_of left.new other ≡ left_of left.old other - once mark.now other }
{
    match left.get_mut(mark) {
        Some(often) => takes_one(often),
        None => false,
    }
}

/// Counts a text once more.
fn count<'k>(left: &mut BTreeMap<&'k [u8], usize>, mark: &'k [u8]) -> Result<(), AllocError>
    requires room { left_of left.old mark.now + 1 < 2 ^ 64 }
    ensures { OnOk result ((other : List ℕ)
        → left_of left.new other ≡ left_of left.old other + once mark.now other) }
{
    let before = left.get(mark).copied().unwrap_or(0);
    left.insert(mark, before + 1)?;
    Ok(())
}

/// How often each text is among some. It takes a look among them for each.
fn counted<'k>(alloc: Global, known: &'k [Vec<u8>]) -> Result<BTreeMap<&'k [u8], usize>, AllocError>
    ensures { IfOk result (AreLeft (map (λ t. t.items) known.now)) }
{
    let mut left = BTreeMap::new(alloc);
    for mark in known {
        count(&mut left, mark.as_slice())?;
    }
    Ok(left)
}

/// Whether a finding is left of those that are known. It is once less then.
fn passes(
    alloc: Global,
    found: &Found,
    left: &mut BTreeMap<&[u8], usize>,
) -> Result<bool, AllocError>
    ensures passes { IfOk result
        (λ passes. passes ≡ nat_lt 0 (left_of left.old (Baselines.mark_of (kept_of found.now)))) }
    ensures left { OnOk result ((other : List ℕ) → left_of left.new other
        ≡ left_of left.old other - once (Baselines.mark_of (kept_of found.now)) other) }
{
    let mark = mark_of(alloc, found)?;
    Ok(takes(&mark, left))
}

/// Adds a copy of a finding, unless it is left of those that are known. It is once less then.
fn put_if_new(
    alloc: Global,
    left: &mut BTreeMap<&[u8], usize>,
    new: &mut Vec<Found>,
    found: &Found,
) -> Result<(), AllocError>
    ensures put { (known : List (List ℕ)) (rest : List Finding) → AreLeft known left.old
        → OnOk result (finds new.new.items ++ Baselines.new_findings (after known found.now) rest
        ≡ finds new.old.items ++ Baselines.new_findings known (kept_of found.now ∷ rest)) }
    ensures left { (known : List (List ℕ)) → AreLeft known left.old
        → OnOk result (AreLeft (after known found.now) left.new) }
{
    if passes(alloc, found, left)? {
        return Ok(());
    }
    put_copy(alloc, new, found)
}

/// Copies of the findings that aren't known. It takes a look among the known ones for each of both.
fn unknown_of(alloc: Global, known: &[Vec<u8>], found: &[Found]) -> Result<Vec<Found>, AllocError>
    ensures { IfOk result (λ new. finds new.items
        ≡ Baselines.new_findings (map (λ t. t.items) known.now) (finds found.now)) }
{
    let mut left = counted(alloc, known)?;
    let mut new = Vec::new(alloc);
    for one in found {
        put_if_new(alloc, &mut left, &mut new, one)?;
    }
    Ok(new)
}

/// The findings that aren't known.
pub fn new_findings(
    alloc: Global,
    known: &[Vec<u8>],
    found: Vec<Found>,
) -> Result<Vec<Found>, AllocError>
    ensures { IfOk result (λ new. finds new.items
        ≡ Baselines.new_findings (map (λ t. t.items) known.now) (finds found.items)) }
{
    if known.is_empty() {
        return Ok(found);
    }
    unknown_of(alloc, known, &found)
}
