//! The pieces of a value: bytes, and variables that stand for other texts.
ghost use Rattle.std.specs.Prelude.{◌≡◌, ◌≤◌, length, map, drop, IfOk, IfSome, Option};
ghost use Rattle.std.specs.List.{position_or_len};
ghost use Rattle.hwdb_rulefiles.specs.RulePairs.{is_brace};
ghost use Rattle.hwdb_ruleevents.specs.Pieces;
ghost use Rattle.hwdb_ruleevents.specs.PieceViews.{head_view, piece_of, word_of, word_view};

use hwdb_rulerun::begins_with;
use std::alloc::{AllocError, Global};

/// A variable of udev(7), by its long name.
#[derive(Clone, Copy, Debug, PartialEq, Eq)]
pub enum Variable {
    Devnode,
    Attr,
    Env,
    Kernel,
    Number,
    Driver,
    Devpath,
    Id,
    Major,
    Minor,
    ProgramResult,
    Parent,
    Name,
    Links,
    Root,
    Sys,
}

/// A piece of a value.
#[derive(Clone, Copy)]
pub enum Piece<'a> {
    /// A byte as it is.
    Byte(u8),
    /// A variable, with what is in braces.
    Stands(Variable, &'a [u8]),
}

/// A variable's name, and how long it is.
#[derive(Clone, Copy)]
pub struct Word {
    variable: Variable,
    len: usize,
}

/// What a text begins with, and how many bytes that has.
#[derive(Clone, Copy)]
pub struct Head<'a> {
    piece: Piece<'a>,
    len: usize,
}

/// A text without its first bytes.
fn after(count: usize, text: &[u8]) -> &[u8]
    ensures { result.now ≡ drop count text.now }
{
    if count < text.len() {
        &text[count..]
    } else {
        b""
    }
}

fn some_word(variable: Variable, len: usize) -> Option<Word>
    requires { len ≤ 8 }
    ensures value { word_view result ≡ Pieces.word variable len }
    ensures short { IfSome result (λ w. w.len ≤ 8) }
{
    Some(Word { variable, len })
}

/// The first names of udev's table.
fn first_names(text: &[u8]) -> Option<Word>
    ensures value { word_view result ≡ Pieces.first_names text.now }
    ensures short { IfSome result (λ w. w.len ≤ 8) }
{
    if text.starts_with(b"devnode") {
        return some_word(Variable::Devnode, 7);
    }
    if text.starts_with(b"tempnode") {
        return some_word(Variable::Devnode, 8);
    }
    if text.starts_with(b"attr") {
        return some_word(Variable::Attr, 4);
    }
    if text.starts_with(b"sysfs") {
        return some_word(Variable::Attr, 5);
    }
    if text.starts_with(b"env") {
        return some_word(Variable::Env, 3);
    }
    if text.starts_with(b"kernel") {
        return some_word(Variable::Kernel, 6);
    }
    None
}

/// Those after them.
fn middle_names(text: &[u8]) -> Option<Word>
    ensures value { word_view result ≡ Pieces.middle_names text.now }
    ensures short { IfSome result (λ w. w.len ≤ 8) }
{
    if text.starts_with(b"number") {
        return some_word(Variable::Number, 6);
    }
    if text.starts_with(b"driver") {
        return some_word(Variable::Driver, 6);
    }
    if text.starts_with(b"devpath") {
        return some_word(Variable::Devpath, 7);
    }
    if text.starts_with(b"id") {
        return some_word(Variable::Id, 2);
    }
    if text.starts_with(b"major") {
        return some_word(Variable::Major, 5);
    }
    if text.starts_with(b"minor") {
        return some_word(Variable::Minor, 5);
    }
    None
}

/// The last ones.
fn last_names(text: &[u8]) -> Option<Word>
    ensures value { word_view result ≡ Pieces.last_names text.now }
    ensures short { IfSome result (λ w. w.len ≤ 8) }
{
    if text.starts_with(b"result") {
        return some_word(Variable::ProgramResult, 6);
    }
    if text.starts_with(b"parent") {
        return some_word(Variable::Parent, 6);
    }
    if text.starts_with(b"name") {
        return some_word(Variable::Name, 4);
    }
    if text.starts_with(b"links") {
        return some_word(Variable::Links, 5);
    }
    if text.starts_with(b"root") {
        return some_word(Variable::Root, 4);
    }
    if text.starts_with(b"sys") {
        return some_word(Variable::Sys, 3);
    }
    None
}

/// The long name that a text begins with.
fn named(text: &[u8]) -> Option<Word>
    ensures value { word_view result ≡ Pieces.named text.now }
    ensures short { IfSome result (λ w. w.len ≤ 8) }
{
    if let Some(word) = first_names(text) {
        return Some(word);
    }
    if let Some(word) = middle_names(text) {
        return Some(word);
    }
    last_names(text)
}

/// The variable of a letter.
fn letter(byte: u8) -> Option<Variable>
    ensures { result ≡ Pieces.letter byte }
{
    match byte {
        b'N' => Some(Variable::Devnode),
        b's' => Some(Variable::Attr),
        b'E' => Some(Variable::Env),
        b'k' => Some(Variable::Kernel),
        b'n' => Some(Variable::Number),
        b'd' => Some(Variable::Driver),
        b'p' => Some(Variable::Devpath),
        b'b' => Some(Variable::Id),
        b'M' => Some(Variable::Major),
        b'm' => Some(Variable::Minor),
        b'c' => Some(Variable::ProgramResult),
        b'P' => Some(Variable::Parent),
        b'D' => Some(Variable::Name),
        b'L' => Some(Variable::Links),
        b'r' => Some(Variable::Root),
        b'S' => Some(Variable::Sys),
        _ => None,
    }
}

/// The letter that a text begins with.
fn lettered(text: &[u8]) -> Option<Word>
    ensures value { word_view result ≡ Pieces.lettered text.now }
    ensures short { IfSome result (λ w. w.len ≤ 8) }
{
    if text.is_empty() {
        return None;
    }
    match letter(text[0]) {
        None => None,
        Some(variable) => some_word(variable, 1),
    }
}

/// How far the next closing brace is, or the length.
fn brace_of(text: &[u8]) -> usize
    ensures value { result ≡ position_or_len is_brace text.now }
    ensures within { result ≤ length text.now }
{
    let mut at = 0;
    while at < text.len() && text[at] != b'}' {
        at += 1;
    }
    at
}

/// Whether a variable has no text without braces.
fn needs_argument(variable: Variable) -> bool
    ensures { result ≡ Pieces.needs_argument variable }
{
    match variable {
        Variable::Attr => true,
        Variable::Env => true,
        _ => false,
    }
}

/// A variable without braces.
fn bare<'a>(word: Word) -> Option<Head<'a>>
    requires { word.len ≤ 8 }
    ensures { head_view result ≡ Pieces.bare (word_of word) }
{
    if needs_argument(word.variable) {
        return None;
    }
    Some(Head {
        piece: Piece::Stands(word.variable, b""),
        len: word.len + 1,
    })
}

/// A variable with braces, after the first of which this text comes.
fn in_braces(word: Word, text: &[u8]) -> Option<Head<'_>>
    requires { word.len ≤ 8 }
    ensures { head_view result ≡ Pieces.in_braces (word_of word) text.now }
{
    let len = brace_of(text);
    if len == text.len() {
        return None;
    }
    if len == 0 {
        return None;
    }
    if len > LONGEST_ARGUMENT {
        return None;
    }
    Some(Head {
        piece: Piece::Stands(word.variable, &text[..len]),
        len: word.len + 3 + len,
    })
}

/// How many bytes may be in braces.
const LONGEST_ARGUMENT: usize = 1023;

/// A variable, after whose name this text comes.
fn with_argument(word: Word, rest: &[u8]) -> Option<Head<'_>>
    requires { word.len ≤ 8 }
    ensures { head_view result ≡ Pieces.with_argument (word_of word) rest.now }
{
    if begins_with(b'{', rest) {
        return in_braces(word, after(1, rest));
    }
    bare(word)
}

fn byte_head<'a>(byte: u8, len: usize) -> Option<Head<'a>>
    ensures { head_view result ≡ Pieces.byte_head byte len }
{
    Some(Head {
        piece: Piece::Byte(byte),
        len,
    })
}

/// What a mark begins.
fn marked(mark: u8, found: Option<Word>, rest: &[u8]) -> Option<Head<'_>>
    requires { IfSome found (λ w. w.len ≤ 8) }
    ensures { head_view result ≡ Pieces.marked mark (word_view found) rest.now }
{
    if begins_with(mark, rest) {
        return byte_head(mark, 2);
    }
    match found {
        None => byte_head(mark, 1),
        Some(word) => with_argument(word, after(word.len, rest)),
    }
}

/// What a text begins with. None if braces aren't as udev reads them: the text ends there.
fn head_of(byte: u8, rest: &[u8]) -> Option<Head<'_>>
    ensures { head_view result ≡ Pieces.head_of byte rest.now }
{
    if byte == b'$' {
        return marked(byte, named(rest), rest);
    }
    if byte == b'%' {
        return marked(byte, lettered(rest), rest);
    }
    byte_head(byte, 1)
}

/// The pieces of a value.
pub fn pieces_of(alloc: Global, value: &[u8]) -> Result<Vec<Piece<'_>>, AllocError>
    ensures { IfOk result (λ all. map piece_of all.items ≡ Pieces.pieces value.now) }
{
    let mut all = Vec::new(alloc);
    let mut rest = value;
    let mut most = value.len();
    while most > 0 {
        if rest.is_empty() {
            return Ok(all);
        }
        most -= 1;
        let Some(head) = head_of(rest[0], &rest[1..]) else {
            return Ok(all);
        };
        all.push(head.piece)?;
        rest = after(head.len, rest);
    }
    Ok(all)
}
