//! What a pair says: a token of its line, a label, or a jump.
ghost use Rattle.std.specs.Prelude.{◌≡◌, ◌≤◌, length, take, IfOk, Option, drop, nat_eq};
ghost use Rattle.std.specs.List.{starts_with};
ghost use Rattle.std.specs.Str.{bytes_eq};
ghost use Rattle.hwdb_rulefiles.specs.RuleText;
ghost use Rattle.hwdb_rulefiles.specs.RuleTokens;
ghost use Rattle.hwdb_rulefiles.specs.PairViews.{attribute_of, read_of};
ghost use Rattle.hwdb_rulefiles.specs.TokenViews.{token_of, verdict_of};

use crate::findings::FindingKind;
use crate::keys::{Key, compares, form_fault, is_same, is_taken_as_set, key_of, operator_for};
use crate::pairs::{Operator, Pair};
use crate::rows::{is_white, unindented};
use std::alloc::{AllocError, Global};

/// The types of tokens, in the order in which udev runs them.
#[derive(Clone, Copy, Debug, PartialEq, Eq)]
pub enum TokenKind {
    MatchAction,
    MatchDevpath,
    MatchKernel,
    MatchDevlink,
    MatchName,
    MatchEnv,
    MatchConst,
    MatchTag,
    MatchSubsystem,
    MatchDriver,
    MatchAttr,
    MatchSysctl,
    ParentsKernel,
    ParentsSubsystem,
    ParentsDriver,
    ParentsAttr,
    ParentsTag,
    MatchTest,
    MatchProgram,
    ImportFile,
    ImportProgram,
    ImportBuiltin,
    ImportDb,
    ImportCmdline,
    ImportParent,
    MatchResult,
    EscapeNone,
    EscapeReplace,
    DbPersist,
    Watch,
    LinkPriority,
    LogLevel,
    Owner,
    Group,
    Mode,
    Tag,
    StaticNode,
    Seclabel,
    Env,
    Name,
    Devlink,
    Attr,
    Sysctl,
    RunBuiltin,
    RunProgram,
}

/// A token of a line.
#[derive(Drop)]
pub struct Token {
    /// Its type.
    pub kind: TokenKind,
    /// What is in braces; nothing if there are none.
    pub attribute: Vec<u8>,
    /// The operator.
    pub operator: Operator,
    /// Whether capitals don't count.
    pub folds: bool,
    /// The value.
    pub value: Vec<u8>,
}

/// What a pair says.
#[derive(Drop)]
pub enum Verdict {
    /// The line is left out.
    Refused(FindingKind),
    /// The pair is left out.
    Ignored(FindingKind),
    /// It adds a token.
    Taken(Token),
    /// It adds a token with another operator than is written.
    TakenAsSet(Token),
    /// The line has this name.
    Label(Vec<u8>),
    /// It jumps to the line with this name.
    Goto(Vec<u8>),
}

/// Properties that udev sets itself.
fn is_fixed(name: &[u8]) -> bool
    ensures { result ≡ RuleTokens.is_fixed name.now }
{
    is_fixed_device(name) || is_fixed_event(name)
}

fn is_fixed_device(name: &[u8]) -> bool
    ensures { result ≡ RuleTokens.is_fixed_device name.now }
{
    is_same(name, b"DEVLINKS")
        || is_same(name, b"DEVNAME")
        || is_same(name, b"DEVPATH")
        || is_same(name, b"DEVTYPE")
        || is_same(name, b"DRIVER")
        || is_same(name, b"IFINDEX")
}

fn is_fixed_event(name: &[u8]) -> bool
    ensures { result ≡ RuleTokens.is_fixed_event name.now }
{
    is_same(name, b"ACTION")
        || is_same(name, b"MAJOR")
        || is_same(name, b"MINOR")
        || is_same(name, b"SEQNUM")
        || is_same(name, b"SUBSYSTEM")
        || is_same(name, b"TAGS")
}

/// How long the first word of a text is.
fn word_len(text: &[u8]) -> usize
    ensures value { result ≡ RuleTokens.word_len text.now }
    ensures within { result ≤ length text.now }
{
    let mut at = 0;
    while at < text.len() && !is_white(text[at]) {
        at += 1;
    }
    at
}

/// Whether a word begins a name.
fn begins(word: &[u8], name: &[u8]) -> bool
    ensures { result ≡ starts_with nat_eq name.now word.now }
{
    name.starts_with(word)
}

fn begins_early(word: &[u8]) -> bool
    ensures { result ≡ RuleTokens.begins_early word.now }
{
    begins(word, b"blkid")
        || begins(word, b"btrfs")
        || begins(word, b"hwdb")
        || begins(word, b"input_id")
        || begins(word, b"keyboard")
        || begins(word, b"kmod")
}

fn begins_late(word: &[u8]) -> bool
    ensures { result ≡ RuleTokens.begins_late word.now }
{
    begins(word, b"net_driver")
        || begins(word, b"net_id")
        || begins(word, b"net_setup_link")
        || begins(word, b"path_id")
        || begins(word, b"usb_id")
        || begins(word, b"uaccess")
}

fn begins_new(word: &[u8]) -> bool
    ensures { result ≡ RuleTokens.begins_new word.now }
{
    begins(word, b"dissect_image") || begins(word, b"factory_reset") || begins(word, b"tpm2_id")
}

/// The first word of a command, as the name of a builtin.
pub fn first_word(command: &[u8]) -> &[u8]
    ensures { result.now ≡ take (RuleTokens.word_len (RuleText.unindented command.now))
        (RuleText.unindented command.now) }
{
    let text = unindented(command);
    &text[..word_len(text)]
}

/// Whether a command is one that udev has built in.
pub fn is_builtin(command: &[u8]) -> bool
    ensures { result ≡ RuleTokens.is_builtin command.now }
{
    let text = unindented(command);
    let word = &text[..word_len(text)];
    begins_early(word) || begins_late(word) || begins_new(word)
}

fn is_level_name(text: &[u8]) -> bool
    ensures { result ≡ RuleTokens.is_level_name text.now }
{
    is_same(text, b"reset")
        || is_same(text, b"emerg")
        || is_same(text, b"alert")
        || is_same(text, b"crit")
        || is_same(text, b"err")
}

fn is_low_level_name(text: &[u8]) -> bool
    ensures { result ≡ RuleTokens.is_low_level_name text.now }
{
    is_same(text, b"warning")
        || is_same(text, b"notice")
        || is_same(text, b"info")
        || is_same(text, b"debug")
}

/// Whether a text is one digit from 0 to 7.
fn is_level_digit(text: &[u8]) -> bool
    ensures { result ≡ RuleTokens.is_level_digit text.now }
{
    if text.len() != 1 {
        return false;
    }
    b'0' <= text[0] && text[0] <= b'7'
}

/// Whether messages may have this level.
fn is_level(text: &[u8]) -> bool
    ensures { result ≡ RuleTokens.is_level text.now }
{
    is_level_name(text) || is_low_level_name(text) || is_level_digit(text)
}

fn is_digit(byte: u8) -> bool
    ensures { result ≡ RuleTokens.is_digit byte }
{
    matches!(byte, b'0'..=b'9')
}

/// How many digits a text begins with.
fn digits_len(text: &[u8]) -> usize
    ensures value { result ≡ RuleTokens.digits_len text.now }
    ensures within { result ≤ length text.now }
{
    let mut at = 0;
    while at < text.len() && is_digit(text[at]) {
        at += 1;
    }
    at
}

/// One to nine digits.
fn is_count(text: &[u8]) -> bool
    ensures { result ≡ RuleTokens.is_count text.now }
{
    if digits_len(text) != text.len() {
        return false;
    }
    !text.is_empty() && text.len() <= 9
}

/// Whether a link may have this priority.
fn is_priority(text: &[u8]) -> bool
    ensures { result ≡ RuleTokens.is_priority text.now }
{
    if text.starts_with(b"-") {
        return is_count(&text[1..]);
    }
    if text.starts_with(b"+") {
        return is_count(&text[1..]);
    }
    is_count(text)
}

/// What is wrong with an option.
fn option_fault(value: &[u8]) -> Option<FindingKind>
    ensures { result ≡ RuleTokens.option_fault value.now }
{
    if value.starts_with(b"link_priority=") {
        if is_priority(&value[14..]) {
            return None;
        }
        return Some(FindingKind::WrongOption);
    }
    if value.starts_with(b"log_level=") {
        if is_level(&value[10..]) {
            return None;
        }
        return Some(FindingKind::WrongOption);
    }
    None
}

/// The type of an option; None if it isn't known.
fn option_kind(value: &[u8]) -> Option<TokenKind>
    ensures { result ≡ RuleTokens.option_kind value.now }
{
    if is_same(value, b"string_escape=none") {
        return Some(TokenKind::EscapeNone);
    }
    if is_same(value, b"string_escape=replace") {
        return Some(TokenKind::EscapeReplace);
    }
    if is_same(value, b"db_persist") {
        return Some(TokenKind::DbPersist);
    }
    if is_same(value, b"watch") {
        return Some(TokenKind::Watch);
    }
    if is_same(value, b"nowatch") {
        return Some(TokenKind::Watch);
    }
    if value.starts_with(b"static_node=") {
        return Some(TokenKind::StaticNode);
    }
    if value.starts_with(b"link_priority=") {
        return Some(TokenKind::LinkPriority);
    }
    if value.starts_with(b"log_level=") {
        return Some(TokenKind::LogLevel);
    }
    None
}

/// Whether an attribute is this word.
fn is_word(attribute: Option<&[u8]>, word: &[u8]) -> bool
    ensures { result ≡ RuleTokens.is_word (attribute_of attribute.entry) word.now }
{
    match attribute {
        None => false,
        Some(text) => is_same(text, word),
    }
}

/// The type of an IMPORT.
fn import_kind(attribute: Option<&[u8]>, value: &[u8]) -> TokenKind
    ensures { result ≡ RuleTokens.import_kind (attribute_of attribute.entry) value.now }
{
    if is_word(attribute, b"file") {
        return TokenKind::ImportFile;
    }
    if is_word(attribute, b"db") {
        return TokenKind::ImportDb;
    }
    if is_word(attribute, b"cmdline") {
        return TokenKind::ImportCmdline;
    }
    if is_word(attribute, b"parent") {
        return TokenKind::ImportParent;
    }
    if is_builtin(value) {
        return TokenKind::ImportBuiltin;
    }
    TokenKind::ImportProgram
}

/// The type of a token that is compared.
fn match_kind(key: Key) -> TokenKind
    ensures { result ≡ RuleTokens.match_kind key }
{
    match key {
        Key::Action => TokenKind::MatchAction,
        Key::Devpath => TokenKind::MatchDevpath,
        Key::Kernel => TokenKind::MatchKernel,
        Key::Symlink => TokenKind::MatchDevlink,
        Key::Name => TokenKind::MatchName,
        Key::Env => TokenKind::MatchEnv,
        Key::Const => TokenKind::MatchConst,
        Key::Tag => TokenKind::MatchTag,
        Key::Subsystem => TokenKind::MatchSubsystem,
        Key::Driver => TokenKind::MatchDriver,
        Key::Attr => TokenKind::MatchAttr,
        Key::Sysctl => TokenKind::MatchSysctl,
        Key::Kernels => TokenKind::ParentsKernel,
        Key::Subsystems => TokenKind::ParentsSubsystem,
        Key::Drivers => TokenKind::ParentsDriver,
        Key::Attrs => TokenKind::ParentsAttr,
        Key::Tags => TokenKind::ParentsTag,
        Key::Test => TokenKind::MatchTest,
        Key::ProgramResult => TokenKind::MatchResult,
        _ => TokenKind::MatchProgram,
    }
}

/// The type of a token that sets something.
fn set_kind(key: Key) -> TokenKind
    ensures { result ≡ RuleTokens.set_kind key }
{
    match key {
        Key::Symlink => TokenKind::Devlink,
        Key::Name => TokenKind::Name,
        Key::Env => TokenKind::Env,
        Key::Tag => TokenKind::Tag,
        Key::Attr => TokenKind::Attr,
        Key::Sysctl => TokenKind::Sysctl,
        Key::Owner => TokenKind::Owner,
        Key::Group => TokenKind::Group,
        Key::Mode => TokenKind::Mode,
        Key::Seclabel => TokenKind::Seclabel,
        Key::Program => TokenKind::MatchProgram,
        _ => TokenKind::RunProgram,
    }
}

/// The type of a token; None if it is an option that isn't known.
fn kind_of(
    key: Key,
    attribute: Option<&[u8]>,
    operator: Operator,
    value: &[u8],
) -> Option<TokenKind>
    ensures { result
        ≡ RuleTokens.kind_of key (attribute_of attribute.entry) operator value.now }
{
    match key {
        Key::Options => option_kind(value),
        Key::Import => Some(import_kind(attribute, value)),
        Key::Run => {
            if is_word(attribute, b"builtin") {
                Some(TokenKind::RunBuiltin)
            } else {
                Some(TokenKind::RunProgram)
            }
        }
        _ => {
            if compares(operator) {
                Some(match_kind(key))
            } else {
                Some(set_kind(key))
            }
        }
    }
}

/// What is wrong with a property that is set.
fn env_fault(attribute: Option<&[u8]>, operator: Operator) -> Option<FindingKind>
    ensures { result ≡ RuleTokens.env_fault (attribute_of attribute.entry) operator }
{
    if compares(operator) {
        return None;
    }
    match attribute {
        None => None,
        Some(name) => {
            if is_fixed(name) {
                Some(FindingKind::FixedProperty)
            } else {
                None
            }
        }
    }
}

/// What is wrong with the name of a network interface.
fn name_fault(operator: Operator, value: &[u8]) -> Option<FindingKind>
    ensures { result ≡ RuleTokens.name_fault operator value.now }
{
    if compares(operator) {
        return None;
    }
    if value.is_empty() {
        return Some(FindingKind::IdleName);
    }
    if is_same(value, b"%k") {
        return Some(FindingKind::IdleName);
    }
    None
}

/// What is wrong with a builtin.
fn builtin_fault(attribute: Option<&[u8]>, value: &[u8]) -> Option<FindingKind>
    ensures { result ≡ RuleTokens.builtin_fault (attribute_of attribute.entry) value.now }
{
    if !is_word(attribute, b"builtin") {
        return None;
    }
    if is_builtin(value) {
        return None;
    }
    Some(FindingKind::UnknownBuiltin)
}

/// What is wrong with the value of a pair.
fn value_fault(
    key: Key,
    attribute: Option<&[u8]>,
    operator: Operator,
    value: &[u8],
) -> Option<FindingKind>
    ensures { result
        ≡ RuleTokens.value_fault key (attribute_of attribute.entry) operator value.now }
{
    match key {
        Key::Env => env_fault(attribute, operator),
        Key::Name => name_fault(operator, value),
        Key::Import | Key::Run => builtin_fault(attribute, value),
        Key::Options => option_fault(value),
        _ => None,
    }
}

/// What is in braces, or nothing.
fn attribute_text(alloc: Global, attribute: Option<&[u8]>) -> Result<Vec<u8>, AllocError>
    ensures { IfOk result (λ text. text.items
        ≡ RuleTokens.attribute_text (attribute_of attribute.entry)) }
{
    match attribute {
        None => Ok(Vec::new(alloc)),
        Some(text) => Ok(Vec::from_slice(alloc, text)?),
    }
}

/// The token of a pair with this key, of which nothing is wrong.
fn token_for(alloc: Global, key: Key, pair: Pair<'_>) -> Result<Verdict, AllocError>
    ensures { IfOk result (λ v. verdict_of v ≡ RuleTokens.token_for key (read_of pair.entry)) }
{
    let Some(kind) = kind_of(key, pair.attribute, pair.operator, &pair.value) else {
        return Ok(Verdict::Ignored(FindingKind::UnknownOption));
    };
    let attribute = attribute_text(alloc, pair.attribute)?;
    let token = Token {
        kind,
        attribute,
        operator: operator_for(key, pair.operator),
        folds: pair.folds,
        value: pair.value,
    };
    if is_taken_as_set(key, pair.operator) {
        return Ok(Verdict::TakenAsSet(token));
    }
    Ok(Verdict::Taken(token))
}

/// What a pair with this key says, of which nothing is wrong.
fn accepted(alloc: Global, key: Key, pair: Pair<'_>) -> Result<Verdict, AllocError>
    ensures { IfOk result (λ v. verdict_of v ≡ RuleTokens.accepted key (read_of pair.entry)) }
{
    match key {
        Key::Goto => Ok(Verdict::Goto(pair.value)),
        Key::Label => Ok(Verdict::Label(pair.value)),
        _ => token_for(alloc, key, pair),
    }
}

/// What a pair says.
pub fn judge(alloc: Global, pair: Pair<'_>) -> Result<Verdict, AllocError>
    ensures { IfOk result (λ v. verdict_of v ≡ RuleTokens.judge (read_of pair.entry)) }
{
    let Some(key) = key_of(pair.key) else {
        return Ok(Verdict::Refused(FindingKind::UnknownKey));
    };
    if let Some(kind) = form_fault(key, pair.attribute, pair.operator, pair.folds) {
        return Ok(Verdict::Refused(kind));
    }
    if let Some(kind) = value_fault(key, pair.attribute, pair.operator, &pair.value) {
        return Ok(Verdict::Refused(kind));
    }
    accepted(alloc, key, pair)
}
