//! Which conditions of a line hold, as far as it is known.
ghost use Rattle.std.specs.Prelude.{◌≡◌, ◌<◌, ◌≤◌, ◌+◌, ◌^◌, length, map, take, IfOk};
ghost use Rattle.std.specs.List.{list_any};
ghost use Rattle.hwdb_spec.specs.Lines;
ghost use Rattle.hwdb_rulefiles.specs.RuleText;
ghost use Rattle.hwdb_rulefiles.specs.TokenViews.{token_of};
ghost use Rattle.hwdb_rulerun.specs.Conditions;
ghost use Rattle.hwdb_rulerun.specs.Telling;
ghost use Rattle.hwdb_rulerun.specs.Views.{known_of, seen_of, sight_of};

use crate::matching::{begins_with, has_byte, is_same, told_fit};
use crate::sights::{Known, Seen, Sight, attribute_of, property_of};
use hwdb_rulefiles::{Operator, Token, TokenKind};
use std::alloc::{AllocError, Global};

/// How many bytes udev takes of an attribute.
pub const ATTRIBUTE_SIZE: usize = 511;

/// Both, if a no decides.
pub fn and_then(one: Option<bool>, other: Option<bool>) -> Option<bool>
    ensures { result ≡ Telling.and_then one other }
{
    match one {
        Some(true) => other,
        Some(false) => Some(false),
        None => match other {
            Some(false) => Some(false),
            _ => None,
        },
    }
}

/// One of both, if a yes decides.
fn or_then(one: Option<bool>, other: Option<bool>) -> Option<bool>
    ensures { result ≡ Telling.or_then one other }
{
    match one {
        Some(true) => Some(true),
        Some(false) => other,
        None => match other {
            Some(true) => Some(true),
            _ => None,
        },
    }
}

/// What a token makes of a comparison.
fn by_operator(operator: Operator, fits: bool) -> bool
    ensures { result ≡ Conditions.by_operator operator fits }
{
    match operator {
        Operator::NoMatch => !fits,
        _ => fits,
    }
}

/// What a token makes of what is told of a comparison.
pub fn by_operator_told(operator: Operator, fits: Option<bool>) -> Option<bool>
    ensures { result ≡ Telling.by_operator_told operator fits }
{
    match fits {
        None => None,
        Some(fits) => Some(by_operator(operator, fits)),
    }
}

/// A text is compared with a token's value. The only error, here and below, is `AllocError`.
fn compared(alloc: Global, token: &Token, text: &[u8]) -> Result<Option<bool>, AllocError>
    ensures { IfOk result (λ told. told ≡ Telling.compared (token_of token.now) text.now) }
{
    let fits = told_fit(alloc, token.folds, &token.value, text)?;
    Ok(by_operator_told(token.operator, fits))
}

/// What is known of a text is compared.
fn known_compared(
    alloc: Global,
    token: &Token,
    known: Known<'_>,
) -> Result<Option<bool>, AllocError>
    ensures { IfOk result (λ told. told
        ≡ Telling.known_compared (token_of token.now) (known_of known.entry)) }
{
    match known {
        Known::Unknown => Ok(None),
        Known::Missing => compared(alloc, token, b""),
        Known::Text(text) => compared(alloc, token, text),
    }
}

/// Whether a text is one of the three names of all subsystems.
fn is_any_subsystem(text: &[u8]) -> bool
    ensures { result ≡ Conditions.is_any_subsystem text.now }
{
    is_same(text, b"subsystem") || is_same(text, b"bus") || is_same(text, b"class")
}

/// A subsystem is compared.
fn subsystem_compared(alloc: Global, token: &Token, text: &[u8]) -> Result<Option<bool>, AllocError>
    ensures { IfOk result (λ told. told
        ≡ Telling.subsystem_compared (token_of token.now) text.now) }
{
    if is_any_subsystem(&token.value) {
        return Ok(Some(by_operator(token.operator, is_any_subsystem(text))));
    }
    compared(alloc, token, text)
}

/// What is known of a subsystem is compared.
fn known_subsystem(
    alloc: Global,
    token: &Token,
    known: Known<'_>,
) -> Result<Option<bool>, AllocError>
    ensures { IfOk result (λ told. told
        ≡ Telling.known_subsystem (token_of token.now) (known_of known.entry)) }
{
    match known {
        Known::Unknown => Ok(None),
        Known::Missing => subsystem_compared(alloc, token, b""),
        Known::Text(text) => subsystem_compared(alloc, token, text),
    }
}

/// Space, tab, newline and carriage return.
fn is_white(byte: u8) -> bool
    ensures { result ≡ RuleText.is_white byte }
{
    matches!(byte, b' ' | b'\t' | b'\n' | b'\r')
}

/// How long a text is without the blanks at its end, of which the rest after its first byte has this length.
fn kept_more(byte: u8, rest: usize) -> usize
    requires { rest < 2 ^ 63 }
    ensures value { result ≡ Conditions.kept_more byte rest }
    ensures within { result ≤ rest + 1 }
{
    if rest == 0 {
        return if is_white(byte) { 0 } else { 1 };
    }
    rest + 1
}

/// How long a text is without the blanks at its end.
fn kept_len(text: &[u8]) -> usize
    ensures value { result ≡ Conditions.kept_len text.now }
    ensures within { result ≤ length text.now }
{
    let mut at = text.len();
    let mut len = 0;
    while at > 0 {
        at -= 1;
        len = kept_more(text[at], len);
    }
    len
}

/// Bytes 9 to 13 and 32.
fn is_blank(byte: u8) -> bool
    ensures { result ≡ Lines.is_blank byte }
{
    matches!(byte, 9..=13 | 32)
}

/// Whether a value ends in no blank.
fn ends_full(value: &[u8]) -> bool
    ensures { result ≡ Conditions.ends_full value.now }
{
    if value.is_empty() {
        return false;
    }
    !is_blank(value[value.len() - 1])
}

/// A text without the blanks at its end, if the value has none there.
fn trimmed<'b>(value: &[u8], text: &'b [u8]) -> &'b [u8]
    ensures { result.now ≡ Conditions.trimmed value.now text.now }
{
    if ends_full(value) {
        return &text[..kept_len(text)];
    }
    text
}

/// What is known of an attribute is compared.
fn attribute_compared(
    alloc: Global,
    token: &Token,
    known: Known<'_>,
) -> Result<Option<bool>, AllocError>
    ensures { IfOk result (λ told. told
        ≡ Telling.attribute_compared (token_of token.now) (known_of known.entry)) }
{
    match known {
        Known::Unknown => Ok(None),
        Known::Missing => Ok(Some(false)),
        Known::Text(text) => {
            if text.len() > ATTRIBUTE_SIZE {
                return Ok(None);
            }
            compared(alloc, token, trimmed(&token.value, text))
        }
    }
}

/// Whether an attribute is named as it is.
pub fn is_plain(name: &[u8]) -> bool
    ensures { result ≡ Conditions.is_plain name.now }
{
    if begins_with(b'[', name) {
        return false;
    }
    !has_byte(b'$', name) && !has_byte(b'%', name)
}

/// What is told of an attribute of a device.
fn attribute_told(alloc: Global, token: &Token, seen: &Seen<'_>) -> Result<Option<bool>, AllocError>
    ensures { IfOk result (λ told. told
        ≡ Telling.attribute_told (token_of token.now) (seen_of seen.now)) }
{
    if !is_plain(&token.attribute) {
        return Ok(None);
    }
    attribute_compared(alloc, token, attribute_of(seen, &token.attribute))
}

/// What is told of a token and a device.
fn told_of(alloc: Global, token: &Token, seen: &Seen<'_>) -> Result<Option<bool>, AllocError>
    ensures { IfOk result (λ told. told
        ≡ Telling.told_of (token_of token.now) (seen_of seen.now) token.now.kind) }
{
    match token.kind {
        TokenKind::MatchKernel | TokenKind::ParentsKernel => compared(alloc, token, seen.name),
        TokenKind::MatchSubsystem => known_subsystem(alloc, token, seen.subsystem),
        TokenKind::ParentsSubsystem => known_compared(alloc, token, seen.subsystem),
        TokenKind::MatchDriver | TokenKind::ParentsDriver => {
            known_compared(alloc, token, seen.driver)
        }
        TokenKind::MatchAttr | TokenKind::ParentsAttr => attribute_told(alloc, token, seen),
        _ => Ok(None),
    }
}

/// What is told of a token that isn't about parents.
pub fn told(alloc: Global, sight: &Sight<'_>, token: &Token) -> Result<Option<bool>, AllocError>
    ensures { IfOk result (λ told. told
        ≡ Telling.told (sight_of sight.now) (token_of token.now) token.now.kind) }
{
    match token.kind {
        TokenKind::MatchAction => compared(alloc, token, sight.action),
        TokenKind::MatchDevpath => compared(alloc, token, sight.path),
        TokenKind::MatchEnv => known_compared(alloc, token, property_of(sight, &token.attribute)),
        _ => told_of(alloc, token, &sight.own),
    }
}

/// Conditions that are about parents.
pub fn is_parents(kind: TokenKind) -> bool
    ensures { result ≡ Conditions.is_parents kind }
{
    match kind {
        TokenKind::ParentsKernel
        | TokenKind::ParentsSubsystem
        | TokenKind::ParentsDriver
        | TokenKind::ParentsAttr
        | TokenKind::ParentsTag => true,
        _ => false,
    }
}

/// Conditions that aren't, and that come before anything is run.
pub fn is_own(kind: TokenKind) -> bool
    ensures { result ≡ Conditions.is_own kind }
{
    match kind {
        TokenKind::MatchAction
        | TokenKind::MatchDevpath
        | TokenKind::MatchKernel
        | TokenKind::MatchDevlink
        | TokenKind::MatchName
        | TokenKind::MatchEnv
        | TokenKind::MatchConst
        | TokenKind::MatchTag
        | TokenKind::MatchSubsystem
        | TokenKind::MatchDriver
        | TokenKind::MatchAttr
        | TokenKind::MatchSysctl
        | TokenKind::MatchTest => true,
        _ => false,
    }
}

/// A condition that isn't about parents, and what is told of the others.
fn own_and(
    alloc: Global,
    sight: &Sight<'_>,
    token: &Token,
    others: Option<bool>,
) -> Result<Option<bool>, AllocError>
    ensures { IfOk result (λ all. all
        ≡ Telling.own_and (sight_of sight.now) (token_of token.now) others) }
{
    if !is_own(token.kind) {
        return Ok(others);
    }
    let told = told(alloc, sight, token)?;
    Ok(and_then(told, others))
}

/// What is told of all conditions that aren't about parents, from the last one to the first.
fn all_own(alloc: Global, sight: &Sight<'_>, tokens: &[Token]) -> Result<Option<bool>, AllocError>
    ensures { IfOk result (λ told. told
        ≡ Telling.all_own (sight_of sight.now) (map token_of tokens.now)) }
{
    let mut all = Some(true);
    let mut at = tokens.len();
    while at > 0 {
        at -= 1;
        let token = &tokens[at];
        all = own_and(alloc, sight, token, all)?;
    }
    Ok(all)
}

/// A condition about parents, and what is told of the others.
fn parent_and(
    alloc: Global,
    seen: &Seen<'_>,
    token: &Token,
    others: Option<bool>,
) -> Result<Option<bool>, AllocError>
    ensures { IfOk result (λ all. all
        ≡ Telling.parent_and (seen_of seen.now) (token_of token.now) others) }
{
    if !is_parents(token.kind) {
        return Ok(others);
    }
    let told = told_of(alloc, token, seen)?;
    Ok(and_then(told, others))
}

/// What is told of all conditions about parents and one device.
pub fn all_of(alloc: Global, seen: &Seen<'_>, tokens: &[Token]) -> Result<Option<bool>, AllocError>
    ensures { IfOk result (λ told. told
        ≡ Telling.all_of (seen_of seen.now) (map token_of tokens.now)) }
{
    let mut all = Some(true);
    let mut at = tokens.len();
    while at > 0 {
        at -= 1;
        let token = &tokens[at];
        all = parent_and(alloc, seen, token, all)?;
    }
    Ok(all)
}

/// What is told of them and some devices, and of others before these.
fn some_from(
    alloc: Global,
    before: Option<bool>,
    tokens: &[Token],
    devices: &[Seen<'_>],
) -> Result<Option<bool>, AllocError>
    ensures { IfOk result (λ told. told
        ≡ Telling.some_from before (map token_of tokens.now) (map seen_of devices.now)) }
{
    let mut some = before;
    for seen in devices {
        let all = all_of(alloc, seen, tokens)?;
        some = or_then(some, all);
    }
    Ok(some)
}

/// What is told of them and the device or its parents.
fn some_parent(
    alloc: Global,
    sight: &Sight<'_>,
    tokens: &[Token],
) -> Result<Option<bool>, AllocError>
    ensures { IfOk result (λ told. told
        ≡ Telling.some_parent (sight_of sight.now) (map token_of tokens.now)) }
{
    let own = all_of(alloc, &sight.own, tokens)?;
    some_from(alloc, own, tokens, sight.parents)
}

pub fn has_parents(tokens: &[Token]) -> bool
    ensures { result ≡ Conditions.has_parents (map token_of tokens.now) }
{
    for token in tokens {
        if is_parents(token.kind) {
            return true;
        }
    }
    false
}

/// What is told of a line's conditions, before it runs anything: yes, no, or nothing.
///
/// # Errors
///
/// `AllocError` at any allocation that fails.
pub fn line_told(
    alloc: Global,
    sight: &Sight<'_>,
    tokens: &[Token],
) -> Result<Option<bool>, AllocError>
    ensures { IfOk result (λ told. told
        ≡ Telling.line_told (sight_of sight.now) (map token_of tokens.now)) }
{
    let own = all_own(alloc, sight, tokens)?;
    if !has_parents(tokens) {
        return Ok(and_then(own, Some(true)));
    }
    let parents = some_parent(alloc, sight, tokens)?;
    Ok(and_then(own, parents))
}
