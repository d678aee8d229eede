//! What is known of a token that is run.
ghost use Rattle.std.specs.Prelude.{◌≡◌, ◌≤◌, ◌∷◌, [], length, take, map, not, nat_le, if◌then◌else◌, IfOk, List, Option};
ghost use Rattle.std.specs.List.{list_any, position_or_len};
ghost use Rattle.std.specs.Str.{bytes_eq};
ghost use Rattle.hwdb_rulefiles.specs.RuleTokens;
ghost use Rattle.hwdb_rulerun.specs.Matching;
ghost use Rattle.hwdb_rulefiles.specs.PairViews.{value_view};
ghost use Rattle.hwdb_rulefiles.specs.TokenViews.{token_of};
ghost use Rattle.hwdb_rulerun.specs.Views.{known_of};
ghost use Rattle.hwdb_ruleevents.specs.ChangeViews.{held_of, value_of};
ghost use Rattle.hwdb_ruleevents.specs.ParentViews.{chosen_of};
ghost use Rattle.hwdb_ruleevents.specs.Effects;
ghost use Rattle.hwdb_ruleevents.specs.EffectViews.{effect_view, knowledge_of};

use crate::changes::{Held, Value, put_all, value_for};
use crate::parents::Parent;
use hwdb_rulefiles::{Operator, Token, TokenKind};
use hwdb_rulerun::{Entry, Known, Sight, has_byte, is_wild};
use std::alloc::{AllocError, Global};

/// What is known of a device and of others.
#[derive(Clone, Copy, Debug)]
pub struct Facts<'a> {
    /// Of the device; its properties aren't looked at.
    pub sight: Sight<'a>,
    /// Of the parent that a line before these chose.
    pub parent: Parent<'a>,
    /// Of attributes of other devices, by the texts in braces that name them, as `[dmi/id]modalias`.
    pub others: &'a [Entry<'a>],
}

/// What is known of a device, of others, and of commands.
#[derive(Drop)]
pub struct Knowledge<'a, C: Commands> {
    /// Of the device and of others.
    pub facts: Facts<'a>,
    /// Of commands.
    pub commands: &'a C,
}

impl<'a, C: Commands> Knowledge<'a, C> {
    /// The same, after a line chose this parent.
    pub fn with_parent(&self, parent: Parent<'a>) -> Knowledge<'a, C>
        ensures { knowledge_of (C.known result.commands.now) result.facts ≡ Effects.with_chosen
            (knowledge_of (C.known self.now.commands.now) self.now.facts)
            (chosen_of parent.entry) }
    {
        Knowledge {
            facts: Facts {
                sight: self.facts.sight,
                parent,
                others: self.facts.others,
            },
            commands: self.commands,
        }
    }
}

/// Whether a token that is run succeeds, and what it changes.
#[derive(Drop)]
pub struct Effect {
    /// Whether it succeeds.
    pub succeeds: Option<bool>,
    /// What it changes.
    pub changes: Vec<Held>,
}

/// What is known of what builtins and programs do.
pub trait Commands {
    /// What is known.
    ghost known: { Self → Effects.Commands };

    /// The effect of a token that runs a command: of its text, if that is known, and of what is known of properties before it.
    ///
    /// # Errors
    ///
    /// `AllocError` at any allocation that fails.
    fn effect(
        &self,
        alloc: Global,
        token: &Token,
        text: &Option<Vec<u8>>,
        changes: &[Held],
    ) -> Result<Effect, AllocError>
        ensures { IfOk result (λ e. effect_view e ≡ known self.now (token_of token.now)
            (value_view text.now) (map held_of changes.now)) };
}

/// The names that begin so may be set.
fn opens(alloc: Global, start: &[u8]) -> Result<Effect, AllocError>
    ensures { IfOk result (λ e. effect_view e ≡ Effects.opens start.now) }
{
    let mut changes = Vec::new(alloc);
    changes.push(Held::Open(Vec::from_slice(alloc, start)?))?;
    Ok(Effect {
        succeeds: None,
        changes,
    })
}

/// Nothing is known.
fn anything(alloc: Global) -> Result<Effect, AllocError>
    ensures { IfOk result (λ e. effect_view e ≡ Effects.anything) }
{
    opens(alloc, b"")
}

/// Nothing changes.
fn nothing(alloc: Global) -> Effect
    ensures { effect_view result ≡ Effects.nothing }
{
    Effect {
        succeeds: None,
        changes: Vec::new(alloc),
    }
}

/// How long the part of a pattern is before its first *, ? or [.
fn front_len(pattern: &[u8]) -> usize
    ensures value { result ≡ position_or_len Matching.is_wild pattern.now }
    ensures within { result ≤ length pattern.now }
{
    let mut at = 0;
    while at < pattern.len() && !is_wild(pattern[at]) {
        at += 1;
    }
    at
}

fn front(pattern: &[u8]) -> &[u8]
    ensures { result.now ≡ Effects.front pattern.now }
{
    &pattern[..front_len(pattern)]
}

/// The effect of an import that runs nothing.
fn import_of(alloc: Global, kind: TokenKind, text: &[u8]) -> Result<Effect, AllocError>
    ensures { IfOk result (λ e. effect_view e ≡ Effects.import_of kind text.now) }
{
    match kind {
        TokenKind::ImportDb => opens(alloc, text),
        TokenKind::ImportCmdline => opens(alloc, text),
        TokenKind::ImportParent => opens(alloc, front(text)),
        _ => anything(alloc),
    }
}

/// The same, if its text is known.
fn import_told(alloc: Global, kind: TokenKind, text: &Option<Vec<u8>>) -> Result<Effect, AllocError>
    ensures { IfOk result (λ e. effect_view e
        ≡ Effects.import_told kind (value_view text.now)) }
{
    match text {
        None => anything(alloc),
        Some(text) => import_of(alloc, kind, text),
    }
}

fn imports(kind: TokenKind) -> bool
    ensures { result ≡ Effects.imports kind }
{
    match kind {
        TokenKind::ImportDb
        | TokenKind::ImportCmdline
        | TokenKind::ImportParent
        | TokenKind::ImportFile => true,
        _ => false,
    }
}

/// Whether a token runs a command.
fn is_command(kind: TokenKind) -> bool
    ensures { result ≡ Effects.is_command kind }
{
    match kind {
        TokenKind::ImportBuiltin => true,
        TokenKind::ImportProgram => true,
        _ => false,
    }
}

/// A command whose text isn't known may not be run.
fn by_text(alloc: Global, text: &Option<Vec<u8>>, effect: Effect) -> Result<Effect, AllocError>
    ensures { IfOk result (λ e. effect_view e
        ≡ Effects.by_text (value_view text.now) (effect_view effect)) }
{
    match text {
        Some(_) => Ok(effect),
        None => {
            let mut changes = Vec::new(alloc);
            put_all(alloc, &mut changes, false, effect.changes)?;
            Ok(Effect {
                succeeds: None,
                changes,
            })
        }
    }
}

/// The effect of any other token: udev's own records change.
fn plain_of(alloc: Global, kind: TokenKind) -> Result<Effect, AllocError>
    ensures { IfOk result (λ e. effect_view e ≡ Effects.plain_of kind) }
{
    match kind {
        TokenKind::Tag => {
            let mut effect = opens(alloc, b"TAGS")?;
            let current = Vec::from_slice(alloc, b"CURRENT_TAGS")?;
            effect.changes.push(Held::Open(current))?;
            Ok(effect)
        }
        TokenKind::Devlink => opens(alloc, b"DEVLINKS"),
        _ => Ok(nothing(alloc)),
    }
}

/// The effect of a token that runs no command, and sets no property by ENV.
fn other_effect(
    alloc: Global,
    kind: TokenKind,
    text: &Option<Vec<u8>>,
) -> Result<Effect, AllocError>
    ensures { IfOk result (λ e. effect_view e
        ≡ Effects.other_effect kind (value_view text.now)) }
{
    if imports(kind) {
        return import_told(alloc, kind, text);
    }
    plain_of(alloc, kind)
}

/// The effect of a token that sets no property by ENV, by its text, if that is known.
pub fn effect_of<C: Commands>(
    alloc: Global,
    commands: &C,
    changes: &[Held],
    token: &Token,
    text: &Option<Vec<u8>>,
) -> Result<Effect, AllocError>
    ensures { IfOk result (λ e. effect_view e ≡ if Effects.is_command token.now.kind
        then Effects.by_text (value_view text.now) (C.known commands.now (token_of token.now)
        (value_view text.now) (map held_of changes.now))
        else Effects.other_effect token.now.kind (value_view text.now)) }
{
    if is_command(token.kind) {
        let effect = commands.effect(alloc, token, text, changes)?;
        return by_text(alloc, text, effect);
    }
    other_effect(alloc, token.kind, text)
}

pub fn is_env(kind: TokenKind) -> bool
    ensures { result ≡ Effects.is_env kind }
{
    match kind {
        TokenKind::Env => true,
        _ => false,
    }
}

fn is_add(operator: Operator) -> bool
    ensures { result ≡ Effects.is_add operator }
{
    match operator {
        Operator::Add => true,
        _ => false,
    }
}

fn is_letter(byte: u8) -> bool
    ensures { result ≡ Effects.is_letter byte }
{
    matches!(byte, b'a'..=b'z' | b'A'..=b'Z')
}

pub fn is_digit(byte: u8) -> bool
    ensures { result ≡ RuleTokens.is_digit byte }
{
    matches!(byte, b'0'..=b'9')
}

/// What `string_escape=replace` leaves as it is.
fn stays(byte: u8) -> bool
    ensures { result ≡ Effects.stays byte }
{
    if is_letter(byte) {
        return true;
    }
    if is_digit(byte) {
        return true;
    }
    has_byte(byte, b"#+-.:=@_")
}

fn all_stay(text: &[u8]) -> bool
    ensures { result ≡ Effects.all_stay text.now }
{
    for byte in text {
        if !stays(*byte) {
            return false;
        }
    }
    true
}

/// Whether each release takes a byte in a property's name.
fn is_name_byte(byte: u8) -> bool
    ensures { result ≡ Effects.is_name_byte byte }
{
    if is_letter(byte) {
        return true;
    }
    if is_digit(byte) {
        return true;
    }
    has_byte(byte, b"_.")
}

/// Whether each release takes a property's name.
pub fn is_name(name: &[u8]) -> bool
    ensures { result ≡ Effects.is_name name.now }
{
    for byte in name {
        if !is_name_byte(*byte) {
            return false;
        }
    }
    true
}

/// What is known of a property that is set, by its name.
pub fn known_as(name: &[u8], value: Value) -> Value
    ensures { value_of result ≡ Effects.known_as name.now (value_of value) }
{
    if is_name(name) { value } else { Value::Unknown }
}

/// Whether a text is set as it is.
fn is_set_as_is(text: &[u8]) -> bool
    ensures { result ≡ Effects.is_set_as_is text.now }
{
    if text.len() <= 511 {
        all_stay(text)
    } else {
        false
    }
}

/// What is known of a text that is set.
fn kept(alloc: Global, text: &[u8]) -> Result<Value, AllocError>
    ensures { IfOk result (λ v. value_of v ≡ Effects.kept (Effects.some_text text.now)) }
{
    if text.is_empty() {
        return Ok(Value::Missing);
    }
    if !is_set_as_is(text) {
        return Ok(Value::Unknown);
    }
    Ok(Value::Text(Vec::from_slice(alloc, text)?))
}

/// What is known of a text that comes after another one and a blank.
fn added_told(alloc: Global, old: Known<'_>, text: &[u8]) -> Result<Value, AllocError>
    ensures { IfOk result (λ v. value_of v ≡ Effects.added_told (known_of old.entry) text.now) }
{
    match old {
        Known::Missing => kept(alloc, text),
        _ => Ok(Value::Unknown),
    }
}

fn set_told(
    alloc: Global,
    operator: Operator,
    text: &Option<Vec<u8>>,
    old: Known<'_>,
) -> Result<Value, AllocError>
    ensures { IfOk result (λ v. value_of v
        ≡ Effects.set_told operator (value_view text.now) (known_of old.entry)) }
{
    match text {
        None => Ok(Value::Unknown),
        Some(text) => {
            if is_add(operator) {
                added_told(alloc, old, text.as_slice())
            } else {
                kept(alloc, text.as_slice())
            }
        }
    }
}

/// What is known of what ENV makes of a property, by its value and the text of that.
pub fn assigned_told(
    alloc: Global,
    operator: Operator,
    value: &[u8],
    text: &Option<Vec<u8>>,
    old: Known<'_>,
) -> Result<Value, AllocError>
    ensures { IfOk result (λ v. value_of v
        ≡ Effects.assigned_told operator value.now (value_view text.now) (known_of old.entry)) }
{
    if !value.is_empty() {
        return set_told(alloc, operator, text, old);
    }
    if is_add(operator) {
        value_for(alloc, old)
    } else {
        Ok(Value::Missing)
    }
}
