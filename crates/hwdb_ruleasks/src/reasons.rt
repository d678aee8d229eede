//! What is said of why lines ask, may ask, or don't.
ghost use Rattle.std.specs.Prelude.{◌≡◌, ◌++◌, codes, drop, map, IfOk, OnOk};
ghost use Rattle.hwdb_rulefiles.specs.TokenViews.{token_of};
ghost use Rattle.hwdb_rulefiles.specs.Views.{text_of};
ghost use Rattle.hwdb_rulerun.specs.CauseViews.{token_in};
ghost use Rattle.hwdb_ruleevents.specs.ReasonViews.{cause_of, reason_of};
ghost use Rattle.hwdb_ruleevents.specs.Events.{turn};
ghost use Rattle.hwdb_ruleevents.specs.Reasons.{By};
ghost use Rattle.hwdb_spec_rules.specs.RuleReasons;

use hwdb_ruleevents::{Cause, Reason};
use hwdb_rulefiles::{Operator, Token, TokenKind};
use hwdb_rulerun::is_parents;
use hwdb_show::push_name;
use std::alloc::{AllocError, Global};

/// Whether a token imports properties.
fn imports(kind: TokenKind) -> bool
    ensures { result ≡ RuleReasons.imports kind }
{
    match kind {
        TokenKind::ImportFile
        | TokenKind::ImportProgram
        | TokenKind::ImportBuiltin
        | TokenKind::ImportDb
        | TokenKind::ImportCmdline
        | TokenKind::ImportParent => true,
        _ => false,
    }
}

/// The key of a condition about a device or one of its parents.
fn parents_key(kind: TokenKind) -> &'static [u8]
    ensures { result.now ≡ RuleReasons.parents_key kind }
{
    match kind {
        TokenKind::ParentsKernel => b"KERNELS",
        TokenKind::ParentsSubsystem => b"SUBSYSTEMS",
        TokenKind::ParentsDriver => b"DRIVERS",
        TokenKind::ParentsAttr => b"ATTRS",
        _ => b"TAGS",
    }
}

/// The key of a condition about what is run or set.
fn event_key(kind: TokenKind) -> &'static [u8]
    ensures { result.now ≡ RuleReasons.event_key kind }
{
    match kind {
        TokenKind::MatchAction => b"ACTION",
        TokenKind::MatchDevlink => b"SYMLINK",
        TokenKind::MatchName => b"NAME",
        TokenKind::MatchEnv => b"ENV",
        TokenKind::MatchConst => b"CONST",
        TokenKind::MatchTag => b"TAG",
        TokenKind::MatchSysctl => b"SYSCTL",
        TokenKind::MatchTest => b"TEST",
        TokenKind::MatchProgram => b"PROGRAM",
        TokenKind::MatchResult => b"RESULT",
        _ => b"IMPORT",
    }
}

/// The key of a token that decides over a line.
fn key_text(kind: TokenKind) -> &'static [u8]
    ensures { result.now ≡ RuleReasons.key_text kind }
{
    match kind {
        TokenKind::MatchKernel => b"KERNEL",
        TokenKind::MatchSubsystem => b"SUBSYSTEM",
        TokenKind::MatchDriver => b"DRIVER",
        TokenKind::MatchAttr => b"ATTR",
        TokenKind::MatchDevpath => b"DEVPATH",
        _ => {
            if is_parents(kind) {
                parents_key(kind)
            } else {
                event_key(kind)
            }
        }
    }
}

/// An operator.
fn operator_text(kind: TokenKind, operator: Operator) -> &'static [u8]
    ensures { result.now ≡ RuleReasons.operator_text kind operator }
{
    match operator {
        Operator::NoMatch => b"!=",
        _ => { if imports(kind) { b"=" } else { b"==" } }
    }
}

/// Adds what is in braces. The only error, here and below, is `AllocError`.
fn push_braces(text: &mut Vec<u8>, attribute: &[u8]) -> Result<(), AllocError>
    ensures { OnOk result
        (text.new.items ≡ text.old.items ++ RuleReasons.braces_text attribute.now) }
{
    if attribute.is_empty() {
        return Ok(());
    }
    text.push(b'{')?;
    push_name(text, attribute)?;
    text.push(b'}')?;
    Ok(())
}

/// Adds a value.
fn push_quoted(text: &mut Vec<u8>, folds: bool, value: &[u8]) -> Result<(), AllocError>
    ensures { OnOk result
        (text.new.items ≡ text.old.items ++ RuleReasons.quoted_text folds value.now) }
{
    if folds {
        text.push(b'i')?;
    }
    text.push(b'"')?;
    push_name(text, value)?;
    text.push(b'"')?;
    Ok(())
}

/// Adds a token.
fn push_token(text: &mut Vec<u8>, token: &Token) -> Result<(), AllocError>
    ensures { OnOk result
        (text.new.items ≡ text.old.items ++ RuleReasons.token_text (token_of token.now)) }
{
    text.extend_from_slice(key_text(token.kind))?;
    push_braces(text, &token.attribute)?;
    text.extend_from_slice(operator_text(token.kind, token.operator))?;
    push_quoted(text, token.folds, &token.value)
}

/// Adds a jump.
fn push_jump(text: &mut Vec<u8>, label: &[u8]) -> Result<(), AllocError>
    ensures { OnOk result
        (text.new.items ≡ text.old.items ++ RuleReasons.jump_text label.now) }
{
    text.extend_from_slice(b"GOTO=")?;
    push_quoted(text, false, label)
}

/// Adds tokens after a first one.
fn push_more_tokens(text: &mut Vec<u8>, tokens: &[&Token]) -> Result<(), AllocError>
    ensures { OnOk result (text.new.items ≡ text.old.items
        ++ RuleReasons.more_texts (map RuleReasons.token_text (map token_in tokens.now))) }
{
    for token in tokens {
        text.extend_from_slice(b", ")?;
        push_token(text, *token)?;
    }
    Ok(())
}

/// Adds tokens.
fn push_tokens(text: &mut Vec<u8>, tokens: &[&Token]) -> Result<(), AllocError>
    ensures { OnOk result (text.new.items ≡ text.old.items
        ++ RuleReasons.listed (map RuleReasons.token_text (map token_in tokens.now))) }
{
    let Some((first, more)) = tokens.split_first() else {
        return Ok(());
    };
    push_token(text, *first)?;
    push_more_tokens(text, more)
}

/// Adds jumps after a first one.
fn push_more_jumps(text: &mut Vec<u8>, labels: &[&[u8]]) -> Result<(), AllocError>
    ensures { OnOk result (text.new.items ≡ text.old.items
        ++ RuleReasons.more_texts (map RuleReasons.jump_text (map text_of labels.now))) }
{
    for label in labels {
        text.extend_from_slice(b", ")?;
        push_jump(text, label)?;
    }
    Ok(())
}

/// Adds jumps to these labels.
fn push_listed_jumps(text: &mut Vec<u8>, labels: &[&[u8]]) -> Result<(), AllocError>
    ensures { OnOk result (text.new.items ≡ text.old.items
        ++ RuleReasons.listed (map RuleReasons.jump_text (map text_of labels.now))) }
{
    let Some((first, more)) = labels.split_first() else {
        return Ok(());
    };
    push_jump(text, first)?;
    push_more_jumps(text, more)
}

/// Adds jumps, the first three of more.
fn push_jumps(text: &mut Vec<u8>, labels: &[&[u8]]) -> Result<(), AllocError>
    ensures { OnOk result (text.new.items ≡ text.old.items
        ++ RuleReasons.jumps_text (map text_of labels.now)) }
{
    if labels.len() <= 3 {
        return push_listed_jumps(text, labels);
    }
    push_listed_jumps(text, &labels[..3])?;
    text.extend_from_slice(b", ..")
}

/// Adds that tokens aren't known.
fn push_not_known(text: &mut Vec<u8>, tokens: &[&Token]) -> Result<(), AllocError>
    ensures { OnOk result (text.new.items ≡ text.old.items
        ++ (RuleReasons.listed (map RuleReasons.token_text (map token_in tokens.now))
        ++ codes " isn't known")) }
{
    push_tokens(text, tokens)?;
    text.extend_from_slice(b" isn't known")
}

/// Adds why it isn't known whether a line asks, by its tokens.
fn push_unknown_tokens(text: &mut Vec<u8>, tokens: &[&Token]) -> Result<(), AllocError>
    ensures { OnOk result (text.new.items ≡ text.old.items
        ++ RuleReasons.doubt_text (By (map token_in tokens.now))) }
{
    match tokens.split_first() {
        None => text.extend_from_slice(b"what is run before it isn't known"),
        Some(_) => push_not_known(text, tokens),
    }
}

/// Adds that jumps pass over a line, after a text.
fn push_passed(text: &mut Vec<u8>, before: &[u8], labels: &[&[u8]]) -> Result<(), AllocError>
    ensures { OnOk result (text.new.items ≡ text.old.items ++ (before.now
        ++ RuleReasons.jumps_text (map text_of labels.now))) }
{
    text.extend_from_slice(before)?;
    push_jumps(text, labels)
}

/// Adds why it isn't known whether a line asks.
fn push_doubt(text: &mut Vec<u8>, cause: &Cause<'_>) -> Result<(), AllocError>
    ensures { OnOk result
        (text.new.items ≡ text.old.items ++ RuleReasons.doubt_text (cause_of cause.now)) }
{
    match cause {
        Cause::Jumped(labels) => push_passed(text, b"perhaps passed over by ", labels),
        Cause::By(tokens) => push_unknown_tokens(text, tokens),
    }
}

/// Whether conditions are about parents.
fn is_group(tokens: &[&Token]) -> bool
    ensures { result ≡ RuleReasons.is_group (map token_in tokens.now) }
{
    match tokens.split_first() {
        None => false,
        Some((first, _)) => is_parents(first.kind),
    }
}

/// Adds that no device has what one has to.
fn push_group(text: &mut Vec<u8>, tokens: &[&Token]) -> Result<(), AllocError>
    ensures { OnOk result (text.new.items ≡ text.old.items
        ++ (codes "neither the device nor a parent has "
        ++ RuleReasons.listed (map RuleReasons.token_text (map token_in tokens.now)))) }
{
    text.extend_from_slice(b"neither the device nor a parent has ")?;
    push_tokens(text, tokens)
}

/// Adds that tokens fail.
fn push_fails(text: &mut Vec<u8>, tokens: &[&Token]) -> Result<(), AllocError>
    ensures { OnOk result (text.new.items ≡ text.old.items
        ++ (RuleReasons.listed (map RuleReasons.token_text (map token_in tokens.now))
        ++ codes " fails")) }
{
    push_tokens(text, tokens)?;
    text.extend_from_slice(b" fails")
}

/// Adds why a line doesn't ask, by its tokens.
fn push_failed_tokens(text: &mut Vec<u8>, tokens: &[&Token]) -> Result<(), AllocError>
    ensures { OnOk result (text.new.items ≡ text.old.items
        ++ RuleReasons.failed_text (By (map token_in tokens.now))) }
{
    if is_group(tokens) {
        push_group(text, tokens)
    } else {
        push_fails(text, tokens)
    }
}

/// Adds why a line doesn't ask.
fn push_failed(text: &mut Vec<u8>, cause: &Cause<'_>) -> Result<(), AllocError>
    ensures { OnOk result
        (text.new.items ≡ text.old.items ++ RuleReasons.failed_text (cause_of cause.now)) }
{
    match cause {
        Cause::Jumped(labels) => push_passed(text, b"passed over by ", labels),
        Cause::By(tokens) => push_failed_tokens(text, tokens),
    }
}

/// What decides over a line.
pub(crate) fn cause_text(
    alloc: Global,
    asks: Option<bool>,
    cause: &Cause<'_>,
) -> Result<Vec<u8>, AllocError>
    ensures { IfOk result (λ text. text.items ≡ RuleReasons.cause_text asks (cause_of cause.now)) }
{
    let mut text = Vec::new(alloc);
    match asks {
        None => push_doubt(&mut text, cause)?,
        Some(true) => {}
        Some(false) => push_failed(&mut text, cause)?,
    }
    Ok(text)
}

/// Why the line of this number of a file may ask.
pub(crate) fn doubt_at(
    alloc: Global,
    reasons: &[Reason<'_>],
    file: usize,
    line: usize,
) -> Result<Vec<u8>, AllocError>
    ensures { IfOk result (λ text. text.items
        ≡ RuleReasons.doubt_at (map reason_of reasons.now) (turn file line)) }
{
    let mut text = Vec::new(alloc);
    for reason in reasons {
        if file == reason.file && line == reason.line {
            push_doubt(&mut text, &reason.cause)?;
            return Ok(text);
        }
    }
    push_unknown_tokens(&mut text, &[])?;
    Ok(text)
}

/// A line that asks comes before one that may ask.
fn rank(asks: Option<bool>) -> usize
    ensures { result ≡ RuleReasons.rank asks }
{
    match asks {
        Some(true) => 2,
        None => 1,
        Some(false) => 0,
    }
}

/// Of what is told of a line at two actions, that one at which it rather asks.
fn rather<'r, 's>(one: &'r Reason<'s>, other: &'r Reason<'s>) -> &'r Reason<'s>
    ensures { reason_of result.now
        ≡ RuleReasons.rather (reason_of one.now) (reason_of other.now) }
{
    if rank(one.asks) < rank(other.asks) {
        other
    } else {
        one
    }
}

/// The same, if anything is told of it at the other action.
pub(crate) fn rather_first<'r, 's>(one: &'r Reason<'s>, others: &'r [Reason<'s>]) -> &'r Reason<'s>
    ensures { reason_of result.now
        ≡ RuleReasons.rather_first (reason_of one.now) (map reason_of others.now) }
{
    match others.split_first() {
        None => one,
        Some((other, _)) => rather(one, other),
    }
}

/// What is told after the first.
pub(crate) fn after_first<'r, 's>(others: &'r [Reason<'s>]) -> &'r [Reason<'s>]
    ensures { result.now ≡ drop 1 others.now }
{
    if others.is_empty() {
        others
    } else {
        &others[1..]
    }
}
