//! Walks through the steps of a form, token by token.
//!
//! A walk keeps the places that it can be at: a text of the form may go on there after what the tokens so far match. One walk says
//! whether all tokens match a text, how many of them a text begins with, and which bytes may come after them.
ghost use Rattle.std.specs.Prelude.{◌≡◌, ◌<◌, ◌≤◌, ◌++◌, ◌∷◌, [], List, ℕ, Bool, false, length, true, if◌then◌else◌, IfOk, IfSome, ◌+◌};
ghost use Rattle.hwdb_spec.specs.Patterns.{Token, literal, star, token_at};
ghost use Rattle.hwdb_spec.specs.Forms;
ghost use Rattle.hwdb_forms.specs.Internal.{AreLive, HasWays, IsFar, IsFront, IsPlace, any_met, fields_of, followed, form_of, has_byte, left, met_at, places, views};
ghost use Rattle.hwdb_forms.specs.Internal;

use crate::bytes::{Bytes, bytes_of, joined, no_bytes};
use crate::leads::{Passed, lead_of, pass_fixed};
use crate::pieces::{FormRow, Piece};
use crate::sets::{has, meets};
use crate::steps::{Step, Steps, form_steps};
use hwdb_pattern::begins_star;
use hwdb_spec::ByteSet;
use std::alloc::{AllocError, Global};

/// How far tokens go along forms.
#[derive(Clone, Copy)]
pub(crate) struct Far {
    /// How many of them, at most, a text begins with.
    pub(crate) front: usize,
    /// Whether all of them match a text.
    pub(crate) is_met: bool,
}

/// The steps of a form, after a walk.
#[derive(Drop)]
struct Walked {
    steps: Vec<Step>,
    /// The places after all tokens.
    now: Vec<bool>,
    /// How many tokens, at most, a text begins with.
    front: usize,
}

/// Where a walk came.
#[derive(Drop)]
struct Gone {
    /// The places after all tokens.
    now: Vec<bool>,
    /// How many tokens, at most, a text begins with.
    front: usize,
}

/// Marks a place, if it is before an end.
#[inline(always)]
fn mark(marks: &mut Vec<bool>, place: usize, end: usize)
    requires { end ≤ length marks.old.items }
    ensures { marks.new.items ≡ Internal.marked marks.old.items place end }
{
    if place < end {
        marks[place] = true;
    }
}

/// Looks at a place before a star. `at` is the step's place, `now` has the places before the star that are still to be looked at, and
/// `next` those after it.
#[inline(always)]
fn pass_star(step: Step, at: usize, now: &mut Vec<bool>, next: &mut Vec<bool>)
    requires now { at < length now.old.items }
    requires next { length next.old.items ≡ length now.old.items }
    ensures now { length now.new.items ≡ length now.old.items }
    ensures next { length next.new.items ≡ length next.old.items }
    ensures left { (ls : List (List Token → Bool)) (us : List Token) → IsPlace ls at step
        → left at now.new.items next.new.items ls star us
        ≡ (if left at now.old.items next.old.items ls star us
        then true else met_at ls at (star ∷ us)) }
{
    match step {
        Step::End => mark(next, at, at + 1),
        Step::Byte(_, to) => {
            mark(now, to, at);
            mark(next, at, at + 1);
        }
        Step::One(_, to) => {
            mark(now, to, at);
            mark(next, at, at + 1);
        }
        Step::Many(_, to) => {
            mark(now, to, at);
            mark(next, at, at + 1);
        }
        Step::Either(way, other) => {
            mark(now, way, at);
            mark(now, other, at);
        }
    }
}

/// The byte that the token that begins the text stands for, if it is a byte that means itself.
pub(crate) fn own_byte(text: &[u8]) -> Option<u8>
    ensures { IfSome result (λ own. token_at text.now ≡ literal own) }
{
    if text.is_empty() {
        return None;
    }
    let first = text[0];
    if first == b'*' || first == b'?' || first == b'[' {
        return None;
    }
    Some(first)
}

/// As `meets`. The byte that the token stands for is known.
#[inline(always)]
fn takes(text: &[u8], own: Option<u8>, set: ByteSet) -> bool
    requires { IfSome own (λ byte. token_at text.now ≡ literal byte) }
    ensures { result ≡ Forms.meets (token_at text.now) set }
{
    match own {
        Some(byte) => has(set, byte),
        None => meets(text, set),
    }
}

/// Looks at a place before another token. `at` is the step's place, `now` has the places before the token that are still to be looked
/// at, and `next` those after it.
#[inline(always)]
fn pass_byte(
    step: Step,
    at: usize,
    text: &[u8],
    own: Option<u8>,
    now: &mut Vec<bool>,
    next: &mut Vec<bool>,
)
    requires now { at < length now.old.items }
    requires next { length next.old.items ≡ length now.old.items }
    requires star { Forms.is_star (token_at text.now) ≡ false }
    requires own { IfSome own (λ byte. token_at text.now ≡ literal byte) }
    ensures now { length now.new.items ≡ length now.old.items }
    ensures next { length next.new.items ≡ length next.old.items }
    ensures left { (ls : List (List Token → Bool)) (us : List Token) → IsPlace ls at step
        → left at now.new.items next.new.items ls (token_at text.now) us
        ≡ (if left at now.old.items next.old.items ls (token_at text.now) us then true
        else met_at ls at (token_at text.now ∷ us)) }
{
    match step {
        Step::End => (),
        Step::Byte(byte, to) => {
            if takes(text, own, ByteSet::Only(byte)) {
                mark(next, to, at);
            }
        }
        Step::One(set, to) => {
            if takes(text, own, set) {
                mark(next, to, at);
            }
        }
        Step::Many(set, to) => {
            mark(now, to, at);
            if takes(text, own, set) {
                mark(next, at, at + 1);
            }
        }
        Step::Either(way, other) => {
            mark(now, way, at);
            mark(now, other, at);
        }
    }
}

/// The places after a star.
fn past_star(alloc: Global, steps: &[Step], now: Vec<bool>) -> Result<Vec<bool>, AllocError>
    requires { length now.items ≤ length steps.now }
    ensures long { IfOk result (λ next. length next.items ≤ length steps.now) }
    ensures met { IfOk result (λ next. (us : List Token)
        → any_met next.items (places steps.now) us
        ≡ any_met now.items (places steps.now) (star ∷ us)) }
{
    let mut now = now;
    let mut next = vec![in alloc; false; now.len()]?;
    let mut at = now.len();
    while at > 0 {
        at -= 1;
        if now[at] {
            pass_star(steps[at], at, &mut now, &mut next);
        }
    }
    Ok(next)
}

/// The places after another token.
fn past_byte(
    alloc: Global,
    steps: &[Step],
    text: &[u8],
    now: Vec<bool>,
) -> Result<Vec<bool>, AllocError>
    requires long { length now.items ≤ length steps.now }
    requires star { Forms.is_star (token_at text.now) ≡ false }
    ensures long { IfOk result (λ next. length next.items ≤ length steps.now) }
    ensures met { IfOk result (λ next. (us : List Token)
        → any_met next.items (places steps.now) us
        ≡ any_met now.items (places steps.now) (token_at text.now ∷ us)) }
{
    let own = own_byte(text);
    let mut now = now;
    let mut next = vec![in alloc; false; now.len()]?;
    let mut at = now.len();
    while at > 0 {
        at -= 1;
        if now[at] {
            pass_byte(steps[at], at, text, own, &mut now, &mut next);
        }
    }
    Ok(next)
}

/// The marks up to the last place that is marked. A step leads to no later place, so that later ones need no look.
fn trimmed(marks: Vec<bool>) -> Vec<bool>
    ensures long { length result.items ≤ length marks.items }
    ensures met { (ls : List (List Token → Bool)) (us : List Token)
        → any_met result.items ls us ≡ any_met marks.items ls us }
{
    let mut size = marks.len();
    while size > 0 && !marks[size - 1] {
        size -= 1;
    }
    let mut marks = marks;
    marks.truncate(size);
    marks
}

/// The places after a token.
fn past(alloc: Global, steps: &[Step], text: &[u8], now: Vec<bool>) -> Result<Vec<bool>, AllocError>
    requires { length now.items ≤ length steps.now }
    ensures long { IfOk result (λ next. length next.items ≤ length steps.now) }
    ensures met { IfOk result (λ next. (us : List Token)
        → any_met next.items (places steps.now) us
        ≡ any_met now.items (places steps.now) (token_at text.now ∷ us)) }
{
    let next = if begins_star(text) {
        past_star(alloc, steps, now)?
    } else {
        past_byte(alloc, steps, text, now)?
    };
    Ok(trimmed(next))
}

/// The place that a walk begins at.
fn begun(alloc: Global, steps: &[Step], entry: usize) -> Result<Vec<bool>, AllocError>
    requires { entry < length steps.now }
    ensures long { IfOk result (λ now. length now.items ≤ length steps.now) }
    ensures met { IfOk result (λ now. (us : List Token)
        → any_met now.items (places steps.now) us ≡ met_at (places steps.now) entry us) }
{
    let mut now = vec![in alloc; false; steps.len()]?;
    now[entry] = true;
    Ok(now)
}

/// Whether no place is marked.
fn is_none(marks: &[bool]) -> bool
    ensures none { result ≡ true → (ls : List (List Token → Bool)) (us : List Token)
        → any_met marks.now ls us ≡ false }
    ensures some { result ≡ false → (ls : List (List Token → Bool))
        → length marks.now ≤ length ls → AreLive ls → any_met marks.now ls (star ∷ []) ≡ true }
{
    for mark in marks {
        if *mark {
            return false;
        }
    }
    true
}

/// Goes through steps from a place on. It ends at the first token after which there is no place.
fn go(alloc: Global, steps: &[Step], entry: usize, tokens: &[&[u8]]) -> Result<Gone, AllocError>
    requires entry { entry < length steps.now }
    requires live { AreLive (places steps.now) }
    ensures long { IfOk result (λ gone. length gone.now.items ≤ length steps.now) }
    ensures met { IfOk result (λ gone. (us : List Token)
        → any_met gone.now.items (places steps.now) us
        ≡ met_at (places steps.now) entry (views tokens.now ++ us)) }
    ensures far { IfOk result (λ gone. IsFar (met_at (places steps.now) entry)
        (views tokens.now) gone.front) }
{
    let mut now = begun(alloc, steps, entry)?;
    let mut at = 0;
    while at < tokens.len() {
        now = past(alloc, steps, tokens[at], now)?;
        if is_none(&now) {
            return Ok(Gone { now, front: at });
        }
        at += 1;
    }
    Ok(Gone { now, front: at })
}

/// A walk through the steps of a form.
fn walk(alloc: Global, form: FormRow, tokens: &[&[u8]]) -> Result<Walked, AllocError>
    requires { HasWays (form_of form) }
    ensures long { IfOk result (λ w. length w.now.items ≤ length w.steps.items) }
    ensures live { IfOk result (λ w. AreLive (places w.steps.items)) }
    ensures met { IfOk result (λ w. (us : List Token)
        → any_met w.now.items (places w.steps.items) us
        ≡ Forms.meets_form (views tokens.now ++ us) (form_of form)) }
    ensures far { IfOk result (λ w. IsFar (λ us. Forms.meets_form us (form_of form))
        (views tokens.now) w.front) }
{
    let Steps { steps, entry } = form_steps(alloc, form)?;
    let Gone { now, front } = go(alloc, &steps, entry, tokens)?;
    Ok(Walked { steps, now, front })
}

/// Marks the places that the step at a place leads to without a byte.
#[inline(always)]
fn lead(step: Step, at: usize, now: &mut Vec<bool>)
    requires { at < length now.old.items }
    ensures long { length now.new.items ≡ length now.old.items }
    ensures led { now.new.items ≡ Internal.led step at now.old.items }
{
    match step {
        Step::End => (),
        Step::Byte(_, _) => (),
        Step::One(_, _) => (),
        Step::Many(_, to) => mark(now, to, at),
        Step::Either(way, other) => {
            mark(now, way, at);
            mark(now, other, at);
        }
    }
}

fn is_end(step: Step) -> bool
    ensures { result ≡ Internal.is_end step }
{
    matches!(step, Step::End)
}

/// Whether a text may end at one of the places.
fn ends(steps: &[Step], now: Vec<bool>) -> bool
    requires { length now.items ≤ length steps.now }
    ensures { result ≡ any_met now.items (places steps.now) [] }
{
    let mut now = now;
    let mut at = now.len();
    while at > 0 {
        at -= 1;
        if now[at] {
            if is_end(steps[at]) {
                return true;
            }
            lead(steps[at], at, &mut now);
        }
    }
    false
}

/// Which bytes the step takes.
fn step_bytes(step: Step) -> Bytes
    ensures { (byte : ℕ) → byte < 256 → has_byte result byte ≡ Internal.takes_byte step byte }
{
    match step {
        Step::Byte(own, _) => bytes_of(ByteSet::Only(own)),
        Step::One(set, _) => bytes_of(set),
        Step::Many(set, _) => bytes_of(set),
        Step::End => no_bytes(),
        Step::Either(_, _) => no_bytes(),
    }
}

/// Which bytes may be at one of the places.
fn bytes_at(steps: &[Step], now: Vec<bool>) -> Bytes
    requires now { length now.items ≤ length steps.now }
    requires live { AreLive (places steps.now) }
    ensures { (byte : ℕ) → byte < 256 → has_byte result byte
        ≡ any_met now.items (places steps.now) (literal byte ∷ star ∷ []) }
{
    let mut now = now;
    let mut bytes = no_bytes();
    let mut at = now.len();
    while at > 0 {
        at -= 1;
        if now[at] {
            bytes = joined(bytes, step_bytes(steps[at]));
            lead(steps[at], at, &mut now);
        }
    }
    bytes
}

/// Whether the tokens, whatever comes after them, match no text of the fields. It is seen in the only way of the first one.
fn are_fields_dead(fields: &[&[&[Piece]]], tokens: &[&[u8]]) -> bool
    ensures { result ≡ true → (more : List Token)
        → Forms.head (Forms.fields_row (fields_of fields.now) (views tokens.now ++ more))
        ≡ false }
{
    if fields.is_empty() {
        return false;
    }
    if fields[0].len() != 1 {
        return false;
    }
    lead_of(fields[0][0], tokens).is_dead
}

/// Whether it is seen at once that the tokens, whatever comes after them, match no text of the form.
pub(crate) fn is_dead_at_once(form: FormRow, tokens: &[&[u8]]) -> bool
    ensures { result ≡ true → (more : List Token)
        → Forms.meets_form (views tokens.now ++ more) (form_of form) ≡ false }
{
    match pass_fixed(form.prefix, tokens) {
        Passed::No => true,
        Passed::Unknown => false,
        Passed::Yes => are_fields_dead(form.fields, &tokens[form.prefix.len()..]),
    }
}

/// How far the tokens go along the form.
pub(crate) fn far_along(alloc: Global, form: FormRow, tokens: &[&[u8]]) -> Result<Far, AllocError>
    requires { HasWays (form_of form) }
    ensures met { IfOk result (λ far. far.is_met
        ≡ Forms.meets_form (views tokens.now) (form_of form)) }
    ensures front { IfOk result (λ far. IsFront (form_of form ∷ []) (views tokens.now) far.front) }
{
    let Walked { steps, now, front } = walk(alloc, form, tokens)?;
    let is_met = ends(&steps, now);
    Ok(Far { front, is_met })
}

/// Which bytes may come after all tokens in a text of the form.
pub(crate) fn bytes_along(
    alloc: Global,
    form: FormRow,
    tokens: &[&[u8]],
) -> Result<Bytes, AllocError>
    requires { HasWays (form_of form) }
    ensures { IfOk result (λ bytes. (byte : ℕ) → byte < 256 → has_byte bytes byte
        ≡ Forms.meets_form (followed (views tokens.now) byte) (form_of form)) }
{
    if is_dead_at_once(form, tokens) {
        return Ok(no_bytes());
    }
    let Walked { steps, now, .. } = walk(alloc, form, tokens)?;
    Ok(bytes_at(&steps, now))
}
