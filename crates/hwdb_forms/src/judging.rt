//! What is said of a pattern.
ghost use Rattle.std.specs.Prelude.{◌≡◌, ◌↔◌, ◌<◌, ◌≤◌, ◌+◌, ◌++◌, ◌∷◌, List, [], false, length, map, IfOk};
ghost use Rattle.hwdb_spec.specs.Patterns.{tokens as tokens_of};
ghost use Rattle.hwdb_spec.specs.Forms.{CanMatch, judged};
ghost use Rattle.hwdb_spec.specs.Forms;
ghost use Rattle.hwdb_spec_commands.specs.FormTable.{asked as asked_forms};
ghost use Rattle.hwdb_spec_commands.specs.LikelyForms.{likely as likely_forms};
ghost use Rattle.hwdb_spec_commands.specs.Surroundings;
ghost use Rattle.hwdb_forms.specs.Internal.{Every, HasWays, IsFront, form_of, forms_of, views};

use crate::expecting::all_forms;
use crate::guesses::is_fine_at_once;
use crate::pieces::{FormRow, Table};
use crate::walks::{Far, far_along, is_dead_at_once};
use hwdb_pattern::{front_size, token_texts};
use hwdb_spec::Judgement;
use std::alloc::{AllocError, Global};

/// One more, up to a count.
fn one_more(low: usize, count: usize) -> usize
    requires { low ≤ count }
    ensures less { low < count → result ≡ low + 1 }
    ensures all { count ≤ low → result ≡ low }
    ensures within { result ≤ count }
{
    if low < count { low + 1 } else { low }
}

/// How far the tokens go along the form and those before it. `low` is how many of them, at most, a text of those begins with.
fn reach_with(alloc: Global, form: FormRow, tokens: &[&[u8]], low: usize) -> Result<Far, AllocError>
    requires low { low ≤ length tokens.now }
    requires ways { HasWays (form_of form) }
    ensures met { IfOk result (λ far. far.is_met
        ≡ Forms.meets_form (views tokens.now) (form_of form)) }
    ensures front { IfOk result (λ far. (forms : List Forms.Form)
        → IsFront forms (views tokens.now) low
        → IsFront (forms ++ form_of form ∷ []) (views tokens.now) far.front) }
{
    let some = one_more(low, tokens.len());
    if is_dead_at_once(form, &tokens[..some]) {
        return Ok(Far {
            front: low,
            is_met: false,
        });
    }
    let far = far_along(alloc, form, tokens)?;
    Ok(Far {
        front: low.max(far.front),
        is_met: far.is_met,
    })
}

/// How far the tokens go along the forms. If they match a text of one, how many of them a text begins with isn't told.
fn reach(alloc: Global, forms: &[FormRow], tokens: &[&[u8]]) -> Result<Far, AllocError>
    requires { Every Forms.Form HasWays (map form_of forms.now) }
    ensures met { IfOk result (λ far. far.is_met
        ≡ Forms.can_match (map form_of forms.now) (views tokens.now)) }
    ensures front { IfOk result (λ far. far.is_met ≡ false
        → IsFront (map form_of forms.now) (views tokens.now) far.front) }
{
    let mut low = 0;
    for form in forms {
        let far = reach_with(alloc, *form, tokens, low)?;
        if far.is_met {
            return Ok(far);
        }
        low = far.front;
    }
    Ok(Far {
        front: low,
        is_met: false,
    })
}

/// How far the tokens go along the forms of the table.
fn reach_all(alloc: Global, table: Table, tokens: &[&[u8]]) -> Result<Far, AllocError>
    ensures met { IfOk result (λ far. far.is_met
        ≡ Forms.can_match (forms_of table) (views tokens.now)) }
    ensures front { IfOk result (λ far. far.is_met ≡ false → far.front
        ≡ Forms.front_length (forms_of table) (views tokens.now)) }
{
    let forms = all_forms(alloc, table)?;
    let far = reach(alloc, &forms, tokens)?;
    Ok(far)
}

/// Whether a text of the table begins with what the tokens match.
pub(crate) fn can_begin(alloc: Global, table: Table, front: &[&[u8]]) -> Result<bool, AllocError>
    ensures { IfOk result (λ met. met ≡ Forms.can_begin (forms_of table) (views front.now)) }
{
    let mut tokens = front.to_vec(alloc)?;
    tokens.push(b"*")?;
    let far = reach_all(alloc, table, &tokens)?;
    Ok(far.is_met)
}

/// Whether the byte ends a pattern's prefix.
fn ends_prefix(byte: u8) -> bool
    ensures { result ≡ Forms.ends_prefix byte }
{
    matches!(byte, b':' | b'*' | b'?' | b'[')
}

/// How many bytes the pattern's prefix takes, its colon too; 0 if it has none.
pub(crate) fn prefix_size(pattern: &[u8]) -> usize
    ensures size { result ≡ Forms.prefix_size pattern.now }
    ensures within { result ≤ length pattern.now }
{
    let mut at = 0;
    while at < pattern.len() && !ends_prefix(pattern[at]) {
        at += 1;
    }
    if at < pattern.len() && pattern[at] == b':' {
        at + 1
    } else {
        0
    }
}

/// The beginning of a pattern up to its first colon, and with it; nothing if a wildcard is before that.
pub fn prefix_of(pattern: &[u8]) -> &[u8]
    ensures { result.now ≡ Surroundings.prefix_of pattern.now }
{
    &pattern[..prefix_size(pattern)]
}

/// Whether the pattern has a prefix, and no text of one of the forms begins with it.
fn is_unknown(
    alloc: Global,
    table: Table,
    pattern: &[u8],
    tokens: &[&[u8]],
) -> Result<bool, AllocError>
    requires { views tokens.now ≡ tokens_of pattern.now }
    ensures { IfOk result (λ unknown. unknown ≡ Forms.is_unknown (forms_of table) pattern.now) }
{
    let size = prefix_size(pattern);
    if size == 0 {
        return Ok(false);
    }
    let begins = can_begin(alloc, table, &tokens[..size.min(tokens.len())])?;
    Ok(!begins)
}

/// As `judge_by`, by the pattern's tokens.
fn judge_tokens(alloc: Global, table: Table, pattern: &[u8]) -> Result<Judgement, AllocError>
    ensures fine { IfOk result (λ told. (told ≡ Judgement.Fine)
        ↔ CanMatch (forms_of table) (tokens_of pattern.now)) }
    ensures told { IfOk result (λ told. told ≡ judged (forms_of table) pattern.now) }
{
    let tokens = token_texts(alloc, pattern)?;
    let far = reach_all(alloc, table, &tokens)?;
    if far.is_met {
        return Ok(Judgement::Fine);
    }
    if is_unknown(alloc, table, pattern, &tokens)? {
        return Ok(Judgement::UnknownPrefix);
    }
    Ok(Judgement::Dead(front_size(pattern, far.front)))
}

/// What is said of a pattern: whether it matches a text of the table, and else why not.
fn judge_by(alloc: Global, table: Table, pattern: &[u8]) -> Result<Judgement, AllocError>
    ensures fine { IfOk result (λ told. (told ≡ Judgement.Fine)
        ↔ CanMatch (forms_of table) (tokens_of pattern.now)) }
    ensures told { IfOk result (λ told. told ≡ judged (forms_of table) pattern.now) }
{
    if is_fine_at_once(table, pattern) {
        return Ok(Judgement::Fine);
    }
    judge_tokens(alloc, table, pattern)
}

/// What is said of a pattern: whether it matches a text that udev asks, and else why not.
///
/// The only error is want of memory.
pub fn judge(alloc: Global, pattern: &[u8]) -> Result<Judgement, AllocError>
    ensures fine { IfOk result (λ told. (told ≡ Judgement.Fine)
        ↔ CanMatch asked_forms (tokens_of pattern.now)) }
    ensures told { IfOk result (λ told. told ≡ judged asked_forms pattern.now) }
{
    judge_by(alloc, Table::Asked, pattern)
}

/// What is said of a pattern: whether it matches a text that udev likely asks, and else why not.
///
/// The only error is want of memory.
pub fn judge_likely(alloc: Global, pattern: &[u8]) -> Result<Judgement, AllocError>
    ensures { IfOk result (λ told. told ≡ judged likely_forms pattern.now) }
{
    judge_by(alloc, Table::Likely, pattern)
}

/// What is said of a pattern, by the texts that udev asks and by those that it likely asks.
#[derive(Clone, Copy)]
pub struct Judged {
    /// Whether it matches a text that udev asks, and else why not.
    pub asked: Judgement,
    /// The same of the texts that it likely asks.
    pub likely: Judgement,
}

/// What is said of a pattern, of which it is known what is said by likely texts.
#[tactic(auto, using(crate::proofs::WithinLemmas::fine_likely))]
fn judged_after(alloc: Global, likely: Judgement, pattern: &[u8]) -> Result<Judgement, AllocError>
    requires { likely ≡ judged likely_forms pattern.now }
    ensures { IfOk result (λ told. told ≡ judged asked_forms pattern.now) }
{
    match likely {
        Judgement::Fine => Ok(Judgement::Fine),
        _ => judge(alloc, pattern),
    }
}

/// What is said of a pattern, by the texts that udev asks and by those that it likely asks. What matches one of these matches one of
/// those, so that most patterns are judged once.
///
/// The only error is want of memory.
pub fn judge_both(alloc: Global, pattern: &[u8]) -> Result<Judged, AllocError>
    ensures fine { IfOk result (λ told. (told.likely ≡ Judgement.Fine)
        ↔ CanMatch likely_forms (tokens_of pattern.now)) }
    ensures asked { IfOk result (λ told. told.asked ≡ judged asked_forms pattern.now) }
    ensures likely { IfOk result (λ told. told.likely ≡ judged likely_forms pattern.now) }
{
    let likely = judge_by(alloc, Table::Likely, pattern)?;
    let asked = judged_after(alloc, likely, pattern)?;
    Ok(Judged { asked, likely })
}
