//! What a pattern was likely meant to be that no string of udev matches, or none that it likely asks.
ghost use Rattle.std.specs.Prelude.{◌≡◌, ◌++◌, ◌∷◌, ◌≤◌, List, Option, ℕ, drop, if◌then◌else◌, length, map, suc, take, IfOk, OnOk, Some};
ghost use Rattle.std.specs.List.{prefix_len};
ghost use Rattle.std.specs.Option.{option_map, option_or};
ghost use Rattle.hwdb_spec.specs.Lines.{byte, has, is_indent};
ghost use Rattle.hwdb_spec_commands.specs.Mends;
ghost use Rattle.hwdb_spec_commands.specs.Near;
ghost use Rattle.hwdb_check.specs.Mending.{outcome};
ghost use Rattle.hwdb_spec_commands.specs.Properties.{is_hex_digit, lower};

use crate::fields::field_row;
use hwdb_forms::{expected_likely, judge_likely};
use hwdb_properties::same;
use hwdb_show::{push_byte, push_shown};
use hwdb_spec::Judgement;
use hwdb_text::{begins_with, end_of, unindented};
use std::alloc::{AllocError, Global};

/// A pattern of more bytes isn't mended (our choice).
const LONGEST_MENDED: usize = 256;

/// A pattern is mended in so many places at most (our choice).
const MOST_STEPS: usize = 4;

/// Whether a byte is a small letter.
pub fn is_small(byte: u8) -> bool
    ensures { result ≡ Mends.is_small byte }
{
    matches!(byte, b'a'..=b'z')
}

/// A small letter as a capital one, any other byte as it is.
fn upper(byte: u8) -> u8
    ensures { result ≡ Mends.upper byte }
{
    if is_small(byte) { byte - 32 } else { byte }
}

/// A capital letter as a small one, any other byte as it is.
fn lower(byte: u8) -> u8
    ensures { result ≡ lower byte }
{
    if matches!(byte, b'A'..=b'Z') {
        byte + 32
    } else {
        byte
    }
}

/// A byte in the other case than this one has.
fn turned(first: u8, byte: u8) -> u8
    ensures { result ≡ Mends.turned first byte }
{
    if is_small(first) {
        upper(byte)
    } else {
        lower(byte)
    }
}

/// Whether a byte is a hexadecimal digit.
fn is_hex_digit(byte: u8) -> bool
    ensures { result ≡ is_hex_digit byte }
{
    matches!(byte, b'0'..=b'9' | b'a'..=b'f' | b'A'..=b'F')
}

/// Whether a byte is a blank.
fn is_indent(byte: u8) -> bool
    ensures { result ≡ is_indent byte }
{
    byte == b' ' || byte == b'\t'
}

/// The first bytes of a text.
pub fn front_of(text: &[u8], size: usize) -> &[u8]
    ensures { result.now ≡ take size text.now }
{
    if size < text.len() {
        &text[..size]
    } else {
        text
    }
}

/// The bytes of a text after its first ones.
pub fn rest_of(text: &[u8], size: usize) -> &[u8]
    ensures { result.now ≡ drop size text.now }
{
    if size < text.len() {
        &text[size..]
    } else {
        &[]
    }
}

/// How many hexadecimal digits a text begins with.
fn digits_of(text: &[u8]) -> usize
    ensures place { result ≡ prefix_len is_hex_digit text.now }
    ensures within { result ≤ length text.now }
{
    let mut at = 0;
    while at < text.len() && is_hex_digit(text[at]) {
        at += 1;
    }
    at
}

/// How many hexadecimal digits go on with a digit; none after another byte.
fn digits_after(first: u8, more: &[u8]) -> usize
    ensures place { result ≡ Mends.digits_after first more.now }
    ensures within { result ≤ length more.now }
{
    if is_hex_digit(first) {
        digits_of(more)
    } else {
        0
    }
}

/// Adds bytes in the other case than this one has. The only error, here and below, is `AllocError`.
fn push_turned(text: &mut Vec<u8>, first: u8, bytes: &[u8]) -> Result<(), AllocError>
    ensures { OnOk result
        (text.new.items ≡ text.old.items ++ map (Mends.turned first) bytes.now) }
{
    for byte in bytes {
        text.push(turned(first, *byte))?;
    }
    Ok(())
}

/// A text in the other case than its first byte has: that byte, or all hexadecimal digits up to the first other byte.
fn recased(alloc: Global, first: u8, more: &[u8]) -> Result<Vec<u8>, AllocError>
    ensures { IfOk result (λ text. text.items ≡ Mends.recased first more.now) }
{
    let size = digits_after(first, more);
    let mut text = Vec::new(alloc);
    push_turned(&mut text, first, &[first])?;
    push_turned(&mut text, first, &more[..size])?;
    text.extend_from_slice(&more[size..])?;
    Ok(text)
}

/// Whether a byte is among some.
pub fn has(byte: u8, bytes: &[u8]) -> bool
    ensures { result ≡ has byte bytes.now }
{
    bytes.iter().any(|own| *own == byte)
}

/// A text without the blanks that it begins with.
fn without_blanks(alloc: Global, text: &[u8]) -> Result<Vec<u8>, AllocError>
    ensures { IfOk result
        (λ copy. copy.items ≡ drop (prefix_len is_indent text.now) text.now) }
{
    let mut copy = Vec::new(alloc);
    copy.extend_from_slice(unindented(text))?;
    Ok(copy)
}

/// A text after a colon.
fn after_colon(alloc: Global, text: &[u8]) -> Result<Vec<u8>, AllocError>
    ensures { IfOk result (λ copy. copy.items ≡ byte ":" ∷ text.now) }
{
    let mut copy = Vec::new(alloc);
    copy.push(b':')?;
    copy.extend_from_slice(text)?;
    Ok(copy)
}

/// Whether udev always keeps a byte.
fn is_kept(byte: u8) -> bool
    ensures { result ≡ Near.is_kept byte }
{
    matches!(byte, b'0'..=b'9' | b'A'..=b'Z' | b'a'..=b'z')
        || matches!(byte, b'#' | b'+' | b'-' | b'.' | b':' | b'=' | b'@' | b'_')
}

/// Whether udev may write `_` for a byte of a pattern.
fn is_replaced(byte: u8) -> bool
    ensures { result ≡ Near.is_replaced byte }
{
    !is_kept(byte) && !matches!(byte, b'*' | b'?' | b'[')
}

/// Whether udev writes `_` in place of a byte that can't be here, if these could be.
fn is_underlined(next: &[u8], byte: u8) -> bool
    ensures { result ≡ Mends.is_underlined next.now byte }
{
    is_replaced(byte) && has(b'_', next)
}

/// The rest of a pattern from the byte on with which it goes wrong, as it was likely meant, if one of these bytes could be there.
fn meant_rest(alloc: Global, next: &[u8], rest: &[u8]) -> Result<Option<Vec<u8>>, AllocError>
    ensures { IfOk result
        (λ found. option_map (λ t. t.items) found ≡ Mends.meant_rest next.now rest.now) }
{
    let Some((first, more)) = rest.split_first() else {
        return Ok(None);
    };
    if is_indent(*first) {
        return Ok(Some(without_blanks(alloc, more)?));
    }
    if has(turned(*first, *first), next) {
        return Ok(Some(recased(alloc, *first, more)?));
    }
    if is_underlined(next, *first) {
        return Ok(Some(joined(alloc, b"_", more)?));
    }
    if has(b':', next) {
        return Ok(Some(after_colon(alloc, rest)?));
    }
    Ok(None)
}

/// The only byte of some.
fn only_byte(bytes: &[u8]) -> Option<u8>
    ensures { result ≡ Mends.only_byte bytes.now }
{
    match bytes {
        [own] => Some(*own),
        _ => None,
    }
}

/// A text after another one.
fn joined(alloc: Global, front: &[u8], rest: &[u8]) -> Result<Vec<u8>, AllocError>
    ensures { IfOk result (λ copy. copy.items ≡ front.now ++ rest.now) }
{
    let mut copy = Vec::new(alloc);
    copy.extend_from_slice(front)?;
    copy.extend_from_slice(rest)?;
    Ok(copy)
}

/// A rest that begins with a byte but can begin with one alone: that one is in a colon's place, or only the colon is too much. Else it is
/// put before the rest.
fn led_by(alloc: Global, own: u8, first: u8, more: &[u8]) -> Result<Vec<u8>, AllocError>
    ensures { IfOk result (λ text. text.items ≡ Mends.led_by own first more.now) }
{
    if first != b':' {
        return joined(alloc, &[own, first], more);
    }
    if begins_with(own, more) {
        return joined(alloc, &[], more);
    }
    joined(alloc, &[own], more)
}

/// The last byte of a text, as a text.
pub fn last_of(text: &[u8]) -> &[u8]
    ensures { result.now ≡ Mends.last_of text.now }
{
    rest_of(text, text.len().saturating_sub(1))
}

/// Whether a byte is a colon after another one.
fn is_second_colon(front: &[u8], byte: u8) -> bool
    ensures { result ≡ Mends.is_second_colon front.now byte }
{
    byte == b':' && begins_with(b':', last_of(front))
}

/// Whether a byte that is no colon comes after a small letter, as in a word.
fn is_in_word(front: &[u8], byte: u8) -> bool
    ensures { result ≡ Mends.is_in_word front.now byte }
{
    byte != b':' && last_of(front).iter().any(|last| is_small(*last))
}

/// The rest of a pattern after a front, as it was likely meant: without a second colon, or as one byte alone could be there.
fn led_rest(
    alloc: Global,
    front: &[u8],
    next: &[u8],
    rest: &[u8],
) -> Result<Option<Vec<u8>>, AllocError>
    ensures { IfOk result (λ found. option_map (λ t. t.items) found
        ≡ Mends.led_rest front.now next.now rest.now) }
{
    let Some((first, more)) = rest.split_first() else {
        return Ok(None);
    };
    if is_second_colon(front, *first) {
        return Ok(Some(joined(alloc, &[], more)?));
    }
    if is_in_word(front, *first) {
        return Ok(None);
    }
    let Some(own) = only_byte(next) else {
        return Ok(None);
    };
    Ok(Some(led_by(alloc, own, *first, more)?))
}

/// The rest of a pattern after a front, as it was likely meant: as one of these bytes could be there, or the only one.
fn rest_after(
    alloc: Global,
    front: &[u8],
    next: &[u8],
    rest: &[u8],
) -> Result<Option<Vec<u8>>, AllocError>
    ensures { IfOk result (λ found. option_map (λ t. t.items) found
        ≡ option_or (Mends.meant_rest next.now rest.now)
        (Mends.led_rest front.now next.now rest.now)) }
{
    if let Some(text) = meant_rest(alloc, next, rest)? {
        return Ok(Some(text));
    }
    led_rest(alloc, front, next, rest)
}

/// The bytes that could likely be after the front of a pattern.
#[tactic(auto, unfolding(hwdb_spec_commands::specs::Mends::likely_after))]
pub fn likely_after(alloc: Global, front: &[u8]) -> Result<Vec<u8>, AllocError>
    ensures { IfOk result (λ bytes. bytes.items ≡ Mends.likely_after front.now) }
{
    expected_likely(alloc, front)
}

/// What is said of a pattern by the strings that udev likely asks.
#[tactic(auto, unfolding(hwdb_spec_commands::specs::Mends::likely_judgement))]
fn likely_judgement(alloc: Global, pattern: &[u8]) -> Result<Judgement, AllocError>
    ensures { IfOk result (λ told. told ≡ Mends.likely_judgement pattern.now) }
{
    judge_likely(alloc, pattern)
}

/// A pattern that goes wrong at a place, as it was likely meant there.
fn step(alloc: Global, pattern: &[u8], place: usize) -> Result<Option<Vec<u8>>, AllocError>
    ensures { IfOk result
        (λ found. option_map (λ t. t.items) found ≡ Mends.step pattern.now place) }
{
    let front = front_of(pattern, place);
    let next = likely_after(alloc, front)?;
    let Some(rest) = rest_after(alloc, front, &next, rest_of(pattern, place))? else {
        return Ok(None);
    };
    Ok(Some(joined(alloc, front, &rest)?))
}

/// What a step makes of a pattern.
#[derive(Drop)]
pub enum Mend {
    /// It isn't known how it was meant.
    Unknown,
    /// The pattern as it was likely meant.
    Sure(Vec<u8>),
    /// A pattern that goes wrong later, and its place.
    Later(Vec<u8>, usize),
}

/// A text that was mended at a place, by what is said of it.
fn followed(place: usize, text: Vec<u8>, told: Judgement) -> Mend
    ensures { (again : List ℕ → ℕ → Option (List ℕ)) → outcome again result
        ≡ Mends.follow again place text.items told }
{
    match told {
        Judgement::Fine => Mend::Sure(text),
        Judgement::UnknownPrefix => Mend::Unknown,
        Judgement::Dead(at) => {
            if place < at {
                Mend::Later(text, at)
            } else {
                Mend::Unknown
            }
        }
    }
}

/// What a step makes of a pattern that goes wrong at a place.
fn mend_once(alloc: Global, pattern: &[u8], place: usize) -> Result<Mend, AllocError>
    ensures { IfOk result (λ after. (again : List ℕ → ℕ → Option (List ℕ))
        → outcome again after ≡ Mends.mend_once again pattern.now place) }
{
    let Some(text) = step(alloc, pattern, place)? else {
        return Ok(Mend::Unknown);
    };
    let told = likely_judgement(alloc, &text)?;
    Ok(followed(place, text, told))
}

/// A pattern that goes wrong at a place, mended in a few steps.
fn mended_in_steps(
    alloc: Global,
    pattern: &[u8],
    place: usize,
) -> Result<Option<Vec<u8>>, AllocError>
    ensures { IfOk result (λ found. option_map (λ t. t.items) found
        ≡ Mends.mended_in 4 pattern.now place) }
{
    let mut text = Vec::new(alloc);
    text.extend_from_slice(pattern)?;
    let mut at = place;
    let mut steps = MOST_STEPS;
    while steps > 0 {
        match mend_once(alloc, &text, at)? {
            Mend::Unknown => return Ok(None),
            Mend::Sure(meant) => return Ok(Some(meant)),
            Mend::Later(next, place) => {
                text = next;
                at = place;
            }
        }
        steps -= 1;
    }
    Ok(None)
}

/// Whether a text begins with the name of a field of the machine.
fn begins_field(text: &[u8]) -> bool
    ensures { result ≡ Mends.begins_field text.now }
{
    !field_row(front_of(text, 3)).is_empty() || !field_row(front_of(text, 2)).is_empty()
}

/// Whether a pattern has a colon at a place, and a field after it.
fn is_field_after(place: usize, pattern: &[u8]) -> bool
    requires { place ≤ 256 }
    ensures { result ≡ Mends.is_field_after place pattern.now }
{
    begins_with(b':', rest_of(pattern, place)) && begins_field(rest_of(pattern, place + 1))
}

/// Where that part between colons begins which goes up to a place.
fn start_of(pattern: &[u8], place: usize) -> usize
    ensures start { result ≡ Mends.start_of pattern.now place }
    ensures within { result ≤ length pattern.now }
{
    let mut at = place;
    while at > 0 {
        if begins_with(b':', rest_of(pattern, at - 1)) {
            return at;
        }
        at -= 1;
    }
    0
}

/// A pattern whose bytes from `start` to `end` come before those from `at` on, with a colon between.
fn moved(
    alloc: Global,
    pattern: &[u8],
    at: usize,
    start: usize,
    end: usize,
) -> Result<Vec<u8>, AllocError>
    ensures { IfOk result (λ text. text.items ≡ Mends.moved pattern.now at start end) }
{
    let between = start.saturating_sub(1).saturating_sub(at);
    let mut text = Vec::new(alloc);
    text.extend_from_slice(front_of(pattern, at))?;
    text.extend_from_slice(front_of(rest_of(pattern, start), end.saturating_sub(start)))?;
    text.push(b':')?;
    text.extend_from_slice(front_of(rest_of(pattern, at), between))?;
    text.extend_from_slice(rest_of(pattern, end))?;
    Ok(text)
}

/// Whether nothing is said of a pattern.
fn is_fine(told: Judgement) -> bool
    ensures { result ≡ Mends.is_fine told }
{
    matches!(told, Judgement::Fine)
}

/// A pattern with the field from `start` to `end` before the part that begins after a place, if udev likely asks it then.
fn moved_after(
    alloc: Global,
    pattern: &[u8],
    start: usize,
    end: usize,
    place: usize,
) -> Result<Option<Vec<u8>>, AllocError>
    requires { place ≤ 256 }
    ensures { (other : Option (List ℕ)) → IfOk result (λ found.
        option_or (option_map (λ t. t.items) found) other
        ≡ (if Mends.is_field_after place pattern.now then
        (if Mends.is_fine (Mends.likely_judgement (Mends.moved pattern.now (suc place) start end))
        then Some (Mends.moved pattern.now (suc place) start end) else other) else other)) }
{
    if !is_field_after(place, pattern) {
        return Ok(None);
    }
    let text = moved(alloc, pattern, place + 1, start, end)?;
    if is_fine(likely_judgement(alloc, &text)?) {
        return Ok(Some(text));
    }
    Ok(None)
}

/// The same before a field that begins at a place up to `at`, the last first.
fn moved_before(
    alloc: Global,
    pattern: &[u8],
    start: usize,
    end: usize,
    at: usize,
) -> Result<Option<Vec<u8>>, AllocError>
    requires { at ≤ 256 }
    ensures { IfOk result (λ found. option_map (λ t. t.items) found
        ≡ Mends.moved_before pattern.now start end at) }
{
    let mut left = at;
    while left > 0 {
        if let Some(text) = moved_after(alloc, pattern, start, end, left - 1)? {
            return Ok(Some(text));
        }
        left -= 1;
    }
    Ok(None)
}

/// A pattern that goes wrong in a field of the machine, with that field before one that is before it.
fn ordered(alloc: Global, pattern: &[u8], place: usize) -> Result<Option<Vec<u8>>, AllocError>
    requires { length pattern.now ≤ 256 }
    ensures { IfOk result
        (λ found. option_map (λ t. t.items) found ≡ Mends.ordered pattern.now place) }
{
    let start = start_of(pattern, place);
    let field = rest_of(pattern, start);
    if !begins_field(field) {
        return Ok(None);
    }
    let end = start + end_of(b':', field);
    moved_before(alloc, pattern, start, end, start.saturating_sub(1))
}

/// A pattern that goes wrong at a place, mended in a few steps, or by the order of its fields.
fn mended_short(alloc: Global, pattern: &[u8], place: usize) -> Result<Option<Vec<u8>>, AllocError>
    requires { length pattern.now ≤ 256 }
    ensures { IfOk result (λ found. option_map (λ t. t.items) found
        ≡ option_or (Mends.mended_in 4 pattern.now place) (Mends.ordered pattern.now place)) }
{
    if let Some(text) = mended_in_steps(alloc, pattern, place)? {
        return Ok(Some(text));
    }
    ordered(alloc, pattern, place)
}

/// A pattern that goes wrong at a place, as it was likely meant, if that is sure. The only error is `AllocError`.
///
/// At most four times the bytes that could come are looked for, and a pattern is judged; and once for each field before that place.
pub fn mended(alloc: Global, pattern: &[u8], place: usize) -> Result<Option<Vec<u8>>, AllocError>
    ensures { IfOk result
        (λ found. option_map (λ t. t.items) found ≡ Mends.mended pattern.now place) }
{
    if pattern.len() > LONGEST_MENDED {
        return Ok(None);
    }
    mended_short(alloc, pattern, place)
}

/// What a letter in the wrong case is.
fn letter_words(byte: u8) -> &'static str
    ensures { result.now ≡ Mends.letter_words byte }
{
    if is_hex_digit(byte) {
        "hexadecimal digits are "
    } else {
        "letters are "
    }
}

/// Which case a letter should have.
fn case_words(byte: u8) -> &'static str
    ensures { result.now ≡ Mends.case_words byte }
{
    if is_small(byte) {
        "upper case here"
    } else {
        "lower case here"
    }
}

/// Adds what is wrong with a letter in the other case.
fn push_case_reason(text: &mut Vec<u8>, byte: u8) -> Result<(), AllocError>
    ensures { OnOk result (text.new.items
        ≡ text.old.items ++ (Mends.letter_words byte ++ Mends.case_words byte)) }
{
    text.extend_from_slice(letter_words(byte).as_bytes())?;
    text.extend_from_slice(case_words(byte).as_bytes())
}

/// Whether a colon that came before a rest is gone.
fn is_colon_gone(first: u8, more: &[u8], now: &[u8]) -> bool
    ensures { result ≡ Mends.is_colon_gone first more.now now.now }
{
    first == b':' && same(front_of(more, 1), front_of(now, 1))
}

/// Adds that one byte alone can be there: the first of a rest.
fn push_only(text: &mut Vec<u8>, now: &[u8]) -> Result<(), AllocError>
    ensures { OnOk result (text.new.items ≡ text.old.items ++ Mends.only_words now.now) }
{
    text.extend_from_slice(b"only ")?;
    text.extend_from_slice(front_of(now, 1))?;
    text.extend_from_slice(b" can be here")?;
    Ok(())
}

/// Adds what is wrong with a byte and the rest of a pattern that was meant so: a colon is too much, or one byte alone can be there.
fn push_lead_reason(
    text: &mut Vec<u8>,
    first: u8,
    more: &[u8],
    now: &[u8],
) -> Result<(), AllocError>
    ensures { OnOk result
        (text.new.items ≡ text.old.items ++ Mends.lead_words first more.now now.now) }
{
    if is_colon_gone(first, more, now) {
        return text.extend_from_slice(b"no colon is here");
    }
    push_only(text, now)
}

/// Whether udev wrote `_` in place of a byte, by the rest that was meant from there on.
fn is_underline(byte: u8, now: &[u8]) -> bool
    ensures { result ≡ Mends.is_underline byte now.now }
{
    is_replaced(byte) && begins_with(b'_', now)
}

/// Adds what is wrong with a byte that udev doesn't write.
fn push_underline_reason(text: &mut Vec<u8>, byte: u8) -> Result<(), AllocError>
    ensures { OnOk result (text.new.items ≡ text.old.items ++ Mends.underline_words byte) }
{
    text.extend_from_slice(b"udev makes _ of ")?;
    push_byte(text, byte)
}

/// Adds what is wrong with the rest of a pattern that was meant so.
fn push_reason(text: &mut Vec<u8>, was: &[u8], now: &[u8]) -> Result<(), AllocError>
    ensures { OnOk result (text.new.items ≡ text.old.items ++ Mends.reason was.now now.now) }
{
    let Some((first, more)) = was.split_first() else {
        return Ok(());
    };
    if is_indent(*first) {
        text.extend_from_slice(b"no blank is here")?;
        return Ok(());
    }
    if begins_with(b':', now) {
        text.extend_from_slice(b"a colon is here")?;
        return Ok(());
    }
    if begins_with(turned(*first, *first), now) {
        return push_case_reason(text, *first);
    }
    if is_underline(*first, now) {
        return push_underline_reason(text, *first);
    }
    push_lead_reason(text, *first, more, now)
}

/// Adds what is wrong with a pattern that goes wrong at a place and was meant so.
fn push_mend_reason(
    text: &mut Vec<u8>,
    pattern: &[u8],
    place: usize,
    meant: &[u8],
) -> Result<(), AllocError>
    ensures { OnOk result (text.new.items
        ≡ text.old.items ++ Mends.mend_reason pattern.now place meant.now) }
{
    if same(front_of(pattern, place), front_of(meant, place)) {
        return push_reason(text, rest_of(pattern, place), rest_of(meant, place));
    }
    text.extend_from_slice(b"the fields have another order")
}

/// Adds what is wrong with a pattern that goes wrong at a place, and how it was likely meant.
pub fn push_mend(
    text: &mut Vec<u8>,
    pattern: &[u8],
    place: usize,
    meant: &[u8],
) -> Result<(), AllocError>
    ensures { (other : List ℕ) → OnOk result (text.new.items
        ≡ text.old.items ++ Mends.mend_hint pattern.now place other (Some meant.now)) }
{
    push_mend_reason(text, pattern, place, meant)?;
    text.extend_from_slice(b": write ")?;
    push_shown(text, meant)
}
