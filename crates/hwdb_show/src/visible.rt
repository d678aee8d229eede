//! Texts and names without bytes that a terminal would act on.
ghost use Rattle.std.specs.Prelude.{◌≡◌, ◌<◌, ◌≤◌, ◌+◌, ◌++◌, ℕ, All, Bool, List, chars, drop, false, length, slice_index, take, true, OnErr, OnOk};
ghost use Rattle.std.specs.List.{list_all};
ghost use Rattle.std.specs.Str.{continuation_len};
ghost use Rattle.hex.specs.Hex.{IsBytes};
ghost use Rattle.hwdb_spec_commands.specs.Colours.{painted, without_sequences};
ghost use Rattle.hwdb_spec.specs.Outputs.{CutShort, Took};
ghost use Rattle.hwdb_spec.specs.Patterns.{in_span};
ghost use Rattle.hwdb_spec.specs.Visible.{are_kept, hex_byte, is_kept, shown_as, shown_name, visible, visible_after};
ghost use Rattle.hwdb_show.specs.Rows.{Rows};

use crate::shown::{DIGITS, is_printed, push_digits};
use hwdb_io::{Sink, write_text};
use hwdb_spec::DeviceFailed;
use hwdb_spec_commands::TextKind;
use std::alloc::AllocError;

/// Whether a character is kept as it is.
fn is_kept(in_name: bool, c: char) -> bool
    ensures { result ≡ is_kept in_name c }
{
    match c {
        '\t' | '\n' => !in_name,
        _ => !c.is_control(),
    }
}

/// Whether each character of a text is.
fn all_kept(in_name: bool, text: &str) -> bool
    ensures { result ≡ list_all (is_kept in_name) (chars text.now) }
{
    let mut kept = true;
    for c in text.chars() {
        kept &= is_kept(in_name, c);
    }
    kept
}

/// Whether bytes are a text, of which each character is kept.
fn are_kept(in_name: bool, bytes: &[u8]) -> bool
    ensures { result ≡ are_kept in_name bytes.now }
{
    match str::from_utf8(bytes) {
        Ok(text) => all_kept(in_name, text),
        Err(_) => false,
    }
}

/// How many bytes follow the first one of a character.
fn continuation_len(byte: u8) -> usize
    ensures { result ≡ continuation_len byte }
{
    match byte {
        0..=127 => 0,
        128..=223 => 1,
        224..=239 => 2,
        _ => 3,
    }
}

/// The first bytes of a text.
fn front(text: &[u8], count: usize) -> &[u8]
    ensures { result.now ≡ take count text.now }
{
    if count < text.len() {
        &text[..count]
    } else {
        text
    }
}

/// How the first byte of what is left of a text is shown.
#[derive(Clone, Copy)]
struct Step {
    /// As it is, or in hexadecimal digits.
    kept: bool,
    /// How many of the bytes after it belong to a character that is kept.
    left: usize,
}

/// How the byte at a place is shown, if so many bytes from there on belong to a character that is kept.
#[tactic(auto, using(crate::proofs::VisibleLemmas::step_inside))]
fn step_at(in_name: bool, text: &[u8], i: usize, left: usize) -> Step
    requires { i < length text.now }
    ensures { visible_after in_name left (drop i text.now)
        ≡ shown_as result.kept (slice_index text.now i)
        ++ visible_after in_name result.left (drop (i + 1) text.now) }
{
    if left > 0 {
        return Step {
            kept: true,
            left: left - 1,
        };
    }
    let more = continuation_len(text[i]);
    if are_kept(in_name, front(&text[i..], 1 + more)) {
        return Step {
            kept: true,
            left: more,
        };
    }
    Step {
        kept: false,
        left: 0,
    }
}

/// Adds a byte as it is, or in hexadecimal digits.
fn push_as(shown: &mut Vec<u8>, kept: bool, byte: u8) -> Result<(), AllocError>
    ensures { OnOk result (shown.new.items ≡ shown.old.items ++ shown_as kept byte) }
{
    if kept {
        shown.push(byte)?;
        return Ok(());
    }
    push_digits(shown, byte)
}

/// Adds a text, or a name, as it is shown. The only error is want of memory.
pub fn push_visible(shown: &mut Vec<u8>, in_name: bool, text: &[u8]) -> Result<(), AllocError>
    ensures { OnOk result
        (shown.new.items ≡ shown.old.items ++ visible_after in_name 0 text.now) }
{
    let mut left = 0;
    'showing: for i in 0..text.len() {
        let next = step_at(in_name, text, i, left);
        push_as(shown, next.kept, text[i])?;
        left = next.left;
    }
    Ok(())
}

/// Whether ASCII prints each byte of a text.
fn all_printed(text: &[u8]) -> bool
    ensures { result ≡ list_all (λ b. in_span b (32, 126)) text.now }
{
    let mut printed = true;
    for byte in text {
        printed &= is_printed(*byte);
    }
    printed
}

/// Adds a name, as it is shown. One that ASCII prints is copied.
#[tactic(auto, using(crate::proofs::VisibleLemmas::printed_name))]
pub fn push_name(text: &mut Vec<u8>, name: &[u8]) -> Result<(), AllocError>
    ensures { OnOk result (text.new.items ≡ text.old.items ++ shown_name name.now) }
{
    if all_printed(name) {
        return text.extend_from_slice(name);
    }
    push_visible(text, true, name)
}

/// A byte as `\x` and its two hexadecimal digits.
#[tactic(auto, unfolding(hex::specs::Hex::encode_with))]
fn hex_byte(byte: u8) -> [u8; 4]
    ensures { result ≡ hex_byte byte }
{
    [
        b'\\',
        b'x',
        DIGITS[(byte / 16) as usize],
        DIGITS[(byte % 16) as usize],
    ]
}

/// Writes a byte as it is, or in hexadecimal digits.
fn write_as<W: Sink>(sink: &mut W, kept: bool, byte: u8) -> Result<(), DeviceFailed>
    ensures took { OnOk result (Took (shown_as kept byte)
        (W.taken sink.old) (W.taken sink.new) (W.failures sink.old) (W.failures sink.new)) }
    ensures flushed { OnOk result (W.is_flushed sink.new) }
    ensures cut_short { OnErr result (CutShort (shown_as kept byte)
        (W.taken sink.old) (W.taken sink.new) (W.failures sink.old) (W.failures sink.new)) }
{
    if kept {
        write_text(sink, &[byte])
    } else {
        write_text(sink, &hex_byte(byte))
    }
}

/// Writes a text, or a name, as it is shown. Takes no memory. The first call that fails ends it.
pub fn write_visible<W: Sink>(sink: &mut W, in_name: bool, text: &[u8]) -> Result<(), DeviceFailed>
    ensures took { OnOk result (Took (visible_after in_name 0 text.now)
        (W.taken sink.old) (W.taken sink.new) (W.failures sink.old) (W.failures sink.new)) }
    ensures flushed { OnOk result (W.is_flushed sink.old → W.is_flushed sink.new) }
    ensures cut_short { OnErr result (CutShort (visible_after in_name 0 text.now)
        (W.taken sink.old) (W.taken sink.new) (W.failures sink.old) (W.failures sink.new)) }
{
    let mut left = 0;
    'writing: for i in 0..text.len() {
        let next = step_at(in_name, text, i, left);
        match write_as(sink, next.kept, text[i]) {
            Ok(()) => {}
            Err(error) => return Err(error),
        }
        left = next.left;
    }
    Ok(())
}

/// What is shown has no character for control: of a text newlines and tabs alone, of a name none. A text that has no others
/// is shown as it is. Colours come after, so that a text in colour has no sequences but theirs.
pub fn shown_has_no_control()
    ensures kept { (in_name : Bool) (text : List ℕ) → IsBytes text
        → are_kept in_name (visible_after in_name 0 text) ≡ true }
    ensures same { (in_name : Bool) (text : List ℕ) → are_kept in_name text ≡ true
        → visible_after in_name 0 text ≡ text }
    ensures coloured { (kind : TextKind) (text : List ℕ) → IsBytes text
        → without_sequences false (painted kind (visible text)) ≡ visible text }
    ensures rows { Rows }
{}

/// What is shown of a name has no character for control, and so no newline: no name makes a line of its own. Each of its bytes
/// is 32 or more.
pub fn names_forge_no_line()
    ensures kept { (name : List ℕ) → IsBytes name → are_kept true (shown_name name) ≡ true }
    ensures above { (name : List ℕ) → IsBytes name → All (λ b. 32 ≤ b) (shown_name name) }
{}
