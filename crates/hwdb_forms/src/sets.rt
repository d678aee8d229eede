//! Sets of bytes, and which tokens take one of theirs.
ghost use Rattle.std.specs.Prelude.{◌≡◌, if◌then◌else◌, true, false};
ghost use Rattle.std.specs.List.{list_any};
ghost use Rattle.hwdb_spec.specs.Patterns.{admits_byte, token_at};
ghost use Rattle.hwdb_spec.specs.Forms.{candidates, is_in};
ghost use Rattle.hwdb_spec.specs.Forms;
ghost use Rattle.hwdb_spec.specs.declared.ByteSet.TheVariants.{Only};
ghost use Rattle.hwdb_forms.specs.Internal;

use hwdb_pattern::begins_with;
use hwdb_spec::ByteSet;

/// Whether the set has the byte.
#[inline(always)]
pub(crate) fn has(set: ByteSet, byte: u8) -> bool
    ensures { result ≡ is_in set byte }
{
    match set {
        ByteSet::Only(own) => byte == own,
        ByteSet::UpperHex => matches!(byte, b'0'..=b'9' | b'A'..=b'F'),
        ByteSet::LowerHex => matches!(byte, b'0'..=b'9' | b'a'..=b'f'),
        ByteSet::AnyHex => matches!(byte, b'0'..=b'9' | b'A'..=b'F' | b'a'..=b'f'),
        ByteSet::HexOrBlank => matches!(byte, b' ' | b'0'..=b'9' | b'a'..=b'f'),
        ByteSet::InputBits => {
            matches!(byte, b',' | b'0'..=b'9' | b'A'..=b'F' | b'a' | b'e'..=b'f' | b'k'..=b'm' | b'r'..=b's' | b'w')
        }
        ByteSet::Units => matches!(byte, b' ' | b'0'..=b':' | b'a'..=b'f' | b'x'),
        ByteSet::Name => matches!(byte, b'-' | b'0'..=b'9' | b'A'..=b'Z' | b'_' | b'a'..=b'z'),
        ByteSet::Names => matches!(byte, b'-' | b'0'..=b':' | b'A'..=b'Z' | b'_' | b'a'..=b'z'),
        ByteSet::Dmi => matches!(byte, b'!'..=b'9' | b';'..=b'~'),
        ByteSet::DmiLeft => {
            matches!(byte, b'#'..=b'%' | b'+'..=b'9' | b'=' | b'?'..=b'Z' | b'\\' | b'_' | b'a'..=b'z')
        }
        ByteSet::Left => {
            matches!(byte, b' ' | b'#'..=b'%' | b'+'..=b':' | b'=' | b'?'..=b'Z' | b'\\' | b'_' | b'a'..=b'z' | 128..=255)
        }
        ByteSet::LeftButColon => {
            matches!(byte, b' ' | b'#'..=b'%' | b'+'..=b'9' | b'=' | b'?'..=b'Z' | b'\\' | b'_' | b'a'..=b'z' | 128..=255)
        }
        ByteSet::Any => matches!(byte, 1..=255),
    }
}

/// Whether the byte is in the set, and the token that begins the text admits it.
fn takes_of_set(text: &[u8], set: ByteSet, byte: u8) -> bool
    ensures { result ≡ Internal.takes_of_set (token_at text.now) set byte }
{
    has(set, byte) && begins_with(text, byte)
}

/// Whether a bracket that begins the text takes a byte of the set. All bytes are tried.
fn bracket_takes(text: &[u8], set: ByteSet) -> bool
    ensures { result ≡ list_any (Internal.takes_of_set (token_at text.now) set) (candidates set) }
{
    if let ByteSet::Only(own) = set {
        return takes_of_set(text, set, own);
    }
    let mut byte = 0u8;
    while byte < u8::MAX {
        if takes_of_set(text, set, byte) {
            return true;
        }
        byte += 1;
    }
    takes_of_set(text, set, byte)
}

/// As `bracket_takes`. The byte after the bracket is tried first, which most brackets take.
fn bracket_meets(text: &[u8], set: ByteSet) -> bool
    ensures { result ≡ list_any (Internal.takes_of_set (token_at text.now) set) (candidates set) }
{
    if text.len() > 1 {
        if takes_of_set(text, set, text[1]) {
            return true;
        }
    }
    bracket_takes(text, set)
}

/// Whether the token that begins the text takes a byte of the set; a star does.
#[inline(always)]
pub(crate) fn meets(text: &[u8], set: ByteSet) -> bool
    ensures { result ≡ Forms.meets (token_at text.now) set }
{
    if text.is_empty() {
        return has(set, 0);
    }
    if text[0] == b'*' {
        return true;
    }
    if text[0] == b'?' {
        return true;
    }
    if text[0] == b'[' {
        return bracket_meets(text, set);
    }
    has(set, text[0])
}

/// Whether the byte is this one.
fn is_own(own: u8, byte: u8) -> bool
    ensures { result ≡ is_in (Only own) byte }
{
    byte == own
}

/// As `meets`, of one byte. A token for a byte of its own is compared with it at once.
#[inline(always)]
pub(crate) fn meets_byte(text: &[u8], byte: u8) -> bool
    ensures { result ≡ Forms.meets (token_at text.now) (Only byte) }
{
    if text.is_empty() {
        return meets(text, ByteSet::Only(byte));
    }
    let first = text[0];
    if first == b'*' || first == b'?' || first == b'[' {
        return meets(text, ByteSet::Only(byte));
    }
    is_own(byte, first)
}

/// Whether it is seen at once that the token that begins the text doesn't take the byte: it is another byte.
#[inline(always)]
pub(crate) fn differs(text: &[u8], byte: u8) -> bool
    ensures { result ≡ true → Forms.meets (token_at text.now) (Only byte) ≡ false }
{
    if text.is_empty() {
        return false;
    }
    if text[0] == b'[' {
        return false;
    }
    !meets_byte(text, byte)
}
