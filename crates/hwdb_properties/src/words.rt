//! Names that lost words, and names with odd bytes.
ghost use Rattle.std.specs.Prelude.{◌≡◌, not};
ghost use Rattle.std.specs.List.{list_all};
ghost use Rattle.hwdb_spec_commands.specs.Properties;
ghost use Rattle.hwdb_spec_commands.specs.Surroundings;

use crate::names::same_letters;
use crate::numbers::is_lower_hex;
use crate::rows::is_family;
use hwdb_text::{Pieces, trim};

/// Whether a text is one of the words of a name.
fn is_word_of(own: &[u8], text: &[u8]) -> bool
    ensures { result ≡ Properties.is_word_of own.now text.now }
{
    for word in Pieces::new(b'_', own) {
        if same_letters(text, word) {
            return true;
        }
    }
    false
}

/// Whether a text is a word of a row's name, or a code if all names that begin so are meant.
fn is_known_word(own: &[u8], text: &[u8]) -> bool
    ensures { result ≡ Properties.is_known_word own.now text.now }
{
    is_word_of(own, text) || is_family(own) && is_lower_hex(text)
}

/// Whether a name has no words but those of a row's name.
pub fn has_lost_words(own: &[u8], name: &[u8]) -> bool
    ensures { result ≡ Properties.has_lost_words own.now name.now }
{
    for word in Pieces::new(b'_', name) {
        if !is_known_word(own, word) {
            return false;
        }
    }
    true
}

/// Whether a byte is in names that rules ask for.
fn is_name_byte(byte: u8) -> bool
    ensures { result ≡ Surroundings.is_name_byte byte }
{
    matches!(byte, b'.' | b'0'..=b'9' | b'A'..=b'Z' | b'_' | b'a'..=b'z')
}

/// Whether a text has another byte.
fn has_odd_byte(text: &[u8]) -> bool
    ensures { result ≡ not (list_all Surroundings.is_name_byte text.now) }
{
    for byte in text {
        if !is_name_byte(*byte) {
            return true;
        }
    }
    false
}

/// Whether a name has another byte, but for blanks at its end.
pub fn is_odd_name(name: &[u8]) -> bool
    ensures { result ≡ Surroundings.is_odd_name name.now }
{
    has_odd_byte(trim(name))
}
