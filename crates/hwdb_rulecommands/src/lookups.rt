//! What a command of the builtin hwdb asks.
ghost use Rattle.std.specs.Prelude.{◌≡◌, ◌≤◌, drop, length, map};
ghost use Rattle.hwdb_rulecommands.specs.LookupCommands;
ghost use Rattle.hwdb_rulecommands.specs.Views.{lookup_of, lookup_view, text_view, word_of};

use crate::settable::is_same;

/// What a command asks: the string of prefix and text if there is a text, else those of the device and its parents.
#[derive(Clone, Copy)]
pub struct Lookup<'a> {
    /// The subsystem of the parents that are asked.
    pub subsystem: Option<&'a [u8]>,
    /// What comes before each text.
    pub prefix: &'a [u8],
    /// The text.
    pub text: Option<&'a [u8]>,
}

const SUBSYSTEM: &[u8] = b"--subsystem=";

const PREFIX: &[u8] = b"--lookup-prefix=";

/// A word that begins with a dash, and isn't a dash alone.
fn is_option(word: &[u8]) -> bool
    ensures { result ≡ LookupCommands.is_option word.now }
{
    if is_same(word, b"-") {
        return false;
    }
    if word.is_empty() {
        return false;
    }
    word[0] == b'-'
}

fn first_text<'a>(text: Option<&'a [u8]>, word: &'a [u8]) -> Option<&'a [u8]>
    ensures { text_view result ≡ LookupCommands.first_text (text_view text.entry) word.now }
{
    match text {
        None => Some(word),
        Some(text) => Some(text),
    }
}

/// A word without its first bytes.
fn after(count: usize, word: &[u8]) -> &[u8]
    requires { count ≤ length word.now }
    ensures { result.now ≡ drop count word.now }
{
    &word[count..]
}

/// What is asked with one more word that gives no subsystem. None if it is an option that isn't followed.
fn with_other<'a>(lookup: Lookup<'a>, word: &'a [u8]) -> Option<Lookup<'a>>
    ensures { lookup_view result ≡ LookupCommands.with_other (lookup_of lookup.entry) word.now }
{
    if word.starts_with(PREFIX) {
        return Some(Lookup {
            subsystem: lookup.subsystem,
            prefix: after(PREFIX.len(), word),
            text: lookup.text,
        });
    }
    if is_option(word) {
        return None;
    }
    Some(Lookup {
        subsystem: lookup.subsystem,
        prefix: lookup.prefix,
        text: first_text(lookup.text, word),
    })
}

/// What is asked with one more word.
fn with_word<'a>(lookup: Lookup<'a>, word: &'a [u8]) -> Option<Lookup<'a>>
    ensures { lookup_view result ≡ LookupCommands.with_word (lookup_of lookup.entry) word.now }
{
    if word.starts_with(SUBSYSTEM) {
        return Some(Lookup {
            subsystem: Some(after(SUBSYSTEM.len(), word)),
            prefix: lookup.prefix,
            text: lookup.text,
        });
    }
    with_other(lookup, word)
}

/// What a command of the builtin hwdb asks, by its words after the builtin's name. None if one of the words isn't followed.
///
/// It takes no memory, and its time is linear in the words' number.
pub fn lookup_command(words: &[Vec<u8>]) -> Option<Lookup<'_>>
    ensures { lookup_view result ≡ LookupCommands.lookup_of (map word_of words.now) }
{
    let mut lookup = Lookup {
        subsystem: None,
        prefix: b"",
        text: None,
    };
    for word in words {
        let Some(next) = with_word(lookup, word) else {
            return None;
        };
        lookup = next;
    }
    Some(lookup)
}
