//! Records that say their assignment for sure, by a few searches of their bytes. So nearly no record has to be read as a
//! file.
ghost use Rattle.std.specs.Prelude.{◌≡◌, ◌<◌, ◌^◌, true, IsTrue};
ghost use Rattle.hwdb_spec_commands.specs.Dump;
ghost use Rattle.hwdb_spec.specs.Lines;
ghost use Rattle.hwdb_databases.specs.Internal.Holding.{shown_of};
ghost use Rattle.hwdb_databases.specs.Internal.Plain;
ghost use Rattle.hwdb_databases.specs.Internal.Plain.{body_text};

use crate::records::Shown;
use hwdb_text::{LONGEST_MATCH, begins_with, end_of};

fn is_blank(byte: u8) -> bool
    ensures { result ≡ Lines.is_blank byte }
{
    matches!(byte, 9..=13 | 32)
}

/// Whether a search for a byte comes to the end of a text.
fn lacks(byte: u8, text: &[u8]) -> bool
    ensures { result ≡ Plain.lacks byte text.now }
{
    end_of(byte, text) == text.len()
}

/// Whether a text is empty, or its last byte isn't a blank.
fn ends_well(text: &[u8]) -> bool
    ensures { result ≡ Plain.ends_well text.now }
{
    text.is_empty() || !is_blank(text[text.len() - 1])
}

/// Whether a pattern begins and ends as a clean match line does, and isn't too long.
fn is_match(pattern: &[u8]) -> bool
    ensures { result ≡ Plain.is_match pattern.now }
{
    !pattern.is_empty()
        && !begins_with(b' ', pattern)
        && pattern.len() <= LONGEST_MATCH
        && ends_well(pattern)
}

/// Whether a key begins and a value ends as a clean property line does.
fn is_property(key: &[u8], value: &[u8]) -> bool
    ensures { result ≡ Plain.is_property key.now value.now }
{
    !key.is_empty() && !begins_with(b' ', key) && !begins_with(b'\t', key) && ends_well(value)
}

/// Whether the first `=` is after a key, and the first newline two bytes before the end.
fn is_cut(own: &[u8], key: usize) -> bool
    ensures { result ≡ Plain.is_cut own.now key }
{
    own.len() >= 2 && end_of(b'=', own) == key && end_of(b'\n', own) == own.len() - 2
}

/// Whether the body of a record has newlines at the ends of its lines alone, and no byte 0 or `#`.
fn is_laid_out(body: &[u8], pattern: usize, key: usize) -> bool
    ensures { result ≡ Plain.is_laid_out body.now pattern key }
{
    lacks(0, body)
        && lacks(b'#', body)
        && end_of(b'\n', body) == pattern
        && body.len() >= 2
        && pattern <= body.len() - 2
        && is_cut(&body[pattern + 2..], key)
}

/// Whether all tests are passed.
fn passes(body: &[u8], f: &Shown<'_, '_>) -> bool
    ensures { result ≡ Plain.is_plain (shown_of f.now) body.now }
{
    lacks(b'\n', f.member.path)
        && is_match(f.pattern)
        && is_property(f.member.key, f.member.value)
        && is_laid_out(body, f.pattern.len(), f.member.key.len())
}

/// The number of a line has few digits.
fn law_small(line: u32)
    ensures { line < 2 ^ 64 }
{}

/// Whether a text, which is a record without its comment, shows at once that the record says its assignment.
pub(crate) fn is_plain(body: &[u8], f: &Shown<'_, '_>) -> bool
    requires { body.now ≡ body_text (shown_of f.now) }
    ensures { IsTrue result → Dump.is_said (shown_of f.now) ≡ true }
{
    law_small(f.member.line);
    passes(body, f)
}
