//! The named classes of bytes that a bracket may have, as in the POSIX locale.
ghost use Rattle.std.specs.Prelude.{◌≡◌, ◌≤◌, length, IfSome};
ghost use Rattle.hwdb_spec.specs.Patterns.{class_text, class_spans};
ghost use Rattle.hwdb_pattern.specs.Internal.Parts.{class_at, in_spans};

use hwdb_spec::Class;

const ALL: [Class; 12] = [
    Class::Alnum,
    Class::Alpha,
    Class::Blank,
    Class::Cntrl,
    Class::Digit,
    Class::Graph,
    Class::Lower,
    Class::Print,
    Class::Punct,
    Class::Space,
    Class::Upper,
    Class::Xdigit,
];

/// Whether the class holds the byte.
pub(crate) fn holds(class: Class, byte: u8) -> bool
    ensures { result ≡ in_spans (class_spans class) byte }
{
    match class {
        Class::Alnum => matches!(byte, b'0'..=b'9' | b'A'..=b'Z' | b'a'..=b'z'),
        Class::Alpha => matches!(byte, b'A'..=b'Z' | b'a'..=b'z'),
        Class::Blank => matches!(byte, 9 | 32),
        Class::Cntrl => matches!(byte, 0..=31 | 127),
        Class::Digit => matches!(byte, b'0'..=b'9'),
        Class::Graph => matches!(byte, 33..=126),
        Class::Lower => matches!(byte, b'a'..=b'z'),
        Class::Print => matches!(byte, 32..=126),
        Class::Punct => matches!(byte, 33..=47 | 58..=64 | 91..=96 | 123..=126),
        Class::Space => matches!(byte, 9..=13 | 32),
        Class::Upper => matches!(byte, b'A'..=b'Z'),
        Class::Xdigit => matches!(byte, b'0'..=b'9' | b'A'..=b'F' | b'a'..=b'f'),
    }
}

/// How the class is written in a bracket.
pub(crate) fn text_of(class: Class) -> &'static [u8]
    ensures { result.now ≡ class_text class }
{
    match class {
        Class::Alnum => b"[:alnum:]",
        Class::Alpha => b"[:alpha:]",
        Class::Blank => b"[:blank:]",
        Class::Cntrl => b"[:cntrl:]",
        Class::Digit => b"[:digit:]",
        Class::Graph => b"[:graph:]",
        Class::Lower => b"[:lower:]",
        Class::Print => b"[:print:]",
        Class::Punct => b"[:punct:]",
        Class::Space => b"[:space:]",
        Class::Upper => b"[:upper:]",
        Class::Xdigit => b"[:xdigit:]",
    }
}

/// The named class at the beginning of the text, if there is one.
pub(crate) fn named_class(text: &[u8]) -> Option<Class>
    ensures class { result ≡ class_at text.now }
    ensures within { IfSome result (λ class. length (class_text class) ≤ length text.now) }
{
    if text.len() < 2 {
        return None;
    }
    if text[1] != b':' {
        return None;
    }
    for class in ALL {
        if text.starts_with(text_of(class)) {
            return Some(class);
        }
    }
    None
}
