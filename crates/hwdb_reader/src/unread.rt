//! The values of a node, without a look at their texts. Texts at one place of a database are one, so that who walks it reads
//! few of them.
ghost use Rattle.std.specs.Prelude.{◌<◌, length};

use crate::fields::text;

/// A text of a database, which wasn't read.
#[derive(Clone, Copy)]
pub struct StoredText<'a> {
    pub(crate) bytes: &'a [u8],
    pub(crate) at: usize,
    ghost inside: { at < length bytes.now },
}

/// A value of a node, whose texts weren't read.
#[derive(Clone, Copy)]
pub struct UnreadEntry<'a> {
    /// The priority of its file.
    pub priority: u16,
    /// The line of its property.
    pub line: u32,
    /// The stored key.
    pub key: StoredText<'a>,
    /// The value.
    pub value: StoredText<'a>,
    /// The stored path of its file.
    pub path: StoredText<'a>,
}

impl<'a> StoredText<'a> {
    ghost use Rattle.std.specs.Prelude.{◌≡◌, true};
    ghost use Rattle.hwdb_reader.specs.Unread.{file_of, text_of};

    /// The text. Takes as many steps as it has bytes.
    #[tactic(auto, unfolding(crate::specs::Unread::text_of))]
    pub fn read(self) -> &'a [u8]
        ensures { result.now ≡ text_of self.entry }
    {
        text(self.bytes, self.at)
    }

    /// Whether two texts of a database are at one place.
    #[tactic(auto, unfolding(crate::specs::Unread::text_of, crate::specs::Unread::file_of))]
    pub fn is_at(self, other: StoredText<'_>) -> bool
        requires { file_of self ≡ file_of other }
        ensures { result ≡ true → text_of self.entry ≡ text_of other.entry }
    {
        self.at == other.at
    }
}

impl<'a> UnreadEntry<'a> {
    ghost use Rattle.std.specs.Prelude.{◌≡◌, is_some};
    ghost use Rattle.hwdb_spec.specs.Tree.{key_of};
    ghost use Rattle.hwdb_reader.specs.Unread.{text_of};

    /// Whether the stored key begins with a space. Else the entry is no assignment.
    pub fn has_key(&self) -> bool
        ensures { result ≡ is_some (key_of (text_of self.now.key)) }
    {
        self.key.bytes[self.key.at] == b' '
    }
}
