//! A node whose record was entered.
ghost use Rattle.std.specs.Prelude.{◌≡◌, ◌≤◌, ◌<◌, ◌+◌, length};
ghost use Rattle.hwdb_spec.specs.Format.{children_count, values_count, record_end};
ghost use Rattle.hwdb_lookup.specs.Internal.Parts.{size_of};

use crate::parts::Parts;
use hwdb_reader::Frame;

/// A node whose record was entered.
#[derive(Clone, Copy)]
pub struct LazyNode<'a> {
    /// The file.
    pub known: Parts<'a>,
    /// Its layout.
    pub frame: Frame,
    /// The offset of the record.
    pub off: usize,
    /// The record.
    pub bytes: &'a [u8],
    /// The offset of the prefix.
    pub prefix: usize,
    /// How many children the node has.
    pub children: usize,
    /// How many values it has.
    pub values: usize,
    /// The offset at which the record ends.
    pub end: usize,
    ghost strings: { frame.sizes.strings ≤ size_of known },
    ghost inside: { record_end frame.sizes bytes.now 0 ≤ length bytes.now },
    ghost some_children: { children ≡ children_count bytes.now 0 },
    ghost some_values: { values ≡ values_count bytes.now 0 },
    ghost place: { prefix < size_of known },
    ghost long: { off + 24 ≤ end },
    ghost below: { end ≤ frame.sizes.strings },
    ghost whole: { off + length bytes.now ≡ end },
}
