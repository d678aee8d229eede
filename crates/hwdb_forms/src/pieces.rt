//! Forms as data.
use hwdb_spec::ByteSet;

/// A piece of a form.
#[derive(Clone, Copy)]
pub(crate) enum Piece {
    /// These bytes.
    Fixed(&'static [u8]),
    /// So many bytes of a set.
    Counted(ByteSet, usize),
    /// Any number of bytes of a set.
    Repeated(ByteSet),
}

/// Which forms.
#[derive(Clone, Copy)]
pub(crate) enum Table {
    /// Those of the texts that udev asks.
    Asked,
    /// Those of the texts that it likely asks.
    Likely,
}

/// A form: the bytes that its texts begin with, and then fields, each one of several ways.
#[derive(Clone, Copy)]
pub(crate) struct FormRow {
    pub(crate) prefix: &'static [u8],
    pub(crate) fields: &'static [&'static [&'static [Piece]]],
}
