//! Why bytes weren't read.
use hwdb_spec::Cause;

/// Why bytes weren't read.
#[derive(Clone, Copy, Debug, PartialEq, Eq)]
pub enum Unread {
    /// There are more than a file may have.
    TooLong,
    /// A call failed, for this cause if it is known.
    Failed(Option<Cause>),
    /// Memory was refused.
    Memory,
}
