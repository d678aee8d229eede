//! A layout that was checked.
ghost use Rattle.std.specs.Prelude.{◌≤◌};

use hwdb_spec::Layout;

/// A layout whose records have room for their known fields.
#[derive(Clone, Copy)]
pub struct Frame {
    /// The sizes that the header announces, and the places of the parts.
    pub sizes: Layout,
    ghost node_fields: { 24 ≤ sizes.node_size },
    ghost child_fields: { 16 ≤ sizes.child_size },
    ghost value_fields: { 32 ≤ sizes.value_size },
}
