//! Whether texts are one.
ghost use Rattle.std.specs.Prelude.{◌≡◌};
ghost use Rattle.hwdb_spec.specs.Folders.{same};

/// Whether two texts are one. Many bytes are compared at once, so that this is faster than an order's answer.
pub(crate) fn is_same(one: &[u8], other: &[u8]) -> bool
    ensures { result ≡ same one.now other.now }
{
    one == other
}
