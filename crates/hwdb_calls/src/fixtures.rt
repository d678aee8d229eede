//! What the tests need a contract for.
ghost use Rattle.std.specs.Bool.{OnTrue};
ghost use Rattle.hwdb_writer.specs.Internal.Storable.{HasNoZero};

/// Whether there is no byte 0.
pub fn has_no_zero(text: &[u8]) -> bool
    ensures { OnTrue result (HasNoZero text.now) }
{
    match text {
        [] => true,
        [first, rest @ ..] => {
            if *first == 0 {
                return false;
            }
            has_no_zero(rest)
        }
    }
}
