//! Texts put into a buffer of C's.
ghost use Rattle.std.specs.Prelude.{◌≡◌, ◌++◌, ◌<◌, length, drop, MatchBool};

/// Puts the text into the front of the buffer, if the buffer has room for it. Answers whether it has.
pub fn put(text: &[u8], out: &mut [u8]) -> bool
    ensures { MatchBool result
        (out.new ≡ text.now ++ drop (length text.now) out.old)
        ((length out.old < length text.now) × (out.new ≡ out.old)) }
{
    if out.len() < text.len() {
        return false;
    }
    let (front, _) = out.split_at_mut(text.len());
    front.copy_from_slice(text);
    true
}
