//! A file of which parts can be read.
ghost use Rattle.std.specs.Prelude.{◌≡◌, ◌≤◌, ℕ, List, length, take, drop, IfSome};

/// A file of which parts can be read.
pub trait Places {
    /// The file may be the one that is read.
    ghost is_of: { Self → List ℕ → Type 0 };

    /// Reads what the file has from `from` on, up to its end or the buffer's. Answers how many bytes these are, or None
    /// if that can't be told.
    fn part(&self, from: usize, buf: &mut [u8]) -> Option<usize>
        ensures within { IfSome result (λ n. n ≤ length buf.new) }
        ensures part { IfSome result (λ n. (file : List ℕ) → is_of self.now file
            → take n buf.new ≡ take (length buf.new) (drop from file)) };
}
