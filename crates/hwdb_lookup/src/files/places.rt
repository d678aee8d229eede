//! What is read of a file of which parts can be read.
ghost use Rattle.std.specs.Prelude.{◌≡◌, ◌≤◌, ℕ, List, length, vec_len, IfSome, IsTrue};
ghost use Rattle.hwdb_reader.specs.Passes.Views.{IsPart};

use hwdb_io::Places;
use std::alloc::Global;

/// Whether the buffer was filled with what the file has from `from` on. An empty buffer isn't.
#[tactic(auto, using(crate::proofs::files::PlaceLemmas::filled))]
pub fn fill<P: Places>(places: &P, from: usize, buf: &mut [u8]) -> bool
    ensures { IsTrue result → (file : List ℕ) → P.is_of places.now file
        → IsPart file from buf.new }
{
    match places.part(from, buf) {
        Some(n) => n > 0 && n == buf.len(),
        None => false,
    }
}

/// Whether the file has no more bytes than so many.
#[tactic(auto, using(crate::proofs::files::PlaceLemmas::ended))]
pub fn ends_at<P: Places>(places: &P, size: usize) -> bool
    ensures { IsTrue result → (file : List ℕ) → P.is_of places.now file → length file ≤ size }
{
    let mut more = [0u8; 1];
    match places.part(size, &mut more) {
        Some(n) => n == 0,
        None => false,
    }
}

/// So many bytes of the file, from `from` on.
pub fn read_part<P: Places>(alloc: Global, places: &P, from: usize, n: usize) -> Option<Vec<u8>>
    ensures many { IfSome result (λ bytes. vec_len bytes ≡ n) }
    ensures long { IfSome result (λ bytes. length bytes.items ≡ n) }
    ensures part { IfSome result (λ bytes. (file : List ℕ) → P.is_of places.now file
        → IsPart file from bytes.items) }
{
    let Ok(mut bytes) = vec![in alloc; 0u8; n] else {
        return None;
    };
    if !fill(places, from, &mut bytes) {
        return None;
    }
    Some(bytes)
}
