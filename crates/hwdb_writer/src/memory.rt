//! Memory of lists that were let go of, for those that come after them.
use std::alloc::Global;

/// How many bytes are asked for: less than the most that counts for glibc, 32 MiB.
const ROOM: usize = 33_000_000;

/// Asks for much memory, and gives it back unused.
///
/// glibc then keeps the memory of lists up to that length when they are let go of, and gives it to the next ones. Else each
/// long list gets pages from the system, which clears them. If so much isn't there, nothing is lost.
pub fn keep_pages(alloc: Global) {
    let _room = Vec::<u8>::with_capacity(alloc, ROOM);
}
