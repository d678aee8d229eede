//! A database that was accepted before.
ghost use Rattle.std.specs.Prelude.{◌≡◌};
ghost use Rattle.hwdb_spec.specs.Tree.{Tree};
ghost use Rattle.hwdb_spec.specs.Format.{IsDatabase};

use crate::checker::MAX_LEVELS;
use crate::header::frame_of;
use crate::stars::no_stars;
use crate::view::{Db, Node};

/// The view of bytes that [`check`](crate::check) accepted before. Reads the header alone, and takes no memory. For
/// callers that keep the bytes and not the view, as the C library does.
pub fn reopen(bytes: &[u8]) -> Db<'_>
    requires { (t : Tree) × IsDatabase bytes.now t }
    ensures { (t : Tree) → IsDatabase bytes.now t → result ≡ t }
{
    let frame = frame_of(bytes);
    Db {
        root: Node {
            bytes,
            frame,
            levels: MAX_LEVELS,
            offset: frame.sizes.root,
            stars: no_stars(),
        },
    }
}
