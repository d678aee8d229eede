//! The database of a stream of devices: bytes that may be replaced between two answers.
ghost use Rattle.std.specs.Prelude.{◌≡◌, ℕ, List, IfSome, None};
ghost use Rattle.hwdb_spec.specs.Tree.{Tree};
ghost use Rattle.hwdb_spec.specs.Format.{IsDatabase};
ghost use Rattle.hwdb_spec_commands.specs.Reloads.{IsReloadLine};

use hwdb_io::{DeviceFailed, Sink};

/// The bytes of the database that answers. Between two answers others may come in their place, whole.
pub trait Renewal {
    /// The bytes.
    ghost held: { Self → List ℕ };

    /// No others come in their place.
    ghost stays: { Self → Type 0 };

    /// The bytes that answer now. Takes no time.
    fn bytes(&self) -> &[u8]
        ensures { result.now ≡ held self.now };

    /// Takes those that came in their place, if there are any. They are a database, if those before were one. Returns the line
    /// to say, if what came can't be taken, or can be taken again.
    fn renew(&mut self) -> Option<Vec<u8>>
        ensures database { (t : Tree) → IsDatabase (held self.old) t
            → (u : Tree) × IsDatabase (held self.new) u }
        ensures same { stays self.old → held self.new ≡ held self.old }
        ensures stays { stays self.old → stays self.new }
        ensures quiet { stays self.old → result ≡ None }
        ensures line { IfSome result (λ line. IsReloadLine line.items) };
}

/// Bytes that nobody replaces.
#[derive(Drop)]
pub struct Kept<'a> {
    /// The bytes.
    pub bytes: &'a [u8],
}

impl<'a> Renewal for Kept<'a> {
    ghost held = { λ k. k.bytes.now };

    ghost stays = { λ _. Unit {0} };

    fn bytes(&self) -> &[u8] {
        self.bytes
    }

    fn renew(&mut self) -> Option<Vec<u8>> {
        None
    }
}

/// Takes what is written, and keeps nothing.
#[derive(Drop)]
pub(crate) struct Nowhere;

impl Sink for Nowhere {
    ghost taken = { λ _. None };

    ghost is_flushed = { λ _. Unit {0} };

    ghost failures = { λ _. 0 };

    fn write(&mut self, buf: &[u8]) -> Result<usize, DeviceFailed> {
        Ok(buf.len())
    }

    fn flush(&mut self) -> Result<(), DeviceFailed> {
        Ok(())
    }
}
