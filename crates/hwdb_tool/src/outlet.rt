//! Where what the program prints goes to: a sink whose reader may go away.
ghost use Rattle.std.specs.Prelude.{◌≡◌, true, pos, Some};
ghost use Rattle.hwdb_spec.specs.declared.causes.Cause.TheVariants.{System};

use hwdb_io::{Cause, Sink, ToWrite};
use std::io::Write;

/// A sink whose reader may go away.
pub trait Outlet: Sink {
    /// The last call that failed did so since the reader had gone, as the sink tells.
    ghost reader_gone: { Self → Type 0 };

    /// Whether the reader is known to have gone.
    fn is_reader_gone(&self) -> bool
        ensures { result ≡ true → reader_gone self.now };
}

/// The number of the system's error that says so (EPIPE).
const BROKEN_PIPE: i32 = 32;

impl<W: Write> Outlet for ToWrite<W> {
    ghost reader_gone = { λ s. s.cause ≡ Some (System (pos 32)) };

    fn is_reader_gone(&self) -> bool {
        match self.cause {
            Some(Cause::System(number)) => number == BROKEN_PIPE,
            _ => false,
        }
    }
}
