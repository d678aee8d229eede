//! The header of a file of which some blocks were read.
ghost use Rattle.std.specs.Prelude.{◌≡◌, ◌≤◌, ℕ, List, length, IfOk, IfErr};
ghost use Rattle.hwdb_spec.specs.Format.{layout_of, IsHeader};
ghost use Rattle.hwdb_lookup.specs.Views.{IsOf, Stops};

use crate::known::Known;
use crate::stop::Stop;
use hwdb_reader::{Frame, check_header};
use hwdb_spec::DbFault;

/// Tests each field of the header, and the file's last byte.
pub fn frame_of(known: Known<'_>) -> Result<Frame, Stop>
    ensures layout { IfOk result (λ f. (file : List ℕ) → IsOf known.entry file
        → f.sizes ≡ layout_of file) }
    ensures inside { IfOk result (λ f. f.sizes.strings ≤ length known.entry.buffer.now) }
    ensures stop { IfErr result (λ s. Stops known.entry (λ file. IsHeader file) s) }
{
    let size = known.buffer.len();
    if size < 80 {
        return Err(Stop::Fault(DbFault::Short));
    }
    known.need(0, 80)?;
    known.need(size - 1, size)?;
    match check_header(known.buffer) {
        Ok(frame) => Ok(frame),
        Err(fault) => Err(Stop::Fault(fault)),
    }
}
