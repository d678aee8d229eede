//! The strings of a device's properties.
ghost use Rattle.std.specs.Prelude.{◌≡◌, IfOk};
ghost use Rattle.hwdb_spec.specs.Tree.{Tree};
ghost use Rattle.hwdb_spec.specs.Format.{IsDatabase};
ghost use Rattle.hwdb_spec.specs.Library.{device_strings};

use crate::strings::write_strings;
use hwdb_query::effective;
use hwdb_reader::reopen;
use std::alloc::{AllocError, Global};

/// The strings of the properties that a database gives a device. The only error is `AllocError`.
pub fn strings_for(alloc: Global, bytes: &[u8], device: &[u8]) -> Result<Vec<u8>, AllocError>
    requires { (t : Tree) × IsDatabase bytes.now t }
    ensures { IfOk result (λ text. (t : Tree) → IsDatabase bytes.now t
        → text.items ≡ device_strings device.now t) }
{
    let db = reopen(bytes);
    let properties = effective(alloc, &db, device)?;
    write_strings(alloc, &properties)
}
