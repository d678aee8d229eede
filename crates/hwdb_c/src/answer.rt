//! The strings of a device's properties, of a file of which some blocks were read.
ghost use Rattle.std.specs.Prelude.{◌≡◌, List, ℕ, IfOk, IfErr};
ghost use Rattle.hwdb_spec.specs.Tree.{Tree};
ghost use Rattle.hwdb_spec.specs.Format.{IsDatabase};
ghost use Rattle.hwdb_spec.specs.Library.{device_strings};
ghost use Rattle.hwdb_lookup.specs.Views.{IsOf, Stops};

use crate::strings::write_strings;
use hwdb_lookup::{Known, Stop, lookup};
use std::alloc::Global;

/// The strings of the properties that the file gives a device, if each block that is needed was read.
pub fn strings_of_known(alloc: Global, known: Known<'_>, device: &[u8]) -> Result<Vec<u8>, Stop>
    ensures strings { IfOk result (λ text. (file : List ℕ) (t : Tree) → IsOf known.entry file
        → IsDatabase file t → text.items ≡ device_strings device.now t) }
    ensures stop { IfErr result
        (λ s. Stops known.entry (λ file. (t : Tree) × IsDatabase file t) s) }
{
    let properties = lookup(alloc, known, device)?;
    let text = write_strings(alloc, &properties)?;
    Ok(text)
}
