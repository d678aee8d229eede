//! Properties that most lines of large files have. Of these no row of a table has to be looked for.
ghost use Rattle.std.specs.Prelude.{◌≡◌, codes, true};
ghost use Rattle.hwdb_spec.specs.Folders as spec;
ghost use Rattle.hwdb_properties.specs.Common;
ghost use Rattle.hwdb_properties.specs.Internal.{IsCommon};

use crate::cuts::same;

fn is_model(name: &[u8]) -> bool
    ensures told { result ≡ spec.same name.now (codes "ID_MODEL_FROM_DATABASE") }
    ensures sound { result ≡ true → IsCommon name.now }
{
    same(name, b"ID_MODEL_FROM_DATABASE")
}

fn is_vendor(name: &[u8]) -> bool
    ensures told { result ≡ spec.same name.now (codes "ID_VENDOR_FROM_DATABASE") }
    ensures sound { result ≡ true → IsCommon name.now }
{
    same(name, b"ID_VENDOR_FROM_DATABASE")
}

fn is_oui(name: &[u8]) -> bool
    ensures told { result ≡ spec.same name.now (codes "ID_OUI_FROM_DATABASE") }
    ensures sound { result ≡ true → IsCommon name.now }
{
    same(name, b"ID_OUI_FROM_DATABASE")
}

/// Whether a property is one of those. They take any text, and are read below any prefix, without others.
pub fn is_common(name: &[u8]) -> bool
    ensures told { result ≡ Common.is_common name.now }
    ensures sound { result ≡ true → IsCommon name.now }
{
    if is_model(name) {
        return true;
    }
    if is_oui(name) {
        return true;
    }
    is_vendor(name)
}
