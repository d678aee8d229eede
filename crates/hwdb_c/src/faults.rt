//! The number and the place of a fault.
ghost use Rattle.std.specs.Prelude.{◌≡◌};
ghost use Rattle.hwdb_spec.specs.Library.{fault_number, fault_place};

use hwdb_reader::DbFault;

/// Its number, 1 for B1 to 11 for B11.
pub fn number_of(fault: DbFault) -> u32
    ensures { result ≡ fault_number fault }
{
    match fault {
        DbFault::Short => 1,
        DbFault::Signature => 2,
        DbFault::RecordSizes => 3,
        DbFault::Lengths => 4,
        DbFault::Strings => 5,
        DbFault::Place(_) => 6,
        DbFault::Depth(_) => 7,
        DbFault::ChildOrder(_) => 8,
        DbFault::StringOffset(_) => 9,
        DbFault::KeyOrder(_) => 10,
        DbFault::Priority(_) => 11,
    }
}

/// The offset of what is at fault, in bytes, or 0 if the fault has none.
pub fn place_of(fault: DbFault) -> u64
    ensures { result ≡ fault_place fault }
{
    fault.offset().unwrap_or(0)
}
