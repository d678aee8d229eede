//! Why a lookup stops before its end.
use hwdb_spec::DbFault;
use std::alloc::AllocError;

/// Why a lookup stops before its end.
#[derive(Clone, Copy)]
pub enum Stop {
    /// The block with this number has to be read first. It is counted from 0, and a block has
    /// [`BLOCK`](crate::BLOCK) bytes.
    Missing(usize),
    /// The file is no database: what was entered has this fault.
    Fault(DbFault),
    /// A live path has more than 65,536 bytes, and this lookup goes on from none that is so long. A text file's patterns
    /// have at most 4,096 bytes.
    LongPath,
    /// An allocation failed.
    Memory,
}

impl From<AllocError> for Stop {
    ghost use Rattle.std.specs.Prelude.{◌≡◌};
    ghost use Rattle.hwdb_lookup.specs.declared.stop.Stop.TheVariants.{Memory};

    ghost from_gives = { λ _ s. s ≡ Memory };

    fn from(_: AllocError) -> Stop {
        Stop::Memory
    }
}
