//! What a file system answers of devices, call by call, and nothing decided.
ghost use Rattle.std.specs.Prelude.{◌≡◌, ◌≤◌, ◌⊎◌, ℕ, IfOk, List, Ok, Option, Result, length, option_map, true};
ghost use Rattle.hwdb_spec_commands.specs.SysfsAnswers.{Answers, IsTold};
ghost use Rattle.hwdb_sysfs.specs.Views.{node_of};

use hwdb_io::Cause;
use std::alloc::Global;

/// The number of the error that nothing has a name (errno, on Linux).
pub const NO_ENTRY: i32 = 2;

/// A device's node.
#[derive(Clone, Copy)]
pub struct DeviceNode {
    /// It is a block device; else it is a character device.
    pub block: bool,
    /// Its number, as stat(2) has it.
    pub number: u64,
}

/// The answers of a file system to what is asked of devices. Each call may also say that there was no memory. A path is absolute, and
/// a place is a path without a link in it.
pub trait DeviceFiles {
    /// Whether the answers are told.
    ghost tells: { Type 0 };
    /// The answers.
    ghost answers: { Self → Answers };
    /// There are no small files to be read, as in a store without sysfs.
    ghost bare: { Type 0 };

    /// Tells the path of what a path leads to, with no link in it.
    fn real_path(&self, alloc: Global, path: &[u8]) -> Result<Vec<u8>, Cause>
        ensures { tells → IsTold (λ p. p.items) ((answers self.now).real path.now) result };

    /// Tells the node at a place; None if something else is there.
    fn node_at(&self, place: &[u8]) -> Result<Option<DeviceNode>, Cause>
        ensures { tells → IsTold (option_map node_of) ((answers self.now).node place.now) result };

    /// Tells whether a regular file is at a place.
    fn is_file(&self, place: &[u8]) -> Result<bool, Cause>
        ensures { tells → IsTold (λ b. b) ((answers self.now).file place.now) result };

    /// Reads the small file at a place, which is a regular file. One of more than 4,096 bytes is an error: an attribute of sysfs has a
    /// page at most.
    fn page_of(&self, alloc: Global, place: &[u8]) -> Result<Vec<u8>, Cause>
        requires { tells → bare ⊎ ((answers self.now).file place.now ≡ Ok true) }
        ensures told { tells → IsTold (λ v. v.items) ((answers self.now).page place.now) result }
        ensures short { IfOk result (λ v. length v.items ≤ 4096) };

    /// Lists a folder: each name with byte 0 after it.
    fn listing_of(&self, alloc: Global, place: &[u8]) -> Result<Vec<u8>, Cause>
        ensures { tells → IsTold (λ v. v.items) ((answers self.now).listing place.now) result };
}
