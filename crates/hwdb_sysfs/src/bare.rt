//! A store in memory as it is asked for devices: it has files alone, and no sysfs.
ghost use Rattle.hwdb_spec_commands.specs.SysfsAnswers.{nothing_there};

use crate::files::{DeviceFiles, DeviceNode, NO_ENTRY};
use hwdb_io::Cause;
use hwdb_replace::Memory;
use std::alloc::Global;

impl DeviceFiles for Memory {
    ghost tells = { Unit {0} };

    ghost answers = { λ _. nothing_there };

    ghost bare = { Unit {0} };

    fn real_path(&self, _: Global, _: &[u8]) -> Result<Vec<u8>, Cause> {
        Err(Cause::System(NO_ENTRY))
    }

    fn node_at(&self, _: &[u8]) -> Result<Option<DeviceNode>, Cause> {
        Err(Cause::Unknown)
    }

    fn is_file(&self, _: &[u8]) -> Result<bool, Cause> {
        Err(Cause::Unknown)
    }

    fn page_of(&self, _: Global, _: &[u8]) -> Result<Vec<u8>, Cause> {
        Err(Cause::Unknown)
    }

    fn listing_of(&self, _: Global, _: &[u8]) -> Result<Vec<u8>, Cause> {
        Err(Cause::Unknown)
    }
}
