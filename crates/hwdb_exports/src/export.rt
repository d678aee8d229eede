//! An export as it is asked for devices.
ghost use Rattle.std.specs.Prelude.{◌≡◌, ◌≤◌, [], List, None, Ok, ℕ, IfOk, length, option_map};
ghost use Rattle.std.specs.List.{list_any};
ghost use Rattle.hwdb_spec_commands.specs.Exports as spec;
ghost use Rattle.hwdb_spec_commands.specs.SysfsAnswers.{IsTold};
ghost use Rattle.hwdb_exports.specs.Views.{names_at, spot_at, spot_of};

use crate::above::looked_at;
use crate::devices::put_devices;
use crate::lines::{before_byte, begins_device, export_lines};
use crate::names::listed;
use crate::spots::{Spot, found_at};
use hwdb_io::Cause;
use hwdb_sysfs::{DeviceFiles, DeviceNode, NO_ENTRY};
use hwdb_text::Lines;
use std::alloc::{AllocError, Global};
use std::collections::BTreeMap;

/// Whether bytes are an export: a device begins in them.
pub fn is_export(bytes: &[u8]) -> bool
    ensures { result ≡ spec.is_export bytes.now }
{
    for line in Lines::new(bytes) {
        if begins_device(before_byte(b'\r', line)) {
            return true;
        }
    }
    false
}

/// An export of udev's database.
#[derive(Drop)]
pub struct Export<'b> {
    bytes: &'b [u8],
    spots: BTreeMap<Vec<u8>, Spot>,
    names: BTreeMap<Vec<u8>, Vec<u8>>,
    ghost led: { (path : List ℕ) → spot_at spots path ≡ spec.export_spot bytes.now path },
    ghost listed: { (folder : List ℕ) → names_at names folder
        ≡ spec.names_under folder (spec.export_entries bytes.now) },
}

impl<'b> Export<'b> {
    /// The export that has these bytes. Time and memory grow with them, and each device is looked at once.
    ///
    /// The only error is want of memory.
    pub fn of(alloc: Global, bytes: &'b [u8]) -> Result<Export<'b>, AllocError>
        ensures { IfOk result (λ e. e.bytes.now ≡ bytes.now) }
    {
        let lines = export_lines(alloc, bytes)?;
        let mut spots = BTreeMap::new(alloc);
        let mut names = BTreeMap::new(alloc);
        put_devices(alloc, &lines, &mut spots, &mut names)?;
        Ok(Export {
            bytes,
            spots,
            names,
        })
    }
}

impl Export<'_> {
    /// Whether it tells what the firmware says of the machine.
    pub fn tells_machine(&self) -> bool
        ensures { result ≡ spec.tells_machine self.now.bytes.now }
    {
        found_at(&self.spots, b"/sys/devices/virtual/dmi/id/modalias").is_some()
    }
}

/// A copy of some bytes.
fn copied(alloc: Global, bytes: &[u8]) -> Result<Vec<u8>, Cause>
    ensures { IsTold (λ v. v.items) (Ok bytes.now) result }
{
    match Vec::from_slice(alloc, bytes) {
        Ok(copy) => Ok(copy),
        Err(AllocError) => Err(Cause::Memory),
    }
}

/// A copy of the bytes of a file of a page at most.
fn copied_page(alloc: Global, text: &Option<Vec<u8>>) -> Result<Vec<u8>, Cause>
    ensures told { IsTold (λ v. v.items) (spec.spot_page (option_map (λ t. t.items) text.now))
        result }
    ensures short { IfOk result (λ v. length v.items ≤ 4096) }
{
    match text {
        Some(bytes) if bytes.len() <= 4096 => copied(alloc, bytes),
        _ => Err(Cause::Unknown),
    }
}

impl DeviceFiles for Export<'_> {
    ghost tells = { Unit {0} };

    ghost answers = { λ e. spec.export_answers e.bytes.now };

    ghost bare = { ⊥ };

    fn real_path(&self, alloc: Global, path: &[u8]) -> Result<Vec<u8>, Cause> {
        match looked_at(alloc, path) {
            Ok(path) => match found_at(&self.spots, &path) {
                Some(spot) => copied(alloc, &spot.place),
                None => Err(Cause::System(NO_ENTRY)),
            },
            Err(AllocError) => Err(Cause::Memory),
        }
    }

    fn node_at(&self, _: &[u8]) -> Result<Option<DeviceNode>, Cause> {
        Ok(None)
    }

    fn is_file(&self, place: &[u8]) -> Result<bool, Cause> {
        match found_at(&self.spots, place) {
            Some(spot) => Ok(spot.text.is_some()),
            None => Err(Cause::System(NO_ENTRY)),
        }
    }

    fn page_of(&self, alloc: Global, place: &[u8]) -> Result<Vec<u8>, Cause> {
        match found_at(&self.spots, place) {
            Some(spot) => copied_page(alloc, &spot.text),
            None => Err(Cause::System(NO_ENTRY)),
        }
    }

    fn listing_of(&self, alloc: Global, place: &[u8]) -> Result<Vec<u8>, Cause> {
        match listed(alloc, &self.names, place) {
            Ok(listing) => Ok(listing),
            Err(AllocError) => Err(Cause::Memory),
        }
    }
}
