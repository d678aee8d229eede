//! A file system that tells its answers, for tests: one thing is at each place.
ghost use Rattle.std.specs.Prelude.{false, true, Ok, None};
ghost use Rattle.hwdb_system.specs.Raw.{told_bytes};

use crate::opened::OpenedBytes;
use crate::raw::{Kind, RawFiles};
use hwdb_io::{Cause, MAX_BYTES};
use hwdb_spec_commands::Unread;
use std::alloc::{AllocError, Global};

/// What is at each place: its kind, and its bytes. No folder is there.
#[derive(Drop)]
pub struct OneFile {
    /// Its kind.
    pub kind: Kind,
    /// Its bytes.
    pub bytes: Vec<u8>,
    alloc: Global,
}

impl OneFile {
    /// This is at each place.
    pub fn new(alloc: Global, kind: Kind, bytes: Vec<u8>) -> OneFile {
        OneFile { kind, bytes, alloc }
    }
}

impl RawFiles for OneFile {
    type Opened = OpenedBytes;

    ghost tells = { Unit {0} };

    ghost place = { λ _ path. Ok path };

    ghost null_at = { λ _ _. false };

    ghost entry = { λ _ _. Ok true };

    ghost kind = { λ s _. Ok s.kind };

    ghost contents = { λ s _. told_bytes s.bytes.items };

    ghost listing = { λ _ _. Ok None };

    fn place_of(&self, path: &str) -> Result<String, Cause> {
        match String::from_str(self.alloc, path) {
            Ok(place) => Ok(place),
            Err(AllocError) => Err(Cause::Memory),
        }
    }

    fn is_null(&self, _: &str) -> bool {
        false
    }

    fn has_entry(&self, _: &str) -> Result<bool, Cause> {
        Ok(true)
    }

    fn kind_of(&self, _: &str) -> Result<Kind, Cause> {
        Ok(self.kind)
    }

    fn contents_of(&self, alloc: Global, _: &str) -> Result<Vec<u8>, Unread> {
        if self.bytes.len() > MAX_BYTES as usize {
            return Err(Unread::TooLong);
        }
        match self.bytes.to_vec(alloc) {
            Ok(bytes) => Ok(bytes),
            Err(AllocError) => Err(Unread::Memory),
        }
    }

    fn opened_at(&self, at: &str) -> Option<OpenedBytes> {
        match self.contents_of(self.alloc, at) {
            Ok(bytes) => Some(OpenedBytes { bytes }),
            Err(_) => None,
        }
    }

    fn listing_of(&self, _: Global, _: &str) -> Result<Option<Vec<u8>>, Unread> {
        Ok(None)
    }
}
