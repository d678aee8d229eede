//! How far two walks side by side have come the same way. While their ways have the same segments, neither is read.
ghost use Rattle.std.specs.Prelude.{◌≡◌, All, List, min, OnOk};
ghost use Rattle.hwdb_spec.specs.Assignment.{text_cmp};
ghost use Rattle.hwdb_reader.specs.Unread.{new_file, old_file};
ghost use Rattle.hwdb_databases.specs.declared.trail.Segment.{Segment};
ghost use Rattle.hwdb_databases.specs.Internal.Spellings.{IsAbreast, IsSpelling};
ghost use Rattle.hwdb_databases.specs.Internal.Trails.{AreKeptOf, IsSegmentIn, path_in, path_of};

use crate::meeting::compare_texts;
use crate::spelling::Spelling;
use crate::trail::{Segment, Trail, alike};
use hwdb_reader::Twins;
use std::alloc::{AllocError, Global};
use std::cmp::Ordering;

/// What is known of the ways of two walks.
#[derive(Drop)]
pub(crate) struct Abreast {
    /// So many of the first segments have the same bytes. A lesser number is right too: then more is compared.
    common: usize,
    /// How the paths compare.
    pub order: Ordering,
    /// What was read of the old walk's path.
    old_read: Spelling,
    /// What was read of the new walk's path.
    new_read: Spelling,
}

impl Abreast {
    /// Nothing is known.
    pub(crate) fn new(alloc: Global) -> Abreast
        ensures { (xs ys : List Segment) → IsAbreast xs ys result }
    {
        Abreast {
            common: 0,
            order: Ordering::Equal,
            old_read: Spelling::new(alloc),
            new_read: Spelling::new(alloc),
        }
    }

    /// Keeps what is known of what both walks kept of their ways.
    fn keep(&mut self, old: &Trail<'_>, new: &Trail<'_>)
        requires { (xs ys : List Segment) × IsAbreast xs ys self.old × AreKeptOf xs old.now
            × AreKeptOf ys new.now }
        ensures abreast { IsAbreast old.now.segments.items new.now.segments.items self.new }
        ensures common { self.new.common ≡ min self.old.common (min old.now.kept new.now.kept) }
        ensures order { self.new.order ≡ self.old.order }
    {
        self.common = self.common.min(old.kept.min(new.kept));
        self.old_read.cut(old.kept);
        self.new_read.cut(new.kept);
    }

    /// Compares two paths, which are read. The only error, here and below, is `AllocError`.
    fn read_both(&mut self, old: &[Segment<'_>], new: &[Segment<'_>]) -> Result<(), AllocError>
        requires { IsAbreast old.now new.now self.old }
        ensures abreast { OnOk result (IsAbreast old.now new.now self.new) }
        ensures common { self.new.common ≡ self.old.common }
        ensures order { OnOk result
            (self.new.order ≡ text_cmp (path_in old.now) (path_in new.now)) }
    {
        self.old_read.read(old)?;
        self.new_read.read(new)?;
        self.order = compare_texts(&self.old_read.bytes, &self.new_read.bytes);
        Ok(())
    }

    /// Compares the paths of two walks that went on. Those of the same segments aren't read.
    pub(crate) fn meet(
        &mut self,
        twins: &Twins<'_, '_>,
        old: &Trail<'_>,
        new: &Trail<'_>,
    ) -> Result<(), AllocError>
        requires kept { (xs ys : List Segment) × IsAbreast xs ys self.old × AreKeptOf xs old.now
            × AreKeptOf ys new.now }
        requires old_file { All (IsSegmentIn (old_file twins.now)) old.now.segments.items }
        requires new_file { All (IsSegmentIn (new_file twins.now)) new.now.segments.items }
        ensures abreast { OnOk result
            (IsAbreast old.now.segments.items new.now.segments.items self.new) }
        ensures order { OnOk result
            (self.new.order ≡ text_cmp (path_of old.now) (path_of new.now)) }
    {
        self.keep(old, new);
        self.common = alike(twins, self.common, &old.segments, &new.segments);
        if self.common == old.segments.len() && self.common == new.segments.len() {
            self.order = Ordering::Equal;
            return Ok(());
        }
        self.read_both(&old.segments, &new.segments)
    }
}
