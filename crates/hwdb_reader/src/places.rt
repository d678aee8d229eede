//! The offsets of the entries of a node that was tested, and what the entries show.
ghost use Rattle.std.specs.Prelude.{◌≡◌, ◌≤◌, ◌<◌, ◌+◌, ◌*◌, ◌^◌, length};
ghost use Rattle.hwdb_spec.specs.Format.{record_end, child_entry, children_count, value_entries, values_count, value_at, IsValue};
ghost use Rattle.hwdb_reader.specs.Views.{shown};
ghost use Rattle.hwdb_reader.specs.Views.{entry_shows};
ghost use Rattle.hwdb_reader.specs.Unread.{IsFrom, value_in};

use crate::fields::{text, u16_at, u32_at, u64_at};
use crate::frame::Frame;
use crate::unread::{StoredText, UnreadEntry};
use crate::view::{Entry, Origin};

/// The offset at which the record at `off` ends.
#[tactic(auto, unfolding(hwdb_spec::specs::Format::record_end))]
pub fn record_end_at(b: &[u8], f: Frame, off: usize) -> usize
    requires { record_end f.sizes b.now off ≤ length b.now }
    ensures { result ≡ record_end f.sizes b.now off }
{
    let children = f.sizes.child_size * b[off + 8] as usize;
    off + f.sizes.node_size + children + f.sizes.value_size * u64_at(b, off + 16)
}

/// The offset of the child entry `i` of the node at `off`.
#[tactic(auto, using(crate::proofs::BoundLemmas::entry_room), unfolding(hwdb_spec::specs::Format::record_end))]
pub fn child_entry_at(b: &[u8], f: Frame, off: usize, i: usize) -> usize
    requires inside { record_end f.sizes b.now off ≤ length b.now }
    requires below { i < children_count b.now off }
    ensures place { result ≡ child_entry f.sizes off i }
    ensures room { result + 16 ≤ length b.now }
    ensures fits { result + 16 < 2 ^ 64 }
{
    off + f.sizes.node_size + f.sizes.child_size * i
}

/// The offset of the value entry `i` of the node at `off`.
#[tactic(auto, using(crate::proofs::BoundLemmas::value_entry_room), unfolding(hwdb_spec::specs::Format::record_end))]
pub fn value_entry_at(b: &[u8], f: Frame, off: usize, i: usize) -> usize
    requires inside { record_end f.sizes b.now off ≤ length b.now }
    requires below { i < values_count b.now off }
    ensures place { result ≡ value_entries f.sizes b.now off + f.sizes.value_size * i }
    ensures room { result + 32 ≤ length b.now }
{
    let entries = off + f.sizes.node_size + f.sizes.child_size * b[off + 8] as usize;
    entries + f.sizes.value_size * i
}

/// The value at a sound value entry.
#[tactic(auto, unfolding(hwdb_spec::specs::Format::value_at))]
pub fn read_value(b: &[u8], f: Frame, entry: usize) -> Entry<'_>
    requires room { entry + 32 ≤ length b.now }
    requires sound { ∥ IsValue f.sizes b.now entry ∥₁ }
    ensures { entry_shows result ≡ shown (value_at b.now entry) }
{
    let stored = text(b, u64_at(b, entry));
    let key = match stored {
        [b' ', key @ ..] => Some(key),
        _ => None,
    };
    Entry {
        priority: u16_at(b, entry + 28),
        line: u32_at(b, entry + 24),
        key,
        value: text(b, u64_at(b, entry + 8)),
        path: text(b, u64_at(b, entry + 16)),
    }
}

/// The priority and line of the value at a value entry.
#[tactic(auto, unfolding(hwdb_spec::specs::Format::value_at))]
pub fn read_origin(b: &[u8], entry: usize) -> Origin
    requires { entry + 32 ≤ length b.now }
    ensures priority { result.priority ≡ (value_at b.now entry).priority }
    ensures line { result.line ≡ (value_at b.now entry).line }
{
    let priority = u16_at(b, entry + 28);
    let line = u32_at(b, entry + 24);
    Origin { priority, line }
}

/// The value at a sound value entry, without a look at its texts.
#[tactic(auto, unfolding(hwdb_spec::specs::Format::value_at, crate::specs::Unread::text_of))]
pub fn read_unread(b: &[u8], f: Frame, entry: usize) -> UnreadEntry<'_>
    requires room { entry + 32 ≤ length b.now }
    requires sound { ∥ IsValue f.sizes b.now entry ∥₁ }
    ensures value { value_in result ≡ value_at b.now entry }
    ensures file { IsFrom b.now result }
{
    UnreadEntry {
        priority: u16_at(b, entry + 28),
        line: u32_at(b, entry + 24),
        key: StoredText {
            bytes: b,
            at: u64_at(b, entry),
        },
        value: StoredText {
            bytes: b,
            at: u64_at(b, entry + 8),
        },
        path: StoredText {
            bytes: b,
            at: u64_at(b, entry + 16),
        },
    }
}
