//! The properties of a device, where they come from, and its hits.
ghost use Rattle.std.specs.Prelude.{◌≡◌, List, ℕ, [], filter, map, take, IfOk, IfErr};
ghost use Rattle.hwdb_spec.specs.Tree.{Tree, answers, answers_after, members_under};
ghost use Rattle.hwdb_spec.specs.Answers.{effective_of, is_wanted};
ghost use Rattle.hwdb_spec.specs.Explanations.{explained};
ghost use Rattle.hwdb_spec.specs.Format.{IsDatabase};
ghost use Rattle.hwdb_query.specs.Views.{assignment_of_answer, assignments_of_hits, explained_values, given_position, pairs_bytes};
ghost use Rattle.hwdb_lookup.specs.Views.{IsOf, Stops};
ghost use Rattle.hwdb_lookup.specs.Sound.{AreSound};
ghost use Rattle.hwdb_lookup.specs.Windows.{IsOfWindows, StopsOf};

use crate::descent::descend;
use crate::known::Known;
use crate::opening::frame_of;
use crate::parts::Parts;
use crate::stop::Stop;
use crate::windows::{Windows, seen_of};
use hwdb_query::{
    Explained, Hit, Position, StoredAssignment, effective_among, explained_among, page_among,
};
use hwdb_reader::law_ascending;
use std::alloc::Global;

/// For each key among the answers for the device the value of the last answer with that key, ascending by key. Keys and
/// values are parts of the buffer.
///
/// Over the blocks of a database this is what `hwdb_query::effective` answers for the whole of it. If a block that is
/// needed wasn't read, [`Stop::Missing`] has its number. [`Stop::Fault`] comes only if the file is no database,
/// whatever the blocks hold that weren't read.
///
/// [`Stop::LongPath`] comes only if a live path has more than 65,536 bytes: then the whole file has to be checked, and
/// asked by `hwdb_query::effective`. [`Stop::Memory`] comes if an allocation fails.
///
/// Enters each live node once. The records of the nodes that it enters have no more bytes than the file. Each of their
/// strings is read as far as it may matter.
pub fn lookup<'a>(
    alloc: Global,
    known: Known<'a>,
    device: &[u8],
) -> Result<Vec<(&'a [u8], &'a [u8])>, Stop>
    ensures answer { IfOk result (λ list. (file : List ℕ) (t : Tree) → IsOf known.entry file
        → IsDatabase file t → pairs_bytes list.items ≡ effective_of (answers device.now t)) }
    ensures sound { IfOk result (λ list. (file : List ℕ) → IsOf known.entry file
        → AreSound file (pairs_bytes list.items)) }
    ensures stop { IfErr result
        (λ s. Stops known.entry (λ file. (t : Tree) × IsDatabase file t) s) }
{
    let frame = frame_of(known)?;
    let found = descend(alloc, Parts::Blocks(known), frame, device)?;
    let pairs = effective_among(alloc, &found)?;
    Ok(pairs)
}

/// The answers for the device, of a file that was accepted before, and of which windows were read.
fn found_in<'a>(
    alloc: Global,
    windows: Windows<'a>,
    device: &[u8],
) -> Result<Vec<StoredAssignment<'a>>, Stop>
    ensures found { IfOk result (λ found. (file : List ℕ) (t : Tree)
        → IsOfWindows windows.entry file → IsDatabase file t
        → map assignment_of_answer found.items
        ≡ filter (is_wanted device.now) (members_under [] t)) }
    ensures stop { IfErr result
        (λ s. StopsOf windows.entry (λ file. (t : Tree) × IsDatabase file t) s) }
{
    let frame = windows.outline.frame;
    if frame.sizes.strings > windows.outline.size {
        return Err(Stop::LongPath);
    }
    let found = descend(alloc, Parts::Windows(seen_of(windows)), frame, device)?;
    Ok(found)
}

/// The same as `lookup`, of a file that was accepted before, and of which windows were read. If bytes of the nodes are needed
/// that no window has, [`Stop::Missing`] has the offset of the first. One window there, or the file's last, has them.
///
/// [`Stop::LongPath`] comes too if a record has more bytes than a window.
pub fn lookup_windows<'a>(
    alloc: Global,
    windows: Windows<'a>,
    device: &[u8],
) -> Result<Vec<(&'a [u8], &'a [u8])>, Stop>
    ensures answer { IfOk result (λ list. (file : List ℕ) (t : Tree)
        → IsOfWindows windows.entry file → IsDatabase file t
        → pairs_bytes list.items ≡ effective_of (answers device.now t)) }
    ensures stop { IfErr result
        (λ s. StopsOf windows.entry (λ file. (t : Tree) × IsDatabase file t) s) }
{
    let found = found_in(alloc, windows, device)?;
    let pairs = effective_among(alloc, &found)?;
    Ok(pairs)
}

/// For each key among the answers for the device its answers, ascending by key, the last answer first. Else the same as
/// [`lookup_windows`].
pub fn explain_windows<'a>(
    alloc: Global,
    windows: Windows<'a>,
    device: &[u8],
) -> Result<Vec<Explained<'a>>, Stop>
    ensures answer { IfOk result (λ list. (file : List ℕ) (t : Tree)
        → IsOfWindows windows.entry file → IsDatabase file t
        → explained_values list.items ≡ explained (answers device.now t)) }
    ensures stop { IfErr result
        (λ s. StopsOf windows.entry (λ file. (t : Tree) × IsDatabase file t) s) }
{
    law_ascending();
    let found = found_in(alloc, windows, device)?;
    let explained = explained_among(alloc, &found)?;
    Ok(explained)
}

/// The first `most` of the answers for the device after a position, in order. Else the same as [`lookup_windows`].
pub fn hits_windows<'a>(
    alloc: Global,
    windows: Windows<'a>,
    device: &[u8],
    after: Option<&Position>,
    most: usize,
) -> Result<Vec<Hit<'a>>, Stop>
    ensures answer { IfOk result (λ hits. (file : List ℕ) (t : Tree)
        → IsOfWindows windows.entry file → IsDatabase file t → assignments_of_hits hits.items
        ≡ take most (answers_after device.now (given_position after.entry) t)) }
    ensures stop { IfErr result
        (λ s. StopsOf windows.entry (λ file. (t : Tree) × IsDatabase file t) s) }
{
    let found = found_in(alloc, windows, device)?;
    let hits = page_among(alloc, &found, after, most)?;
    Ok(hits)
}
