//! What the C library `libhwdb` calls: whether bytes are a database, and the properties of a device.
//!
//! C owns all memory that goes in and out, and reads the file. [`hwdb_c_check`] and [`hwdb_c_lookup`] are for any bytes.
//! The latter says which block of the file it needs, and is called again when that was read. [`hwdb_c_properties`] is
//! for bytes that were accepted: c/hwdb.c calls it for no others. They promise, over what C sees, what
//! `hwdb_reader::check`, `hwdb_lookup::lookup` and `hwdb_query::effective` do. [`hwdb_c_sections`], [`hwdb_c_feed`] and
//! [`hwdb_c_is_whole`] are those of `hwdb_reader`, for a file that C reads once, in pieces.
//!
//! No view of the database is kept between two calls, since C can't hold one. So each lookup begins with the header.
//!
//! | Module | What it does |
//! |---|---|
//! | `faults` | the number and the place of a fault |
//! | `strings` | properties as C's strings |
//! | `answer` | the strings of a device's properties, of a file of which some blocks were read |
//! | `whole` | the same, of a whole database |
//! | `room` | texts put into a buffer of C's |
//! | `laws` | laws of what C reads |
#![tactic(auto)]

ghost use Rattle.std.specs.Prelude.{◌≡◌, ◌≢◌, ◌≤◌, ◌<◌, ◌+◌, ◌*◌, ◌++◌, ℕ, List, length, drop, slice_index};
ghost use Rattle.hwdb_spec.specs.Tree.{Tree};
ghost use Rattle.hwdb_spec.specs.Folders.{Source};
ghost use Rattle.hwdb_spec.specs.Format.{IsDatabase, layout_of};
ghost use Rattle.hwdb_spec.specs.Written.{IsCompiled};
ghost use Rattle.hwdb_spec.specs.Blocks.{block_bytes, MayBe};
ghost use Rattle.hwdb_spec.specs.Library.{IsFault, device_strings, last_strings};
ghost use Rattle.hwdb_reader.specs.Passes.Views.{IsPart, IsRead, Stands, pending};

mod answer;
mod faults;
mod laws;
mod room;
mod strings;
mod whole;

use answer::strings_of_known;
use faults::{number_of, place_of};
use hwdb_lookup::{Known, Stop};
use hwdb_query::compiled_answers_are_last;
use hwdb_reader::{check, feed, is_whole, open_outline, open_sections};
pub use laws::{passes_begin, reads_are_of_the_file};
use room::put;
use std::alloc::Global;
use whole::strings_for;

/// The properties were written.
const WRITTEN: u32 = 0;
/// The buffer is too short for them.
const TOO_SHORT: u32 = 1;
/// An allocation failed.
const NO_MEMORY: u32 = 2;
/// A block of the file has to be read first.
const MISSING: u32 = 3;
/// The file is no database.
const FAULT: u32 = 4;
/// A path is too long for a lookup that checks what it enters.
const LONG_PATH: u32 = 5;

/// Whether the bytes are a database: 0, or the number of a fault, 1 for B1 to 11 for B11. `place` gets the fault's
/// offset in bytes, or 0 if it has none.
///
/// Takes no memory. The time is that of `hwdb_reader::check`: one visit of each node.
#[unsafe(no_mangle)]
pub extern "C" fn hwdb_c_check(bytes: &[u8], place: &mut u64) -> u32
    ensures accepted { result ≡ 0 → (t : Tree) × IsDatabase bytes.now t }
    ensures refused { result ≢ 0 → (t : Tree) → IsDatabase bytes.now t → ⊥ }
    ensures fault { result ≢ 0 → IsFault bytes.now result place.new }
    ensures no_place { result ≡ 0 → place.new ≡ 0 }
{
    match check(bytes) {
        Ok(_) => {
            *place = 0;
            0
        }
        Err(fault) => {
            *place = place_of(fault);
            number_of(fault)
        }
    }
}

/// Where the parts of a file are, which is read forward: of its first 80 bytes or more, and its size. Answers 1, and the
/// offsets at which the nodes begin and the strings; or 0, if that can't be said.
///
/// With it [`hwdb_c_feed`] and [`hwdb_c_is_whole`] say of a file that it is a database, without all of it in memory.
/// Of a file of which they don't say that, nothing is said: [`hwdb_c_check`] decides. First the caller reads the
/// strings, up to the file's end. Then it feeds the nodes in pieces, from the first on. Two tables have a row for each
/// node that is done and whose parent isn't. No row counts at first.
#[unsafe(no_mangle)]
pub extern "C" fn hwdb_c_sections(
    header: &[u8],
    size: usize,
    nodes: &mut usize,
    strings: &mut usize,
) -> u32
    ensures inside { result ≡ 1 → (nodes.new ≤ strings.new) × (strings.new ≤ size) }
    ensures sections { result ≡ 1 → (file : List ℕ) → IsPart file 0 header.now
        → length file ≡ size → (nodes.new ≡ (layout_of file).nodes)
        × (strings.new ≡ (layout_of file).strings) }
{
    let Some(frame) = open_sections(header, size) else {
        return 0;
    };
    *nodes = frame.sizes.nodes;
    *strings = frame.sizes.strings;
    1
}

/// Goes on over the nodes that are whole in a piece, which is the file's from `at` on. Answers how many bytes they are:
/// the next piece begins after these. If it answers 0, that piece isn't accepted, or has no whole node.
///
/// `done` counts the rows of the tables that are in use. Takes no memory.
#[unsafe(no_mangle)]
pub extern "C" fn hwdb_c_feed(
    header: &[u8],
    size: usize,
    strings: &[u8],
    piece: &[u8],
    at: usize,
    offsets: &mut [usize],
    heights: &mut [u16],
    done: &mut usize,
) -> usize
    ensures used { result ≤ length piece.now }
    ensures stand { result ≢ 0 → (file : List ℕ) → IsRead header.now size strings.now file
        → IsPart file at piece.now
        → Stands file (pending offsets.old heights.old done.old) at
        → Stands file (pending offsets.new heights.new done.new) (at + result) }
{
    let Some(outline) = open_outline(header, size, strings) else {
        return 0;
    };
    match feed(outline, piece, at, offsets, heights, done) {
        Some(used) => used,
        None => 0,
    }
}

/// Whether the file whose nodes were fed up to `at` is a database: 1, or 0 if that can't be said.
#[unsafe(no_mangle)]
pub extern "C" fn hwdb_c_is_whole(
    header: &[u8],
    size: usize,
    strings: &[u8],
    at: usize,
    offsets: &[usize],
    heights: &[u16],
    done: usize,
) -> u32
    ensures { result ≡ 1 → (file : List ℕ) → IsRead header.now size strings.now file
        → Stands file (pending offsets.now heights.now done) at
        → (t : Tree) × IsDatabase file t }
{
    let Some(outline) = open_outline(header, size, strings) else {
        return 0;
    };
    if is_whole(outline, at, offsets, heights, done) {
        1
    } else {
        0
    }
}

/// Writes the properties of the device to the front of `out`: key, byte 0, value, byte 0 for each key, ascending by key.
/// They are those of a file of which some blocks were read. `bytes` has the file's length, and `present` a byte for
/// each block of 4,096 bytes: 1 if the block was read into `bytes`. In other blocks the bytes may be any; zeros are
/// fastest.
///
/// Answers 0, and in `needed` how many bytes were written. Answers 1 if `out` has less room than `needed` says, and 2
/// if an allocation failed. Answers 3 if a block has to be read first, and in `needed` the block's number, counted from
/// 0. It is one that `present` says wasn't read. So who reads each block that is asked for, and calls again, has
/// another answer after at most as many calls as the file has blocks. Answers 4 if the file is no database, whatever
/// its other blocks hold. Answers 5 only if a path that may match has more than 65,536 bytes: then the whole file has
/// to be checked, and [`hwdb_c_properties`] asked. If it doesn't answer 0, `out` stays as it was.
///
/// For any bytes. Over the blocks of a database the properties are those of the whole: what `hwdb_query::effective`
/// answers. The records that are entered have no more bytes than the file, and each of their strings is read as far as
/// it may matter. The memory that it takes is freed before it answers.
#[unsafe(no_mangle)]
pub extern "C" fn hwdb_c_lookup(
    alloc: Global,
    bytes: &[u8],
    present: &[u8],
    device: &[u8],
    out: &mut [u8],
    needed: &mut usize,
) -> u32
    ensures status { result ≤ 5 }
    ensures needed { result ≤ 1 → (file : List ℕ) (t : Tree) → MayBe bytes.now present.now file
        → IsDatabase file t → needed.new ≡ length (device_strings device.now t) }
    ensures written { result ≡ 0 → (file : List ℕ) (t : Tree) → MayBe bytes.now present.now file
        → IsDatabase file t → out.new ≡ device_strings device.now t ++ drop needed.new out.old }
    ensures headline { result ≡ 0 → (file : List ℕ) (t : Tree) (etc usr : List Source)
        → MayBe bytes.now present.now file → IsDatabase file t → IsCompiled etc usr file
        → out.new ≡ last_strings device.now etc usr ++ drop needed.new out.old }
    ensures missing { result ≡ 3 → (needed.new * block_bytes < length bytes.now)
        × (slice_index present.now needed.new ≢ 1) }
    ensures fault { result ≡ 4 → (file : List ℕ) (t : Tree) → MayBe bytes.now present.now file
        → IsDatabase file t → ⊥ }
    ensures short { result ≡ 1 → length out.old < needed.new }
    ensures kept { result ≢ 0 → out.new ≡ out.old }
{
    compiled_answers_are_last();
    let known = Known {
        buffer: bytes,
        present,
    };
    let strings = match strings_of_known(alloc, known, device) {
        Ok(strings) => strings,
        Err(Stop::Missing(block)) => {
            *needed = block;
            return MISSING;
        }
        Err(Stop::Fault(_)) => return FAULT,
        Err(Stop::LongPath) => return LONG_PATH,
        Err(Stop::Memory) => return NO_MEMORY,
    };
    *needed = strings.len();
    if put(&strings, out) {
        WRITTEN
    } else {
        TOO_SHORT
    }
}

/// Writes the properties of the device to the front of `out`: key, byte 0, value, byte 0 for each key, ascending by
/// key. It is for bytes that [`hwdb_c_check`] has accepted.
///
/// Answers 0, and in `needed` how many bytes these are. Answers 1 if `out` has less room than `needed` says, and 2 if
/// an allocation failed. If it doesn't answer 0, `out` stays as it was.
///
/// One descent, as `hwdb_query::effective`. The memory that it takes is freed before it answers.
#[unsafe(no_mangle)]
pub extern "C" fn hwdb_c_properties(
    alloc: Global,
    bytes: &[u8],
    device: &[u8],
    out: &mut [u8],
    needed: &mut usize,
) -> u32
    requires { (t : Tree) × IsDatabase bytes.now t }
    ensures status { result ≤ 2 }
    ensures needed { result ≢ 2 → (t : Tree) → IsDatabase bytes.now t
        → needed.new ≡ length (device_strings device.now t) }
    ensures written { result ≡ 0 → (t : Tree) → IsDatabase bytes.now t
        → out.new ≡ device_strings device.now t ++ drop needed.new out.old }
    ensures headline { result ≡ 0 → (etc usr : List Source) → IsCompiled etc usr bytes.now
        → out.new ≡ last_strings device.now etc usr ++ drop needed.new out.old }
    ensures short { result ≡ 1 → length out.old < needed.new }
    ensures kept { result ≢ 0 → out.new ≡ out.old }
{
    compiled_answers_are_last();
    let Ok(strings) = strings_for(alloc, bytes, device) else {
        return NO_MEMORY;
    };
    *needed = strings.len();
    if put(&strings, out) {
        WRITTEN
    } else {
        TOO_SHORT
    }
}
