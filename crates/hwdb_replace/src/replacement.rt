//! The database is replaced: a new file beside it, on the disk, takes its place.
ghost use Rattle.std.specs.Prelude.{◌≡◌, ◌⊎◌, ◌<◌, List, ℕ, Option, Some, OnOk, OnErr, IfOk, IfErr, IfSome, MatchResult};
ghost use Rattle.hwdb_spec.specs.Failures.{CountsFailures};
ghost use Rattle.hwdb_spec.specs.Store.{Written, NoMore, Installed, Always, LeavesOnly, OldOrNew, Stored, path_in, part_name, database_name, database_file, most_parts};
ghost use Rattle.hwdb_spec.specs.Sharing.{OldOrOurs};
ghost use Rattle.hwdb_spec.specs.NotReplaced.{IsSeen, IsLeft, failures_after};
ghost use Rattle.hwdb_replace.specs.Internal.{Makes, NotMade, Fills, Touches, Settles, Exchanges, Fails, IsEmpty};
ghost use Rattle.hwdb_spec.specs.declared.errors.Unreplaced.TheVariants.{Undone};

use crate::calls::{CallFailed, Store};
use arrayvec::ArrayString;
use hwdb_spec::Unreplaced;
use itoa::Buffer;
use std::str::from_utf8;

/// The database's name in its folder.
pub const DATABASE: &str = "hwdb.bin";

/// How the name of the new file begins, before its number.
const PART: &str = ".#hwdb.bin";

/// Who may read and write the new file while it is written, and once it is the database: systemd-hwdb's modes.
pub const PART_MODE: u32 = 0o600;

pub const DATABASE_MODE: u32 = 0o444;

/// How many names are tried for the new file.
const MOST_PARTS: u32 = 65536;

impl From<CallFailed> for Unreplaced {
    ghost from_gives = { λ _ e. e ≡ Undone };

    fn from(_: CallFailed) -> Unreplaced {
        Unreplaced::Undone
    }
}

/// Replaces the database in a folder, which is made if it isn't there, by these bytes.
///
/// Leftovers of killed updates are removed first. A new file is made beside the database, `.#hwdb.bin` and the first
/// number that makes a new name. It gets the bytes and its mode, is synced, and is renamed over `hwdb.bin`. Then the
/// folder is synced. After a call that failed the new file is removed. It takes no memory but what the store takes.
///
/// A crash at any moment leaves the old database or the new one, whole, and every other file as it was, but for such
/// leftovers.
pub fn replace<S: Store>(store: &mut S, folder: &str, bytes: &[u8]) -> Result<(), Unreplaced>
    ensures replaced { S.tells → OnOk result
        (Installed folder.now bytes.now (S.seen store.old) (S.seen store.new)) }
    ensures durable { S.tells → OnOk result
        (Always (path_in folder.now database_name) (Some (database_file bytes.now))
        (S.may_leave store.new)) }
    ensures any_moment { S.tells → LeavesOnly S.moment S.left_since store.old store.new
        (OldOrNew folder.now bytes.now (S.seen store.old) (S.may_leave store.old)) }
    ensures afterwards { S.tells → NoMore
        (OldOrNew folder.now bytes.now (S.seen store.old) (S.may_leave store.old))
        (S.may_leave store.new) }
    ensures seen { S.tells → IfErr result
        (IsSeen folder.now bytes.now (S.seen store.old) (S.seen store.new)) }
    ensures left { S.tells → IfErr result
        (IsLeft folder.now bytes.now (S.seen store.old) (S.may_leave store.old)
        (S.may_leave store.new)) }
    ensures shared { S.tells_own → LeavesOnly S.moment S.left_since store.old store.new
        (OldOrOurs folder.now bytes.now (S.may_leave store.old)) }
    ensures shared_afterwards { S.tells_own → NoMore
        (OldOrOurs folder.now bytes.now (S.may_leave store.old)) (S.may_leave store.new) }
    ensures shared_last { S.tells_own → OnOk result ((v : Option Stored)
        → S.may_leave store.new (path_in folder.now database_name) v
        → (v ≡ Some (database_file bytes.now)) ⊎ S.theirs (path_in folder.now database_name) v) }
    ensures shared_put { S.tells_own → OnOk result (S.left_since store.new (S.moment store.old)
        (path_in folder.now database_name) (Some (database_file bytes.now))) }
    ensures cause { MatchResult result (λ _. S.failures store.new ≡ S.failures store.old)
        (λ e. S.failures store.new ≡ failures_after e (S.failures store.old)) }
{
    store.clear_parts(folder);
    exchange(store, folder, bytes)
}

/// Puts these bytes in the database's place, without a look at leftovers.
fn exchange<S: Store>(store: &mut S, folder: &str, bytes: &[u8]) -> Result<(), Unreplaced>
    ensures leaves { S.tells_own → MatchResult result
        (λ _. Exchanges S.Store folder.now bytes.now store.old store.new)
        (Fails S.Store folder.now bytes.now store.old store.new) }
    ensures cause { MatchResult result (λ _. S.failures store.new ≡ S.failures store.old)
        (λ e. S.failures store.new ≡ failures_after e (S.failures store.old)) }
{
    let part = make(store, folder)?;
    match settle(store, folder, part.as_str(), bytes) {
        Ok(()) => match store.sync_folder(folder) {
            Ok(()) => Ok(()),
            Err(_) => Err(Unreplaced::Unsynced),
        },
        Err(_) => match store.remove(folder, part.as_str()) {
            Ok(()) => Err(Unreplaced::Undone),
            Err(_) => Err(Unreplaced::LeftBehind),
        },
    }
}

/// The name of the new file with this number.
pub fn part_name(number: u32) -> ArrayString<20>
    ensures { result.bytes ≡ part_name number }
{
    let mut digits = Buffer::new();
    let mut name = ArrayString::new();
    name.push_str(PART);
    name.push_str(digits.format(number));
    name
}

/// The number in a name that begins as new files' do.
fn number_in(name: &[u8]) -> Option<u32> {
    let digits = name.strip_prefix(PART.as_bytes())?;
    from_utf8(digits).ok()?.parse::<u32>().ok()
}

/// The number of a name that a new file may have.
pub fn part_number(name: &[u8]) -> Option<u32>
    ensures { IfSome result
        (λ number. (number < most_parts) × (name.now ≡ part_name number)) }
{
    let number = number_in(name)?;
    if number < MOST_PARTS && name == part_name(number).as_str().as_bytes() {
        Some(number)
    } else {
        None
    }
}

/// Makes the new file, under the first name that nothing has, and returns its name.
fn make<S: Store>(store: &mut S, folder: &str) -> Result<ArrayString<20>, Unreplaced>
    ensures makes { MatchResult result
        (λ name. Makes S.Store folder.now (path_in folder.now name.bytes) store.old store.new)
        (NotMade S.Store folder.now store.old store.new) }
    ensures cause { MatchResult result (λ _. S.failures store.new ≡ S.failures store.old)
        (λ e. S.failures store.new ≡ failures_after e (S.failures store.old)) }
{
    store.make_folder(folder)?;
    'numbers: for number in 0..MOST_PARTS {
        let name = part_name(number);
        if store.create_new(folder, name.as_str())? {
            return Ok(name);
        }
    }
    Err(Unreplaced::NamesTaken)
}

/// Gives the new file all of the bytes, has it on the disk, and renames it.
fn settle<S: Store>(store: &mut S, folder: &str, part: &str, bytes: &[u8]) -> Result<(), CallFailed>
    requires own { S.is_own store.old (path_in folder.now part.now) }
    requires empty { S.tells_own → IsEmpty S.Store (path_in folder.now part.now) store.old }
    ensures own { OnErr result (S.is_own store.new (path_in folder.now part.now)) }
    ensures leaves { S.tells_own → let path = path_in folder.now part.now in MatchResult result
        (λ _. Settles S.Store path (path_in folder.now database_name) bytes.now
        store.old store.new)
        (λ _. Touches S.Store path store.old store.new) }
    ensures cause { CountsFailures (S.failures store.old) (S.failures store.new) result }
{
    fill(store, bytes)?;
    store.rename(folder, part, DATABASE)?;
    Ok(())
}

/// Gives the new file all of the bytes and its mode, and has it on the disk.
fn fill<S: Store>(store: &mut S, bytes: &[u8]) -> Result<(), CallFailed>
    ensures fills { Fills S.Store store.old store.new }
    ensures whole { OnOk result ((p : List ℕ) → S.is_own store.old p → S.is_whole store.new p) }
    ensures filled { S.tells_own → (p : List ℕ) → IsEmpty S.Store p store.old → OnOk result
        (S.seen store.new p ≡ Some (database_file bytes.now)) }
    ensures cause { CountsFailures (S.failures store.old) (S.failures store.new) result }
{
    write_all(store, bytes)?;
    store.set_mode()?;
    store.sync()?;
    Ok(())
}

/// Adds all of the bytes to the new file.
fn write_all<S: Store>(store: &mut S, bytes: &[u8]) -> Result<(), CallFailed>
    ensures fills { Fills S.Store store.old store.new }
    ensures written { S.tells_own → OnOk result
        (Written (S.part store.old) bytes.now (S.seen store.old) (S.seen store.new)) }
    ensures cause { CountsFailures (S.failures store.old) (S.failures store.new) result }
{
    let mut written = 0;
    while written < bytes.len() {
        written += store.write(&bytes[written..])?;
    }
    Ok(())
}
