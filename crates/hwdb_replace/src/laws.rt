//! Laws over the definitions of a crash and of others. Without them a model in which nothing is lost, or nobody else is there,
//! would meet all promises.
ghost use Rattle.std.specs.Prelude.{Option, OnOk};
ghost use Rattle.hwdb_spec.specs.Store.{Stored};
ghost use Rattle.hwdb_replace.specs.Laws.{BesideIsOneOfThree, NothingElseIsPut, OwnFilesAreLeftAlone, RenamesComeUndone, TheirsAreWhole, UnsyncedFilesTear};
ghost use Rattle.hwdb_replace.specs.Memory.{left_of};

use crate::calls::{CallFailed, Store};
use crate::memory::Memory;

/// A crash may leave a part of a file that wasn't synced, and undo a rename that wasn't.
#[tactic(auto, using(crate::proofs::TearingLemmas::unsynced_files_tear, crate::proofs::TearingLemmas::renames_come_undone))]
pub fn unsynced_files_tear()
    ensures files { UnsyncedFilesTear }
    ensures renames { RenamesComeUndone }
{}

/// Beside others three files may be in the database's place, whole; and nobody touches another's new file.
#[tactic(auto, using(crate::proofs::BesideLemmas::beside_is_one_of_three, crate::proofs::BesideLemmas::own_files_are_left_alone))]
pub fn beside_is_whole()
    ensures three { BesideIsOneOfThree }
    ensures put { NothingElseIsPut }
    ensures theirs { TheirsAreWhole }
    ensures alone { OwnFilesAreLeftAlone }
{}

/// Writes to the file that a store in memory made last. It tears: a crash may leave anything of that file then.
pub fn memory_tears(store: &mut Memory, buf: &[u8]) -> Result<usize, CallFailed>
    ensures { OnOk result ((left : Option Stored)
        → left_of store.new.steps.items store.old.part.items left) }
{
    store.write(buf)
}
