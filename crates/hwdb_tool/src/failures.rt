//! What failed calls and faulty words leave undone, and what comes before a job is done.
ghost use Rattle.hwdb_tool.specs.Failures.{CountsTellFailures, FaultlessAreNotTold, FaultyUpdateLeavesAll, RootIsEntered};

use hwdb_system::System;

/// A count of failed calls that didn't rise tells that none failed, unless it is at its greatest value.
pub fn counts_tell_failures()
    ensures { CountsTellFailures }
{}

/// `hwdb update --usr extra` has a word too many: whatever a crash leaves of it is what was there before.
pub fn faulty_update_leaves_all<D: System>(old: &D)
    ensures { FaultyUpdateLeavesAll (D.may_fail old.now) (D.Store.may_leave old.now) }
{}

/// Before a job is done: the root is entered, if looking at it can't fail, but for want of memory. Words without a fault are told nothing but
/// that: not that they are wrong, and no help.
pub fn faultless_words_begin<D: System>(before: &D, then: &D)
    ensures root { RootIsEntered (D.may_fail before.now) (D.may_fail then.now)
        (D.Store.may_leave before.now) (D.Store.may_leave then.now) }
    ensures told { FaultlessAreNotTold (D.may_fail before.now) (D.may_fail then.now)
        (D.Store.may_leave before.now) (D.Store.may_leave then.now) }
{}
