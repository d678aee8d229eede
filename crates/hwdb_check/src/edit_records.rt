//! The lines of a file, record by record.
ghost use Rattle.std.specs.Prelude.{◌≡◌, ◌≤◌, ◌++◌, ◌-◌, ◌+◌, [], IfOk, OnOk, drop, length, map, nat_le, take};
ghost use Rattle.std.specs.List.{prefix_len};
ghost use Rattle.hwdb_spec_commands.specs.Patches;
ghost use Rattle.hwdb_check.specs.Found.{finds};
ghost use Rattle.hwdb_check.specs.Patching.{edits_of};

use crate::allowed::ends_record;
use crate::edits::{Edit, put_edit, taken_back};
use crate::findings::Found;
use std::alloc::{AllocError, Global};

/// The number of the last of some lines; 0 if there are none.
fn last_number(lines: &[Edit<'_>]) -> u64
    ensures { result ≡ Patches.last_number 0 (edits_of lines.now) }
{
    let mut last = 0;
    for edit in lines {
        last = edit.number;
    }
    last
}

/// Where the findings end of lines up to a number, of those from a place on.
fn end_until(found: &[Found], from: usize, last: u64) -> usize
    requires { from ≤ length found.now }
    ensures end { result
        ≡ from + prefix_len (λ f. nat_le f.line last) (drop from found.now) }
    ensures within { result ≤ length found.now }
    ensures after { from ≤ result }
{
    let mut end = from;
    'own: while end < found.len() {
        if found[end].line > last {
            return end;
        }
        end += 1;
    }
    end
}

/// Adds lines, without their mends if something is found in them. The only error, here and below, is `AllocError`.
fn put_lines<'f>(
    alloc: Global,
    all: &mut Vec<Edit<'f>>,
    own: &[Found],
    lines: &[Edit<'f>],
) -> Result<(), AllocError>
    ensures { OnOk result (edits_of all.new.items ≡ edits_of all.old.items
        ++ map (Patches.take_back (finds own.now)) (edits_of lines.now)) }
{
    for edit in lines {
        let now = taken_back(alloc, own, edit)?;
        put_edit(all, now)?;
    }
    Ok(())
}

/// Adds a record by the findings from a place on, and says where those after it begin.
fn put_record<'f>(
    alloc: Global,
    all: &mut Vec<Edit<'f>>,
    found: &[Found],
    from: usize,
    lines: &[Edit<'f>],
) -> Result<usize, AllocError>
    requires { from ≤ length found.now }
    ensures end { IfOk result (λ end. end ≡ from + prefix_len
        (λ f. nat_le f.line (Patches.last_number 0 (edits_of lines.now))) (drop from found.now)) }
    ensures within { IfOk result (λ end. end ≤ length found.now) }
    ensures lines { IfOk result (λ end. edits_of all.new.items ≡ edits_of all.old.items
        ++ map (Patches.take_back (finds (take (end - from) (drop from found.now))))
        (edits_of lines.now)) }
{
    let end = end_until(found, from, last_number(lines));
    put_lines(alloc, all, &found[from..end], lines)?;
    Ok(end)
}

/// Lines without the mends of the records in which something is found. It takes a step for each line and each finding.
pub fn record_by_record<'f>(
    alloc: Global,
    found: &[Found],
    edits: &[Edit<'f>],
) -> Result<Vec<Edit<'f>>, AllocError>
    ensures { IfOk result (λ all. edits_of all.items ≡ Patches.record_by_record
        (finds found.now) (Patches.records_from [] (edits_of edits.now))) }
{
    let mut all = Vec::new(alloc);
    let mut seen = 0;
    let mut from = 0;
    let mut at = 0;
    'lines: while at < edits.len() {
        let next = at + 1;
        if ends_record(edits[at].old) {
            seen = put_record(alloc, &mut all, found, seen, &edits[from..next])?;
            from = next;
        }
        at = next;
    }
    put_record(alloc, &mut all, found, seen, &edits[from..at])?;
    Ok(all)
}
