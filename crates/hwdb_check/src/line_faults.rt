//! The faults of a file, as its lines are read one after another.
ghost use Rattle.std.specs.Prelude.{◌≡◌, ◌++◌, ◌+◌, filter, flat_map, IfOk, OnOk};
ghost use Rattle.hwdb_spec.specs.Lines.{is};
ghost use Rattle.hwdb_spec.specs.Records;
ghost use Rattle.hwdb_spec_commands.specs.Findings.{one_fault};
ghost use Rattle.hwdb_check.specs.Following.{IsNext};
ghost use Rattle.hwdb_check.specs.Found.{finds};

use crate::findings::Found;
use crate::reports::put_fault;
use hwdb_spec::Fault;
use std::alloc::{AllocError, Global};

/// A line of a file.
#[derive(Clone, Copy)]
pub struct FileLine<'b> {
    /// The path that is printed for its file.
    pub path: &'b [u8],
    /// Its number, from 1.
    pub number: u64,
    /// Its text.
    pub text: &'b [u8],
}

/// Where the faults of the lines of a file begin among all of its faults.
pub fn first_next(bytes: &[u8], faults: &[Fault]) -> usize
    requires { faults.now ≡ Records.faults bytes.now }
    ensures { IsNext 1 result faults.now }
{
    hwdb_text::laws::sections_are_the_lines();
    hwdb_text::laws::faults_ascend();
    0
}

/// Adds the faults of a line to what is found. Among the faults of its file, which ascend by line, they begin at `next`. The result is
/// where those of the next line begin. The only error is `AllocError`.
pub fn put_line_faults(
    alloc: Global,
    found: &mut Vec<Found>,
    line: &FileLine<'_>,
    faults: &[Fault],
    next: usize,
) -> Result<usize, AllocError>
    requires { IsNext line.now.number next faults.now }
    ensures found { OnOk result (finds found.new.items ≡ finds found.old.items
        ++ flat_map (one_fault line.now.path.now line.now.text.now)
        (filter (λ f. is line.now.number f.line) faults.now)) }
    ensures next { IfOk result (λ after. IsNext (line.now.number + 1) after faults.now) }
{
    let mut next = next;
    while next < faults.len() {
        let fault = faults[next];
        if fault.line as u64 != line.number {
            return Ok(next);
        }
        put_fault(alloc, found, line, fault)?;
        next += 1;
    }
    Ok(next)
}
