//! What is printed of a fault.
ghost use Rattle.std.specs.Prelude.{◌≡◌, ◌++◌, OnOk};
ghost use Rattle.hwdb_spec_commands.specs.Findings.{one_fault, told_fault};
ghost use Rattle.hwdb_check.specs.Found.{finds};
ghost use Rattle.hwdb_spec_commands.specs.Reports.{fault_hint};

use crate::findings::{Finding, Found, push_finding, put_found};
use crate::kinds::fault_name;
use crate::line_faults::FileLine;
use crate::places::fault_place;
use hwdb_spec::{Fault, FaultKind};
use hwdb_spec_commands::Format;
use std::alloc::{AllocError, Global};

/// What to do about a fault.
fn hint_of(kind: FaultKind) -> &'static str
    ensures { result.now ≡ fault_hint kind }
{
    match kind {
        FaultKind::StrayProperty => { "put a match line above it, with no empty line between them" }
        FaultKind::NoProperty => {
            "put a property below it, on a line that begins with a space, or take the match line away"
        }
        FaultKind::StrayMatch =>
            "put an empty line above it and its properties below it; a property begins with a space",
        FaultKind::NoEquals => "write it as KEY=VALUE; a match line begins without a space",
        FaultKind::EmptyKey => "put a key in front of the =",
        FaultKind::ZeroByte => {
            "take the byte away, or save the file as text without bytes 0, as UTF-8"
        }
        FaultKind::LongMatch => "shorten it, as by a * in place of what may differ",
    }
}

/// Adds a fault of a line to what is found. The only error, here and below, is `AllocError`.
#[tactic(auto, unfolding(hwdb_spec_commands::specs::Findings::one_fault))]
pub fn put_fault(
    alloc: Global,
    found: &mut Vec<Found>,
    line: &FileLine<'_>,
    fault: Fault,
) -> Result<(), AllocError>
    ensures { OnOk result (finds found.new.items
        ≡ finds found.old.items ++ one_fault line.now.path.now line.now.text.now fault) }
{
    let fix = None;
    let told = Finding {
        path: line.path,
        line: fault.line as u64,
        place: fault_place(fault.kind, line.text),
        fault: true,
        kind: fault_name(fault.kind),
        text: fault.kind.text().as_bytes(),
        hint: hint_of(fault.kind).as_bytes(),
        source: line.text,
        fix: &fix,
    };
    put_found(alloc, found, &told)
}

/// Adds what is printed of a fault of a line.
#[tactic(auto, unfolding(hwdb_spec_commands::specs::Findings::told_fault))]
pub fn push_fault(
    alloc: Global,
    format: Format,
    text: &mut Vec<u8>,
    line: &FileLine<'_>,
    fault: Fault,
) -> Result<(), AllocError>
    ensures { OnOk result (text.new.items
        ≡ text.old.items ++ told_fault format line.now.path.now line.now.text.now fault) }
{
    let fix = None;
    let found = Finding {
        path: line.path,
        line: fault.line as u64,
        place: fault_place(fault.kind, line.text),
        fault: true,
        kind: fault_name(fault.kind),
        text: fault.kind.text().as_bytes(),
        hint: hint_of(fault.kind).as_bytes(),
        source: line.text,
        fix: &fix,
    };
    push_finding(alloc, format, text, &found)
}
