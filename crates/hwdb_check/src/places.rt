//! The place of a fault in its line.
ghost use Rattle.std.specs.Prelude.{◌≡◌, ◌≤◌, length};
ghost use Rattle.std.specs.List.{prefix_len};
ghost use Rattle.hwdb_spec.specs.Lines.{is_indent};
ghost use Rattle.hwdb_spec_commands.specs.Reports.{fault_place};

use hwdb_spec::FaultKind;
use hwdb_text::{LONGEST_MATCH, end_of, indent_of};

/// The place of a fault in its line, in bytes from 0.
pub fn fault_place(kind: FaultKind, line: &[u8]) -> usize
    ensures { result ≡ fault_place kind line.now }
{
    match kind {
        FaultKind::NoProperty | FaultKind::StrayMatch => 0,
        FaultKind::StrayProperty | FaultKind::NoEquals | FaultKind::EmptyKey => indent_of(line),
        FaultKind::ZeroByte => end_of(0, line),
        FaultKind::LongMatch => LONGEST_MATCH,
    }
}
