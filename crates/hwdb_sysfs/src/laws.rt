//! Laws over the definitions alone. Each function does nothing: its contract is the law.
ghost use Rattle.hwdb_sysfs.specs.Rows.{FoundRows, ListedRows, NameRows, NearRows, NodeRows, ReadRows, SysfsRows, UnreadRows};

/// Worked rows: what the definitions give when they are computed, over a small sysfs.
#[tactic(auto, unfolding(hwdb_spec::specs::Assignment::put, hwdb_spec::specs::Assignment::put_all, hwdb_spec_commands::specs::DeviceTree::above, hwdb_spec_commands::specs::DeviceTree::first_given, hwdb_spec_commands::specs::DeviceTree::last_after, hwdb_spec_commands::specs::DeviceTree::alike, hwdb_spec_commands::specs::DeviceTree::nearest_of, hwdb_spec::specs::Lines::pieces, strsim::specs::Edits::cost_at, strsim::specs::Edits::next_row, strsim::specs::Edits::rows))]
pub fn worked_rows()
    ensures read { ReadRows }
    ensures found { FoundRows }
    ensures unread { UnreadRows }
    ensures listed { ListedRows }
    ensures names { NameRows }
    ensures nodes { NodeRows }
    ensures near { NearRows }
    ensures sysfs { SysfsRows }
{}
