//! Laws over the definitions alone. Each function does nothing: its contract is the law.
ghost use Rattle.hwdb_exports.specs.Rows.{InputRows, OtherRows, PlaceRows, SaidRows, TwiceRows, ValueRows};

/// Worked rows: what the definitions give when they are computed, over a small export.
#[tactic(auto, unfolding(hwdb_spec_commands::specs::DeviceTree::last_after, hwdb_spec_commands::specs::Exports::decoded, hwdb_spec_commands::specs::Exports::devices_in, hwdb_spec_commands::specs::Exports::spot_after, hwdb_spec::specs::Lines::pieces))]
pub fn export_rows()
    ensures input { InputRows }
    ensures others { OtherRows }
    ensures places { PlaceRows }
    ensures values { ValueRows }
    ensures twice { TwiceRows }
    ensures said { SaidRows }
{}
