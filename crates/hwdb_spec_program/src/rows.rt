//! Rows that the definitions give. The function does nothing: its contract is that they give them.
ghost use Rattle.hwdb_spec_program.specs.Rows;

/// What `update --usr --verbose` says of /etc's database.
pub fn hiding_rows()
    ensures line { Rows.HidingRows }
    ensures unsaid { Rows.UnsaidRows }
    ensures quiet { Rows.QuietRows }
    ensures there { Rows.ThereRows }
{}
