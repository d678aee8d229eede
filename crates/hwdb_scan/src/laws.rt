//! Laws over the definitions alone. Each function does nothing: its contract is the law.
ghost use Rattle.std.specs.Prelude.{List, ℕ};
ghost use Rattle.hwdb_scan.specs.Laws.{AtOnce, InPieces};
ghost use Rattle.hwdb_scan.specs.Rows.{CountRows, CutRows, KeyRows, NameRows, OtherRows, PathRows, SaidRows, WholeRows};
ghost use Rattle.hwdb_scan.specs.Views.{Scanning};

/// Bytes that come in pieces are the same as if they come at once.
pub fn law_in_pieces()
    ensures pieces { (s : Scanning) (one other : List ℕ) → InPieces s one other }
{}

/// What a new scanner tells of bytes is what is printed of them.
pub fn law_at_once()
    ensures once { AtOnce }
{}

/// Worked rows: what is told of recorded bytes.
pub fn scan_rows()
    ensures keys { KeyRows }
    ensures others { OtherRows }
    ensures cut { CutRows }
    ensures count { CountRows }
    ensures whole { WholeRows }
    ensures names { NameRows }
    ensures paths { PathRows }
    ensures said { SaidRows }
{}
