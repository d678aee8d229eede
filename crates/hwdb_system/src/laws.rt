//! Laws of what is told if text files can't be read.
ghost use Rattle.hwdb_system.specs.Laws.{FirstLongFileIsNamed};

/// If chosen files are too long, the error names the first of them: two errors that may come name one file.
pub fn first_long_file_is_named()
    ensures { FirstLongFileIsNamed }
{}
