//! What file systems with the same contents tell is one. The function does nothing: its contract is the law.
ghost use Rattle.hwdb_laws.specs.ToldOnce.{ToldIsOne};

/// Two file systems have the same contents, and no reading of them may fail. Then they tell the same of each path, asked for as a file that words
/// name, as a text file or as a database: its bytes, or why it has none. The words of a cause may differ, and memory may be refused at any moment.
pub fn told_is_one()
    ensures { ToldIsOne }
{}
