//! The compiler: text files of two folders, made into one database.
//!
//! Of the assignments of the files with one pattern and key the last one survives (hwdb(7)). The database is the
//! written form of the map of those that do. Lines that hwdb(7) doesn't allow are skipped, and reported as faults.
//!
//! | Module | What it does |
//! |---|---|
//! | `sources` | the files of two folders, and the chosen ones among them |
//! | `compiler` | the files of two folders, made into one database |
//! | `laws` | what is proved of the definitions alone |
#![tactic(auto)]

mod compiler;
mod laws;
mod sources;

pub use compiler::{compile, compile_chosen};
pub use hwdb_spec::CompileError;
pub use laws::{last_is_latest, survivors_are_latest};
pub use sources::{Compiled, FileFault, SourceFile, choose, with_bytes};
