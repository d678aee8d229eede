//! The database's place: a file is replaced whole, whatever call fails and whenever a crash comes.
//!
//! A [`calls::Store`] is what the program asks of a file system, call by call. It says what a read gives and what a crash
//! at each moment may leave. [`replacement`] puts a new file in the database's place by these calls. [`others`] has a
//! store in which others go on between them.
#![tactic(auto)]

pub mod calls;
pub mod laws;
pub mod memory;
pub mod others;
pub mod replacement;

pub use calls::{CallFailed, Store};
pub use hwdb_spec::Unreplaced;
pub use laws::{beside_is_whole, memory_tears, unsynced_files_tear};
pub use memory::{File, Memory, PathState, Step};
pub use others::{Others, Rival, Shared, replace_beside};
pub use replacement::{DATABASE, DATABASE_MODE, PART_MODE, part_name, part_number, replace};
