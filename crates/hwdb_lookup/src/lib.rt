//! A lookup in a file of which some blocks were read. It checks what it enters, and nothing else.
//!
//! The caller has a buffer of the file's length, and a byte for each block that says whether the block was read. A
//! lookup answers with the properties of a device, or with the number of a block that has to be read first. The caller
//! reads that block and calls again. So the lookup does no input and keeps nothing between two calls.
//!
//! Over the blocks of a database the answer is exactly that of `hwdb_query::effective`. Over any other bytes it is an
//! answer or a fault, and the work is bounded: the records that are entered have no more bytes than the file.
//!
//! | Module | What it does |
//! |---|---|
//! | `stop` | why a lookup stops before its end |
//! | `known` | the bytes of a file, as far as they were read |
//! | `windows`, `seen` | a file of which the strings were read, and windows of its nodes |
//! | `parts` | a file of which blocks were read, or windows |
//! | `opening` | the header |
//! | `lazy_node` | a node whose record was entered |
//! | `nodes` | a node's record, its children and its values |
//! | `arrivals` | a node whose path is live, and its children |
//! | `descent` | the nodes whose paths are live, one after another |
//! | `lookups` | the properties of a device, where they come from, and its hits |
//! | `files` | a file whose parts can be read: its check, of which the strings are kept, and lookups that read windows |
#![tactic(auto)]

mod arrivals;
mod descent;
mod files;
mod known;
mod lazy_node;
mod lookups;
mod nodes;
mod opening;
mod parts;
mod seen;
mod stop;
mod windows;

pub use files::{KeptFile, ReadWindows, accepted};
pub use known::{BLOCK, Known};
pub use lookups::{explain_windows, hits_windows, lookup, lookup_windows};
pub use stop::Stop;
pub use windows::{WINDOW, Windows};
