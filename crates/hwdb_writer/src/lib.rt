//! The back end of the compiler: assignments put in any order, and the database of their map.
//!
//! `Assignments` are a map from pattern and key; `put` sets one place. `write` gives the one byte string that the
//! layout (`hwdb-internal.h`) and the map determine, whatever order the assignments were put in.
//!
//! The steps of a database, each a module: `assignments` are sorted by `entries`. `builder` makes `nodes` of them.
//! `stored` puts the numbers of an `interner` in place of texts. `strings` sorts these and places them. `records` and
//! `output` write the bytes.
#![tactic(auto)]

mod assignments;
mod builder;
mod entries;
mod interner;
mod keyed;
mod laws;
mod memory;
mod nodes;
mod output;
mod records;
mod registry;
mod stored;
mod strings;

pub use crate::assignments::{Assignments, Assignments as Tree};
pub use crate::laws::{law_one_tight_tree, law_one_written_form};
pub use crate::memory::keep_pages;
pub use crate::output::{into_database, write};
pub use hwdb_spec::StoreError;
