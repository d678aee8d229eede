//! A check of a file that is read once, forward, in pieces of any size. Of the file it keeps the strings alone.
//!
//! Each record comes after all below it. So the nodes that are done and whose parents weren't met are texts that lie side
//! by side, from the first byte of the nodes section to where the pass is. They are in two tables of the caller's: the
//! offset of each, and its height. A record takes as many of the last of them as it has children, and is added itself.
//! A file is a database if the root alone is left where the section ends.
//!
//! A file that is accepted is a database. Of one that isn't nothing is said: the caller asks [`check`](crate::check), which
//! tells the fault. So it is with a database whose tables would be too long, or in which two keys share more than
//! [`KEY`] bytes.
//!
//! | Module | What it does |
//! |---|---|
//! | `outline` | a file whose header was tested, and its strings |
//! | `opening` | the header |
//! | `entries` | the value entries of a record |
//! | `children` | the child entries of a record |
//! | `feeding` | the records of a piece, one after another, and the end |
mod children;
mod entries;
mod feeding;
mod opening;
mod outline;

pub use entries::KEY;
pub use feeding::{feed, is_whole};
pub use opening::{open_outline, open_sections};
pub use outline::Outline;
