//! A database as a whole: all that it assigns, as text too, how much that is, and what changed from one database to
//! another.
//!
//! Each of these walks the whole tree, without a device. The time is that of one look at each node, and of the bytes of
//! the patterns. `dump` holds all assignments at once, and sorts them. `diff` and `status` hold the next one of each
//! database, and `diff` each change.
//!
//! | Module | What it does |
//! |---|---|
//! | `pairs` | two ascending lists of assignments, gone through side by side |
//! | `held` | changes, each with its assignments; `reviewing`: which of them count |
//! | `lines` | the lines of changes; `device_lines`: those of a device; `json_changes`: all as JSON |
//! | `groups` | the changes of a pattern; `renamed`: changes by record, and records whose patterns alone changed |
//! | `tables` | changes as tables of Markdown |
//! | `unmet` | the changes that no device meets |
//! | `sampling` | devices made of the patterns of two databases; `undecided`: patterns of which it isn't known whether there is one |
//! | `counting` | how many changes there are, by file and by key; `counts_text`: the same as lines or JSON |
//! | `gifts` | what a database gives a device |
//! | `listing` | `dump`: a database as text |
//! | `holding` | all assignments of a database at once, their patterns in one text |
//! | `records` | the records of a dump, and what a record says; `plain`: those that say it for sure |
//! | `difference` | `diff`: what changed from one database to another, of all or for devices |
//! | `summary` | how much is in a database; `depths`: how deep it is alone |
//! | `texts` | whether texts are one; `ordering`: texts in order, each once |
//! | `freshness` | `status`: how a database is beside what the text files make; `alike`: whether two databases assign the same |
//! | `amounts` | how much is in a database, as `status` says it; `inventory`: what is counted for it |
//! | `reports` | the lines of `status`; `json_reports`: the same as JSON |
//! | `verification` | `verify`: whether bytes are a database, and how much is in it |
//! | `members` | the assignments of a database, one after another while it is walked |
//! | `meeting` | two databases, walked side by side, and what changed; `abreast`: how far their ways are the same |
//! | `trail` | the way to a node, as segments; `spelling`: its bytes, as far as they were read |
//! | `walk` | all assignments of a database, by pattern and key; `beginnings`: those whose pattern begins with a byte |
//! | `laws` | laws of the map of a database, and of its dump |
#![tactic(auto)]

mod abreast;
mod alike;
mod amounts;
mod beginnings;
mod counting;
mod counts_text;
mod depths;
mod device_lines;
mod difference;
mod freshness;
mod gifts;
mod groups;
mod held;
mod holding;
mod inventory;
mod json_changes;
mod json_reports;
mod laws;
mod lines;
mod listing;
mod meeting;
mod members;
mod ordering;
mod pairs;
mod plain;
mod records;
mod renamed;
mod reports;
mod reviewing;
mod sampling;
mod spelling;
mod summary;
mod tables;
mod texts;
mod trail;
mod undecided;
mod unmet;
mod verification;
mod walk;

pub use amounts::{Amount, amount_of};
pub use beginnings::assignments_from;
pub use depths::depth_of;
pub use difference::{Changes, diff, diff_samples};
pub use freshness::{Standing, State, standing_of};
pub use hwdb_spec::{DiffError, DumpError, VerifyError};
pub use laws::{
    dump_says, dump_tells, gifts_are_effective, members_are_the_map, samples_are_complete,
};
pub use listing::dump;
pub use ordering::in_order;
pub use reports::{Report, is_well, report_in};
pub use verification::verify;
pub use walk::assignments;
