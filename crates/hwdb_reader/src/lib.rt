//! The checked reader of a hardware database. [`check`] accepts exactly the databases, in one pass and without memory.
//! It answers a view whose reads never test an offset again.
//!
//! The layout is that of systemd's `hwdb-internal.h`, with the record sizes that the header announces. `hwdb_spec`
//! defines what a database of a tree is, and what each fault is.
//!
//! - `header`: the faults B1 to B5, in this order;
//! - `walk`: the nodes, by a loop over the open ones of one path;
//! - `path`: the open nodes, in a table of a fixed size on the thread's stack;
//! - `values`: the value entries of a node;
//! - `repeats`: which of two strings is less, in a text in which long stretches occur more than once;
//! - `fields` and `places`: single fields, and the offsets of records;
//! - `view`: the nodes, children and values of a database that was accepted;
//! - `unread`: the values of a node, without a look at their texts;
//! - `twins`: two databases that have most of their strings in common;
//! - `stars`: a long run of stars among the strings;
//! - `passes`: whether a file is a database, of which the strings are held and the nodes come in pieces, once and forward;
//! - `reopened`: the view of a database that was accepted before;
//! - `laws`: laws of the format, on the definitions alone.
#![tactic(auto)]

mod checker;
mod fields;
mod frame;
mod header;
mod laws;
mod passes;
mod path;
mod places;
mod reopened;
mod repeats;
mod stars;
mod twins;
mod unread;
mod values;
mod view;
mod walk;

pub use checker::check;
pub use fields::{is_place, text, text_front, u16_at, u32_at, u64_at};
pub use frame::Frame;
pub use header::check_header;
pub use hwdb_spec::DbFault;
pub use laws::{
    law_ascending, law_faultless, law_few_nodes, law_header_faults, law_offsets, law_one_tree,
    law_samples,
};
pub use passes::{KEY, Outline, feed, is_whole, open_outline, open_sections};
pub use places::{child_entry_at, value_entry_at};
pub use reopened::reopen;
pub use twins::Twins;
pub use unread::{StoredText, UnreadEntry};
pub use values::check_value;
pub use view::{Child, Db, Entered, Entry, Inside, Node, Origin};
pub use walk::record_end_within;
