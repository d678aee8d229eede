//! The conditions of udev's rules, over what is known of a device: yes, no, or nothing.
//!
//! | Module | What it does |
//! |---|---|
//! | `matching` | whether a text is as a value has it |
//! | `sights` | what is known of a device |
//! | `conditions` | which conditions of a line hold, as far as it is known |
//! | `asking` | which lookups a line asks, or may ask |
//! | `causes` | what decides over the conditions of a line |
//! | `laws` | what is proved of the definitions alone, and worked rows |
#![tactic(auto)]

mod asking;
mod causes;
mod conditions;
mod laws;
mod matching;
mod sights;

pub use asking::{Asked, is_lookup, is_net_id, lookups, runs};
pub use causes::cause;
pub use conditions::{
    ATTRIBUTE_SIZE, all_of, and_then, by_operator_told, has_parents, is_parents, is_plain,
    line_told,
};
pub use laws::{
    cause_is_there, condition_rows, lookup_rows, lookups_are_covered, match_rows, parents_are_so,
    told_is_so,
};
pub use matching::{begins_with, has_byte, is_wild, told_fit};
pub use sights::{Entry, Known, Seen, Sight, attribute_of, entry_of};
