//! What `device` prints: the strings that udev asks for a device, and what a database gives each.
//!
//! `hwdb_rules` says which strings rules ask, and `hwdb_query` what each gets. Nothing here reads a file.
//!
//! | Module | What it does |
//! |---|---|
//! | `printing` | what is printed of a device |
//! | `nearest` | what is near to strings that get nothing |
//! | `records` | records to begin with, and which strings they are for |
//! | `lasting` | a pattern that outlives another port and another BIOS |
//! | `row` | the line of a device in a list |
//! | `by_word` | the devices that ids or a part of a name mean, what is said if there are several, and what is near if there is none |
//! | `every` | the strings of all devices, and what is said of what can't be read |
#![tactic(auto)]

mod asking;
mod by_word;
mod every;
mod gifts;
mod json_lines;
mod kinds;
mod lasting;
mod laws;
mod nearest;
mod outcomes;
mod printing;
mod records;
mod row;
mod strings;
mod texts;
mod told;
mod whys;

pub use by_word::{fitting, near_given, several_text};
pub use every::{Asker, all_asked_text, unread_lines};
pub use hwdb_spec_commands::DeviceForm;
pub use laws::{
    asked_rows, device_rows, every_rows, near_rows, pattern_is_matched, pattern_is_of_one,
    pattern_outlives, record_rows, same_answers_same_text, text_is_of_files, text_rows,
};
pub use printing::{device_text, rules_text};
pub use row::device_row;
