//! The strings that a system's own rules ask for a device.
//!
//! `hwdb_ruleevents` says which lookups rules ask, by what is known of a device and of commands. Here is what is known: from sysfs, and
//! from a database that answers. Nothing here reads a file.
//!
//! | Module | What it does |
//! |---|---|
//! | `names` | which attributes rules read |
//! | `sights` | what sysfs tells of a device and its parents |
//! | `properties` | the properties that a device begins with |
//! | `answers` | what strings get |
//! | `lookups` | the strings of a command |
//! | `commands` | what builtins and programs do |
//! | `usb` | what the builtin usb_id does |
//! | `reasons` | what is said of why lines ask, may ask, or don't |
//! | `strings` | the strings of all rules |
//! | `files` | rules files that were read |
#![tactic(auto)]

mod answers;
mod commands;
mod files;
mod lookups;
mod names;
mod properties;
mod reasons;
mod sights;
mod strings;
mod usb;

pub use answers::{Found, ask_questions, first_value, told};
pub use files::{ParsedFile, files_in, names_text, parsed_files};
pub use strings::{ByRules, RulesFile, Why, told_by_rules};
