//! Test files: what is wanted of devices, and whether a database gives it. What `test` says.
//!
//! A test file looks like the text files of hwdb(7): records of match lines, which are devices here, and properties. For each
//! device one descent of the database finds its properties. Each line of the record then finds those that it is about.
//!
//! | Module | What it does |
//! |---|---|
//! | `wanted_lines` | what a line wants |
//! | `given_values` | the properties that a database gives a device, and where from |
//! | `holding` | which of them a line is about, and whether it holds |
//! | `records` | the records of a test file |
//! | `malformed_lines` | its malformed lines |
//! | `failures` | what is printed of a line that doesn't hold |
//! | `json_lines` | the same as a line of JSON |
//! | `trials` | the lines of test files, each tried for each of its devices |
//! | `sayable` | what a test file can say, and what is said of the rest |
//! | `recording` | a test file that holds of a database |
//! | `laws` | what is proved of the definitions alone |
#![tactic(auto)]

mod failures;
mod given_values;
mod holding;
mod json_lines;
mod laws;
mod malformed_lines;
mod recording;
mod records;
mod sayable;
mod trials;
mod wanted_lines;

pub use recording::{RecordError, record};
pub use trials::{Tested, test_files};
