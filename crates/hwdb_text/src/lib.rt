//! The text files of the hardware database (hwdb(7)): which files are read, and what each of them says.
//!
//! `choice` orders the `.hwdb` files of `/etc` and `/usr/lib` and gives them their priorities. `line` reads a line by
//! itself, `records` puts the lines together into records, and `parser` goes over a file. `outcome` has what the calls
//! answer. Each answer is the value of a definition in `specs/`. The definitions cut whole files into runs of lines;
//! the code reads line by line with a small state. `laws` says more about these definitions, in words of their own and
//! at worked rows.
//!
//! A file is read in one pass. [`scan`] borrows all texts from the file's bytes: its memory is a record for each
//! assignment and each fault. [`parse`] copies them, for callers that keep an assignment longer than the file.
#![tactic(auto)]

mod choice;
pub mod laws;
mod line;
mod outcome;
mod parser;
mod pieces;
mod records;

pub use crate::choice::{Chosen, ChosenFile, counts, select};
pub use crate::line::{Content, begins_with, content_of, end_of, indent_of, trim, unindented};
pub use crate::outcome::{Assignment, Given, Parsed, Scanned};
pub use crate::parser::{next_line, parse, scan};
pub use crate::pieces::{Lines, Pieces};
pub use crate::records::LONGEST_MATCH;
pub use hwdb_spec::{Fault, FaultKind, ScanError, SelectError};
