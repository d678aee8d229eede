//! What the commands print: texts and JSON of answers, made of the bytes of a database or of text files. They are written
//! to a [`Sink`](hwdb_io::Sink) that may fail at any byte.
//!
//! | Module | What it does |
//! |---|---|
//! | `texts` | the lines that are printed |
//! | `explanation` | the lines of `explain` |
//! | `json_lines` | the lines of JSON of `query` and `list` |
//! | `json_explanations` | the lines of JSON of `explain` |
//! | `json_laws` | what is read of JSON is what was written |
//! | `device_texts` | what is printed of devices, one after another |
//! | `kept_texts` | what `query`, `explain` and `list` print of a database of which the strings alone are held |
//! | `queries` | `query` and `explain`: what a database gives devices |
//! | `hit_lines` | the hits of a cursor, one line after another |
//! | `listing` | `list`: the hits that a database has for a device |
//! | `single_file` | `ask`: what one text file has for a device |
//! | `update` | `update`: the database of the files of two folders, put in its place |
//! | `chunk` | what a reader of lines holds |
//! | `line_reader` | the lines of a source, one after another |
//! | `renewal` | the database of a stream: bytes that may be replaced between two answers |
//! | `streaming` | `query -` and `explain -`: the devices of a source, each answered as it comes |
#![tactic(auto)]

mod chunk;
mod device_texts;
mod explanation;
mod hit_lines;
mod json_explanations;
mod json_laws;
mod json_lines;
mod kept_texts;
mod line_reader;
mod listing;
mod queries;
mod renewal;
mod single_file;
mod streaming;
mod texts;
mod update;

pub use chunk::LineReader;
pub use explanation::explanation_lines;
pub use hwdb_spec::ToolError;
pub use hwdb_spec_commands::Form;
pub use json_explanations::explanation_lines_json;
pub use json_laws::json_is_read_back;
pub use json_lines::{put_named, put_raw, raw_of};
pub use kept_texts::{Wanted, text_kept};
pub use listing::{ListAsked, print_list, run_list};
pub use queries::{answer, answers, run_query};
pub use renewal::{Kept, Renewal};
pub use single_file::{AskTexts, ask, ask_texts};
pub use streaming::{run_renewed, run_stream};
pub use texts::{property_lines, push_property};
pub use update::{put_in_place, run_update};
