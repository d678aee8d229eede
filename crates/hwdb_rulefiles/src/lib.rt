//! Rules files of udev (udev(7)): which of them are read, and what each of them says.
//!
//! | Module | What it does |
//! |---|---|
//! | `choice` | which files of the four folders are read, and their order |
//! | `rows` | the rows of a file |
//! | `whole` | lines of one row, or of several that go on |
//! | `pairs`, `values`, `escapes` | a pair of a line, and its value |
//! | `keys` | the keys, and what each takes |
//! | `tokens` | what a pair says |
//! | `order` | the order in which udev runs the tokens of a line |
//! | `lines` | what a line says |
//! | `jumps` | jumps without a label |
//! | `parsed` | what a file says |
//! | `findings` | what is wrong with a file, as data |
//! | `spots` | the line and the column of a finding |
//! | `hints` | how much a finding matters, and what to do about it |
//! | `texts` | what is printed of findings |
//! | `laws` | what is proved of the definitions alone, and worked rows |
#![tactic(auto)]

mod choice;
mod escapes;
mod findings;
mod hints;
mod jumps;
mod keys;
mod laws;
mod lines;
mod order;
mod pairs;
mod parsed;
mod rows;
mod spots;
mod texts;
mod tokens;
mod values;
mod whole;

pub use choice::{ChosenRules, Folder, choose, counts};
pub use findings::{Finding, FindingKind};
pub use keys::{Key, key_of};
pub use laws::{
    choice_rows, empty_file_masks, first_folder_counts, jump_rows, line_rows, more_changes_nothing,
    order_rows, refused_rows, remark_rows, spot_rows, system_rows, value_rows,
};
pub use lines::{Outcome, RuleLine};
pub use pairs::Operator;
pub use parsed::{Parsed, parse};
pub use rows::rows_of;
pub use spots::{Spot, spot_of, spots_of};
pub use texts::report;
pub use tokens::{Token, TokenKind, first_word, is_builtin};
pub use whole::LINE_SIZE;
