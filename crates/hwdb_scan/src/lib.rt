//! The keys that are pressed, told by the events of an input device: the scan code of each, the key it makes, and the line to write.
//!
//! | Module | What it does |
//! |---|---|
//! | `events` | a record of an event |
//! | `keys` | the line of a key |
//! | `scanner` | the lines of bytes that come in any pieces |
//! | `scanning` | the lines of a source, each as its bytes come |
//! | `asked` | what is read, and what is said if it can't be read |
//! | `laws` | laws of the definitions, and worked rows |
#![tactic(auto)]

mod asked;
mod events;
mod keys;
mod laws;
mod scanner;
mod scanning;

pub use asked::{scanned_path, unscanned_text};
pub use laws::{law_at_once, law_in_pieces, scan_rows};
pub use scanner::Scanner;
pub use scanning::run_scan;
