//! What the lines of udev's rules ask for one device: jumps, properties that rules set, and lookups, each certain or perhaps.
//!
//! | Module | What it does |
//! |---|---|
//! | `changes` | what is known of properties while rules run |
//! | `pieces` | the pieces of a value: bytes, and variables |
//! | `values` | attributes, as udev writes them into texts |
//! | `texts` | the texts of values, as far as they are known |
//! | `parents` | the parent that a line chose |
//! | `effects` | what is known of a token that is run |
//! | `telling` | what is told of a line |
//! | `reasons` | why lines ask, may ask, or don't |
//! | `files` | jumps, and what is told of the lines of files |
//! | `laws` | what is proved of the definitions alone |
#![tactic(auto)]

mod changes;
mod effects;
mod files;
mod laws;
mod parents;
mod pieces;
mod reasons;
mod telling;
mod texts;
mod values;

pub use changes::{Change, Held, Value, known, value_in};
pub use effects::{Commands, Effect, Facts, Knowledge, is_env, known_as};
pub use files::{Story, tell_files};
pub use laws::{
    events_are_covered, events_are_exact, jump_rows, parent_rows, property_rows, text_rows,
    written_rows,
};
pub use parents::Parent;
pub use pieces::{Piece, Variable, pieces_of};
pub use reasons::{Cause, Reason};
pub use telling::Told;
