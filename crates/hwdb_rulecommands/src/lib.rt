//! The commands of udev's rules: their words, what a command of the builtin hwdb asks, and which properties a command may set.
//!
//! | Module | What it does |
//! |---|---|
//! | `splitting` | the words of a builtin's command |
//! | `lookups` | what a command of the builtin hwdb asks |
//! | `builtins` | which builtin a word names |
//! | `settable` | which properties builtins and programs may set |
//! | `laws` | what is proved of the definitions alone, and worked rows |
#![tactic(auto)]

mod builtins;
mod laws;
mod lookups;
mod settable;
mod splitting;

pub use builtins::{Builtin, builtin_of, name_of};
pub use laws::{
    builtin_rows, lookup_laws, lookup_rows, name_laws, settable_rows, word_laws, word_rows,
};
pub use lookups::{Lookup, lookup_command};
pub use settable::{last_name, may_set, program_may_set, program_name};
pub use splitting::words;
