//! Where bytes come from and go to: each device counts its failed calls, and some tell their bytes. Whole sources are read, and
//! whole texts are written.
//!
//! | Module | What it has |
//! |---|---|
//! | `devices` | a source and a sink, and what they promise |
//! | `adapters` | std's readers and writers as devices |
//! | `testing` | a sink in memory |
//! | `places` | a file of which parts can be read |
//! | `transfer` | a whole source is read, a whole text is written |
//! | `laws` | laws of failed calls, and of what an output took |
#![tactic(auto)]

mod adapters;
mod devices;
mod laws;
mod places;
pub mod testing;
mod transfer;

pub use adapters::{FromRead, ToWrite, after_failure, write_on};
pub use devices::{Sink, Source};
pub use hwdb_spec::{Cause, DeviceFailed, Message, ReadError};
pub use laws::{nothing_is_held_back, one_failed_has_failed, outputs_have_what_they_took};
pub use places::Places;
pub use transfer::{CHUNK, MAX_BYTES, read_all, write_text};
