//! A database of which the strings alone are held. It is checked while it is read, and answers devices by the few records that
//! these need.
//!
//! | Module | What it does |
//! |---|---|
//! | `places` | what is read of a file of which parts can be read |
//! | `passes` | a pass over its nodes |
//! | `kept` | what is kept of a file that was accepted |
//! | `accepting` | the check of a file |
//! | `windows` | the windows of it that were read |
mod accepting;
mod kept;
mod passes;
mod places;
mod windows;

pub use accepting::accepted;
pub use kept::KeptFile;
pub use windows::ReadWindows;
