//! What only calls of the crates from the text files to the program's errors show.
//!
//! | Module | What it has |
//! |---|---|
//! | `fixtures` | what the tests need a contract for |
//! | `tests` | rows whose expected values come from hwdb(7), the format's description, or a reading of them |
//!
//! The rows are here, above the crates that they try, so that a crate is not proved a second time with its tests. What
//! the built program shows has its rows in tests/run, and `tests/random/random` runs it beside a plain reference.
#![tactic(auto)]

pub mod fixtures;
#[cfg(test)]
mod tests;
