//! Rows that only a call of a library shows; those of the built program are in tests/run.
mod calls;
mod compiling;
mod entered;
mod errors;
mod nearest;
mod own_rules;
mod patterns;
mod refusals;
mod scans;
mod sinks;
mod trees;
