//! The patterns of hardware database files, and what they match.
//!
//! A pattern is read as hwdb(7) says: by POSIX.1-2017 fnmatch without flags (XCU 2.13), over bytes. `*` matches any
//! bytes, and `?` any one byte. A closed bracket, with the twelve named classes, matches one of its bytes. There are no
//! escapes, collating symbols and equivalence classes. `/` and a leading `.` are ordinary bytes, and so is a `[` that
//! begins no closed bracket.
//!
//! There are two matchers, for two questions:
//!
//! - [`glob`] answers whether one pattern matches one device. It searches from star to star and takes no memory.
//! - [`Reach`] goes along a path of a tree of patterns, piece by piece. It keeps all prefixes of the device that the
//!   path matches so far, since each child of a node goes on from them. So a common beginning of many patterns is
//!   matched once, and a subtree that can match nothing is left early. That costs memory: a list of at most 32 prefixes,
//!   or a byte for each prefix. It is none as long as each token of the path takes one byte of the device, and none
//!   right after a star.
//!
//! Neither tries all ways to match. `glob` takes at most as many steps as the pattern's length times the device's. A
//! feed of `Reach` takes at most the bytes kept and fed, times the device's length. There is one exception: if a
//! pattern has an open `[` after its first 4,096 bytes, `glob` looks for its end each time.
//!
//! | Module | What it does |
//! |---|---|
//! | `classes` | the named classes of bytes, as `[:digit:]` |
//! | `brackets` | brackets and the items in them |
//! | `tokens` | the tokens of a pattern |
//! | `cut` | the tokens of a pattern as a list |
//! | `opens` | where a `[` begins no closed bracket |
//! | `unusual` | a `[` that begins no closed bracket, a range without members |
//! | `search` | whether a pattern matches a device |
//! | `tables` | tables over a device: the places whose byte a token admits |
//! | `places` | one place of a device: whether a token takes the byte there |
//! | `lists` | few lengths, as a list |
//! | `rests` | all lengths from one on, as after a star |
//! | `met` | which of a device's prefixes some tokens match |
//! | `lengths` | how far one may go along a text at once |
//! | `fronts` | where some tokens stop at a device |
//! | `paths` | which prefixes a path matches that is fed piece by piece |
//! | `laws` | what is proved of the definitions alone |
#![tactic(auto)]

mod brackets;
mod classes;
mod cut;
mod fronts;
mod laws;
mod lengths;
mod lists;
mod met;
mod opens;
mod paths;
mod places;
mod rests;
mod search;
mod tables;
mod tokens;
mod unusual;

pub use brackets::bracket_end;
pub use cut::{begins_star, begins_with, front_size, token_texts};
pub use fronts::{Front, front_count, longest_front};
pub use laws::{
    closed_bracket_stays, closed_part_is_cut_alike, dead_matches_nothing, dead_stays_dead,
    live_is_tested, matches_is_tested, tokens_are_the_pattern, worked_rows,
};
pub use paths::Reach;
pub use search::glob;
pub use unusual::{open_place, range_place};
