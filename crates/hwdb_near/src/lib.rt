//! Why a line of a text file doesn't count for a device: its pattern almost matched, and where it stopped, or a later line replaced
//! it. The first is what `near` says, the second what `explain --text` says besides.
//!
//! A pattern stops after the longest front of its tokens that matches a front of the device ([`stops`]). The nearest
//! patterns miss the fewest literals: those that neither that front nor the longest back of the rest matches, with
//! letters' case folded. All patterns are gone through once, and then sorted.
//!
//! | Module | What it does |
//! |---|---|
//! | `fronts` | where a pattern stops |
//! | `matching` | whether a pattern matches |
//! | `rating` | how near a pattern is |
//! | `found` | patterns at their places, and the nearest of them |
//! | `nearest` | those of some patterns that match, and the nearest that don't |
//! | `patterns` | the patterns of text files |
//! | `databases` | the patterns of a database |
//! | `reasons` | why a pattern stops, in words |
//! | `reports` | what is printed of patterns as text |
//! | `json_lines` | what is printed of patterns as lines of JSON |
//! | `printing` | what `near` prints of some patterns |
//! | `asked` | what it prints of text files, and of a database |
//! | `wanted` | the assignments of text files whose pattern matches |
//! | `counted` | how many assignments text files have |
//! | `each_once` | some assignments, each once |
//! | `replacements` | which of some assignments a later one replaced |
//! | `replaced_texts` | what is printed of these as text |
//! | `replaced_json` | what is printed of these as lines of JSON |
//! | `replaced` | what `explain --text` prints of text files |
//! | `prefixes` | of some texts with a prefix and of some patterns with it the two that are nearest |
//! | `laws` | what is proved of the definitions alone |
#![tactic(auto)]

mod asked;
mod counted;
mod databases;
mod each_once;
mod found;
mod fronts;
mod json_lines;
mod laws;
mod matching;
mod nearest;
mod patterns;
mod prefixes;
mod printing;
mod rating;
mod reasons;
mod replaced;
mod replaced_json;
mod replaced_texts;
mod replacements;
mod reports;
mod wanted;

pub use asked::{near_in_database, near_in_files};
pub use counted::count_given;
pub use found::PatternAt;
pub use fronts::{Stop, stops};
pub use hwdb_spec::NearError;
pub use laws::{
    last_and_replaced_are_all, none_replaces_itself, patterns_are_of_files, replaced_rows,
    stops_are_computed, worked_rows,
};
pub use patterns::{PatternFile, push_patterns};
pub use prefixes::push_prefix_report;
pub use printing::{near_json, near_text};
pub use replaced::replaced_in_files;
