//! What is known of properties: which names they have, and which texts are their values.
//!
//! | Module | What it does |
//! |---|---|
//! | `common` | properties that most lines of large files have |
//! | `cuts` | the parts of a text before and after a byte |
//! | `fixes` | names and values as they were likely meant, if that is sure |
//! | `names` | names that are nearly alike |
//! | `nearest` | which of some names is nearest to one that is wanted |
//! | `words` | names that lost words, and names with odd bytes |
//! | `rows` | the row of a table for a name |
//! | `numbers` | texts that are numbers |
//! | `matrices` | matrices whose determinant is 0 |
//! | `values` | texts that are values of a form |
//! | `meant` | how a value was likely meant |
//! | `remarks` | what is said of a property that doesn't fit |
//! | `keys` | the keys that words ask for, each with its code |
//! | `unfound` | what is said if words ask for no key |
//! | `laws` | worked rows of the definitions |
//! | `surroundings` | below which prefixes a property is read, and with which others |
#![tactic(auto)]

mod common;
mod cuts;
mod fixes;
mod keys;
mod laws;
mod matrices;
mod meant;
mod names;
mod nearest;
mod numbers;
mod remarks;
mod rows;
mod surroundings;
mod unfound;
mod values;
mod words;

pub use common::is_common;
pub use cuts::{after, before, same};
pub use fixes::{meant_value, push_meant_key, push_meant_name};
pub use keys::{has_part, keys_text};
pub use laws::{
    axes_are_told, codes_are_told, keys_are_told, matrices_are_told, meant_values_are_told,
    names_are_told, near_key_rows, numbers_are_told, odd_names_are_told, pairs_are_told,
    prefixes_are_told, resolutions_are_told, settings_are_told,
};
pub use names::same_letters;
pub use nearest::nearer;
pub use remarks::{is_known, misuse_of, misuse_text, push_misuse_hint, push_unknown_hint};
pub use rows::{Likeness, first_row};
pub use surroundings::{companions_of, has_logged_code, is_read_below, push_elsewhere_hint};
pub use unfound::keys_told;
