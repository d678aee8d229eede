//! Devices made of patterns: what a change of text files does, shown without a list of devices.
//!
//! | Module | What it does |
//! |---|---|
//! | `rules` | what the rules of one key give a device |
//! | `texts` | a short text that a pattern matches |
//! | `overlap` | whether two patterns match no device both, or one all that the other does |
//! | `agreement` | whether two sides give the same to each device that a pattern matches |
//! | `changes` | the patterns of rules that one side alone has, or that come in another order |
//! | `levels` | the rules that may match devices of a pattern, for many patterns in turn |
//! | `samples` | the samples of one key of two sides |
//! | `groups` | the samples of all keys of two sides |
//! | `laws` | laws of the definitions, and worked rows |
#![tactic(auto)]

mod agreement;
mod changes;
mod groups;
mod laws;
mod levels;
mod overlap;
mod rules;
mod samples;
mod texts;

pub use groups::{KeySamples, Property, samples_by_key};
pub use laws::{
    given_rows, key_rows, law_found, law_nothing_found, law_rules_give, law_samples_fit,
    pattern_rows, sample_rows, side_rows,
};
pub use rules::{Rule, given};
pub use samples::{Sample, Samples, samples_of};
