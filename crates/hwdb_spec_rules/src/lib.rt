//! What it means that a system's own rules ask strings for a device: definitions, and nothing that runs.
//!
//! | Definitions | What they say |
//! |---|---|
//! | `RuleNames` | which attributes rules read |
//! | `RuleSights` | what sysfs tells before any rule is tried |
//! | `DeviceCommands` | what is known of builtins and programs |
//! | `RuleReasons` | what is said of why a line asks, may ask, or doesn't |
//! | `RuleWhys` | what `device --why` prints |
//! | `RuleStrings` | the strings that rules ask, in their order |
//! | `RuleAnswers` | what is printed of these, and what is said of words that don't fit |
//! | `Rows` | worked rows of all of these |
#![tactic(auto)]

mod forms;
mod laws;

pub use forms::{RulesForm, Whose};
pub use laws::{asked_rows, name_rows, sight_rows, why_rows, word_rows};
