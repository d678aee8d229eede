//! What an export of udev's database tells of devices, in place of sysfs: the output of `udevadm info --export-db`.
//!
//! | Module | What it does |
//! |---|---|
//! | `lines` | the lines of an export, and what they say |
//! | `values` | values as attributes have them |
//! | `rules` | which attributes a device tells |
//! | `spots` | what paths lead to |
//! | `names` | what folders list |
//! | `devices` | what each device of an export stands for |
//! | `above` | the attributes of an input device, by its node |
//! | `export` | an export as it is asked for devices |
//! | `laws` | what is proved of the definitions alone |
#![tactic(auto)]

mod above;
mod devices;
mod export;
mod laws;
mod lines;
mod names;
mod rules;
mod spots;
mod values;

pub use export::{Export, is_export};
pub use laws::export_rows;
