//! Which strings udev's rules ask the hardware database for: what `device` asks.
//!
//! `hwdb_sysfs` says what sysfs holds of a device and its parents. Rules are of systemd 257 and 262, and of the packages upower and
//! libwacom. Nothing here reads a file, or knows a database. A rule says which strings are to be asked, one after another,
//! up to the first that has an answer.
//!
//! | Module | What it does |
//! |---|---|
//! | `attributes` | which attributes rules ask for |
//! | `values` | values as udev writes them into strings |
//! | `ancestors` | a device by itself, and the first of it and its parents that a rule is for |
//! | `inputs` | what kinds of input device a device is |
//! | `scene` | what a rule sees, and strings of its parts |
//! | `plans` | strings that are to be asked |
//! | `walks` | the strings of a device and its parents |
//! | `early` | 50-udev-default, 60-dmi-id, 60-evdev and 60-input-id |
//! | `middle` | 60-sensor, 60-serial, and those of upower and libwacom |
//! | `late` | 70-camera to 78-sound-card |
//! | `laws` | worked rows of the definitions |
#![tactic(auto)]

mod ancestors;
mod early;
mod inputs;
mod late;
mod laws;
mod middle;
mod plans;
mod scene;
mod values;
mod walks;

pub use ancestors::{attribute, first_text, has_some_events, is_in, is_usb_device, uevent_text};
pub use early::{early_rules, input_id_rules};
pub use hwdb_spec_commands::ATTRIBUTES;
pub use inputs::{Kinds, kinds_by_bits, kinds_seen};
pub use late::{address_strings, late_rules};
pub use laws::lookup_rows;
pub use middle::middle_rules;
pub use plans::{Plan, Question};
pub use scene::{Scene, machine_text};
pub use values::is_run;
pub use walks::{Modaliases, add_parents, is_walked, made_of, strings_of};
