//! From a path to the description of a device: what sysfs holds of it and of its parents.
//!
//! | Module | What it does |
//! |---|---|
//! | `device` | a device, its parents, and their attributes |
//! | `files` | what a file system answers of devices |
//! | `answers` | what is made of these answers: a place, a text, names |
//! | `paths` | names and folders of a path |
//! | `names` | the names in a folder |
//! | `near` | the name that is near one which no device has |
//! | `reading` | a device and its parents, as sysfs has them |
//! | `finding` | the device that is meant by a path or a name |
//! | `unread` | what can't be read, so that it can't be told whether a device is there |
//! | `listing` | the paths of all devices |
//! | `bare` | a store in memory, which has no sysfs |
//! | `laws` | what is proved of the definitions alone |
//! | `table` | a tree in memory, for laws and tests |
#![tactic(auto)]

mod answers;
mod bare;
mod device;
mod files;
mod finding;
mod laws;
mod listing;
mod names;
mod near;
mod paths;
mod reading;
mod table;
mod unread;

pub use device::{Ancestor, Attribute, Device};
pub use files::{DeviceFiles, DeviceNode, NO_ENTRY};
pub use finding::{Unfound, device_of_path, find_device, sysfs_below};
pub use laws::worked_rows;
pub use listing::list_links;
pub use near::near_name;
pub use paths::{kernel_name, last_name};
pub use reading::{Sysfs, read_device};
pub use table::{Row, Table, Thing};
pub use unread::{LINK_LOOP, NO_FOLDER, UnreadPath, unread_of_path};
