//! What the program asks of a file system, and the lines of its errors.
//!
//! | Module | What it does |
//! |---|---|
//! | `system` | what the program asks of a file system; `rooted`: of one that may go below a root; `machine`: of one that is asked for devices, too |
//! | `folders` | the text files of both folders, chosen and read |
//! | `left_out` | chosen text files that can't be read, and are left out |
//! | `laws` | which of the chosen files an error names
//! | `files` | files and folders: the file system that the runtime reaches |
//! | `raw` | what a file system answers to what reading asks; `reads`: what is made of these answers; `read_laws`: laws of that; `one_file`: answers for tests |
//! | `text_folders` | what else is in the folders of text files, as it is asked for; `ignored`: of a file system |
//! | `rule_folders` | the machine's own rules files, chosen and read |
//! | `texts_below` | the text files of a folder that is read as a root |
//! | `identity` | what tells a file from one that replaced it; `opened`: a file that was opened, of which parts are read |
//! | `devices` | the file system as it is asked for devices |
//! | `overlay` | a file system with another database in its place |
//! | `new_folders` | folders that are made, with their mode |
//! | `nodes` | a file, a pipe or a device, opened to be read |
//! | `parts` | new files of updates: whose they are, and what killed updates left |
//! | `roots` | where a path below a root leads; `place` is such a place |
//! | `memory` | a store in memory as such a system, for tests |
//! | `refusals` | the line of each error |
#![tactic(auto)]

mod devices;
mod files;
mod folders;
mod identity;
mod ignored;
mod laws;
mod left_out;
mod machine;
mod memory;
mod new_folders;
mod nodes;
mod one_file;
mod opened;
mod overlay;
mod parts;
mod place;
mod raw;
mod read_laws;
mod reads;
mod refusals;
mod rooted;
mod roots;
mod rule_folders;
mod system;
mod text_folders;
mod texts_below;

pub use files::{SystemStore, joined, path_in};
pub use folders::{Selection, selected, with_texts};
pub use hwdb_spec_commands::Refusal;
pub use identity::Identity;
pub use laws::first_long_file_is_named;
pub use left_out::{ReadableSelection, name_set, selected_readable};
pub use machine::Machine;
pub use nodes::open_below;
pub use one_file::OneFile;
pub use opened::{OpenedBytes, OpenedFile};
pub use overlay::Overlay;
pub use parts::Lockable;
pub use raw::{Kind, RawFiles, StdFiles, StdOpened};
pub use read_laws::answers_are_told;
pub use reads::{database_bytes, is_there, open_database, text_bytes};
pub use refusals::{refuse_for, refuse_memory, remedy};
pub use rooted::Rooted;
pub use rule_folders::{RulesRead, own_rules};
pub use system::System;
pub use text_folders::TextFolders;
pub use texts_below::TextsBelow;
