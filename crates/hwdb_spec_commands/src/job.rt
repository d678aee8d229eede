//! What a command line asks for, and why it asks for nothing.
ghost use Rattle.std.specs.Prelude.{◌≡◌};
ghost use Rattle.hwdb_spec_commands.specs.declared.job.WordsFault.TheVariants.{Memory};

use crate::args::{
    AskArgs, CheckArgs, DeviceArgs, DiffArgs, DumpArgs, ExplainArgs, KeysArgs, ListArgs, NearArgs,
    QueryArgs, RecordArgs, ScanArgs, StatusArgs, TestArgs, UpdateArgs, VerifyArgs,
};
use std::alloc::AllocError;
use thiserror::Error;

/// What to do.
#[derive(Debug, Drop)]
pub enum Task {
    /// Compile the text files of both folders.
    Update(UpdateArgs),
    /// Print the properties that the database gives each device.
    Query(QueryArgs),
    /// Print the properties that the database gives the device, and where each comes from.
    Explain(ExplainArgs),
    /// Print the properties that one text file gives the device.
    Ask(AskArgs),
    /// Print the hits that the database has for the device.
    List(ListArgs),
    /// Print what is wrong in text files, or hardly meant.
    Check(CheckArgs),
    /// Say whether a database gives devices what test files want.
    Test(TestArgs),
    /// Print a test file that holds of a database: `test --record`.
    Record(RecordArgs),
    /// Print the patterns that almost matched the device.
    Near(NearArgs),
    /// Print what udev asks for a device, and what it gets.
    Device(DeviceArgs),
    /// Print what changed from one side to another: a database, a text file, a folder of text files or a root.
    Diff(DiffArgs),
    /// Say whether a file is a database that can be read, and how much is in it.
    Verify(VerifyArgs),
    /// Print a database as a text file.
    Dump(DumpArgs),
    /// Say whether the database that is asked is what the text files make.
    Status(StatusArgs),
    /// Say the same by the status alone: `update --check`.
    Fresh,
    /// Print the keys that the values of `KEYBOARD_KEY_..` name, with their codes.
    Keys(KeysArgs),
    /// Print the keys that are pressed, as the events of an input device tell them.
    Scan(ScanArgs),
}

/// What a command line asks for.
#[derive(Debug, Drop)]
pub struct Job {
    /// Whether `update` writes the database of `/usr/lib`.
    pub usr: bool,
    /// Whether `update` ends with status 1 if a line had a fault, and `check` if there is a warning.
    pub strict: bool,
    /// Whether the text files of both folders are asked, as `update` would compile them now.
    pub text: bool,
    /// What is said of other words that don't fit that; none if they do.
    pub misfit: Option<&'static str>,
    /// Whether a database that is replaced between two lines of standard input is read anew.
    pub reload: bool,
    /// What to put in front of the paths of folders and databases.
    pub root: Option<String>,
    /// When the output is coloured, as it was given.
    pub color: Option<String>,
    /// What to do.
    pub task: Task,
}

/// Why words ask for nothing.
#[derive(Debug, Drop, Error)]
pub enum WordsFault {
    /// Help or the version was asked for.
    #[error("{text}")]
    Help {
        /// What is printed.
        text: String,
    },
    /// The command doesn't take the words.
    #[error("{text}")]
    Usage {
        /// What is wrong, and how to use it.
        text: String,
    },
    /// Memory was refused.
    #[error("out of memory")]
    Memory,
}

impl From<AllocError> for WordsFault {
    ghost from_gives = { λ _ e. e ≡ Memory };

    fn from(_: AllocError) -> WordsFault {
        WordsFault::Memory
    }
}
