//! Why the program ends without having done what the words ask for.
ghost use Rattle.std.specs.Prelude.{◌≡◌};
ghost use Rattle.hwdb_spec.specs.Errors.{refusal_of_select};
ghost use Rattle.hwdb_spec_commands.specs.Refusals.{IsAt, IsOfCause, IsOfDatabase, IsOfUpdate};
ghost use Rattle.hwdb_spec.specs.declared.errors.ToolError.TheVariants.{Memory, Write};
ghost use Rattle.hwdb_spec_commands.specs.declared.refusals.Refusal.TheVariants.{Plain};

use hwdb_spec::{Cause, DeviceFailed, SelectError, ToolError};
use std::alloc::{AllocError, Global};

/// Why the program ends without having done what the words ask for.
#[derive(Drop)]
pub enum Refusal {
    /// A call refused.
    Plain(ToolError),
    /// A call refused over the file or folder with this path, for this cause if one is known.
    At(ToolError, Vec<u8>, Option<Cause>),
    /// Neither database is there.
    NoDatabase,
    /// What is refused, in words.
    InWords(Vec<u8>),
}

impl Refusal {
    /// An error over a path, for this cause.
    pub fn of_cause(alloc: Global, error: ToolError, path: &[u8], cause: Option<Cause>) -> Refusal
        ensures { IsOfCause error path.now cause result }
    {
        match Vec::from_slice(alloc, path) {
            Ok(path) => Refusal::At(error, path, cause),
            Err(refused) => Refusal::from(refused),
        }
    }

    /// A refusal over a path.
    pub fn at(alloc: Global, error: ToolError, path: &[u8], cause: Option<Cause>) -> Refusal
        ensures { IsAt error path.now result }
    {
        match Vec::from_slice(alloc, path) {
            Ok(path) => Refusal::At(error, path, cause),
            Err(refused) => Refusal::from(refused),
        }
    }

    /// What stands at a path can't be read.
    pub fn read(alloc: Global, path: &[u8], cause: Cause) -> Refusal
        ensures { IsAt ToolError.Read path.now result }
    {
        Refusal::at(alloc, ToolError::Read, path, Some(cause))
    }

    /// Whether what stands at a path can't be read.
    pub fn is_unread(&self) -> bool {
        matches!(self, Refusal::At(ToolError::Read, _, _))
    }

    /// What was to stand at a path can't be written.
    pub fn write(alloc: Global, path: &[u8], cause: Option<Cause>) -> Refusal
        ensures { IsAt ToolError.Write path.now result }
    {
        Refusal::at(alloc, ToolError::Write, path, cause)
    }

    /// What an update refuses once its files are read: a database that can't be written with its path.
    pub fn of_update(error: ToolError, path: Vec<u8>, cause: Option<Cause>) -> Refusal
        ensures { IsOfUpdate error path.items result }
    {
        match error {
            ToolError::Replace(_) => Refusal::At(ToolError::Write, path, cause),
            error => Refusal::Plain(error),
        }
    }

    /// What a command refuses over the bytes of a database: a fault with the path where they are.
    pub fn of_database(alloc: Global, error: ToolError, path: &[u8]) -> Refusal
        ensures is { IsOfDatabase error path.now result }
        ensures write { result ≡ Plain ToolError.Write → error ≡ ToolError.Write }
    {
        match error {
            ToolError::BadDatabase(_) => Refusal::at(alloc, error, path, None),
            error => Refusal::Plain(error),
        }
    }
}

impl From<AllocError> for Refusal {
    ghost from_gives = { λ _ refusal. refusal ≡ Plain Memory };

    fn from(_: AllocError) -> Refusal {
        Refusal::Plain(ToolError::Memory)
    }
}

impl From<ToolError> for Refusal {
    ghost from_gives = { λ error refusal. refusal ≡ Plain error };

    fn from(error: ToolError) -> Refusal {
        Refusal::Plain(error)
    }
}

impl From<DeviceFailed> for Refusal {
    ghost from_gives = { λ _ refusal. refusal ≡ Plain Write };

    fn from(failed: DeviceFailed) -> Refusal {
        Refusal::Plain(ToolError::from(failed))
    }
}

impl From<SelectError> for Refusal {
    ghost from_gives = { λ error refusal. refusal ≡ Plain (refusal_of_select error) };

    fn from(error: SelectError) -> Refusal {
        Refusal::Plain(ToolError::from(error))
    }
}
