//! Why calls fail: an error for each kind of call, small and of its own, and what one becomes for a caller.
ghost use Rattle.std.specs.Prelude.{◌≡◌};
ghost use Rattle.hwdb_spec.specs.Errors.{error_words, of_scan, of_select, of_store, refusal_of_compile, refusal_of_position, refusal_of_read, refusal_of_scan, refusal_of_select};

use crate::DbFault;
use std::alloc::AllocError;
use std::{error, fmt};
use thiserror::Error;

/// A call of a device that failed, for whatever reason.
#[derive(Clone, Copy, Debug, PartialEq, Eq)]
pub struct DeviceFailed;

/// Why a source isn't read to the end of what was asked for.
#[derive(Clone, Copy, Debug, PartialEq, Eq)]
pub enum ReadError {
    /// A call of it failed.
    Failed,
    /// It gave more bytes than the limit.
    TooLong,
    /// Memory was refused.
    Memory,
}

impl From<DeviceFailed> for ReadError {
    ghost use Rattle.hwdb_spec.specs.declared.errors.ReadError.TheVariants.{Failed};

    ghost from_gives = { λ _ e. e ≡ Failed };

    fn from(_: DeviceFailed) -> ReadError {
        ReadError::Failed
    }
}

impl From<AllocError> for ReadError {
    ghost use Rattle.hwdb_spec.specs.declared.errors.ReadError.TheVariants.{Memory};

    ghost from_gives = { λ _ e. e ≡ Memory };

    fn from(_: AllocError) -> ReadError {
        ReadError::Memory
    }
}

/// Why no files are chosen.
#[derive(Clone, Copy, Debug, Error, PartialEq, Eq)]
pub enum SelectError {
    /// More than 65,535 files would be chosen: there are no more priorities.
    #[error("more than 65535 files")]
    TooManyFiles,
    /// An allocation failed.
    #[error("out of memory")]
    Memory,
}

impl From<AllocError> for SelectError {
    ghost use Rattle.hwdb_spec.specs.declared.errors.SelectError.TheVariants.{Memory};

    ghost from_gives = { λ _ e. e ≡ Memory };

    fn from(_error: AllocError) -> SelectError {
        SelectError::Memory
    }
}

/// Why a file isn't read.
#[derive(Clone, Copy, Debug, Error, PartialEq, Eq)]
pub enum ScanError {
    /// It has more than 4,294,967,295 lines: a database has no more numbers for them.
    #[error("a file has more than 4294967295 lines")]
    TooManyLines,
    /// An allocation failed.
    #[error("out of memory")]
    Memory,
}

impl From<AllocError> for ScanError {
    ghost use Rattle.hwdb_spec.specs.declared.errors.ScanError.TheVariants.{Memory};

    ghost from_gives = { λ _ e. e ≡ Memory };

    fn from(_error: AllocError) -> ScanError {
        ScanError::Memory
    }
}

/// Why nothing was written.
#[derive(Debug, Drop, Error)]
pub enum StoreError {
    /// The database would have more bytes than the limit.
    #[error("the database would be larger than the limit")]
    TooLarge,
    /// An allocation failed.
    #[error("out of memory")]
    Memory,
}

impl From<AllocError> for StoreError {
    ghost use Rattle.hwdb_spec.specs.declared.errors.StoreError.TheVariants.{Memory};

    ghost from_gives = { λ _ e. e ≡ Memory };

    fn from(_e: AllocError) -> StoreError {
        StoreError::Memory
    }
}

/// Why files are not compiled.
#[derive(Clone, Copy, Debug, PartialEq, Eq, Error)]
pub enum CompileError {
    /// More than 65,535 files are chosen: there are no more priorities.
    #[error("more than 65535 files")]
    TooManyFiles,
    /// A file has more than 4,294,967,295 lines: a database has no more numbers for them.
    #[error("a file has more than 4294967295 lines")]
    TooManyLines,
    /// The database would have more bytes than the limit of the call.
    #[error("the database would be larger than the limit")]
    TooLarge,
    /// An allocation failed.
    #[error("out of memory")]
    Memory,
}

impl From<AllocError> for CompileError {
    ghost use Rattle.hwdb_spec.specs.declared.errors.CompileError.TheVariants.{Memory};

    ghost from_gives = { λ _ e. e ≡ Memory };

    fn from(_: AllocError) -> CompileError {
        CompileError::Memory
    }
}

impl From<SelectError> for CompileError {
    ghost from_gives = { λ error e. e ≡ of_select error };

    fn from(error: SelectError) -> CompileError {
        match error {
            SelectError::TooManyFiles => CompileError::TooManyFiles,
            SelectError::Memory => CompileError::Memory,
        }
    }
}

impl From<ScanError> for CompileError {
    ghost from_gives = { λ error e. e ≡ of_scan error };

    fn from(error: ScanError) -> CompileError {
        match error {
            ScanError::TooManyLines => CompileError::TooManyLines,
            ScanError::Memory => CompileError::Memory,
        }
    }
}

impl From<StoreError> for CompileError {
    ghost from_gives = { λ error e. e ≡ of_store error };

    fn from(error: StoreError) -> CompileError {
        match error {
            StoreError::TooLarge => CompileError::TooLarge,
            StoreError::Memory => CompileError::Memory,
        }
    }
}

/// Why a replacement failed, and what it left.
#[derive(Clone, Copy, Debug, PartialEq, Eq)]
pub enum Unreplaced {
    /// A call failed: the database is as it was, and no new file stands beside it.
    Undone,
    /// Each name for the new file is taken: all is as it was.
    NamesTaken,
    /// A call failed, and then the new file couldn't be removed: it stands beside the database, which is as it was.
    LeftBehind,
    /// The new file stands in the database's place, but the folder couldn't be synced: a crash may bring the old
    /// one back.
    Unsynced,
}

/// Why there is no cursor.
#[derive(Clone, Copy, Debug, PartialEq, Eq, Error)]
pub enum CursorError {
    /// The page would hold no hit.
    #[error("a page holds at least one hit")]
    PageZero,
    /// An allocation failed.
    #[error("out of memory")]
    Memory,
}

impl From<AllocError> for CursorError {
    ghost use Rattle.hwdb_spec.specs.declared.errors.CursorError.TheVariants.{Memory};

    ghost from_gives = { λ _ e. e ≡ Memory };

    fn from(_: AllocError) -> CursorError {
        CursorError::Memory
    }
}

/// Why a text is no position.
#[derive(Clone, Copy, Debug, PartialEq, Eq, Error)]
pub enum PositionError {
    /// It spells none.
    #[error("bad position")]
    BadPosition,
    /// An allocation failed.
    #[error("out of memory")]
    Memory,
}

impl From<AllocError> for PositionError {
    ghost use Rattle.hwdb_spec.specs.declared.errors.PositionError.TheVariants.{Memory};

    ghost from_gives = { λ _ e. e ≡ Memory };

    fn from(_: AllocError) -> PositionError {
        PositionError::Memory
    }
}

/// Why a database isn't summed up.
#[derive(Clone, Copy, Debug, PartialEq, Eq)]
pub enum VerifyError {
    /// The bytes are no database.
    Database(DbFault),
    /// An allocation failed.
    Memory,
}

impl From<AllocError> for VerifyError {
    ghost use Rattle.hwdb_spec.specs.declared.errors.VerifyError.TheVariants.{Memory};

    ghost from_gives = { λ _ e. e ≡ Memory };

    fn from(_: AllocError) -> VerifyError {
        VerifyError::Memory
    }
}

/// Why two databases aren't compared.
#[derive(Clone, Copy, Debug, PartialEq, Eq)]
pub enum DiffError {
    /// The old bytes are no database.
    Old(DbFault),
    /// The old bytes are a database, and the new ones are none.
    New(DbFault),
    /// An allocation failed.
    Memory,
}

impl From<AllocError> for DiffError {
    ghost use Rattle.hwdb_spec.specs.declared.errors.DiffError.TheVariants.{Memory};

    ghost from_gives = { λ _ e. e ≡ Memory };

    fn from(_: AllocError) -> DiffError {
        DiffError::Memory
    }
}

/// Why a database isn't dumped.
#[derive(Debug, Drop, PartialEq, Eq)]
pub enum DumpError {
    /// The bytes are no database.
    Database(DbFault),
    /// A text can't say an assignment with this pattern, the first such one.
    Unsayable(Vec<u8>),
    /// An allocation failed.
    Memory,
}

impl From<AllocError> for DumpError {
    ghost use Rattle.hwdb_spec.specs.declared.errors.DumpError.TheVariants.{Memory};

    ghost from_gives = { λ _ e. e ≡ Memory };

    fn from(_: AllocError) -> DumpError {
        DumpError::Memory
    }
}

/// Why a device isn't compared with a database's patterns.
#[derive(Clone, Copy, Debug, PartialEq, Eq)]
pub enum NearError {
    /// The bytes are no database.
    Database(DbFault),
    /// An allocation failed.
    Memory,
}

impl From<AllocError> for NearError {
    ghost use Rattle.hwdb_spec.specs.declared.errors.NearError.TheVariants.{Memory};

    ghost from_gives = { λ _ e. e ≡ Memory };

    fn from(_: AllocError) -> NearError {
        NearError::Memory
    }
}

/// Why a call refused. Each comes only if what it names is so.
#[derive(Clone, Copy, Debug, PartialEq, Eq)]
pub enum ToolError {
    /// A source failed.
    Read,
    /// A sink failed.
    Write,
    /// A source gave more bytes than the limit.
    TooLong,
    /// More than 65,535 files were chosen.
    TooManyFiles,
    /// A file has more than 4,294,967,295 lines.
    TooManyLines,
    /// The database would have more bytes than the limit.
    TooLarge,
    /// A text spells no position.
    BadPosition,
    /// Bytes are no database.
    BadDatabase(DbFault),
    /// The database wasn't replaced.
    Replace(Unreplaced),
    /// Memory was refused.
    Memory,
}

impl ToolError {
    /// What is printed of it; a fault of the database follows if there is one.
    pub fn words(self) -> &'static str
        ensures { result.now ≡ error_words self }
    {
        match self {
            Self::Read => "cannot read",
            Self::Write | Self::Replace(_) => "cannot write",
            Self::TooLong => "a file is longer than 268435456 bytes",
            Self::TooManyFiles => "more than 65535 files",
            Self::TooManyLines => "a file has more than 4294967295 lines",
            Self::TooLarge => "the database would be larger than 268435456 bytes",
            Self::BadPosition => "bad position",
            Self::BadDatabase(_) => "bad database: ",
            Self::Memory => "out of memory",
        }
    }
}

impl fmt::Display for ToolError {
    fn fmt<W: fmt::Write>(&self, f: &mut fmt::Formatter<W>) -> fmt::Result {
        let words = self.words();
        match self {
            ToolError::BadDatabase(fault) => write!(f, "{words}{fault}"),
            _ => write!(f, "{words}"),
        }
    }
}

impl error::Error for ToolError {}

impl From<AllocError> for ToolError {
    ghost use Rattle.hwdb_spec.specs.declared.errors.ToolError.TheVariants.{Memory};

    ghost from_gives = { λ _ e. e ≡ Memory };

    fn from(_: AllocError) -> ToolError {
        ToolError::Memory
    }
}

impl From<ReadError> for ToolError {
    ghost from_gives = { λ reading e. e ≡ refusal_of_read reading };

    fn from(error: ReadError) -> ToolError {
        match error {
            ReadError::Failed => ToolError::Read,
            ReadError::TooLong => ToolError::TooLong,
            ReadError::Memory => ToolError::Memory,
        }
    }
}

/// A call of a sink: those of a source fail as `ReadError`.
impl From<DeviceFailed> for ToolError {
    ghost use Rattle.hwdb_spec.specs.declared.errors.ToolError.TheVariants.{Write};

    ghost from_gives = { λ _ e. e ≡ Write };

    fn from(_: DeviceFailed) -> ToolError {
        ToolError::Write
    }
}

impl From<DbFault> for ToolError {
    ghost use Rattle.hwdb_spec.specs.declared.errors.ToolError.TheVariants.{BadDatabase};

    ghost from_gives = { λ fault e. e ≡ BadDatabase fault };

    fn from(fault: DbFault) -> ToolError {
        ToolError::BadDatabase(fault)
    }
}

impl From<Unreplaced> for ToolError {
    ghost use Rattle.hwdb_spec.specs.declared.errors.ToolError.TheVariants.{Replace};

    ghost from_gives = { λ unreplaced e. e ≡ Replace unreplaced };

    fn from(unreplaced: Unreplaced) -> ToolError {
        ToolError::Replace(unreplaced)
    }
}

impl From<SelectError> for ToolError {
    ghost from_gives = { λ select e. e ≡ refusal_of_select select };

    fn from(error: SelectError) -> ToolError {
        match error {
            SelectError::TooManyFiles => ToolError::TooManyFiles,
            SelectError::Memory => ToolError::Memory,
        }
    }
}

impl From<ScanError> for ToolError {
    ghost from_gives = { λ scan e. e ≡ refusal_of_scan scan };

    fn from(error: ScanError) -> ToolError {
        match error {
            ScanError::TooManyLines => ToolError::TooManyLines,
            ScanError::Memory => ToolError::Memory,
        }
    }
}

impl From<CompileError> for ToolError {
    ghost from_gives = { λ compiling e. e ≡ refusal_of_compile compiling };

    fn from(error: CompileError) -> ToolError {
        match error {
            CompileError::TooManyFiles => ToolError::TooManyFiles,
            CompileError::TooManyLines => ToolError::TooManyLines,
            CompileError::TooLarge => ToolError::TooLarge,
            CompileError::Memory => ToolError::Memory,
        }
    }
}

impl From<PositionError> for ToolError {
    ghost from_gives = { λ positions e. e ≡ refusal_of_position positions };

    fn from(error: PositionError) -> ToolError {
        match error {
            PositionError::BadPosition => ToolError::BadPosition,
            PositionError::Memory => ToolError::Memory,
        }
    }
}
