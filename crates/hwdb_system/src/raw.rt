//! What a file system answers, call by call, and nothing decided: this alone is believed of reading (docs/assumptions.md).
ghost use Rattle.std.specs.Prelude.{◌≡◌, ◌≤◌, ℕ, List, Bool, false, Option, Result, Ok, Err, IfOk, IfSome, length, string_bytes, vec_len, option_map};
ghost use Rattle.std.specs.Io.{ReadsAtMost};
ghost use Rattle.hwdb_spec.specs.Texts.{max_file};
ghost use Rattle.hwdb_spec.specs.declared.causes.Cause.{Cause};
ghost use Rattle.hwdb_spec.specs.declared.causes.Cause.TheVariants.{Memory};
ghost use Rattle.hwdb_system.specs.declared.raw.Kind.{Kind};
ghost use Rattle.hwdb_spec_commands.specs.declared.unread.Unread.{Unread};
ghost use Rattle.hwdb_spec_commands.specs.declared.unread.Unread.TheVariants.{TooLong};
ghost use Rattle.hwdb_system.specs.Raw.{IsTold, IsToldRead};

use crate::identity::Identity;
use crate::opened::OpenedFile;
use crate::roots::Root;
use hwdb_io::{Cause, FromRead, MAX_BYTES, Places, ReadError, read_all};
use hwdb_spec_commands::Unread;
use std::alloc::Global;
use std::fs::{self, File, OpenFile};
use std::io::{self, ErrorKind, Read};
use std::os::unix::fs::{FileExt, FileTypeExt, MetadataExt};
use std::rt::Files;

/// The number of the device /dev/null: on Linux 1, 3.
const NULL_DEVICE: u64 = 0x103;

/// What is at a place.
#[derive(Clone, Copy, Debug, PartialEq, Eq)]
pub enum Kind {
    File,
    /// The null device.
    Null,
    Folder,
    Pipe,
    Socket,
    /// Another device.
    Device,
}

/// The answers of a file system to what reading asks. Each call may also say that there was no memory.
pub trait RawFiles {
    /// A file that was opened.
    type Opened: OpenedFile + Drop;

    /// Whether the answers are told.
    ghost tells: { Type 0 };
    /// Where a path leads, each link followed.
    ghost place: { Self → List ℕ → Result (List ℕ) Cause };
    /// A place is that of a root's own /dev/null.
    ghost null_at: { Self → List ℕ → Bool };
    /// Whether something has a path's name; a link is something.
    ghost entry: { Self → List ℕ → Result Bool Cause };
    /// What is at a place.
    ghost kind: { Self → List ℕ → Result Kind Cause };
    /// The bytes that a read of a place gives.
    ghost contents: { Self → List ℕ → Result (List ℕ) Unread };
    /// The names in a folder, each with byte 0 after it; none if the folder isn't there.
    ghost listing: { Self → List ℕ → Result (Option (List ℕ)) Unread };

    /// Tells where a path leads.
    fn place_of(&self, path: &str) -> Result<String, Cause>
        ensures { tells → IsTold string_bytes (place self.now path.now) result };

    /// Tells whether a place is that of a root's own /dev/null.
    fn is_null(&self, at: &str) -> bool
        ensures { tells → result ≡ null_at self.now at.now };

    /// Tells whether something has a path's name.
    fn has_entry(&self, path: &str) -> Result<bool, Cause>
        ensures { tells → IsTold (λ b. b) (entry self.now path.now) result };

    /// Tells what is at a place.
    fn kind_of(&self, at: &str) -> Result<Kind, Cause>
        ensures { tells → IsTold (λ k. k) (kind self.now at.now) result };

    /// Reads what is at a place.
    fn contents_of(&self, alloc: Global, at: &str) -> Result<Vec<u8>, Unread>
        ensures told { tells → IsToldRead (λ v. v.items) (contents self.now at.now) result }
        ensures within { IfOk result (λ bytes. vec_len bytes ≤ max_file) };

    /// Opens the regular file at a place, of which parts are read then. None if that fails, or it is no regular file.
    fn opened_at(&self, at: &str) -> Option<Self::Opened>
        ensures { tells → IfSome result (λ file. (bytes : List ℕ)
            → contents self.now at.now ≡ Ok bytes → Self.Opened.is_of file bytes) };

    /// Lists a folder.
    fn listing_of(&self, alloc: Global, folder: &str) -> Result<Option<Vec<u8>>, Unread>
        ensures { tells → IsToldRead (λ found. option_map (λ v. v.items) found)
            (listing self.now folder.now) result };
}

/// The files that a runtime reaches, below a root.
#[derive(Drop)]
pub struct StdFiles<'a, R: Files> {
    alloc: Global,
    rt: &'a R,
    root: &'a Root,
}

impl<'a, R: Files> StdFiles<'a, R> {
    /// The runtime's files, below this root.
    pub fn new(alloc: Global, rt: &'a R, root: &'a Root) -> Self {
        StdFiles { alloc, rt, root }
    }

    /// The runtime.
    pub fn runtime(&self) -> &'a R {
        self.rt
    }

    /// What tells the file at a path from one that replaces it, if it can be told.
    pub fn identity_of(&self, path: &str) -> Option<Identity> {
        let Ok(place) = self.root.place_of(self.rt, path) else {
            return None;
        };
        match fs::metadata(self.rt, place.as_str()) {
            Ok(found) => Some(Identity::of(&found)),
            Err(_) => None,
        }
    }

    /// The path of what a path leads to below the root, with no link in it. Fails if nothing is there.
    pub fn real_path_of(&self, path: &str) -> io::Result<String> {
        let place = self.root.real_path_of(self.rt, path)?;
        fs::symlink_metadata(self.rt, place.as_str())?;
        Ok(place)
    }
}

/// The kind of what `stat` found.
fn kind_of(found: &fs::Metadata) -> Kind {
    let kind = found.file_type();
    if kind.is_file() {
        Kind::File
    } else if kind.is_dir() {
        Kind::Folder
    } else if kind.is_fifo() {
        Kind::Pipe
    } else if kind.is_socket() {
        Kind::Socket
    } else if kind.is_char_device() && found.rdev() == NULL_DEVICE {
        Kind::Null
    } else {
        Kind::Device
    }
}

/// Why a call of the library failed.
fn failed(error: &io::Error) -> Unread {
    Unread::Failed(Some(Cause::of(error)))
}

/// All bytes that a reader has left.
pub fn all_of<R: Read + Drop>(alloc: Global, reader: R) -> Result<Vec<u8>, Unread>
    ensures { IfOk result (λ bytes. vec_len bytes ≤ max_file) }
{
    up_to(alloc, reader, MAX_BYTES)
}

/// All bytes that a reader has left, if they are no more than so many.
pub fn up_to<R: Read + Drop>(alloc: Global, reader: R, limit: u32) -> Result<Vec<u8>, Unread>
    ensures { IfOk result (λ bytes. vec_len bytes ≤ limit) }
{
    let mut source = FromRead::new(reader);
    match read_all(alloc, &mut source, limit) {
        Ok(bytes) => Ok(bytes),
        Err(ReadError::TooLong) => Err(Unread::TooLong),
        Err(ReadError::Memory) => Err(Unread::Memory),
        Err(ReadError::Failed) => Err(Unread::Failed(source.cause)),
    }
}

/// Reads at a place of a file, and tries again if a signal came between.
fn read_on_at<F: FileExt>(file: &F, buf: &mut [u8], at: u64) -> io::Result<usize>
    ensures { ReadsAtMost result buf.new }
{
    'tries: for _ in 0..u64::MAX {
        match file.read_at(buf, at) {
            Err(error) if error.kind() == ErrorKind::Interrupted => {}
            done => return done,
        }
    }
    Err(io::Error::from(ErrorKind::Interrupted))
}

/// Reads what a file has from a place on, up to its end or the buffer's. Answers how many bytes these are, or None if a call fails.
fn filled<F: FileExt>(file: &F, from: usize, buf: &mut [u8]) -> Option<usize>
    ensures { IfSome result (λ n. n ≤ length buf.new) }
{
    let mut n = 0;
    'filling: while n < buf.len() {
        match read_on_at(file, &mut buf[n..], (from as u64).saturating_add(n as u64)) {
            Ok(0) => return Some(n),
            Ok(more) => n += more,
            Err(_) => return None,
        }
    }
    Some(n)
}

/// A file that the runtime opened.
#[derive(Drop)]
pub struct StdOpened<F> {
    file: F,
    /// What it was when it was opened.
    first: Identity,
}

impl<F: FileExt> Places for StdOpened<F> {
    // No contract of the library says what it reads.
    ghost is_of = { λ _ _. ⊥ };

    fn part(&self, from: usize, buf: &mut [u8]) -> Option<usize> {
        filled(&self.file, from, buf)
    }
}

impl<F: FileExt + OpenFile> OpenedFile for StdOpened<F> {
    fn is_unchanged(&self) -> bool {
        match self.file.metadata() {
            Ok(found) => Identity::of(&found) == self.first,
            Err(_) => false,
        }
    }
}

impl<'a, R: Files> RawFiles for StdFiles<'a, R>
where
    R::File: Drop + FileExt,
{
    type Opened = StdOpened<R::File>;

    // No contract of the library says what it answers.
    ghost tells = { ⊥ };

    ghost place = { λ _ _. Err Memory };

    ghost null_at = { λ _ _. false };

    ghost entry = { λ _ _. Err Memory };

    ghost kind = { λ _ _. Err Memory };

    ghost contents = { λ _ _. Err TooLong };

    ghost listing = { λ _ _. Err TooLong };

    fn place_of(&self, path: &str) -> Result<String, Cause> {
        match self.root.place_of(self.rt, path) {
            Ok(place) => Ok(place),
            Err(error) => Err(Cause::of(&error)),
        }
    }

    fn is_null(&self, at: &str) -> bool {
        self.root.is_null(at)
    }

    fn has_entry(&self, path: &str) -> Result<bool, Cause> {
        match entry(self.rt, self.root, path) {
            Ok(_) => Ok(true),
            Err(error) if error.kind() == ErrorKind::NotFound => Ok(false),
            Err(error) => Err(Cause::of(&error)),
        }
    }

    fn kind_of(&self, at: &str) -> Result<Kind, Cause> {
        match fs::metadata(self.rt, at) {
            Ok(found) => Ok(kind_of(&found)),
            Err(error) => Err(Cause::of(&error)),
        }
    }

    fn contents_of(&self, alloc: Global, at: &str) -> Result<Vec<u8>, Unread> {
        match File::open(self.rt, at) {
            Ok(file) => all_of(alloc, file),
            Err(error) => Err(failed(&error)),
        }
    }

    fn opened_at(&self, at: &str) -> Option<StdOpened<R::File>> {
        let Ok(file) = File::open(self.rt, at) else {
            return None;
        };
        // The file that was opened is looked at: another one may have taken the path since `kind_of`.
        match file.metadata() {
            Ok(found) if found.is_file() => Some(StdOpened {
                file,
                first: Identity::of(&found),
            }),
            _ => None,
        }
    }

    fn listing_of(&self, alloc: Global, folder: &str) -> Result<Option<Vec<u8>>, Unread> {
        match open_folder(self.rt, self.root, folder) {
            Ok(entries) => Ok(Some(all_of(alloc, entries)?)),
            Err(error) if error.kind() == ErrorKind::NotFound => Ok(None),
            Err(error) => Err(failed(&error)),
        }
    }
}

/// Opens a folder.
fn open_folder<R: Files>(rt: &R, root: &Root, folder: &str) -> io::Result<R::Dir> {
    let mut path = root.place_of(rt, folder)?;
    // The slash has a link to a folder followed.
    path.push_str("/")?;
    rt.open_dir(path.as_str())
}

/// What has a path's name: of a link, the link itself.
fn entry<R: Files>(rt: &R, root: &Root, path: &str) -> io::Result<fs::Metadata> {
    let entry = root.entry_of(rt, path)?;
    fs::symlink_metadata(rt, entry.as_str())
}
