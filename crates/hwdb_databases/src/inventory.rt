//! How many assignments were counted, and the files that they come from.
ghost use Rattle.std.specs.Prelude.{◌≡◌, ◌+◌, ◌++◌, ◌∷◌, ◌^◌, ◌<◌, ℕ, List, [], map, IfOk, IfSome, OnOk};
ghost use Rattle.hwdb_spec_commands.specs.Status;
ghost use Rattle.hwdb_spec_commands.specs.Summary.{different};
ghost use Rattle.hwdb_reader.specs.Unread.{file_of, text_of};
ghost use Rattle.hwdb_databases.specs.Views.{amount_shown};
ghost use Rattle.hwdb_databases.specs.Internal.Counting.{IsHeldFrom, files_in};

use crate::amounts::Amount;
use crate::summary::count_different;
use hwdb_reader::StoredText;
use std::alloc::{AllocError, Global};

/// What was counted so far of a database. Most assignments come from the file of the one before them, so that few files are held.
/// That it is the same one is known by its place, without a look at it.
#[derive(Drop)]
pub(crate) struct Inventory<'a> {
    /// The files but the last.
    files: Vec<&'a [u8]>,
    /// The file of the assignment that was counted last.
    last: Option<StoredText<'a>>,
    pub assignments: usize,
}

impl<'a> Inventory<'a> {
    pub(crate) fn new(alloc: Global) -> Inventory<'a>
        ensures files { files_in result ≡ [] }
        ensures assignments { result.assignments ≡ 0 }
        ensures last { (f : List ℕ) → IsHeldFrom f result }
    {
        Inventory {
            files: Vec::new(alloc),
            last: None,
            assignments: 0,
        }
    }

    /// Holds a file, unless it is the last. The only error, here and below, is `AllocError`.
    fn add_file(&mut self, path: StoredText<'a>) -> Result<(), AllocError>
        requires { IfSome self.old.last (λ t. file_of t ≡ file_of path) }
        ensures files { OnOk result ((rest : List (List ℕ))
            → different (files_in self.new ++ rest)
            ≡ different (files_in self.old ++ text_of path.entry ∷ rest)) }
        ensures assignments { self.new.assignments ≡ self.old.assignments }
        ensures last { OnOk result (IfSome self.new.last (λ t. file_of t ≡ file_of path.entry)) }
    {
        let Some(last) = self.last else {
            self.last = Some(path);
            return Ok(());
        };
        if last.is_at(path) {
            return Ok(());
        }
        self.files.push(last.read())?;
        self.last = Some(path);
        Ok(())
    }

    /// Counts an assignment that comes from a file.
    pub(crate) fn add(&mut self, path: StoredText<'a>) -> Result<(), AllocError>
        requires few { self.old.assignments + 1 < 2 ^ 64 }
        requires last { IfSome self.old.last (λ t. file_of t ≡ file_of path) }
        ensures files { OnOk result ((rest : List (List ℕ))
            → different (files_in self.new ++ rest)
            ≡ different (files_in self.old ++ text_of path.entry ∷ rest)) }
        ensures assignments { OnOk result (self.new.assignments ≡ self.old.assignments + 1) }
        ensures last { OnOk result (IfSome self.new.last (λ t. file_of t ≡ file_of path.entry)) }
    {
        self.assignments += 1;
        self.add_file(path)
    }

    /// All files.
    fn all_files(self) -> Result<Vec<&'a [u8]>, AllocError>
        ensures { IfOk result (λ all. map (λ t. t.now) all.items ≡ files_in self.entry) }
    {
        let Inventory {
            files,
            last,
            assignments: _,
        } = self;
        let mut all = files;
        match last {
            Some(last) => {
                all.push(last.read())?;
                Ok(all)
            }
            None => Ok(all),
        }
    }

    /// The amount of a database of so many bytes.
    pub(crate) fn amount(self, bytes: usize) -> Result<Amount, AllocError>
        ensures { IfOk result (λ amount. amount_shown amount ≡ Status.Amount.Counted
            (different (files_in self.entry)) self.entry.assignments bytes) }
    {
        let assignments = self.assignments;
        let files = count_different(self.all_files()?)?;
        Ok(Amount::Counted {
            files,
            assignments,
            bytes,
        })
    }
}
