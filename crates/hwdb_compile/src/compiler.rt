//! The compiler: the files of two folders, made into one database.
//!
//! The time is a pass over the files' bytes, and a sort of their assignments. Beside the files the memory is an entry
//! for each assignment, the nodes of the tree, and the database. No text is copied before it is written. An entry
//! borrows its texts from a file's bytes, and its path from a list that is made first. So all files are in memory at
//! once.
ghost use Rattle.std.specs.Prelude.{◌≡◌, ◌≤◌, ◌++◌, ℕ, List, map, length, All, IfOk, IfErr, OnOk, flat_map};
ghost use Rattle.hwdb_spec.specs.Folders.{within_64_bits};
ghost use Rattle.hwdb_spec.specs.Format.{IsDatabase};
ghost use Rattle.hwdb_spec.specs.Written.{IsDatabaseOf, IsWritten};
ghost use Rattle.hwdb_spec.specs.Assignment.{Assignment};
ghost use Rattle.hwdb_text.specs.Views.{origin};
ghost use Rattle.hwdb_text.specs.Views.{given_in, choice_of};
ghost use Rattle.std.specs.String.{string_bytes};
ghost use Rattle.hwdb_spec.specs.Folders.{path_of, all_assignments, file_assignments, file_faults, faults_of_files, fault_in, AreAccepted};
ghost use Rattle.hwdb_text.specs.Views.{IsStorableChoice};
ghost use Rattle.hwdb_compile.specs.Views.{FewLines, ForFolders};
ghost use Rattle.hwdb_text.specs.Views.{bytes_in, choice_in};
ghost use Rattle.hwdb_compile.specs.Views.{sources, fault_of};
ghost use Rattle.hwdb_spec.specs.CompileErrors.{IsRefusal};
ghost use Rattle.hwdb_spec.specs.Tree.{Tree, surviving, map_of_files};
ghost use Rattle.hwdb_query.specs.Laws.{AnswersAreLast};
ghost use Rattle.hwdb_compile.specs.Internal.Reading.{path_in, assignments_in, faults_in, IsPuttable, TakesUp, IsFileRefusal, IsFilesRefusal};

use crate::sources::{Compiled, FileFault, SourceFile, choose, with_bytes};
use hwdb_query::compiled_answers_are_last;
use hwdb_spec::CompileError;
use hwdb_text::{Chosen, ChosenFile, Fault, Given, scan};
use hwdb_writer::{Assignments, into_database, keep_pages};
use std::alloc::{AllocError, Global};

/// Puts what a file with this path and priority gives into the tree, one after another.
fn put_all<'t>(
    tree: &mut Assignments<'t>,
    path: &'t [u8],
    priority: u16,
    all: &[Given<'t>],
) -> Result<(), AllocError>
    requires { All IsPuttable (map (given_in (origin path.now priority)) all.now) }
    ensures { OnOk result
        (TakesUp tree.old (map (given_in (origin path.now priority)) all.now) tree.new) }
{
    for given in all {
        tree.set(priority, path, *given)?;
    }
    Ok(())
}

/// Adds the faults of a file, each with a copy of the file's path.
fn add_faults(
    alloc: Global,
    path: &[u8],
    found: &[Fault],
    faults: &mut Vec<FileFault>,
) -> Result<(), AllocError>
    ensures { OnOk result
        (map fault_of faults.new.items
        ≡ map fault_of faults.old.items ++ map (fault_in path.now) found.now) }
{
    for fault in found {
        let path = Vec::from_slice(alloc, path)?;
        faults.push(FileFault {
            path,
            fault: *fault,
        })?;
    }
    Ok(())
}

/// The stored paths of the files, in their order.
fn paths_of(alloc: Global, files: &[ChosenFile<'_>]) -> Result<Vec<String>, AllocError>
    ensures { IfOk result (λ paths. map string_bytes paths.items ≡ map path_in files.now) }
{
    let mut paths = Vec::new(alloc);
    for file in files {
        let path = file.choice.path(alloc)?;
        paths.push(path)?;
    }
    Ok(paths)
}

/// Reads a chosen file with this stored path. Puts its assignments into the tree, and its faults after the others.
/// Returns how many assignments it has.
fn add_file<'t>(
    alloc: Global,
    file: &Chosen,
    path: &'t [u8],
    bytes: &'t [u8],
    tree: &mut Assignments<'t>,
    faults: &mut Vec<FileFault>,
) -> Result<usize, CompileError>
    requires storable { IsStorableChoice (choice_of file.now) }
    requires path { path.now ≡ path_of (choice_of file.now) }
    ensures tree { OnOk result
        (TakesUp tree.old (file_assignments (λ _. bytes.now) (choice_of file.now)) tree.new) }
    ensures faults { OnOk result
        (map fault_of faults.new.items
        ≡ map fault_of faults.old.items ++ file_faults (λ _. bytes.now) (choice_of file.now)) }
    ensures given { IfOk result
        (λ n. n ≡ length (file_assignments (λ _. bytes.now) (choice_of file.now))) }
    ensures few { OnOk result (FewLines bytes.now) }
    ensures refused { IfErr result (IsFileRefusal bytes.now) }
{
    let scanned = scan(alloc, bytes)?;
    put_all(tree, path, file.priority, &scanned.assignments)?;
    add_faults(alloc, path, &scanned.faults, faults)?;
    Ok(scanned.assignments.len())
}

/// Reads the chosen files, with these stored paths, in the order of their priorities. Returns how many assignments they
/// have, or the greatest number if they have more.
fn add_files<'t>(
    alloc: Global,
    files: &[ChosenFile<'t>],
    paths: &'t [String],
    tree: &mut Assignments<'t>,
    faults: &mut Vec<FileFault>,
) -> Result<usize, CompileError>
    requires storable { All IsStorableChoice (map choice_in files.now) }
    requires paths { map string_bytes paths.now ≡ map path_in files.now }
    ensures tree { OnOk result
        (TakesUp tree.old (flat_map assignments_in files.now) tree.new) }
    ensures faults { OnOk result
        (map fault_of faults.new.items
        ≡ map fault_of faults.old.items ++ flat_map faults_in files.now) }
    ensures given { IfOk result
        (λ n. n ≡ within_64_bits (length (flat_map assignments_in files.now))) }
    ensures few { OnOk result (All (λ f. FewLines (bytes_in f)) files.now) }
    ensures refused { IfErr result (IsFilesRefusal files.now) }
{
    let mut given = 0usize;
    for (i, file) in files.iter().enumerate() {
        let path = paths[i].as_bytes();
        let own = add_file(alloc, file.choice, path, file.bytes, tree, faults)?;
        given = given.saturating_add(own);
    }
    Ok(given)
}

/// How many bytes of a file come for an assignment, or somewhat fewer.
const BYTES_AN_ASSIGNMENT: usize = 64;

/// For how many assignments there is room from the start. A list that grows leaves its half behind.
fn room_for(files: &[ChosenFile<'_>]) -> usize {
    let mut bytes = 0usize;
    for file in files {
        bytes = bytes.saturating_add(file.bytes.len());
    }
    bytes / BYTES_AN_ASSIGNMENT
}

/// Makes a database of chosen files, in the order of their priorities. It is what [`compile`] makes of any two folders
/// whose chosen files these are. `max_bytes` limits the database's size, in bytes.
///
/// # Errors
///
/// - [`CompileError::TooManyLines`] if a file has more than 4,294,967,295 lines.
/// - [`CompileError::TooLarge`] if the database has more than `max_bytes` bytes, and no file has too many lines.
/// - [`CompileError::Memory`] at any allocation that fails.
pub fn compile_chosen(
    alloc: Global,
    files: &[ChosenFile<'_>],
    max_bytes: u32,
) -> Result<Compiled, CompileError>
    requires { All IsStorableChoice (map choice_in files.now) }
    ensures database { IfOk result (λ c. ForFolders files.now
        (λ etc usr. IsWritten (map_of_files etc usr) c.database.items)) }
    ensures checked { IfOk result (λ c. ForFolders files.now
        (λ etc usr. IsDatabaseOf (map_of_files etc usr) c.database.items)) }
    // Whoever reads it need not check it.
    ensures sound { IfOk result (λ c. (t : Tree) × IsDatabase c.database.items t) }
    ensures headline { IfOk result (λ c. ForFolders files.now
        (λ etc usr. AnswersAreLast etc usr c.database.items)) }
    ensures within { IfOk result (λ c. length c.database.items ≤ max_bytes) }
    ensures faults { IfOk result (λ c. ForFolders files.now
        (λ etc usr. map fault_of c.faults.items ≡ faults_of_files etc usr)) }
    ensures given { IfOk result (λ c. ForFolders files.now
        (λ etc usr. c.given ≡ within_64_bits (length (all_assignments etc usr)))) }
    ensures accepted { OnOk result (ForFolders files.now AreAccepted) }
    ensures refused { IfErr result (λ e. ForFolders files.now
        (λ etc usr. IsRefusal etc usr max_bytes e)) }
{
    compiled_answers_are_last();
    keep_pages(alloc);
    let made = paths_of(alloc, files)?;
    let paths = made.as_slice();
    let mut tree = Assignments::new(alloc);
    tree.make_room(room_for(files));
    let mut faults = Vec::new(alloc);
    let given = add_files(alloc, files, paths, &mut tree, &mut faults)?;
    let database = into_database(alloc, tree, max_bytes)?;
    Ok(Compiled {
        database,
        faults,
        given,
    })
}

/// Makes a database of the files of the folders in /etc and in /usr/lib. It chooses them by their names, reads them in
/// the order of their priorities, and writes what survives. Of several files of one name in one list the first counts.
///
/// A reader of the database returns for a device the last assignment of each pattern and key whose pattern matches.
/// Last is by file priority and line; the answer is ordered by file priority, line, pattern and key. hwdb(7) has the
/// rules.
///
/// `max_bytes` limits the database's size, in bytes.
///
/// # Errors
///
/// - [`CompileError::TooManyFiles`] if more than 65,535 files are chosen. It comes before the others.
/// - [`CompileError::TooManyLines`] if a file has more than 4,294,967,295 lines.
/// - [`CompileError::TooLarge`] if the database has more than `max_bytes` bytes, and no file has too many lines.
/// - [`CompileError::Memory`] at any allocation that fails.
pub fn compile(
    alloc: Global,
    etc: &[SourceFile],
    usr: &[SourceFile],
    max_bytes: u32,
) -> Result<Compiled, CompileError>
    ensures database { IfOk result
        (λ c. IsWritten (map_of_files (sources etc.now) (sources usr.now)) c.database.items) }
    ensures checked { IfOk result
        (λ c. IsDatabaseOf (map_of_files (sources etc.now) (sources usr.now)) c.database.items) }
    ensures headline { IfOk result
        (λ c. AnswersAreLast (sources etc.now) (sources usr.now) c.database.items) }
    ensures within { IfOk result (λ c. length c.database.items ≤ max_bytes) }
    ensures faults { IfOk result
        (λ c. map fault_of c.faults.items ≡ faults_of_files (sources etc.now) (sources usr.now)) }
    ensures given { IfOk result (λ c. c.given
        ≡ within_64_bits (length (all_assignments (sources etc.now) (sources usr.now)))) }
    ensures accepted { OnOk result (AreAccepted (sources etc.now) (sources usr.now)) }
    ensures refused { IfErr result (IsRefusal (sources etc.now) (sources usr.now) max_bytes) }
{
    let chosen = choose(alloc, etc, usr)?;
    let files = with_bytes(alloc, &chosen, etc, usr)?;
    compile_chosen(alloc, &files, max_bytes)
}
