//! What `update --verbose` says of the files that it compiles.
ghost use Rattle.std.specs.Prelude.{◌≡◌, ◌++◌, ℕ, List, Option, length, map, flat_map, codes, option_map, string_bytes, IfOk, OnOk};
ghost use Rattle.std.specs.Fmt.{decimal};
ghost use Rattle.std.specs.FinMap as finite;
ghost use Rattle.hwdb_spec_commands.specs.Checks.{count_text};
ghost use Rattle.hwdb_spec.specs.Folders.{path_of};
ghost use Rattle.hwdb_spec.specs.Visible.{shown_name};
ghost use Rattle.hwdb_spec_commands.specs.Progress.{chosen_line, deep_line, given_count, kept_line, masks, progress_text, too_long_lines};
ghost use Rattle.hwdb_spec.specs.Format.{IsDatabase};
ghost use Rattle.hwdb_spec_commands.specs.Summary.{depth};
ghost use Rattle.hwdb_spec.specs.Tree.{Map, Tree};
ghost use Rattle.hwdb_spec.specs.Written.{IsCompiled, IsDatabaseOf};
ghost use Rattle.hwdb_text.specs.Views.{choice_of};
ghost use Rattle.hwdb_compile.specs.Views.{ForFolders};
ghost use Rattle.hwdb_text.specs.Views.{bytes_in, choice_in};
ghost use Rattle.hwdb_system.specs.Internal.{IsNameSet};

use hwdb_check::{push_count, push_too_long};
use hwdb_compile::Compiled;
use hwdb_databases::{assignments, depth_of, members_are_the_map};
use hwdb_near::count_given;
use hwdb_reader::{check, law_ascending, law_one_tree};
use hwdb_show::push_name;
use hwdb_system::name_set;
use hwdb_text::{Chosen, ChosenFile};
use itoa::Buffer;
use std::alloc::{AllocError, Global};
use std::collections::BTreeSet;

/// Whether a chosen file masks one of /usr/lib, whose names are in the set.
pub(crate) fn masks(file: &Chosen, set: &BTreeSet<&str>) -> bool
    ensures { (listed : List (List ℕ)) → IsNameSet listed set.now
        → result ≡ masks listed (choice_of file.now) }
{
    file.from_etc && set.contains(file.name.as_str())
}

/// Adds the path of a chosen file, as names are shown.
fn push_path(alloc: Global, text: &mut Vec<u8>, file: &Chosen) -> Result<(), AllocError>
    ensures { OnOk result
        (text.new.items ≡ text.old.items ++ shown_name (path_of (choice_of file.now))) }
{
    let path = file.path(alloc)?;
    push_name(text, path.as_bytes())?;
    Ok(())
}

/// Adds the path of a file of /usr/lib, as names are shown.
fn push_masked(text: &mut Vec<u8>, name: &[u8]) -> Result<(), AllocError>
    ensures { OnOk result (text.new.items ≡ text.old.items
        ++ (codes " masks /usr/lib/udev/hwdb.d/" ++ shown_name name.now)) }
{
    text.extend_from_slice(b" masks /usr/lib/udev/hwdb.d/")?;
    push_name(text, name)?;
    Ok(())
}

/// Adds the line of a chosen file: its path, and that of the one which it masks.
fn push_chosen(
    alloc: Global,
    text: &mut Vec<u8>,
    file: &Chosen,
    set: &BTreeSet<&str>,
) -> Result<(), AllocError>
    ensures { OnOk result ((listed : List (List ℕ)) → IsNameSet listed set.now
        → text.new.items ≡ text.old.items ++ chosen_line listed (choice_of file.now)) }
{
    push_path(alloc, text, file)?;
    if masks(file, set) {
        push_masked(text, file.name.as_bytes())?;
    }
    text.push(b'\n')?;
    Ok(())
}

/// A line for each chosen file.
fn chosen_lines(
    alloc: Global,
    files: &[ChosenFile<'_>],
    listed: &[String],
) -> Result<Vec<u8>, AllocError>
    ensures { IfOk result (λ text. text.items
        ≡ flat_map (chosen_line (map string_bytes listed.now)) (map choice_in files.now)) }
{
    let set = name_set(alloc, listed)?;
    let mut text = Vec::new(alloc);
    for file in files {
        push_chosen(alloc, &mut text, file.choice, &set)?;
    }
    Ok(text)
}

/// Adds a count, what is counted, and a comma.
fn push_count_and(text: &mut Vec<u8>, count: usize, word: &str) -> Result<(), AllocError>
    ensures { OnOk result
        (text.new.items ≡ text.old.items ++ (count_text count word.now ++ codes ", ")) }
{
    push_count(text, count as u64, word)?;
    text.extend_from_slice(b", ")?;
    Ok(())
}

/// Adds how many are kept, and ends the line.
fn push_kept(text: &mut Vec<u8>, kept: usize) -> Result<(), AllocError>
    ensures { OnOk result (text.new.items ≡ text.old.items ++ (decimal kept ++ codes " kept\n")) }
{
    let mut number = Buffer::new();
    text.extend_from_slice(number.format(kept).as_bytes())?;
    text.extend_from_slice(b" kept\n")?;
    Ok(())
}

/// Adds the line that counts.
fn push_kept_line(
    text: &mut Vec<u8>,
    files: usize,
    given: usize,
    kept: usize,
) -> Result<(), AllocError>
    ensures { OnOk result (text.new.items ≡ text.old.items ++ kept_line files given kept) }
{
    push_count_and(text, files, "file")?;
    push_count_and(text, given, "assignment")?;
    push_kept(text, kept)?;
    Ok(())
}

/// How many assignments a database keeps; none if the bytes are no database.
fn kept(alloc: Global, database: &[u8]) -> Result<usize, AllocError>
    ensures { IfOk result (λ n. (m : Map) → IsDatabaseOf m database.now → n ≡ finite.len m) }
{
    members_are_the_map();
    law_ascending();
    law_one_tree();
    match check(database) {
        Ok(db) => {
            let all = assignments(alloc, &db)?;
            Ok(all.as_slice().len())
        }
        Err(_) => Ok(0),
    }
}

/// How deep a database is; 0 if the bytes are none.
fn depth(alloc: Global, database: &[u8]) -> Result<usize, AllocError>
    ensures { IfOk result (λ n. (t : Tree) → IsDatabase database.now t → n ≡ depth t) }
{
    law_one_tree();
    match check(database) {
        Ok(db) => depth_of(alloc, &db),
        Err(_) => Ok(0),
    }
}

/// How many nodes one below the other udev of systemd 262 enters, the root counted.
const DEEPEST_FOR_UDEV: usize = 2048;

/// Adds the warning of a database with this depth, if it is too deep for udev.
fn push_deep_line(text: &mut Vec<u8>, depth: usize) -> Result<(), AllocError>
    ensures { OnOk result (text.new.items ≡ text.old.items ++ deep_line depth) }
{
    if depth > DEEPEST_FOR_UDEV {
        let mut number = Buffer::new();
        text.extend_from_slice(b"warning: the depth is ")?;
        text.extend_from_slice(number.format(depth).as_bytes())?;
        text.extend_from_slice(b": udev of systemd 262 refuses more than 2048\n")?;
    }
    Ok(())
}

/// How many assignments the files have.
fn given(alloc: Global, files: &[ChosenFile<'_>]) -> Result<usize, AllocError>
    ensures { IfOk result (λ n. ForFolders files.now (λ etc usr. n ≡ given_count etc usr)) }
{
    match count_given(alloc, files) {
        Ok(given) => Ok(given),
        // None has too many lines: they were compiled.
        Err(_) => Err(AllocError),
    }
}

/// Adds the match lines of a file that udev can't take.
fn push_file_too_long(
    alloc: Global,
    text: &mut Vec<u8>,
    file: ChosenFile<'_>,
) -> Result<(), AllocError>
    ensures { OnOk result (text.new.items
        ≡ text.old.items ++ too_long_lines (λ _. file.entry.bytes.now) (choice_in file.entry)) }
{
    let path = file.choice.path(alloc)?;
    push_too_long(text, path.as_bytes(), file.bytes)
}

/// Adds those of all files.
fn push_all_too_long(
    alloc: Global,
    text: &mut Vec<u8>,
    files: &[ChosenFile<'_>],
) -> Result<(), AllocError>
    ensures { OnOk result (text.new.items ≡ text.old.items
        ++ flat_map (λ f. too_long_lines (λ _. bytes_in f) (choice_in f)) files.now) }
{
    for file in files {
        push_file_too_long(alloc, text, *file)?;
    }
    Ok(())
}

/// A line for each chosen file, how much they assign, the match lines that udev can't take, and whether the database is too deep.
fn full_progress(
    alloc: Global,
    files: &[ChosenFile<'_>],
    listed: &[String],
    database: &[u8],
) -> Result<Vec<u8>, AllocError>
    ensures { IfOk result (λ text. ForFolders files.now (λ etc usr. (m : Map) (t : Tree)
        → IsDatabaseOf m database.now → IsDatabase database.now t → text.items
        ≡ ((flat_map (chosen_line (map string_bytes listed.now)) (map choice_in files.now)
        ++ kept_line (length files.now) (given_count etc usr) (finite.len m))
        ++ flat_map (λ f. too_long_lines (λ _. bytes_in f) (choice_in f)) files.now)
        ++ deep_line (depth t))) }
{
    let mut text = chosen_lines(alloc, files, listed)?;
    let given = given(alloc, files)?;
    let kept = kept(alloc, database)?;
    push_kept_line(&mut text, files.len(), given, kept)?;
    push_all_too_long(alloc, &mut text, files)?;
    let depth = depth(alloc, database)?;
    push_deep_line(&mut text, depth)?;
    Ok(text)
}

/// What is said of chosen files before their fault lines. If the names of /usr/lib's files are given, it is a line for
/// each chosen file, how much they assign, the match lines that udev can't take, and whether the database is too deep. Else it is
/// nothing. It takes two passes over the files, and two walks over the database.
pub fn progress(
    alloc: Global,
    files: &[ChosenFile<'_>],
    listed: Option<&[String]>,
    compiled: &Compiled,
) -> Result<Vec<u8>, AllocError>
    ensures { IfOk result (λ text. ForFolders files.now (λ etc usr.
        (made : IsCompiled etc usr compiled.now.database.items) → text.items ≡ progress_text
        (option_map (λ l. map string_bytes l.now) listed.entry) etc usr (depth made.0))) }
{
    match listed {
        Some(names) => full_progress(alloc, files, names, &compiled.database),
        None => Ok(Vec::new(alloc)),
    }
}
