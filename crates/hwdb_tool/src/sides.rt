//! What a path of `diff` means: a database, a text file, a folder of text files, or a root. Nothing is written.
ghost use Rattle.std.specs.Prelude.{◌++◌, ◌==◌, ◌∷◌, ◌<◌, ◌≡◌, ◌≤◌, [], ℕ, All, Some, false, length, map, string_bytes, true, IfErr, IfNone, IfOk, IfSome, List};
ghost use Rattle.hwdb_compile.specs.Views as compiled;
ghost use Rattle.hwdb_compile.specs.Views.{sources};
ghost use Rattle.hwdb_check.specs.Checks.{source_of};
ghost use Rattle.hwdb_spec_commands.specs.CheckedFiles.{folder_of};
ghost use Rattle.hwdb_plan.specs.Files.{OfInput};
ghost use Rattle.hwdb_plan.specs.GivenFolders.{if_few};
ghost use Rattle.hwdb_plan.specs.Plans.{ReachesValue};
ghost use Rattle.hwdb_plan.specs.Sides.{file_bytes, folder_bytes, made_at, made_of, own_made, plain_side, side, taken_from};
ghost use Rattle.hwdb_spec_commands.specs.Given.{is_dash};
ghost use Rattle.hwdb_spec.specs.Lines.{byte, has};
ghost use Rattle.hwdb_spec_commands.specs.Refusals.{IsInWords, IsUnreadAt};
ghost use Rattle.hwdb_spec_commands.specs.Sides;
ghost use Rattle.hwdb_spec_commands.specs.Sides.{as_etc, names_text, no_texts_text};
ghost use Rattle.hwdb_spec_commands.specs.StatusErrors.{IsNotCompiled};
ghost use Rattle.hwdb_spec_commands.specs.Told.{IsReadTo, Reads};
ghost use Rattle.hwdb_spec.specs.Store.{Contents};
ghost use Rattle.hwdb_spec.specs.Texts.{max_file};
ghost use Rattle.hwdb_spec.specs.declared.errors.ToolError.{ToolError};
ghost use Rattle.hwdb_text.specs.Views.{IsStorableChoice, choice_of};
ghost use Rattle.hwdb_tool.specs.Internal.{IsOfSelection};
ghost use Rattle.hwdb_tool.specs.Statuses.{AreMadeOf};

use crate::check_command::{read_given, with_paths};
use crate::given::{is_dash, read_input};
use crate::given_folders::{alone, files_in, folder_of};
use crate::status_command::compiled;
use hwdb_answers::ToolError;
use hwdb_check::TextFile;
use hwdb_compile::{SourceFile, compile};
use hwdb_io::{MAX_BYTES, Source};
use hwdb_show::push_name;
use hwdb_system::{Refusal, Selection, System, TextsBelow, with_texts};
use hwdb_text::{Chosen, counts};
use std::alloc::{AllocError, Global};

/// What the error of a folder without text files says after its path.
const NO_TEXTS: &str =
    ": no text file is in it, nor in its etc/udev/hwdb.d or usr/lib/udev/hwdb.d: \
    name a folder that has one, a text file or a database";

/// The texts before and after the first slash of a path.
fn cut(path: &str) -> Option<(&str, &str)>
    ensures parts { IfSome result (λ x. path.now ≡ x.0.now ++ 47 ∷ x.1.now) }
    ensures fewer { IfSome result (λ x. length x.1.now < length path.now) }
    ensures none { IfNone result (has 47 path.now ≡ false) }
{
    path.split_once('/')
}

/// What comes after the first slash of a path: it ends in the same name.
fn after_slash(path: &str) -> Option<&str>
    ensures name { IfSome result
        (λ rest. Sides.file_name path.now ≡ Sides.file_name rest.now) }
    ensures fewer { IfSome result (λ rest. length rest.now < length path.now) }
    ensures alone { IfNone result (Sides.file_name path.now ≡ path.now) }
{
    match cut(path) {
        Some(parts) => Some(parts.1),
        None => None,
    }
}

/// The name of what is at a path: all after the last slash.
fn file_name(path: &str) -> &str
    ensures { result.now ≡ Sides.file_name path.now }
{
    let mut left = path;
    'slashes: while let Some(rest) = after_slash(left) {
        left = rest;
    }
    left
}

/// Whether it is one of a text file.
fn names_text(path: &str) -> bool
    ensures { result ≡ names_text path.now }
{
    counts(file_name(path).as_bytes())
}

/// The name that a text file of a side has in /etc/udev/hwdb.d: a slash, and the path that was given. The only error, here and below,
/// is `AllocError`.
fn given_name(alloc: Global, path: &str) -> Result<String, AllocError>
    ensures { IfOk result (λ name. string_bytes name ≡ byte "/" ∷ path.now) }
{
    let mut name = String::from_str(alloc, "/")?;
    name.push_str(path)?;
    Ok(name)
}

/// A text file, as if it was in /etc/udev/hwdb.d, under that name.
fn as_etc(alloc: Global, file: &TextFile<'_>) -> Result<SourceFile, AllocError>
    ensures { IfOk result (λ etc. compiled.source_of etc ≡ as_etc (source_of file.now)) }
{
    Ok(SourceFile {
        name: given_name(alloc, file.path)?,
        bytes: Vec::from_slice(alloc, file.bytes)?,
    })
}

/// The same of some.
fn all_as_etc(alloc: Global, files: &[TextFile<'_>]) -> Result<Vec<SourceFile>, AllocError>
    ensures { IfOk result
        (λ etc. map compiled.source_of etc.items ≡ map as_etc (map source_of files.now)) }
{
    let mut etc = Vec::new(alloc);
    for file in files {
        etc.push(as_etc(alloc, file)?)?;
    }
    Ok(etc)
}

/// What `update` would write of text files of /etc.
fn database_of(alloc: Global, etc: &[SourceFile]) -> Result<Vec<u8>, Refusal>
    ensures made { IfOk result (λ bytes. AreMadeOf (sources etc.now) [] bytes.items) }
    ensures refused { IfErr result (IsNotCompiled (sources etc.now) []) }
{
    match compile(alloc, etc, &[], MAX_BYTES) {
        Ok(compiled) => Ok(compiled.database),
        Err(error) => Err(Refusal::from(ToolError::from(error))),
    }
}

/// The same of text files, each of which is read as if it was there.
fn database_of_texts(alloc: Global, files: &[TextFile<'_>]) -> Result<Vec<u8>, Refusal>
    ensures made { IfOk result
        (λ bytes. AreMadeOf (map as_etc (map source_of files.now)) [] bytes.items) }
    ensures refused { IfErr result (IsNotCompiled (map as_etc (map source_of files.now)) []) }
{
    let etc = all_as_etc(alloc, files)?;
    database_of(alloc, &etc)
}

/// The same of the text files that a path means.
fn texts_at<D: System>(
    alloc: Global,
    path: &str,
    own: &[String],
    system: &D,
) -> Result<Vec<u8>, Refusal>
    ensures told { D.Store.tells → ReachesValue (λ v. v.items) (D.System.reads system.now)
        (made_at path.now (map string_bytes own.now)) result }
{
    let words = alone(alloc, path)?;
    let texts = read_given(alloc, &words, own, &[], system)?;
    let files = with_paths(alloc, own, &texts)?;
    database_of_texts(alloc, &files)
}

/// The bytes of a folder of text files, which is no root and has these names.
fn named_texts<D: System>(
    alloc: Global,
    path: &str,
    names: &[String],
    system: &D,
) -> Result<Vec<u8>, Refusal>
    ensures told { D.Store.tells → ReachesValue (λ v. v.items) (D.System.reads system.now)
        (λ next. if_few path.now (map string_bytes names.now)
        (λ own. made_at path.now own next)) result }
{
    let own = files_in(alloc, path, names)?;
    texts_at(alloc, path, &own, system)
}

/// The words of a folder without text files. The only error is `AllocError`.
fn no_texts(alloc: Global, path: &str) -> Result<Vec<u8>, AllocError>
    ensures { IfOk result (λ text. text.items ≡ no_texts_text path.now) }
{
    let mut text = Vec::from_slice(alloc, b"cannot read ")?;
    push_name(&mut text, path.as_bytes())?;
    text.extend_from_slice(NO_TEXTS.as_bytes())?;
    Ok(text)
}

/// The error of it.
fn refused_folder(alloc: Global, path: &str) -> Refusal
    ensures { IsInWords (no_texts_text path.now) result }
{
    match no_texts(alloc, path) {
        Ok(text) => Refusal::InWords(text),
        Err(refused) => Refusal::from(refused),
    }
}

/// Whether a folder has no text files.
fn no_names(names: &[String]) -> bool
    ensures { result ≡ (length names.now == 0) }
{
    names.is_empty()
}

/// The bytes of a folder that is no root, of which the text files have these names.
fn own_texts<D: System>(
    alloc: Global,
    path: &str,
    names: &[String],
    system: &D,
) -> Result<Vec<u8>, Refusal>
    ensures told { D.Store.tells → ReachesValue (λ v. v.items) (D.System.reads system.now)
        (own_made path.now (map string_bytes names.now)) result }
{
    if no_names(names) {
        Err(refused_folder(alloc, path))
    } else {
        named_texts(alloc, path, names, system)
    }
}

/// The bytes of a text file.
fn text_file_at<D: System>(alloc: Global, path: &str, system: &D) -> Result<Vec<u8>, Refusal>
    ensures told { D.Store.tells → ReachesValue (λ v. v.items) (D.System.reads system.now)
        (made_at path.now (path.now ∷ [])) result }
{
    let own = alone(alloc, path)?;
    texts_at(alloc, path, &own, system)
}

/// The bytes of a database.
fn database_at<D: System>(alloc: Global, path: &str, system: &D) -> Result<Vec<u8>, Refusal>
    ensures told { D.Store.tells → IsReadTo (λ v. v.items)
        ((D.System.reads system.now).input path.now) path.now result }
    ensures within { IfOk result (λ bytes. length bytes.items ≤ max_file) }
    ensures unread { D.Store.tells → IfErr result
        (IsUnreadAt (D.Store.seen system.now) path.now) }
{
    system.input(alloc, path)
}

/// The bytes of a file: a text file if it has the name of one, else a database.
fn file_at<D: System>(alloc: Global, path: &str, system: &D) -> Result<Vec<u8>, Refusal>
    ensures told { D.Store.tells → ReachesValue (λ v. v.items) (D.System.reads system.now)
        (file_bytes path.now) result }
{
    if names_text(path) {
        text_file_at(alloc, path, system)
    } else {
        database_at(alloc, path, system)
    }
}

/// What `update` would write of the chosen text files of a root.
fn root_bytes(alloc: Global, selection: &Selection) -> Result<Vec<u8>, Refusal>
    requires count { length selection.now.texts.items ≡ length selection.now.chosen.items }
    requires storable { All IsStorableChoice (map choice_of selection.now.chosen.items) }
    ensures told { (w : Reads) (root : List ℕ) (contents : Contents)
        → IsOfSelection root contents selection.now
        → let chosen = map choice_of selection.now.chosen.items in
        let texts = map (λ t. t.items) selection.now.texts.items in ReachesValue (λ v. v.items)
        w (made_of (taken_from true chosen texts) (taken_from false chosen texts)) result }
{
    let files = with_texts(alloc, &selection.chosen, &selection.texts)?;
    let made = compiled(alloc, &files)?;
    Ok(made.database)
}

/// Whether no file is chosen.
fn are_none(chosen: &[Chosen]) -> bool
    ensures { result ≡ (length chosen.now == 0) }
{
    chosen.is_empty()
}

/// The bytes of a folder: of a root, if it has text files where `update` looks for them, else of its own text files.
fn folder_at<D: TextsBelow>(
    alloc: Global,
    path: &str,
    names: &[String],
    system: &D,
) -> Result<Vec<u8>, Refusal>
    ensures told { D.Store.tells → ReachesValue (λ v. v.items) (D.System.reads system.now)
        (folder_bytes path.now (map string_bytes names.now)) result }
{
    let selection = system.selected_below(alloc, folder_of(path))?;
    if are_none(&selection.chosen) {
        own_texts(alloc, path, names, system)
    } else {
        root_bytes(alloc, &selection)
    }
}

/// The bytes of a side that is no `-`.
fn plain_side<D: TextsBelow>(alloc: Global, path: &str, system: &D) -> Result<Vec<u8>, Refusal>
    ensures told { D.Store.tells → ReachesValue (λ v. v.items) (D.System.reads system.now)
        (plain_side path.now) result }
{
    let found = system.folder_names(alloc, folder_of(path))?;
    match found {
        Some(names) => folder_at(alloc, path, &names, system),
        None => file_at(alloc, path, system),
    }
}

/// The bytes of a side of `diff`: those of a database, or those that `update` would write of a text file, of the text files of a
/// folder, or of those of a root. A file is a text file if its name is one of a text file. `-` is the database that `input` has left.
///
/// Errors are, in this order: a folder can't be listed, a file can't be read, and text files can't be compiled.
pub fn side<D: TextsBelow, I: Source>(
    alloc: Global,
    path: &str,
    system: &D,
    input: &mut I,
) -> Result<Vec<u8>, Refusal>
    ensures told { D.Store.tells → OfInput (I.left input.old) (I.failures input.old)
        (I.failures input.new) (λ told. ReachesValue (λ v. v.items)
        (D.System.reads system.now) (side told path.now) result) }
    ensures unread { is_dash path.now ≡ false → input.new ≡ input.old }
{
    if is_dash(path) {
        read_input(alloc, input)
    } else {
        plain_side(alloc, path, system)
    }
}
