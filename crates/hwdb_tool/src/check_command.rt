//! `check`: text files that are read and looked over. Nothing is written.
ghost use Rattle.std.specs.Prelude.{◌≡◌, ◌≤◌, ◌==◌, All, List, [], true, false, map, option_map, string_bytes, Some, IfOk, IfErr, IfNone, IfSome, length};
ghost use Rattle.hwdb_check.specs.Checks.{source_of};
ghost use Rattle.hwdb_spec_commands.specs.Checks.{names_nothing, nothing_named};
ghost use Rattle.hwdb_spec_commands.specs.Refusals.{IsInWords};
ghost use Rattle.hwdb_spec.specs.Folders.{Source, path_of};
ghost use Rattle.hwdb_text.specs.Views.{choice_of};
ghost use Rattle.hwdb_spec_commands.specs.CheckedFiles.{AreGivenFiles, IsChecked};
ghost use Rattle.hwdb_plan.specs.Check.{check_plan, checked_plan, said_of, stored};
ghost use Rattle.hwdb_plan.specs.Baseline.{over_baseline};
ghost use Rattle.hwdb_plan.specs.Files.{AreFiles, OfInput, ReachesFiles, given_files, is_word, read_files};
ghost use Rattle.hwdb_plan.specs.Folders.{texts_of_folders};
ghost use Rattle.hwdb_plan.specs.GivenFolders.{named_files};
ghost use Rattle.hwdb_plan.specs.Plans.{Follows, ReachesValue};
ghost use Rattle.hwdb_plan.specs.Plans.Plan.{Done};
ghost use Rattle.hwdb_tool.specs.Internal.{AreTextsGiven, AreWords, IsOfBaseline};
ghost use Rattle.hwdb_spec_commands.specs.Given.{any_dash};
ghost use Rattle.hwdb_spec.specs.Texts.{max_file};
ghost use Rattle.hwdb_spec_commands.specs.Undone.{AreNotChecked};
ghost use Rattle.hwdb_tool.specs.Views.{end_of, texts_in};
ghost use Rattle.hwdb_spec_commands.specs.declared.job.Task.TheVariants.{Check};

use crate::answer::Answer;
use crate::check_rules::check_words;
use crate::given::{any_dash, bytes_given, input_text};
use crate::given_folders::named_files;
use crate::verb::{Verb, root_of};
use hwdb_answers::ToolError;
use hwdb_check::{BaselineFault, Telling, TextFile, marks_in, say_files, wrong_text};
use hwdb_cli::{CheckArgs, Job};
use hwdb_io::Source;
use hwdb_spec_commands::Format;
use hwdb_system::{Machine, Refusal, System, selected};
use hwdb_text::Chosen;
use std::alloc::{AllocError, Global};

/// What is wrong in the given text files, in this format, and without the kinds of warnings that are allowed. `-` is what `input`
/// has left, and a folder is the text files in it. If none is given, both folders below the root are checked. The status is 1 if
/// there is a fault, or `strict` and a warning, else 0; with a patch, if there is something to mend.
pub fn check<D: System, I: Source>(
    alloc: Global,
    root: &str,
    given: &[String],
    name: Option<&str>,
    known: &[Vec<u8>],
    format: Format,
    allowed: &[String],
    strict: bool,
    system: &D,
    input: &mut I,
) -> Result<Answer, Refusal>
    ensures follows { D.Store.tells → OfInput (I.left input.old) (I.failures input.old)
        (I.failures input.new) (λ told. Follows end_of (D.System.reads system.now)
        (check_plan told (map string_bytes given.now) root.now
        (said_of format strict (map string_bytes allowed.now)
        (option_map (λ t. t.now) name.entry) (map (λ t. t.items) known.now))) result) }
    ensures unread { any_dash (map string_bytes given.now) ≡ false → input.new ≡ input.old }
{
    if given.is_empty() {
        check_chosen(alloc, root, name, known, format, allowed, strict, system)
    } else {
        check_named(
            alloc, given, name, known, format, allowed, strict, system, input,
        )
    }
}

/// The same of the files that the given paths mean.
fn check_named<D: System, I: Source>(
    alloc: Global,
    given: &[String],
    name: Option<&str>,
    known: &[Vec<u8>],
    format: Format,
    allowed: &[String],
    strict: bool,
    system: &D,
    input: &mut I,
) -> Result<Answer, Refusal>
    ensures follows { D.Store.tells → OfInput (I.left input.old) (I.failures input.old)
        (I.failures input.new) (λ told. Follows end_of (D.System.reads system.now)
        (named_files (map string_bytes given.now) [] (λ paths.
        given_files (map string_bytes given.now) told paths (λ sources.
        Done (said_of format strict (map string_bytes allowed.now)
        (option_map (λ t. t.now) name.entry) (map (λ t. t.items) known.now) sources)))) result) }
    ensures unread { any_dash (map string_bytes given.now) ≡ false → input.new ≡ input.old }
{
    let paths = named_files(alloc, given, system)?;
    check_given(
        alloc, given, &paths, name, known, format, allowed, strict, system, input,
    )
}

/// The same of the files with these paths. What a folder lists, and none of the words names, is a regular file.
fn check_given<D: System, I: Source>(
    alloc: Global,
    words: &[String],
    given: &[String],
    name: Option<&str>,
    known: &[Vec<u8>],
    format: Format,
    allowed: &[String],
    strict: bool,
    system: &D,
    input: &mut I,
) -> Result<Answer, Refusal>
    ensures follows { D.Store.tells → OfInput (I.left input.old) (I.failures input.old)
        (I.failures input.new) (λ told. Follows end_of (D.System.reads system.now)
        (given_files (map string_bytes words.now) told (map string_bytes given.now)
        (λ sources. Done (said_of format strict (map string_bytes allowed.now)
        (option_map (λ t. t.now) name.entry) (map (λ t. t.items) known.now) sources))) result) }
    ensures unread { any_dash (map string_bytes given.now) ≡ false → input.new ≡ input.old }
{
    let texts = given_texts(alloc, words, given, system, input)?;
    let files = with_paths(alloc, given, &texts)?;
    check_read(alloc, &files, name, known, format, allowed, strict)
}

/// The same of the text files of both folders.
fn check_chosen<D: System>(
    alloc: Global,
    root: &str,
    name: Option<&str>,
    known: &[Vec<u8>],
    format: Format,
    allowed: &[String],
    strict: bool,
    system: &D,
) -> Result<Answer, Refusal>
    ensures follows { D.Store.tells → Follows end_of (D.System.reads system.now)
        (texts_of_folders root.now (λ texts. Done (said_of format strict
        (map string_bytes allowed.now) (option_map (λ t. t.now) name.entry)
        (map (λ t. t.items) known.now) (stored texts.chosen texts.texts)))) result }
{
    let selection = selected(alloc, root, system)?;
    let paths = stored_paths(alloc, &selection.chosen)?;
    let files = with_paths(alloc, &paths, &selection.texts)?;
    check_read(alloc, &files, name, known, format, allowed, strict)
}

/// The same of files that were read.
pub(crate) fn check_read(
    alloc: Global,
    files: &[TextFile<'_>],
    name: Option<&str>,
    known: &[Vec<u8>],
    format: Format,
    allowed: &[String],
    strict: bool,
) -> Result<Answer, Refusal>
    ensures checked { IfOk result (λ a. IsChecked
        (λ sources. sources ≡ map source_of files.now) format strict
        (map string_bytes allowed.now) (map (λ t. t.items) known.now)
        (option_map (λ t. t.now) name.entry) (texts_in a) a.status) }
    ensures refused { IfErr result
        (AreNotChecked (λ sources. sources ≡ map source_of files.now)) }
{
    let telling = Telling {
        format,
        allowed,
        known,
        name,
    };
    match say_files(alloc, &telling, files, strict) {
        Ok(said) => Ok(Answer::with_error(said.err, said.out, said.status)),
        Err(error) => Err(Refusal::from(ToolError::from(error))),
    }
}

/// Whether a name is given, and no file is standard input.
fn names_nothing(name: Option<&str>, given: &[String]) -> bool
    ensures { result ≡ names_nothing (option_map (λ t. t.now) name.entry)
        (map string_bytes given.now) }
{
    match name {
        Some(_) => !any_dash(given),
        None => false,
    }
}

/// The error of that.
pub(crate) fn nothing_named(alloc: Global) -> Refusal
    ensures { IsInWords nothing_named result }
{
    let words = b"--name names standard input: give - as FILE";
    match Vec::from_slice(alloc, words) {
        Ok(text) => Refusal::InWords(text),
        Err(refused) => Refusal::from(refused),
    }
}

/// The error of a baseline.
fn refused_baseline(alloc: Global, path: &str, fault: BaselineFault) -> Refusal
    ensures { IsOfBaseline path.now fault result }
{
    match fault {
        BaselineFault::Memory => Refusal::from(ToolError::Memory),
        BaselineFault::Line(number) => match wrong_text(alloc, path.as_bytes(), number) {
            Ok(text) => Refusal::InWords(text),
            Err(refused) => Refusal::from(refused),
        },
    }
}

/// The findings of the baseline at a path, if one is given.
pub(crate) fn known_at<D: System>(
    alloc: Global,
    baseline: Option<&str>,
    system: &D,
) -> Result<Vec<Vec<u8>>, Refusal>
    ensures { D.Store.tells → ReachesValue (λ known. map (λ t. t.items) known.items)
        (D.System.reads system.now)
        (over_baseline (option_map (λ t. t.now) baseline.entry)) result }
{
    let Some(path) = baseline else {
        return Ok(Vec::new(alloc));
    };
    let bytes = system.input(alloc, path)?;
    match marks_in(alloc, &bytes) {
        Ok(known) => Ok(known),
        Err(fault) => Err(refused_baseline(alloc, path, fault)),
    }
}

/// The same as `check`, by what the baseline at a path has, and with a name for standard input.
pub fn check_as_asked<D: System, I: Source>(
    alloc: Global,
    root: &str,
    given: &[String],
    name: Option<&str>,
    baseline: Option<&str>,
    format: Format,
    allowed: &[String],
    strict: bool,
    system: &D,
    input: &mut I,
) -> Result<Answer, Refusal>
    ensures follows { D.Store.tells → OfInput (I.left input.old) (I.failures input.old)
        (I.failures input.new) (λ told. Follows end_of (D.System.reads system.now)
        (checked_plan told (map string_bytes given.now) root.now
        (option_map (λ t. t.now) name.entry) (option_map (λ t. t.now) baseline.entry)
        (said_of format strict (map string_bytes allowed.now)
        (option_map (λ t. t.now) name.entry))) result) }
    ensures unread { any_dash (map string_bytes given.now) ≡ false → input.new ≡ input.old }
{
    if names_nothing(name, given) {
        return Err(nothing_named(alloc));
    }
    let known = known_at(alloc, baseline, system)?;
    check(
        alloc, root, given, name, &known, format, allowed, strict, system, input,
    )
}

/// The words after the first one that is this path; None if none is.
fn after<'w>(words: &'w [String], path: &str) -> Option<&'w [String]>
    ensures found { IfSome result
        (λ _. is_word (map string_bytes words.now) path.now ≡ true) }
    ensures among { IfSome result (λ rest. AreWords rest.now words.now) }
    ensures none { IfNone result (is_word (map string_bytes words.now) path.now ≡ false) }
{
    let mut left = words;
    'words: while let Some((word, rest)) = left.split_first() {
        if word.as_str() == path {
            return Some(rest);
        }
        left = rest;
    }
    None
}

/// Whether a path is one of the words, and where to look for the next one. Mostly it is the first after the last that was found.
fn is_named<'w>(words: &'w [String], left: &'w [String], path: &str) -> (bool, &'w [String])
    ensures named { AreWords left.now words.now
        → result.0 ≡ is_word (map string_bytes words.now) path.now }
    ensures left { AreWords left.now words.now → AreWords result.1.now words.now }
{
    match after(left, path) {
        Some(rest) => (true, rest),
        None => (after(words, path).is_some(), left),
    }
}

/// What each of the given files has, if standard input had this text. A file that none of the words names has to be a regular
/// one: an open of a pipe would wait.
pub fn read_given<D: System>(
    alloc: Global,
    words: &[String],
    given: &[String],
    text: &[u8],
    system: &D,
) -> Result<Vec<Vec<u8>>, Refusal>
    ensures count { IfOk result (λ texts. length texts.items ≡ length given.now) }
    ensures told { D.Store.tells → ReachesFiles (λ texts. map (λ t. t.items) texts.items)
        (map string_bytes given.now) (D.System.reads system.now)
        (read_files (map string_bytes words.now) text.now (map string_bytes given.now) [])
        result }
    ensures read { D.Store.tells → IfOk result (λ texts. AreTextsGiven text.now
        (D.Store.seen system.now) (map string_bytes given.now)
        (map (λ t. t.items) texts.items)) }
    ensures within { length text.now ≤ max_file
        → IfOk result (λ texts. All (λ t. length t.items ≤ max_file) texts.items) }
{
    let mut texts = Vec::new(alloc);
    let mut left = words;
    for path in given {
        let path = path.as_str();
        let (named, rest) = is_named(words, left, path);
        left = rest;
        let bytes = bytes_given(alloc, path, named, text, system)?;
        texts.push(bytes).map_err(AllocError::from)?;
    }
    Ok(texts)
}

/// What each of the given files has. `-` is what `input` has left, which is read before the others.
pub fn given_texts<D: System, I: Source>(
    alloc: Global,
    words: &[String],
    given: &[String],
    system: &D,
    input: &mut I,
) -> Result<Vec<Vec<u8>>, Refusal>
    ensures count { IfOk result (λ texts. length texts.items ≡ length given.now) }
    ensures told { D.Store.tells → OfInput (I.left input.old) (I.failures input.old)
        (I.failures input.new) (λ told. ReachesFiles (λ texts. map (λ t. t.items) texts.items)
        (map string_bytes given.now) (D.System.reads system.now)
        (given_files (map string_bytes words.now) told (map string_bytes given.now)) result) }
    ensures files { D.Store.tells → IfOk result (λ texts. (sources : List Source)
        → AreFiles (map string_bytes given.now) (map (λ t. t.items) texts.items) sources
        → AreGivenFiles (map string_bytes given.now) (I.left input.old)
        (D.Store.seen system.now) sources) }
    ensures unread { any_dash (map string_bytes given.now) ≡ false → input.new ≡ input.old }
{
    let text = input_text(alloc, given, input)?;
    read_given(alloc, words, given, &text, system)
}

/// The stored paths of the chosen files.
fn stored_paths(alloc: Global, chosen: &[Chosen]) -> Result<Vec<String>, AllocError>
    ensures { IfOk result
        (λ paths. map string_bytes paths.items ≡ map path_of (map choice_of chosen.now)) }
{
    let mut paths = Vec::new(alloc);
    for file in chosen {
        paths.push(file.path(alloc)?)?;
    }
    Ok(paths)
}

/// The texts, each with the path that is printed of it.
pub fn with_paths<'a>(
    alloc: Global,
    paths: &'a [String],
    texts: &'a [Vec<u8>],
) -> Result<Vec<TextFile<'a>>, AllocError>
    requires { length texts.now ≡ length paths.now }
    ensures paths { IfOk result
        (λ files. map (λ f. f.path.now) files.items ≡ map string_bytes paths.now) }
    ensures bytes { IfOk result
        (λ files. map (λ f. f.bytes.now) files.items ≡ map (λ t. t.items) texts.now) }
{
    let mut files = Vec::new(alloc);
    for path in paths {
        let bytes = &texts[files.len()];
        files.push(TextFile {
            path: path.as_str(),
            bytes,
        })?;
    }
    Ok(files)
}

impl<D: Machine, I: Source> Verb<D, I> for CheckArgs {
    ghost task = { λ args. Check args };

    fn answer(
        &self,
        alloc: Global,
        job: &Job,
        system: &D,
        input: &mut I,
    ) -> Result<Answer, Refusal> {
        check_words(alloc, root_of(job), self, job.strict, system, input)
    }
}
