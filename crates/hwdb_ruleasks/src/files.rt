//! Rules files that were read.
ghost use Rattle.std.specs.Prelude.{◌≡◌, ◌++◌, ◌∷◌, [], ◌-◌, flat_map, length, map, string_bytes, take, IfOk, OnOk};
ghost use Rattle.hwdb_plan.specs.OwnRules.{sources_of};
ghost use Rattle.hwdb_rulecommands.specs.Settable.{last_name};
ghost use Rattle.hwdb_spec_rules.specs.RuleAnswers;
ghost use Rattle.hwdb_spec_rules.specs.RuleNames.{names_read};
ghost use Rattle.hwdb_spec_rules.specs.RuleStrings;
ghost use Rattle.hwdb_ruleasks.specs.FileViews.{parsed_of};
ghost use Rattle.hwdb_ruleasks.specs.Views.{file_of, own_text};

use crate::names::names_read;
use crate::strings::{RulesFile, lines_in};
use hwdb_rulecommands::last_name;
use hwdb_rulefiles::{Parsed, parse};
use std::alloc::{AllocError, Global};

/// A rules file that was read, and what it says.
#[derive(Drop)]
pub struct ParsedFile<'a> {
    name: &'a [u8],
    parsed: Parsed,
}

/// A name without its ending, which has six bytes.
fn without_ending(name: &[u8]) -> &[u8]
    ensures { result.now ≡ RuleAnswers.without_ending name.now }
{
    if name.len() < 6 {
        return &[];
    }
    &name[..name.len() - 6]
}

/// What a rules file says. The only error, here and below, is `AllocError`.
fn parsed_file<'a>(alloc: Global, path: &'a str, text: &[u8]) -> Result<ParsedFile<'a>, AllocError>
    ensures { IfOk result (λ f. parsed_of f
        ≡ RuleAnswers.file_of (record { name = path.now; bytes = text.now })) }
{
    Ok(ParsedFile {
        name: without_ending(last_name(path.as_bytes())),
        parsed: parse(alloc, text)?,
    })
}

/// What rules files say, by their paths and their texts. The time grows with their bytes.
///
/// # Errors
///
/// `AllocError` at any allocation that fails.
#[tactic(auto, unfolding(hwdb_plan::specs::OwnRules::sources_of))]
pub fn parsed_files<'a>(
    alloc: Global,
    paths: &'a [String],
    texts: &[Vec<u8>],
) -> Result<Vec<ParsedFile<'a>>, AllocError>
    ensures { IfOk result (λ files. map parsed_of files.items ≡ RuleAnswers.files_of
        (sources_of (map string_bytes paths.now) (map (λ t. t.items) texts.now))) }
{
    let mut files = Vec::new(alloc);
    let mut paths = paths;
    let mut texts = texts;
    'files: while let Some((path, more_paths)) = paths.split_first() {
        let Some((text, more_texts)) = texts.split_first() else {
            return Ok(files);
        };
        files.push(parsed_file(alloc, path.as_str(), text)?)?;
        paths = more_paths;
        texts = more_texts;
    }
    Ok(files)
}

/// The files, as rules are tried.
///
/// # Errors
///
/// `AllocError` at any allocation that fails.
pub fn files_in<'s>(
    alloc: Global,
    parsed: &'s [ParsedFile<'_>],
) -> Result<Vec<RulesFile<'s>>, AllocError>
    ensures { IfOk result (λ files. map file_of files.items ≡ map parsed_of parsed.now) }
{
    let mut files = Vec::new(alloc);
    for one in parsed {
        files.push(RulesFile {
            name: one.name,
            lines: &one.parsed.lines,
        })?;
    }
    Ok(files)
}

/// Adds names, a line each.
fn push_names(text: &mut Vec<u8>, names: &[&[u8]]) -> Result<(), AllocError>
    ensures { OnOk result (text.new.items
        ≡ text.old.items ++ RuleAnswers.names_text (map own_text names.now)) }
{
    for name in names {
        text.extend_from_slice(name)?;
        text.push(b'\n')?;
    }
    Ok(())
}

/// The names of the attributes that rules files read, ascending, a line each.
///
/// # Errors
///
/// `AllocError` at any allocation that fails.
pub fn names_text(alloc: Global, files: &[RulesFile<'_>]) -> Result<Vec<u8>, AllocError>
    ensures { IfOk result (λ text. text.items ≡ RuleAnswers.names_text
        (names_read (RuleStrings.lines_in (map file_of files.now)))) }
{
    let lines = lines_in(alloc, files)?;
    let names = names_read(alloc, &lines)?;
    let mut text = Vec::new(alloc);
    push_names(&mut text, &names)?;
    Ok(text)
}
