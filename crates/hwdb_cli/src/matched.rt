//! What `clap` found of the words: the values of one command's options and arguments.
ghost use Rattle.std.specs.Option.{unwrap_or};
ghost use Rattle.std.specs.Prelude.{◌≡◌, IfOk, [], length, map, option_map, string_bytes};
ghost use Rattle.clap.specs.Walk.{all_of, first_of, rows_of};
ghost use Rattle.clap.specs.Matches.{found_of};
ghost use Rattle.hwdb_spec_commands.specs.Jobs.{AreAnyValues, AreValues, HasValue, IsValue, has_flag};

use clap::ArgMatches;
use std::alloc::{AllocError, Global};

/// The first value of the argument.
pub fn text_of<'a>(matches: &ArgMatches<'a>, id: &str) -> Option<&'a str>
    ensures { option_map (λ s. s.now) result ≡ first_of id.now (rows_of (found_of matches.now)) }
{
    matches.get_str(id)
}

/// Whether the flag is there.
pub fn has_flag(matches: &ArgMatches<'_>, id: &str) -> bool
    ensures { result ≡ has_flag id.now (rows_of (found_of matches.now)) }
{
    match text_of(matches, id) {
        Some(text) => text == "true",
        None => false,
    }
}

/// A text, copied.
pub fn copied(alloc: Global, text: Option<&str>) -> Result<Option<String>, AllocError>
    ensures { IfOk result (λ r. option_map string_bytes r ≡ option_map (λ s. s.now) text.entry) }
{
    match text {
        None => Ok(None),
        Some(text) => Ok(Some(String::from_str(alloc, text)?)),
    }
}

/// Texts, copied.
fn copies(alloc: Global, texts: &[&str]) -> Result<Vec<String>, AllocError>
    ensures { IfOk result (λ r. map string_bytes r.items ≡ map (λ t. t.now) texts.now) }
{
    let mut values = Vec::new(alloc);
    'copying: for text in texts {
        values.push(String::from_str(alloc, text)?)?;
    }
    Ok(values)
}

/// The value of an argument that has one, copied.
pub fn value_of(alloc: Global, matches: &ArgMatches<'_>, id: &str) -> Result<String, AllocError>
    requires { HasValue id.now (rows_of (found_of matches.now)) }
    ensures { IfOk result (λ r. IsValue id.now (rows_of (found_of matches.now)) (string_bytes r)) }
{
    let text = text_of(matches, id).unwrap();
    String::from_str(alloc, text)
}

/// The values of an argument that has some, copied.
pub fn values_of(
    alloc: Global,
    matches: &ArgMatches<'_>,
    id: &str,
) -> Result<Vec<String>, AllocError>
    requires { HasValue id.now (rows_of (found_of matches.now)) }
    ensures { IfOk result
        (λ r. AreValues id.now (rows_of (found_of matches.now)) (map string_bytes r.items)) }
{
    let texts = matches.get_strs(id).unwrap();
    copies(alloc, texts)
}

/// The values of an argument, copied; none if it has none.
pub fn any_values_of(
    alloc: Global,
    matches: &ArgMatches<'_>,
    id: &str,
) -> Result<Vec<String>, AllocError>
    ensures { IfOk result
        (λ r. AreAnyValues id.now (rows_of (found_of matches.now)) (map string_bytes r.items)) }
{
    match matches.get_strs(id) {
        Some(texts) => copies(alloc, texts),
        None => Ok(Vec::new(alloc)),
    }
}

/// How many values an argument has.
pub fn value_count(matches: &ArgMatches<'_>, id: &str) -> usize
    ensures { result ≡ length (unwrap_or (all_of id.now (rows_of (found_of matches.now))) []) }
{
    match matches.get_strs(id) {
        Some(texts) => texts.len(),
        None => 0,
    }
}
