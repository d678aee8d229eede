//! The patterns of text files.
ghost use Rattle.std.specs.Prelude.{◌≡◌, ◌++◌, ◌+◌, ◌<◌, ◌^◌, length, map, IfOk, OnOk};
ghost use Rattle.hwdb_spec_commands.specs.Near.{patterns_in, patterns_of_line};
ghost use Rattle.hwdb_spec_commands.specs.NearAsked.{patterns_from};
ghost use Rattle.hwdb_near.specs.Views.{pattern_at, source_of};
ghost use Rattle.hwdb_near.specs.Internal.Lines.{line_of};

use crate::found::PatternAt;
use hwdb_text::{Content, LONGEST_MATCH, Lines, content_of};
use std::alloc::{AllocError, Global};

/// A text file, whose patterns are wanted.
#[derive(Clone, Copy)]
pub struct PatternFile<'a> {
    /// Its path.
    pub path: &'a [u8],
    /// What it holds.
    pub bytes: &'a [u8],
}

/// Adds the pattern of a line, if it is a match line of at most 4,096 bytes. The only error, here and below, is
/// `AllocError`.
fn push_line<'a>(
    patterns: &mut Vec<PatternAt<'a>>,
    path: &'a [u8],
    file: usize,
    line: u64,
    text: &'a [u8],
) -> Result<(), AllocError>
    ensures { OnOk result (map pattern_at patterns.new.items ≡ map pattern_at patterns.old.items
        ++ patterns_of_line path.now file (line_of line text.now)) }
{
    match content_of(text) {
        Content::Match(pattern) => {
            if pattern.len() > LONGEST_MATCH {
                return Ok(());
            }
            patterns.push(PatternAt {
                path,
                file,
                line,
                pattern,
            })?;
            Ok(())
        }
        Content::Comment => Ok(()),
        Content::ZeroByte => Ok(()),
        Content::Empty => Ok(()),
        Content::Property(_) => Ok(()),
    }
}

/// Adds the match lines of a text file, by line. `place` is its place among others.
#[tactic(auto, unfolding(hwdb_spec::specs::Lines::numbered))]
pub fn push_patterns<'a>(
    patterns: &mut Vec<PatternAt<'a>>,
    place: usize,
    file: PatternFile<'a>,
) -> Result<(), AllocError>
    ensures { OnOk result (map pattern_at patterns.new.items ≡ map pattern_at patterns.old.items
        ++ patterns_in file.entry.path.now place file.entry.bytes.now) }
{
    let mut line = 1;
    for text in Lines::new(file.bytes) {
        push_line(patterns, file.path, place, line, text)?;
        line += 1;
    }
    Ok(())
}

/// The match lines of some text files.
pub(crate) fn patterns_of_files<'a>(
    alloc: Global,
    files: &[PatternFile<'a>],
) -> Result<Vec<PatternAt<'a>>, AllocError>
    ensures { IfOk result (λ patterns. map pattern_at patterns.items
        ≡ patterns_from 1 (map source_of files.now)) }
{
    let mut patterns = Vec::new(alloc);
    let mut place = 1;
    for file in files {
        push_patterns(&mut patterns, place, *file)?;
        place += 1;
    }
    Ok(patterns)
}
