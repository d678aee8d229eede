//! Lines of one row, or of several that go on, as `udev_rules_parse_file` of udev-rules.c joins them.
ghost use Rattle.std.specs.Prelude.{◌≡◌, map, IfOk, OnOk, Option};
ghost use Rattle.hwdb_rulefiles.specs.RuleText;
ghost use Rattle.hwdb_rulefiles.specs.Views.{text_of, whole_of, reading_of};

use crate::rows::{begins_with, unindented};
use std::alloc::{AllocError, Global};
use std::mem::replace;

/// How long a row is that makes udev leave the file out, and a line that it leaves out, in bytes.
pub const LINE_SIZE: usize = 16384;

/// A line of one row, or of several that go on.
#[derive(Debug, Drop, PartialEq, Eq)]
pub struct WholeLine {
    /// The number of its first row, from 1.
    pub number: usize,
    /// Its text.
    pub text: Vec<u8>,
    /// Whether it is too long.
    pub long: bool,
}

/// What was read of a file.
#[derive(Drop)]
pub struct Reader {
    /// Whether a line goes on.
    pub held: bool,
    /// The number of its first row.
    pub first: usize,
    /// Its text so far.
    pub text: Vec<u8>,
    /// Whether it is too long.
    pub long: bool,
    /// The lines before it.
    pub lines: Vec<WholeLine>,
}

impl Reader {
    /// Nothing is read yet.
    pub fn new(alloc: Global) -> Reader
        ensures { reading_of result ≡ RuleText.start }
    {
        Reader {
            held: false,
            first: 0,
            text: Vec::new(alloc),
            long: false,
            lines: Vec::new(alloc),
        }
    }

    /// The line ends here.
    fn end(&mut self, alloc: Global) -> Result<(), AllocError>
        ensures { OnOk result (reading_of self.new ≡ RuleText.ended (reading_of self.old)) }
    {
        let long = replace(&mut self.long, false);
        let text = replace(&mut self.text, Vec::new(alloc));
        self.held = false;
        if !long && text.is_empty() {
            return Ok(());
        }
        self.lines.push(WholeLine {
            number: self.first,
            text,
            long,
        })?;
        Ok(())
    }

    /// The line so far goes on or ends.
    fn judge(&mut self, alloc: Global, row: &[u8]) -> Result<(), AllocError>
        ensures { OnOk result (reading_of self.new
            ≡ RuleText.judged (reading_of self.old) row.now) }
    {
        let goes_on = if self.long {
            row.ends_with(b"\\")
        } else {
            self.text.ends_with(b"\\")
        };
        if !goes_on {
            return self.end(alloc);
        }
        self.held = true;
        let len = self.text.len().saturating_sub(1);
        self.text.truncate(len);
        Ok(())
    }

    /// A row belongs to the line so far, or begins one.
    fn join(&mut self, alloc: Global, number: usize, row: &[u8]) -> Result<(), AllocError>
        ensures { OnOk result (reading_of self.new
            ≡ RuleText.joined (reading_of self.old) number row.now) }
    {
        if !self.held {
            self.first = number;
        }
        if self.text.len() + row.len() >= LINE_SIZE {
            self.long = true;
        }
        self.text.extend_from_slice(row)?;
        self.judge(alloc, row)
    }

    /// A row is read.
    pub fn row(&mut self, alloc: Global, number: usize, row: &[u8]) -> Result<(), AllocError>
        ensures { OnOk result (reading_of self.new
            ≡ RuleText.step (reading_of self.old) number row.now) }
    {
        let text = unindented(row);
        if begins_with(b'#', text) {
            return Ok(());
        }
        self.join(alloc, number, text)
    }
}

/// What the rows of a file say.
pub fn whole_lines(alloc: Global, rows: &[&[u8]]) -> Result<Reader, AllocError>
    ensures { IfOk result (λ reader. reading_of reader
        ≡ RuleText.steps RuleText.start 1 (map text_of rows.now)) }
{
    let mut reader = Reader::new(alloc);
    for (index, row) in rows.iter().enumerate() {
        reader.row(alloc, index + 1, row)?;
    }
    Ok(reader)
}

/// The number of the first row that is too long.
pub fn long_row(rows: &[&[u8]]) -> Option<usize>
    ensures { result ≡ RuleText.long_row 1 (map text_of rows.now) }
{
    for (index, row) in rows.iter().enumerate() {
        if row.len() >= LINE_SIZE {
            return Some(index + 1);
        }
    }
    None
}
