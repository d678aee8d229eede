//! The records of a test file.
ghost use Rattle.std.specs.Prelude.{◌≡◌, ◌++◌, ◌∷◌, [], List, map, IfOk, OnOk};
ghost use Rattle.hwdb_spec.specs.Lines.{Line, clean};
ghost use Rattle.hwdb_spec_commands.specs.Wanted;
ghost use Rattle.hwdb_spec_commands.specs.Wanted.{no_record, records_from};
ghost use Rattle.hwdb_test.specs.Views.{record_at};
ghost use Rattle.hwdb_test.specs.Internal.{open_record, read_with};
ghost use Rattle.hwdb_check.specs.Internal.{line_of};

use crate::wanted_lines::WantedLine;
use hwdb_text::{Content, content_of, end_of};
use std::alloc::{AllocError, Global};
use std::mem;

/// A record of a test file.
#[derive(Drop)]
pub struct Record<'b> {
    /// Its match lines: devices.
    pub devices: Vec<&'b [u8]>,
    /// What each of them is wanted to have.
    pub lines: Vec<WantedLine<'b>>,
}

/// What was read of a test file.
#[derive(Drop)]
pub struct Reading<'b> {
    /// The records that have ended.
    pub ended: Vec<Record<'b>>,
    /// The match lines of the record that hasn't.
    pub devices: Vec<&'b [u8]>,
    /// Its other lines.
    pub lines: Vec<WantedLine<'b>>,
}

impl<'b> Reading<'b> {
    /// Ends a record. The only error, here and below, is `AllocError`.
    fn end(&mut self, alloc: Global) -> Result<(), AllocError>
        ensures ended { OnOk result (map record_at self.new.ended.items
            ≡ map record_at self.old.ended.items ++ open_record self.old ∷ []) }
        ensures next { OnOk result ((more : List Line) → read_with self.new more
            ≡ map record_at self.old.ended.items
            ++ open_record self.old ∷ records_from no_record more) }
    {
        let devices = mem::replace(&mut self.devices, Vec::new(alloc));
        let lines = mem::replace(&mut self.lines, Vec::new(alloc));
        self.ended.push(Record { devices, lines })?;
        Ok(())
    }

    /// Reads a line.
    fn line(&mut self, alloc: Global, number: u64, text: &'b [u8]) -> Result<(), AllocError>
        ensures { OnOk result ((more : List Line) → read_with self.new (clean more)
            ≡ read_with self.old (clean (line_of number text.now ∷ more))) }
    {
        match content_of(text) {
            Content::Comment => Ok(()),
            Content::ZeroByte => Ok(()),
            Content::Empty => self.end(alloc),
            Content::Property(clean) => {
                self.lines.push(WantedLine {
                    number,
                    text: clean,
                })?;
                Ok(())
            }
            Content::Match(clean) => {
                self.devices.push(clean)?;
                Ok(())
            }
        }
    }
}

/// The records of a test file: one pass over its bytes.
pub fn records_of<'b>(alloc: Global, bytes: &'b [u8]) -> Result<Vec<Record<'b>>, AllocError>
    ensures { IfOk result (λ list. map record_at list.items ≡ Wanted.records bytes.now) }
{
    let mut reading = Reading {
        ended: Vec::new(alloc),
        devices: Vec::new(alloc),
        lines: Vec::new(alloc),
    };
    let mut number = 1;
    let mut at = 0;
    while at < bytes.len() {
        let rest = &bytes[at..];
        let end = end_of(b'\n', rest);
        reading.line(alloc, number, &rest[..end])?;
        number += 1;
        at = at + end + 1;
    }
    reading.end(alloc)?;
    Ok(reading.ended)
}
