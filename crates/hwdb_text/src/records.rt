//! The lines of a file, one after the other: records, what they assign, and what is wrong with them.
//!
//! `Reads` says what was read of the lines so far; each method keeps it.
ghost use Rattle.std.specs.Prelude.{◌≡◌, ◌++◌, List, [], ◌∷◌, map, drop, IfOk, IsOk, OnOk, IsTrue};
ghost use Rattle.hwdb_spec.specs.Lines;
ghost use Rattle.hwdb_spec.specs.Records.{Origin, property_assignments, section_assignments, property_faults, long_faults, section_faults, spoilt_faults, by_line};
ghost use Rattle.hwdb_text.specs.Views.{given};
ghost use Rattle.hwdb_text.specs.Views.{given_in, text_of};
ghost use Rattle.hwdb_spec.specs.Records;
ghost use Rattle.hwdb_text.specs.Internal.Contents;
ghost use Rattle.hwdb_text.specs.Internal.Reading.{Closes, Holds, AtStart, IsFresh, Reads, gives};

use crate::line::{Content, content_of, end_of, unindented};
use crate::outcome::{Given, Scanned};
use hwdb_spec::{Fault, FaultKind};
use std::alloc::{AllocError, Global};

/// The greatest length of a match line, in bytes.
pub const LONGEST_MATCH: usize = 4096;

/// What was read last in the block.
#[derive(Clone, Copy)]
enum Stage {
    /// Nothing that a property could belong to.
    Start,
    /// Match lines.
    Matches,
    /// Match lines and properties.
    Properties,
}

/// What was read of a file.
#[derive(Drop)]
pub struct Reader<'b> {
    stage: Stage,
    /// The number of the first match line of the run.
    first: u32,
    /// The match lines of the run that aren't too long.
    patterns: Vec<&'b [u8]>,
    assignments: Vec<Given<'b>>,
    /// The faults of dropped lines.
    spoilt: Vec<Fault>,
    /// The faults of the records.
    faults: Vec<Fault>,
}

/// Appends what a property gives each of the patterns.
fn assign<'b>(
    line: u32,
    key: &'b [u8],
    value: &'b [u8],
    patterns: &[&'b [u8]],
    assignments: &mut Vec<Given<'b>>,
) -> Result<(), AllocError>
    ensures { OnOk result ((o : Origin) → map (given_in o) assignments.new.items
        ≡ map (given_in o) assignments.old.items
        ++ map (given o line key.now value.now) (map text_of patterns.now)) }
{
    for pattern in patterns {
        assignments.push(Given {
            line,
            pattern: *pattern,
            key,
            value,
        })?;
    }
    Ok(())
}

/// Reads a clean property line that belongs to match lines with these patterns.
fn property<'b>(
    text: &'b [u8],
    line: u32,
    patterns: &[&'b [u8]],
    assignments: &mut Vec<Given<'b>>,
    faults: &mut Vec<Fault>,
) -> Result<(), AllocError>
    ensures assignments { OnOk result ((o : Origin) → map (given_in o) assignments.new.items
        ≡ map (given_in o) assignments.old.items
        ++ property_assignments o (map text_of patterns.now) (Contents.line line text.now)) }
    ensures faults { OnOk result (faults.new.items
        ≡ faults.old.items ++ property_faults (Contents.line line text.now)) }
{
    let body = unindented(text);
    let equals = end_of(b'=', body);
    if equals == body.len() {
        faults.push(Fault {
            line,
            kind: FaultKind::NoEquals,
        })?;
        return Ok(());
    }
    if equals == 0 {
        faults.push(Fault {
            line,
            kind: FaultKind::EmptyKey,
        })?;
        return Ok(());
    }
    let key = &body[..equals];
    let value = &body[equals + 1..];
    assign(line, key, value, patterns, assignments)
}

/// Reads a match line that belongs to a run.
fn pattern<'b>(
    text: &'b [u8],
    line: u32,
    patterns: &mut Vec<&'b [u8]>,
    faults: &mut Vec<Fault>,
) -> Result<(), AllocError>
    ensures patterns { OnOk result (map text_of patterns.new.items
        ≡ map text_of patterns.old.items ++ Records.patterns (Contents.line line text.now ∷ [])) }
    ensures faults { OnOk result (faults.new.items
        ≡ faults.old.items ++ long_faults (Contents.line line text.now)) }
{
    if text.len() > LONGEST_MATCH {
        faults.push(Fault {
            line,
            kind: FaultKind::LongMatch,
        })?;
    } else {
        patterns.push(text)?;
    }
    Ok(())
}

impl<'b> Reader<'b> {
    /// Nothing is read yet.
    pub fn new(alloc: Global) -> Reader<'b>
        ensures reads { (o : Origin) → (whole : List Lines.Line) → Reads o whole whole result }
        ensures fresh { IsFresh result }
    {
        Reader {
            stage: Stage::Start,
            first: 0,
            patterns: Vec::new(alloc),
            assignments: Vec::new(alloc),
            spoilt: Vec::new(alloc),
            faults: Vec::new(alloc),
        }
    }

    /// Ends the block: at an empty line, or at the end of the file.
    fn end(&mut self) -> Result<(), AllocError>
        ensures closed { OnOk result ((o : Origin) → (whole rest : List Lines.Line) → Closes rest
            → Holds o whole rest self.old → AtStart o whole (drop 1 rest) self.new) }
        ensures start { OnOk result (self.new.stage ≡ Stage.Start) }
        ensures spoilt { self.new.spoilt ≡ self.old.spoilt }
        ensures free { self.old.stage ≡ Stage.Start → IsOk result }
        ensures same { self.old.stage ≡ Stage.Start → self.new.faults ≡ self.old.faults }
    {
        if let Stage::Matches = self.stage {
            self.faults.push(Fault {
                line: self.first,
                kind: FaultKind::NoProperty,
            })?;
            self.stage = Stage::Start;
            return Ok(());
        }
        self.stage = Stage::Start;
        Ok(())
    }

    /// Reads a clean property line.
    fn property_line(&mut self, text: &'b [u8], line: u32) -> Result<(), AllocError>
        requires { IsTrue (Lines.is_property (Contents.line line text.now)) }
        ensures held { OnOk result ((o : Origin) → (whole rest : List Lines.Line)
            → Holds o whole (Contents.line line text.now ∷ rest) self.old
            → Holds o whole rest self.new) }
        ensures spoilt { self.new.spoilt ≡ self.old.spoilt }
    {
        if let Stage::Start = self.stage {
            self.faults.push(Fault {
                line,
                kind: FaultKind::StrayProperty,
            })?;
            return Ok(());
        }
        self.stage = Stage::Properties;
        property(
            text,
            line,
            &self.patterns,
            &mut self.assignments,
            &mut self.faults,
        )
    }

    /// Reads a clean match line.
    fn match_line(&mut self, text: &'b [u8], line: u32) -> Result<(), AllocError>
        requires { IsTrue (Lines.is_match (Contents.line line text.now)) }
        ensures held { OnOk result ((o : Origin) → (whole rest : List Lines.Line)
            → Holds o whole (Contents.line line text.now ∷ rest) self.old
            → Holds o whole rest self.new) }
        ensures spoilt { self.new.spoilt ≡ self.old.spoilt }
    {
        match self.stage {
            Stage::Start => {
                self.stage = Stage::Matches;
                self.first = line;
                self.patterns.clear();
                pattern(text, line, &mut self.patterns, &mut self.faults)
            }
            Stage::Matches => pattern(text, line, &mut self.patterns, &mut self.faults),
            Stage::Properties => {
                self.stage = Stage::Start;
                self.faults.push(Fault {
                    line,
                    kind: FaultKind::StrayMatch,
                })?;
                if text.len() > LONGEST_MATCH {
                    self.faults.push(Fault {
                        line,
                        kind: FaultKind::LongMatch,
                    })?;
                }
                Ok(())
            }
        }
    }

    /// Reads the next line.
    pub fn line(&mut self, text: &'b [u8], line: u32) -> Result<(), AllocError>
        ensures { OnOk result ((o : Origin) → (whole rest : List Lines.Line)
            → Reads o whole (Contents.line line text.now ∷ rest) self.old
            → Reads o whole rest self.new) }
    {
        match content_of(text) {
            Content::Comment => Ok(()),
            Content::ZeroByte => Ok(
                self.spoilt.push(Fault {
                    line,
                    kind: FaultKind::ZeroByte,
                })?,
            ),
            Content::Empty => self.end(),
            Content::Property(clean) => self.property_line(clean, line),
            Content::Match(clean) => self.match_line(clean, line),
        }
    }

    /// What the file gives, after its last line. If nothing was read, it takes no memory.
    pub fn finish(mut self) -> Result<Scanned<'b>, AllocError>
        ensures assignments { IfOk result (λ scanned. (o : Origin) → (whole : List Lines.Line)
            → Reads o whole [] self.entry
            → map (given_in o) scanned.assignments.items
            ≡ gives (section_assignments o) (Lines.clean whole)) }
        ensures faults { IfOk result (λ scanned. (o : Origin) → (whole : List Lines.Line)
            → Reads o whole [] self.entry
            → scanned.faults.items
            ≡ by_line (spoilt_faults whole ++ gives section_faults (Lines.clean whole))) }
        ensures free { IsFresh self.entry → IsOk result }
    {
        self.end()?;
        let mut faults = self.spoilt;
        faults.extend_from_slice(&self.faults)?;
        faults.sort()?;
        Ok(Scanned {
            assignments: self.assignments,
            faults,
        })
    }
}
