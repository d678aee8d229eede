//! What the calls of this crate answer.
use hwdb_spec::Fault;

/// What one property line gives one pattern.
#[derive(Debug, Drop, PartialEq, Eq)]
pub struct Assignment {
    /// The place of the file among the chosen ones, from 1.
    pub priority: u16,
    /// The line of the property, from 1.
    pub line: u32,
    /// The match line.
    pub pattern: Vec<u8>,
    /// The text before the first `=` of the property.
    pub key: Vec<u8>,
    /// The text after the first `=` of the property.
    pub value: Vec<u8>,
    /// The stored path of the file.
    pub path: Vec<u8>,
}

/// What one property line gives one pattern, in the bytes of its file.
#[derive(Clone, Copy, Debug, PartialEq, Eq)]
pub struct Given<'b> {
    /// The line of the property, from 1.
    pub line: u32,
    /// The match line.
    pub pattern: &'b [u8],
    /// The text before the first `=` of the property.
    pub key: &'b [u8],
    /// The text after the first `=` of the property.
    pub value: &'b [u8],
}

/// What a file says.
#[derive(Debug, Drop, PartialEq, Eq)]
pub struct Parsed {
    /// By line, and within a line by the place of the match line. Equal ones may come more than once.
    pub assignments: Vec<Assignment>,
    /// By line, and then by number.
    pub faults: Vec<Fault>,
}

/// What a file says, in its own bytes.
#[derive(Debug, Drop, PartialEq, Eq)]
pub struct Scanned<'b> {
    /// By line, and within a line by the place of the match line. Equal ones may come more than once.
    pub assignments: Vec<Given<'b>>,
    /// By line, and then by number.
    pub faults: Vec<Fault>,
}
