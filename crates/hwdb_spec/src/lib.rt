//! What has to be believed: the definitions that every contract of this program speaks of, and nothing else.
//!
//! `specs/` is read from top to bottom in this order. Each file begins with what it says and which public standard it
//! comes from.
//!
//! | File | Says |
//! |---|---|
//! | `Assignment` | an assignment, its position, and the order of positions |
//! | `Lines` | a file's lines, and what is read of each |
//! | `Records` | what a file assigns, and its faults |
//! | `Folders` | which files of two folders count, and what they assign together |
//! | `Patterns` | brackets, tokens, and what matches |
//! | `Forms` | forms of texts, and whether a pattern can match a text of some form |
//! | `Fronts` | where a pattern stops on a device |
//! | `Last` | which assignments are the last ones, in words |
//! | `Answers` | the last assignments, those that match, those after a position, and the effective list |
//! | `Tree` | nodes, the map that they stand for, their answers, and live nodes |
//! | `Format` | the header, a node's record, when bytes are a database of a tree, and which fault applies |
//! | `Written` | the tight tree of a map, and its bytes |
//! | `Texts` | each line that is printed |
//! | `Explanations` | for each key the answer that counts and those that it overrides, and their lines |
//! | `Failures` | how failed calls are counted |
//! | `Outputs` | what commands write: how the bytes that a sink tells grow |
//! | `Flushing` | what an output holds back after it took a text |
//! | `Store` | a store of files, what a crash may leave, and a database that is replaced |
//! | `Crashes` | what a crash may leave of files, call by call |
//! | `Sharing` | several updates at once: what others may do between two calls of one, and what that may leave |
//! | `System` | a file system as the program sees it: text files of folders, and the database that is asked |
//! | `Library` | what the C library is told |
//! | `Blocks` | blocks of a file that were read, and which files may have them |
//! | `Visible` | what a terminal and a log are shown of bytes that a terminal acts on |
//! | `Errors` | what an error becomes for the caller of a call, and its words |
//! | `CompileErrors` | when each error of the compiler comes |
//! | `Selected` | which text files of two folders are read, and what each holds |
//! | `NotReplaced` | what a replacement that failed leaves |
//!
//! The types below are those that the definitions name.
#![tactic(auto)]

ghost use Rattle.std.specs.Prelude.{◌≡◌};
ghost use Rattle.hwdb_spec.specs.Records.{fault_text};
ghost use Rattle.hwdb_spec.specs.Texts.{db_fault_name, db_fault_offset};

mod causes;
mod errors;

pub use causes::{Cause, Message};
pub use errors::{
    CompileError, CursorError, DeviceFailed, DiffError, DumpError, NearError, PositionError,
    ReadError, ScanError, SelectError, StoreError, ToolError, Unreplaced, VerifyError,
};
use std::{error, fmt};

/// A named class of bytes, as POSIX has it in the C locale.
#[derive(Clone, Copy)]
pub enum Class {
    Alnum,
    Alpha,
    Blank,
    Cntrl,
    Digit,
    Graph,
    Lower,
    Print,
    Punct,
    Space,
    Upper,
    Xdigit,
}

/// A set of bytes, of which a piece of a form has some.
#[derive(Clone, Copy, Debug, PartialEq, Eq)]
pub enum ByteSet {
    /// One byte.
    Only(u8),
    /// `0-9` and `A-F`.
    UpperHex,
    /// `0-9` and `a-f`.
    LowerHex,
    /// Digits to the base 16, in both cases.
    AnyHex,
    /// Digits to the base 16 in lower case, and the space.
    HexOrBlank,
    /// What follows the `-` in the name of an input device: digits, commas and the letters before them.
    InputBits,
    /// What names the units of a FireWire node.
    Units,
    /// Letters, digits, `-` and `_`.
    Name,
    /// These, and the colon.
    Names,
    /// What the kernel leaves of a text of the machine's firmware.
    Dmi,
    /// What udev's `$attr{}` leaves of that.
    DmiLeft,
    /// What udev's `$attr{}` leaves of any text.
    Left,
    /// These but the colon.
    LeftButColon,
    /// Any byte but 0.
    Any,
}

/// What is said of a pattern, beside the texts that are asked.
#[derive(Clone, Copy, Debug, PartialEq, Eq)]
pub enum Judgement {
    /// It matches one of them.
    Fine,
    /// It matches none, and none begins with its prefix.
    UnknownPrefix,
    /// It matches none. After so many of its bytes is the first token that none goes on with.
    Dead(usize),
}

/// What is wrong with a line.
#[derive(Clone, Copy, Debug, PartialEq, Eq, PartialOrd, Ord)]
pub enum FaultKind {
    /// F1: a property line where a match line is expected.
    StrayProperty,
    /// F2: match lines without a property; at the first of them.
    NoProperty,
    /// F3: a match line directly after a property.
    StrayMatch,
    /// F4: a property without `=`.
    NoEquals,
    /// F5: a property with an empty key.
    EmptyKey,
    /// F6: a line with byte 0.
    ZeroByte,
    /// F7: a match line of more than 4,096 bytes.
    LongMatch,
}

impl FaultKind {
    /// What is printed of it, after the path and the line.
    pub fn text(self) -> &'static str
        ensures { result.now ≡ fault_text self }
    {
        match self {
            FaultKind::StrayProperty => "property where a match is expected, ignored",
            FaultKind::NoProperty => "record without properties, ignored",
            FaultKind::StrayMatch => "match line inside a record, ignored; the record ends here",
            FaultKind::NoEquals => "property without =, ignored",
            FaultKind::EmptyKey => "empty key, ignored",
            FaultKind::ZeroByte => "byte 0 in the line, ignored",
            FaultKind::LongMatch => "match line longer than 4096 bytes, ignored",
        }
    }
}

/// A line of a file, and what is wrong with it. Faults are ordered by line, and then by number.
#[derive(Clone, Copy, Debug, PartialEq, Eq, PartialOrd, Ord)]
pub struct Fault {
    /// The line, from 1.
    pub line: u32,
    /// What is wrong there.
    pub kind: FaultKind,
}

/// How large the records are, and where the parts of a database are.
///
/// Sizes are in bytes, places are offsets from the start of the file.
#[derive(Clone, Copy, Debug, PartialEq, Eq)]
pub struct Layout {
    /// How long a node is, without its entries.
    pub node_size: usize,
    /// How long a child entry is.
    pub child_size: usize,
    /// How long a value entry is.
    pub value_size: usize,
    /// Where the nodes section begins: where the header ends.
    pub nodes: usize,
    /// Where the root's record stands.
    pub root: usize,
    /// Where the string section begins: where the nodes section ends.
    pub strings: usize,
}

/// Why bytes are no database: the first of B1 to B5 that is so, or one of B6 to B11 with its offset.
#[derive(Clone, Copy, Debug, PartialEq, Eq)]
pub enum DbFault {
    /// B1: there are fewer than 80 bytes.
    Short,
    /// B2: the first 8 bytes aren't the signature `KSLPHHRH`.
    Signature,
    /// B3: the header or a record is shorter than its known fields.
    RecordSizes,
    /// B4: the file's size isn't the number of bytes, or its parts don't add up to it.
    Lengths,
    /// B5: there is no string, or the last byte isn't 0.
    Strings,
    /// B6: the node at the offset isn't where its text says.
    Place(u64),
    /// B7: the node at the offset is deeper than 4,097 levels.
    Depth(u64),
    /// B8: the byte of the child entry at the offset is 0 or not above the one before it.
    ChildOrder(u64),
    /// B9: the string offset at the offset names no place in the string section.
    StringOffset(u64),
    /// B10: the stored key of the value entry at the offset isn't above the one before it.
    KeyOrder(u64),
    /// B11: the priority of the value entry at the offset is 0.
    Priority(u64),
}

impl DbFault {
    /// Its name, B1 to B11.
    pub fn name(self) -> &'static str
        ensures { result.now ≡ db_fault_name self }
    {
        match self {
            DbFault::Short => "B1",
            DbFault::Signature => "B2",
            DbFault::RecordSizes => "B3",
            DbFault::Lengths => "B4",
            DbFault::Strings => "B5",
            DbFault::Place(_) => "B6",
            DbFault::Depth(_) => "B7",
            DbFault::ChildOrder(_) => "B8",
            DbFault::StringOffset(_) => "B9",
            DbFault::KeyOrder(_) => "B10",
            DbFault::Priority(_) => "B11",
        }
    }

    /// The offset at which it stands, if it has one.
    pub fn offset(self) -> Option<u64>
        ensures { result ≡ db_fault_offset self }
    {
        match self {
            DbFault::Place(at)
            | DbFault::Depth(at)
            | DbFault::ChildOrder(at)
            | DbFault::StringOffset(at)
            | DbFault::KeyOrder(at)
            | DbFault::Priority(at) => Some(at),
            _ => None,
        }
    }
}

/// Its name, and after that its offset, as the program prints them.
impl fmt::Display for DbFault {
    fn fmt<W: fmt::Write>(&self, f: &mut fmt::Formatter<W>) -> fmt::Result {
        let name = self.name();
        match self.offset() {
            None => write!(f, "{name}"),
            Some(offset) => write!(f, "{name} at {offset}"),
        }
    }
}

impl error::Error for DbFault {}
