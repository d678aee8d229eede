//! Answers, and those of one key.
use std::rc::Rc;

/// An assignment of a database: one that is told to a device whose name its pattern matches, or one of all.
#[derive(Drop)]
pub struct StoredAssignment<'a> {
    /// The priority of its file: 1 for the first that was chosen.
    pub priority: u16,
    /// The line of its property, counted from 1.
    pub line: u32,
    /// Its pattern. The answers with one pattern may share it.
    pub pattern: Rc<Vec<u8>>,
    /// Its key, a part of the database's bytes.
    pub key: &'a [u8],
    /// Its value, a part of the database's bytes.
    pub value: &'a [u8],
    /// The stored path of its file, a part of the database's bytes.
    pub path: &'a [u8],
}

/// What a device is told for a key.
#[derive(Drop)]
pub struct Explained<'a> {
    /// The key, a part of the database's bytes.
    pub key: &'a [u8],
    /// The answers with this key, the last first: that one counts, and it overrides the others.
    pub answers: Vec<StoredAssignment<'a>>,
}
