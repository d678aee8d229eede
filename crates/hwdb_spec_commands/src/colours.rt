//! What colours are for: kinds of texts, the parts of their lines, and styles.

/// What a text is, by what its lines have.
#[derive(Clone, Copy, Debug, PartialEq, Eq)]
pub enum TextKind {
    /// Any text: nothing of it has a colour.
    Plain,
    /// `KEY=VALUE`.
    Properties,
    /// `KEY=VALUE`, and below it `    PATH:LINE  PATTERN`; `  overrides KEY=VALUE`.
    Origins,
    /// A position, a pattern and `KEY=VALUE`, with tabs between.
    Hits,
    /// `PATH:LINE: FAULT`, and below it lines that begin with spaces: one with a `^`, and others.
    Reports,
    /// A sign and a pattern, and `KEY=VALUE` and `PATH:LINE` once or twice, with tabs between.
    Changes,
    /// `# PATH:LINE`, a pattern, and ` KEY=VALUE`.
    Records,
    /// `NAME: NUMBER`.
    Counts,
    /// A device, and below it a sign, and `KEY=VALUE` and `PATH:LINE` once or twice, with tabs between.
    DeviceChanges,
}

/// The part of a line that a byte is in.
#[derive(Clone, Copy, Debug, PartialEq, Eq)]
pub enum LinePart {
    /// No line has begun, or the byte ends one.
    Ended,
    /// Spaces that begin a line.
    Blank,
    /// A key.
    Key,
    /// What has no colour to the end of the line.
    Value,
    /// A path, a position, or what else says where something is.
    Path,
    /// A line's number, after its path.
    Number,
    /// A pattern, after which a key comes.
    Pattern,
    /// What is wrong.
    Fault,
    /// A sign, a word or a `^` that marks something.
    Mark,
}

/// How a byte is shown.
#[derive(Clone, Copy, Debug, PartialEq, Eq)]
pub enum Style {
    /// As it is.
    Plain,
    /// Cyan.
    Key,
    /// Bold.
    Path,
    /// Yellow.
    Fault,
    /// Green.
    Mark,
}
