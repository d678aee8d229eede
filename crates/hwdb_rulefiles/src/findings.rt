//! What is wrong with a rules file, as data.

/// What is found in a line.
#[derive(Clone, Copy, Debug, PartialEq, Eq)]
pub enum FindingKind {
    /// The rest of the line has no operator after a key.
    NoOperator,
    /// The attribute of a key has no closing brace.
    NoBrace,
    /// What comes after the operator doesn't begin with a quote, `e` or `i`.
    NoQuote,
    /// The value has no closing quote.
    NoEnd,
    /// A value after `e` has a backslash that begins nothing known.
    WrongEscape,
    /// The key isn't known.
    UnknownKey,
    /// The key needs an attribute in braces.
    NoAttribute,
    /// The key takes no attribute.
    SpareAttribute,
    /// The key doesn't take this attribute.
    WrongAttribute,
    /// The key doesn't take this operator.
    WrongOperator,
    /// The value has an `i` before it, and is none that is compared.
    WrongPrefix,
    /// The property is one that udev sets itself.
    FixedProperty,
    /// A network interface gets no name, or that of the kernel.
    IdleName,
    /// The builtin isn't known.
    UnknownBuiltin,
    /// The priority of a link is no number, or the level of messages no level.
    WrongOption,
    /// udev takes `=` in place of this operator.
    TakenAsSet,
    /// The option isn't known.
    UnknownOption,
    /// A GOTO came before in the line.
    SecondGoto,
    /// A LABEL came before in the line.
    SecondLabel,
    /// Nothing is between two pairs.
    NoSeparator,
    /// The line sets nothing and jumps nowhere.
    NoEffect,
    /// The line is too long.
    LongLine,
    /// The file ends within a line that goes on.
    OpenEnd,
    /// No label with this name comes after the GOTO.
    NoLabel,
    /// A row is so long that the file is left out.
    LongRow,
}

/// What is found, and where.
#[derive(Clone, Copy, Debug, PartialEq, Eq)]
pub struct Finding {
    /// The number of the line's first row, from 1.
    pub line: usize,
    /// The place of the pair in the line, from 0.
    pub place: usize,
    /// What it is.
    pub kind: FindingKind,
}
