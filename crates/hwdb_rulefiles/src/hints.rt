//! How much a finding matters, and what to do about it.
ghost use Rattle.std.specs.Prelude.{◌≡◌};
ghost use Rattle.hwdb_rulefiles.specs.RuleHints;

use crate::findings::FindingKind;

impl FindingKind {
    /// Whether udev leaves out a pair, a line or a file. If not, it is a remark.
    pub fn is_fault(self) -> bool
        ensures { result ≡ RuleHints.is_fault self }
    {
        match self {
            FindingKind::TakenAsSet | FindingKind::NoSeparator => false,
            _ => true,
        }
    }

    /// What to do about it.
    pub fn hint(self) -> &'static str
        ensures { result.now ≡ RuleHints.kind_hint self }
    {
        match self {
            FindingKind::NoOperator => "put == or != after it to compare, or = to set",
            FindingKind::NoBrace => "close it with a }",
            FindingKind::NoQuote => "put the value in double quotes",
            FindingKind::NoEnd => {
                "close it with a double quote; one after a backslash belongs to the value"
            }
            FindingKind::WrongEscape => {
                "write two backslashes for one, or take the e before the quote away"
            }
            FindingKind::UnknownKey => "udev(7) has all keys, in capitals",
            FindingKind::NoAttribute => "put the attribute in braces after the key",
            FindingKind::SpareAttribute => "take the braces and what is in them away",
            FindingKind::WrongAttribute => "udev(7) has what the key takes in braces",
            FindingKind::WrongOperator => {
                "== and != compare, and =, +=, -= and := set: udev(7) has the keys of each"
            }
            FindingKind::WrongPrefix => "take the i before the quote away",
            FindingKind::FixedProperty => "give the property another name",
            FindingKind::IdleName => "take NAME away: the kernel's name stays without it",
            FindingKind::UnknownBuiltin => "udevadm test-builtin --help lists the builtins",
            FindingKind::WrongOption => {
                "link_priority takes a number, and log_level a level or reset"
            }
            FindingKind::TakenAsSet => "write = here",
            FindingKind::UnknownOption => "udev(7) has all options",
            FindingKind::SecondGoto => "keep one GOTO in a line",
            FindingKind::SecondLabel => "give each LABEL a line of its own",
            FindingKind::NoSeparator => "put a comma between them",
            FindingKind::NoEffect => "add what it sets or runs, or take the line away",
            FindingKind::LongLine => "make several lines of it",
            FindingKind::OpenEnd => "take the backslash away, or put what goes on below it",
            FindingKind::NoLabel => "put the LABEL below it, or take the GOTO away",
            FindingKind::LongRow => "make several lines of it",
        }
    }
}
