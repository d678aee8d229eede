//! What commands say and do: the definitions that the commands' contracts speak of, beside those of the headline (`hwdb_spec`).
//!
//! `specs/` is read from top to bottom in this order.
//!
//! | File | Says |
//! |---|---|
//! | `FormTable` | the forms of the texts that udev asks |
//! | `LikelyForms` | the forms of the texts that udev likely asks |
//! | `Differences` | what came, went and changed between two databases, and its lines |
//! | `DeviceDifferences` | the same of what they give a device |
//! | `Dump` | a database as text of the form that hwdb(7) describes, and whether the text says what the database assigns |
//! | `Summary` | how much is in a database, and its lines |
//! | `Verdicts` | what is said of bytes that are no database |
//! | `Json` | each line of JSON that is printed, and what is read of one |
//! | `Reports` | the reports of a file's faults |
//! | `Properties` | which properties are known, which values they take, and what is said of others |
//! | `Mends` | what a pattern was likely meant to be that no string of udev matches |
//! | `Fields` | where a pattern has what is nearly the name of a field of the machine |
//! | `Fragile` | patterns that name the firmware of a machine beside its model |
//! | `Unmatched` | what is said of a pattern that matches no text that udev asks, or none that it likely asks |
//! | `Surroundings` | what is said of a property because of the patterns and properties around it |
//! | `Kinds` | the names of faults and warnings, and which warnings are told |
//! | `Warnings` | the warnings of a file, and their reports |
//! | `Annotations` | a finding as GitHub shows it beside its line |
//! | `Logs` | findings as a log in SARIF |
//! | `Fixes` | lines as they were likely meant, of which a warning is told |
//! | `Findings` | what `check` prints of a finding, in each format |
//! | `AllowedKinds` | comments that let kinds of warnings pass in their record, and what they leave |
//! | `RuleFindings` | what `check` finds in udev's rules files |
//! | `Baselines` | findings that are let pass since a baseline has them |
//! | `Checks` | what `check` prints, how much it finds, and its status |
//! | `Once` | some assignments, each once |
//! | `Progress` | what `update` says of its work |
//! | `ManyDevices` | what `explain` prints of several devices, and a line of devices that is too long |
//! | `Reloads` | what `query --reload -` says of a database that came in another one's place |
//! | `Reviews` | how `diff` is asked to compare: its form, and which changes count, by file and by pattern |
//! | `Renamed` | changes by record, and a record whose patterns alone changed |
//! | `Tables` | changes as tables of Markdown |
//! | `ChangeForms` | how `diff` tells changes: by record, a line for each, or as JSON |
//! | `Unmet` | what `diff --devices` says of the changes that its devices don't meet |
//! | `ChangeCounts` | how many changes there are, by file and by key, and what `diff --stat` prints of that |
//! | `Comparisons` | what `diff` compares, and what it prints, as text or JSON |
//! | `SampleRules` | what rules of one key give devices, and what shows that two sides differ |
//! | `SampleTexts` | a short text that a pattern matches |
//! | `FormTexts` | the shortest text of a form that a pattern matches |
//! | `Overlaps` | whether patterns are seen to match no text both, or one all that the other does |
//! | `SamplesFound` | the samples of two sides: devices made of patterns, to which the two give something else |
//! | `SampleDevices` | the devices that `diff --samples` asks about, and what it says of undecided patterns |
//! | `LoneFile` | one text file alone, as `ask` reads it and `dump` writes it |
//! | `Databases` | what bytes of databases give, and what is so of bytes that are none |
//! | `Sysfs` | what sysfs holds of a device and its parents, and how udev reads it |
//! | `DeviceTree` | where sysfs has a device, and what is read of it and its parents |
//! | `Runs` | what a run sees and leaves: files, devices that tell of their bytes, and what sysfs shows; and texts that both outputs took |
//! | `Given` | what the words' paths and devices stand for, `-` too |
//! | `CheckedFiles` | which text files `check` reads, and what it prints |
//! | `LeftOut` | text files that can't be read, and that an update leaves out |
//! | `Asked` | the database that a command asks for, and what is printed of it |
//! | `Commands` | commands that are told, and how their words are quoted for a shell |
//! | `Ignored` | which files of the folders of text files are none, by their names |
//! | `RulePaths` | where udev's rules files are |
//! | `Status` | what `status` says of the database that is asked, beside what the text files make |
//! | `Done` | what `update` and `ask` leave, and what a crash leaves during an update |
//! | `FirstParts` | strings whose first part may be left out |
//! | `Near` | the pattern that almost matched a device, and where it stopped |
//! | `NearAsked` | which patterns `near` compares with a device: those of text files, or of a database |
//! | `NearPrefixes` | of some strings with a prefix and of some patterns with it the two that are nearest |
//! | `Wanted` | test files, whether a database gives what they want, and what `test` prints |
//! | `Recorded` | a test file that holds of a database, as `test --record` prints it, and what none can say |
//! | `Colours` | how a text is shown in colour |
//! | `Inputs` | what kinds of input device udev sees in one |
//! | `Lookups` | the strings that udev's rules ask for a device, in their order |
//! | `DeviceRecords` | the records that `device --pattern` prints |
//! | `DeviceTexts` | what `device` prints: the strings that are asked for a device, and what each gets |
//! | `DeviceFound` | which devices ids or a part of a name mean, and what is said if there are several |
//! | `DeviceAsked` | the device that `device` is asked for, what it prints, and what it says if there is none |
//! | `CommandLine` | the command line as data: options, arguments and commands |
//! | `Jobs` | which job the matches of a command line ask for |
//! | `WordFaults` | what is told of words that ask for nothing |
//! | `DatabaseErrors` | when each error of answering from a database comes |
//! | `VerifyErrors` | the same of summing up a database |
//! | `StatusErrors` | when each error of comparing a database with the text files comes |
//! | `DiffErrors` | the same of comparing two |
//! | `DumpErrors` | the same of printing one as text |
//! | `CheckErrors` | the same of checking text files |
//! | `AnsweredLines` | which lines of standard input are answered, and what was printed before an error |
//! | `Refusals` | the errors that end the program, and the line of each |
//! | `Reading` | the errors of reading the text files of two folders |
//! | `Told` | what a file system tells of what it is asked, and why a run ends with an error, as data |
//! | `LeftOutTold` | what is said of text files that are left out |
//! | `SysfsAnswers` | what a file system answers of devices, and what is made of that |
//! | `Streams` | what the devices of standard input get, and when each error comes |
//! | `Listings` | what `list` prints, and when each error comes |
//! | `UpdateErrors` | when each error of `update` and `ask` comes |
//! | `GivenFolders` | why it can't be told which text files the paths of `check` mean |
//! | `Undone` | the errors of each task, and what they leave |
//! | `Queries` | what `query` and `explain` print, also of standard input, and their errors |
//! | `Readable` | an update of the text files that can be read |
//! | `Emptied` | if there are no text files: what `update` says of a database that it empties or hides, and which errors that gives |
//! | `Reasons` | what an error says of a file is so |
//! | `Replacements` | what `explain --text` says that no database can: what was replaced, and what is masked |
//! | `Sides` | what a path of `diff` means: a database, a text file, a folder or a root; and the errors of that |
//! | `OverText` | with `--text`, the files as they are but for the database, which is what an update would write |
//! | `KeysAsked` | which keys words ask for, what `keys` prints of them, and what it says if there is none |
//! | `AllStrings` | the strings of all devices, each once |
//! | `Scans` | the keys that events of a keyboard tell |
//! | `ScanAsked` | what `scan` reads, and what is said if it can't be read |
//! | `Exports` | what an export of udev's database tells of devices, as sysfs would, and what it lacks |
//! | `Patches` | the patch that `check --diff` prints, and which mends are sure |
//!
//! The types below are those that the definitions name.
#![tactic(auto)]

mod args;
mod attributes;
mod colours;
mod devices;
mod exported;
mod finders;
mod form;
mod formats;
mod job;
mod kinds;
mod refusals;
mod unread;
mod vocabulary;

pub use args::{
    AskArgs, CheckArgs, DeviceArgs, DiffArgs, DumpArgs, ExplainArgs, KeysArgs, Layout, ListArgs,
    NearArgs, QueryArgs, RecordArgs, ReviewArgs, ScanArgs, StatusArgs, TestArgs, UpdateArgs,
    VerifyArgs,
};
pub use attributes::ATTRIBUTES;
pub use colours::{LinePart, Style, TextKind};
pub use devices::DeviceForm;
pub use exported::EXPORTED;
pub use finders::FINDERS;
pub use form::Form;
pub use formats::{FORMATS, Format};
use hwdb_spec::Judgement;
pub use job::{Job, Task, WordsFault};
pub use kinds::{KINDS, RULE_KINDS};
pub use refusals::Refusal;
pub use unread::Unread;
pub use vocabulary::{
    AXIS_CODES, COMPANIONS, KEY_HINT, KEY_NAMES, KEY_WORDS, KNOWN_BELOW, MACHINE_FIELDS, Misuse,
    OLD_PROPERTIES, PLACEHOLDERS, PROPERTIES, Sign, SignRow, VALUE_WORDS, ValueForm,
};

/// What is unusual in a line that is read.
#[derive(Clone, Copy, Debug, PartialEq, Eq)]
pub enum WarningKind {
    /// It begins with a UTF-8 byte order mark.
    ByteOrderMark,
    /// It begins with a tab, and so is a match line.
    LeadingTab,
    /// A carriage return stands in it, before its trailing blanks.
    CarriageReturn,
    /// A `[` of its pattern begins no closed bracket.
    OpenBracket,
    /// A range in a bracket of its pattern has no members.
    EmptyRange,
    /// A space or a tab stands beside the first `=` of its property.
    SpacedEquals,
    /// A `#` cuts its property, and no blank stands before that.
    CutValue,
    /// It is a match line that stands in its record already.
    RepeatedMatch,
    /// Later lines give one of its patterns the same key, the last of them another value; that one has this number.
    Replaced(u64),
    /// Its property doesn't fit what is known of properties.
    Misused(Misuse),
    /// Its property isn't read below any of its patterns. Whether it is read elsewhere.
    Unread(bool),
    /// Its property is read with others alone, which one of its patterns isn't given.
    Unpaired,
    /// It is a pattern that matches no text that udev asks.
    Unmatched(Judgement),
    /// It is a pattern that matches a text that udev asks, and none that it likely asks.
    Unlikely(Judgement),
    /// It is a pattern that udev can't take.
    TooLongForUdev,
    /// It is a match line with which a database may be too deep for udev.
    MayBeTooDeep,
    /// It is a pattern that names a machine's firmware beside its model.
    Fragile,
}

/// How many files were checked, and how much was found in them.
#[derive(Clone, Copy, Debug, PartialEq, Eq)]
pub struct Tally {
    /// How many files were read.
    pub files: u64,
    /// What their properties give their patterns.
    pub assignments: u64,
    /// How many faults they have.
    pub faults: u64,
    /// How many warnings they get.
    pub warnings: u64,
}
