//! What the words of each command ask for.
ghost use Rattle.std.specs.Prelude.{◌≡◌};
ghost use Rattle.hwdb_spec_commands.specs.Reviews.{review_in};

/// What the words of `update` ask for.
#[derive(Debug, Drop)]
pub struct UpdateArgs {
    /// Whether to say which files are compiled, and how much they assign.
    pub verbose: bool,
    /// Whether a text file that can't be read is left out.
    pub skip_unreadable: bool,
}

/// What the words of `query` ask for.
#[derive(Debug, Drop)]
pub struct QueryArgs {
    /// The device strings, one or more.
    pub devices: Vec<String>,
    /// Whether as JSON.
    pub json: bool,
}

/// What the words of `explain` ask for.
#[derive(Debug, Drop)]
pub struct ExplainArgs {
    /// The device string.
    pub device: String,
    /// Whether as JSON.
    pub json: bool,
}

/// What the words of `ask` ask for.
#[derive(Debug, Drop)]
pub struct AskArgs {
    /// The text file's path.
    pub file: String,
    /// The device string.
    pub device: String,
}

/// What the words of `list` ask for.
#[derive(Debug, Drop)]
pub struct ListArgs {
    /// The text of the position after which to begin.
    pub after: Option<String>,
    /// How many hits at most.
    pub limit: Option<u64>,
    /// The device string.
    pub device: String,
    /// Whether as JSON.
    pub json: bool,
}

/// What the words of `check` ask for.
#[derive(Debug, Drop)]
pub struct CheckArgs {
    /// The files' paths; none if the folders of text files are meant, or those of rules files.
    pub files: Vec<String>,
    /// Whether rules files are checked, and no text files.
    pub rules: bool,
    /// The names of the kinds of warnings that are left out.
    pub allowed: Vec<String>,
    /// Whether as JSON.
    pub json: bool,
    /// The name of the format, if one is given.
    pub format: Option<String>,
    /// Whether a patch of what can be mended surely is printed instead.
    pub diff: bool,
    /// The path that findings of standard input have, if one is given.
    pub name: Option<String>,
    /// The path of a file with findings that are let pass; none if each is told.
    pub baseline: Option<String>,
}

/// What the words of `test` ask for.
#[derive(Debug, Drop)]
pub struct TestArgs {
    /// The test files' paths, one or more.
    pub files: Vec<String>,
    /// The database's path; none if that of `/etc/udev` or `/usr/lib/udev` is meant.
    pub database: Option<String>,
    /// Whether as JSON.
    pub json: bool,
}

/// What the words of `test --record` ask for.
#[derive(Debug, Drop)]
pub struct RecordArgs {
    /// The device strings, one or more; a lone `-` stands for those of standard input.
    pub devices: Vec<String>,
    /// The database's path; none if that of `/etc/udev` or `/usr/lib/udev` is meant.
    pub database: Option<String>,
    /// Whether `--json` is given, which doesn't fit.
    pub json: bool,
}

/// What the words of `near` ask for.
#[derive(Debug, Drop)]
pub struct NearArgs {
    /// The text files' paths; none if the database is meant.
    pub files: Vec<String>,
    /// The device string.
    pub device: String,
    /// How many patterns that don't match at most; none if three are meant.
    pub limit: Option<u64>,
    /// Whether as JSON.
    pub json: bool,
}

/// What the words of `device` ask for.
#[derive(Debug, Drop)]
pub struct DeviceArgs {
    /// The device's path or name; none if the devices are listed.
    pub path: Option<String>,
    /// Whether the strings alone are printed.
    pub strings: bool,
    /// Whether as JSON.
    pub json: bool,
    /// Whether records to begin with are printed.
    pub pattern: bool,
    /// Whether the strings of all devices are printed.
    pub all: bool,
    /// The path of an export of udev's database, or `-` for standard input; none if sysfs is asked.
    pub from: Option<String>,
    /// Whose rules count: the machine's own ones, or those that are built in.
    pub udev: Option<String>,
    /// Whether what decides over each line that asks is printed.
    pub why: bool,
}

/// What the words of `diff` ask for.
#[derive(Debug, Drop)]
pub struct DiffArgs {
    /// The path of the old side; `-` is standard input.
    pub old: String,
    /// The path of the new one, in the same way.
    pub new: String,
    /// The paths of files that name devices; none if assignments are compared.
    pub devices: Vec<String>,
    /// How they are compared, and what is printed.
    pub review: ReviewArgs,
}

/// What the words of `diff` ask for besides its files.
#[derive(Debug, Drop)]
pub struct ReviewArgs {
    /// Whether as JSON.
    pub json: bool,
    /// Whether changes are counted by file and key.
    pub stat: bool,
    /// The name of the text's form, if one is given.
    pub format: Option<String>,
    /// Whether the changes that no device meets are told.
    pub verbose: bool,
    /// Whether devices are made of the patterns of both sides.
    pub samples: bool,
    /// The globs of the files that count; none if all do.
    pub only: Vec<String>,
    /// The globs of files that don't.
    pub without: Vec<String>,
    /// What the patterns that count begin with; none if all count.
    pub prefixes: Vec<String>,
}

/// How `diff` lays changes out as text.
#[derive(Debug, Clone, Copy)]
pub enum Layout {
    /// By record, or by device.
    Grouped,
    /// A line for each, with its pattern.
    Lines,
    /// A table of Markdown for each pattern, or for each device.
    Tables,
}

impl ReviewArgs {
    /// How text is laid out: the word after `--format`.
    pub fn layout(&self) -> Layout
        ensures { result ≡ (review_in self.now).layout }
    {
        let Some(name) = &self.format else {
            return Layout::Grouped;
        };
        match name.as_str() {
            "lines" => Layout::Lines,
            "markdown" => Layout::Tables,
            _ => Layout::Grouped,
        }
    }
}

/// What the words of `verify` ask for.
#[derive(Debug, Drop)]
pub struct VerifyArgs {
    /// The database's path, or `-` for standard input; none if that of `/etc/udev` or `/usr/lib/udev` is meant.
    pub database: Option<String>,
}

/// What the words of `dump` ask for.
#[derive(Debug, Drop)]
pub struct DumpArgs {
    /// The database's path, or `-` for standard input; none if that of `/etc/udev` or `/usr/lib/udev` is meant.
    pub database: Option<String>,
}

/// What the words of `status` ask for.
#[derive(Debug, Drop)]
pub struct StatusArgs {
    /// Whether as JSON.
    pub json: bool,
}

/// What the words of `keys` ask for.
#[derive(Debug, Drop)]
pub struct KeysArgs {
    /// Words, one of which a key's name has; none if all keys are meant.
    pub words: Vec<String>,
    /// Whether as JSON.
    pub json: bool,
}

/// What the words of `scan` ask for.
#[derive(Debug, Drop)]
pub struct ScanArgs {
    /// The device's node, its name or its path; `-` is standard input.
    pub device: String,
    /// How many keys are told; none if all of them are.
    pub count: Option<u64>,
}
