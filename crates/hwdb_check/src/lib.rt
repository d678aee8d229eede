//! Checks text files for errors and likely mistakes: what `check` prints. Each fault and each warning comes with its
//! line, the place in it and what to do about it. At the end comes how much was found. It writes no database.
//!
//! The faults are those that `update` prints. A warning is for a line that is read, but likely not as it was meant (our
//! choice). A file is read three times: for its assignments, for repeated match lines, and line by line for the
//! reports. Of a plain file only its assignments and the marks of comments are looked at.
//!
//! | Module | What it does |
//! |---|---|
//! | `runs` | bytes as runs, as they are shown |
//! | `places` | the place of a fault in its line |
//! | `reports` | what is printed of a fault |
//! | `line_faults` | the faults of a file, as its lines are read one after another |
//! | `line_texts` | the text of a line, by its number |
//! | `line_warnings` | which warnings a line gets, by its clean text |
//! | `mends` | what a pattern was likely meant to be that goes wrong |
//! | `fields` | what is nearly the name of a field of the machine |
//! | `misuses` | properties that don't fit what is known of properties |
//! | `judgements` | patterns that match no text that udev asks |
//! | `unread` | properties that aren't read below the patterns of their record |
//! | `companions` | properties that are read with others alone, which their patterns aren't given |
//! | `kinds` | the names of faults and warnings, and which warnings are told |
//! | `allowed` | comments that let kinds of warnings pass in their record |
//! | `left` | the warnings that comments leave, and names in comments that are no kinds |
//! | `annotations` | a finding as GitHub shows it beside its line |
//! | `findings` | what is found in a line, in each format |
//! | `fixes` | lines as they were likely meant, of which a warning is told |
//! | `fragile` | patterns that name the firmware of a machine beside its model |
//! | `logs` | findings as a log in SARIF |
//! | `repeats` | match lines that their record has already |
//! | `replacements` | assignments that a later line of the same file replaces |
//! | `known` | what is known of a file before its lines are read one by one |
//! | `plain_files` | files of whose lines only the marks of comments have to be looked at |
//! | `warnings` | the warnings of a file, and their reports |
//! | `too_long` | match lines that udev can't take, for `update --verbose` |
//! | `tallies` | how much was found: the last line, and the status |
//! | `baselines` | findings that are let pass since a baseline has them |
//! | `rules` | what is found in a rules file |
//! | `files` | files that are checked, one after another |
//! | `edits` | the lines of a file, some of which are mended |
//! | `edit_records` | the same, record by record |
//! | `among` | whether some findings are all among others |
//! | `sure` | which mends of a file are sure |
//! | `hunks` | a unified patch of a file |
//! | `patched` | the patch of text files, and what is said of some in a format |
//! | `laws` | what is proved of the definitions alone |
#![tactic(auto)]

mod allowed;
mod among;
mod annotations;
mod baselines;
mod companions;
mod edit_records;
mod edits;
mod fields;
mod files;
mod findings;
mod fixes;
mod fragile;
mod hunks;
mod judgements;
mod kinds;
mod known;
mod laws;
mod left;
mod line_faults;
mod line_texts;
mod line_warnings;
mod logs;
mod mends;
mod misuses;
mod patched;
mod places;
mod plain_files;
mod repeats;
mod replacements;
mod reports;
mod rules;
mod runs;
mod sure;
mod tallies;
mod too_long;
mod unread;
mod warnings;

pub use baselines::{BaselineFault, marks_in, wrong_text};
pub use files::{Checked, TextFile, check_files, reports_of};
pub use findings::{format_if, format_of};
pub use hwdb_show::push_shown;
pub use hwdb_spec_commands::{KINDS, RULE_KINDS};
pub use kinds::Telling;
pub use laws::{
    baselines_let_pass, comments_are_told, deep_lines_are_told, kinds_are_named,
    likelihood_is_judged, mends_are_likely, patches_are_sure, patterns_are_judged,
    rule_kinds_are_named,
};
pub use line_texts::{LineStart, find_line, first_start};
pub use patched::{Said, format_asked, say_files};
pub use rules::is_rules;
pub use tallies::push_count;
pub use too_long::push_too_long;
